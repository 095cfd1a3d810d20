//! How a member of a server's crew ended.
ghost use Rattle.std.specs.Prelude.{◌≡◌, ◌↔◌, None, Some, IsTrue};
ghost use Rattle.dk_types.specs.Faults.{HasRisen};
ghost use Rattle.dk_pump.specs.Places.{IsSoundPlaceEnd};
ghost use Rattle.darkstar.specs.Served.{HasWorkCause, IsSound, IsSoundDrain, IsCauseOfFault};

use dk_pump::{NoLink, PlaceEnd};
use dk_workers::{PlayFault, Worked};

/// Why a server came to an end that it was not to come to.
#[derive(Clone, Copy, Debug, Drop, PartialEq, Eq)]
pub enum ServeFault {
    NoMemory,
    /// The home failed, and its count of faults rose.
    DiskFault,
    /// The journal would have this length, which is too long.
    JournalFull { length: u64 },
    /// The listener or the spawner failed, and its count of faults rose.
    NetFault,
    /// A number is needed, and this is the next, which is none.
    Exhausted { next: u64 },
}

/// A fault, or none. One of the journal's or the numbers' end is one.
#[derive(Drop)]
pub(crate) struct Verdict {
    fault: Option<ServeFault>,
    pub(crate) ghost sound: { IsSound fault },
}

impl Verdict {
    /// It ended as it was to.
    pub(crate) fn good() -> Verdict
        ensures { result.fault ≡ None }
    {
        Verdict { fault: None }
    }

    /// There was no memory.
    pub(crate) fn no_memory() -> Verdict
        ensures { result.fault ≡ Some ServeFault.NoMemory }
    {
        Verdict {
            fault: Some(ServeFault::NoMemory),
        }
    }

    /// The listener or the spawner failed.
    pub(crate) fn net_fault() -> Verdict
        ensures { result.fault ≡ Some ServeFault.NetFault }
    {
        Verdict {
            fault: Some(ServeFault::NetFault),
        }
    }

    /// What the end of the first jobs is to the server, which has no budget.
    pub(crate) fn of_drain(drained: Result<(), PlayFault>) -> Verdict
        requires { IsSoundDrain drained }
    {
        let fault = match drained {
            Ok(()) => None,
            Err(PlayFault::Budget { .. } | PlayFault::NoMemory) => Some(ServeFault::NoMemory),
            Err(PlayFault::Exhausted { next }) => Some(ServeFault::Exhausted { next }),
            Err(PlayFault::DiskFault) => Some(ServeFault::DiskFault),
            Err(PlayFault::JournalFull { length }) => Some(ServeFault::JournalFull { length }),
        };
        Verdict { fault }
    }

    /// What a worker's answer is to the server, which has no budget.
    pub(crate) fn of_worker(worked: Worked) -> Verdict
        requires { HasWorkCause worked }
    {
        let fault = match worked {
            Worked::Idle => None,
            Worked::Spent { .. } | Worked::NoMemory => Some(ServeFault::NoMemory),
            Worked::Exhausted { next } => Some(ServeFault::Exhausted { next }),
            Worked::DiskFault | Worked::Stopped { .. } => Some(ServeFault::DiskFault),
            Worked::JournalFull { length } => Some(ServeFault::JournalFull { length }),
        };
        Verdict { fault }
    }

    /// What a place's end is to the server.
    pub(crate) fn of_place(end: PlaceEnd) -> Verdict
        requires { IsSoundPlaceEnd end }
    {
        match end {
            PlaceEnd::NoLink(NoLink::Over | NoLink::Ending) => Verdict::good(),
            PlaceEnd::NoLink(NoLink::Failed) => Verdict::net_fault(),
            PlaceEnd::Exhausted { next } => Verdict {
                fault: Some(ServeFault::Exhausted { next }),
            },
        }
    }

    /// The first of two faults.
    pub(crate) fn or(self, later: Verdict) -> Verdict
        ensures { result.fault ≡ None → (self.fault ≡ None) × (later.fault ≡ None) }
    {
        match self.fault {
            None => later,
            Some(_) => self,
        }
    }

    /// The fault.
    pub(crate) fn fault(&self) -> Option<ServeFault>
        ensures same { result ≡ self.now.fault }
        ensures sound { IsSound result }
    {
        self.fault
    }
}

/// How often a device had failed, before and after.
#[derive(Clone, Copy, Debug)]
pub(crate) struct Counts {
    pub(crate) before: u64,
    pub(crate) after: u64,
}

impl Counts {
    /// Whether the count rose.
    pub(crate) fn have_risen(self) -> bool
        ensures { IsTrue result ↔ HasRisen self.before self.after }
    {
        self.before < self.after || self.before == u64::MAX && self.after == u64::MAX
    }
}

/// The fault as it is told: one of a device where its count rose.
pub(crate) fn reported(
    fault: ServeFault,
    disk: Counts,
    listener: Counts,
    spawner: Counts,
) -> ServeFault
    requires sound { IsSound (Some fault) }
    ensures { IsCauseOfFault disk.before disk.after listener.before listener.after spawner.before spawner.after result }
{
    match fault {
        ServeFault::DiskFault if !disk.have_risen() => ServeFault::NoMemory,
        ServeFault::NetFault if !listener.have_risen() && !spawner.have_risen() => {
            ServeFault::NoMemory
        }
        fault => fault,
    }
}
