//! Why a script was not played to its end.
ghost use Rattle.std.specs.Prelude.{◌≡◌};
ghost use Rattle.dk_workers.specs.Faults.{early_end, main_end};

use crate::worked::Worked;
use dk_types::NoMemory;
use std::alloc::AllocError;
use thiserror::Error;

/// Why a script was not played to its end.
#[derive(Clone, Copy, Debug, Drop, PartialEq, Eq, Error)]
pub enum PlayFault {
    #[error("out of memory")]
    NoMemory,
    /// The home failed, and its count of faults rose.
    #[error("disk fault")]
    DiskFault,
    /// So many runs were claimed and committed, and something can still be run.
    #[error("the budget of {granted} claims is spent")]
    Budget { granted: u64 },
    /// The journal would have this length, which is too long.
    #[error("the journal would have {length} bytes")]
    JournalFull { length: u64 },
    /// A number is needed, and this is the next, which is none.
    #[error("every number is drawn, and {next} would be the next")]
    Exhausted { next: u64 },
}

impl From<NoMemory> for PlayFault {
    ghost use Rattle.std.specs.Prelude.{◌≡◌};
    ghost use Rattle.dk_workers.specs.declared.play.fault.PlayFault.TheVariants.{NoMemory as no_memory};

    ghost from_gives = { λ _ e. e ≡ no_memory };

    fn from(_: NoMemory) -> Self {
        PlayFault::NoMemory
    }
}

impl From<AllocError> for PlayFault {
    ghost use Rattle.std.specs.Prelude.{◌≡◌};
    ghost use Rattle.dk_workers.specs.declared.play.fault.PlayFault.TheVariants.{NoMemory as no_memory};

    ghost from_gives = { λ _ e. e ≡ no_memory };

    fn from(_: AllocError) -> Self {
        PlayFault::NoMemory
    }
}

/// By which fault a play ends where this was the answer of the workers, before the main pass works: by none where nothing was
/// left to run, or the budget was spent.
pub(crate) fn early_fault(worked: Worked) -> Option<PlayFault>
    ensures { result ≡ early_end worked }
{
    match worked {
        Worked::Idle | Worked::Spent { .. } => None,
        Worked::Exhausted { next } => Some(PlayFault::Exhausted { next }),
        Worked::DiskFault | Worked::Stopped { .. } => Some(PlayFault::DiskFault),
        Worked::JournalFull { length } => Some(PlayFault::JournalFull { length }),
        Worked::NoMemory => Some(PlayFault::NoMemory),
    }
}

/// What the main pass's answer is to a play: a stopped store is a fault of its disk.
pub(crate) fn end_of(worked: Worked) -> Result<(), PlayFault>
    ensures { result ≡ main_end worked }
{
    match worked {
        Worked::Idle => Ok(()),
        Worked::Spent { granted } => Err(PlayFault::Budget { granted }),
        Worked::Exhausted { next } => Err(PlayFault::Exhausted { next }),
        Worked::DiskFault | Worked::Stopped { .. } => Err(PlayFault::DiskFault),
        Worked::JournalFull { length } => Err(PlayFault::JournalFull { length }),
        Worked::NoMemory => Err(PlayFault::NoMemory),
    }
}
