//! Why nothing is reported.
ghost use Rattle.std.specs.Prelude.{◌≡◌};
ghost use Rattle.dk_reports.specs.Causes.{fault_of};
ghost use Rattle.dk_reports.specs.declared.fault.ReportFault.TheVariants.{DiskFault as FaultOfDisk, NoMemory as WantOfMemory};

use dk_recover::OpenFault;
use dk_types::{Failed, GameId, NoMemory, Side};
use thiserror::Error;

/// A report that was not written whole. But for `WriteFault`, nothing of it was written.
#[derive(Clone, Copy, Debug, Drop, PartialEq, Eq, Error)]
pub enum ReportFault {
    #[error("out of memory")]
    NoMemory,
    /// The home failed, and its count of faults rose.
    #[error("disk fault")]
    DiskFault,
    /// The sink failed, and its count of faults rose.
    #[error("write fault")]
    WriteFault,
    /// The file is no store from this place on.
    #[error("not a store, at byte {at} of file {side:?}")]
    NotAStore { side: Side, at: u64 },
    /// The store is of another game.
    #[error("the store is of another game")]
    WrongGame { found: GameId },
    /// The record of the gate at this place breaks a rule.
    #[error("damaged, at byte {at} of file {side:?}")]
    Damaged { side: Side, at: u64 },
}

impl From<NoMemory> for ReportFault {
    ghost from_gives = { λ _ e. e ≡ WantOfMemory };

    fn from(_: NoMemory) -> ReportFault {
        ReportFault::NoMemory
    }
}

impl From<Failed> for ReportFault {
    ghost from_gives = { λ _ e. e ≡ FaultOfDisk };

    fn from(_: Failed) -> ReportFault {
        ReportFault::DiskFault
    }
}

impl From<OpenFault> for ReportFault {
    ghost from_gives = { λ fault e. e ≡ fault_of fault };

    fn from(fault: OpenFault) -> ReportFault {
        match fault {
            OpenFault::NoMemory => ReportFault::NoMemory,
            OpenFault::DiskFault => ReportFault::DiskFault,
            OpenFault::NotAStore { side, at } => ReportFault::NotAStore { side, at },
            OpenFault::WrongGame { found } => ReportFault::WrongGame { found },
            OpenFault::Damaged { side, at } => ReportFault::Damaged { side, at },
        }
    }
}
