//! Why entries are not read.
ghost use Rattle.std.specs.Prelude.{◌≡◌};
ghost use Rattle.dk_commit_log.specs.declared.refused.LogRefused.TheVariants.{DiskFault as FaultOfDisk};

use dk_types::Failed;
use thiserror::Error;

/// Entries that were not read. The home is as it was.
#[derive(Clone, Copy, Debug, PartialEq, Eq, Error)]
pub enum LogRefused {
    /// The home failed, and its count of faults rose.
    #[error("disk fault")]
    DiskFault,
    #[error("out of memory")]
    NoMemory,
    /// What stands at this place of the file is no record of the commits that should come next.
    #[error("damaged at {at}")]
    Damaged { at: u64 },
}

impl From<Failed> for LogRefused {
    ghost from_gives = { λ _ e. e ≡ FaultOfDisk };

    fn from(_: Failed) -> LogRefused {
        LogRefused::DiskFault
    }
}
