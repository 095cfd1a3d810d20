//! Why a store is not opened.
ghost use Rattle.std.specs.Prelude.{◌≡◌};
ghost use Rattle.dk_recover.specs.declared.fault.OpenFault.TheVariants.{DiskFault as FaultOfDisk, NoMemory as WantOfMemory};

use dk_types::{Failed, GameId, NoMemory, Side};
use thiserror::Error;

/// What the files of a store may lack. Each but `NoMemory` and `DiskFault` is decided by their bytes, in this order.
#[derive(Clone, Copy, Debug, Drop, PartialEq, Eq, Error)]
pub enum OpenFault {
    #[error("out of memory")]
    NoMemory,
    /// The home failed, and its count of faults rose.
    #[error("disk fault")]
    DiskFault,
    /// The file is no store from this place on.
    #[error("not a store, at byte {at} of file {side:?}")]
    NotAStore { side: Side, at: u64 },
    /// The store is of another game.
    #[error("the store is of another game")]
    WrongGame { found: GameId },
    /// The record of the gate at this place breaks a rule.
    #[error("damaged, at byte {at} of file {side:?}")]
    Damaged { side: Side, at: u64 },
}

impl From<NoMemory> for OpenFault {
    ghost from_gives = { λ _ e. e ≡ WantOfMemory };

    fn from(_: NoMemory) -> OpenFault {
        OpenFault::NoMemory
    }
}

impl From<Failed> for OpenFault {
    ghost from_gives = { λ _ e. e ≡ FaultOfDisk };

    fn from(_: Failed) -> OpenFault {
        OpenFault::DiskFault
    }
}
