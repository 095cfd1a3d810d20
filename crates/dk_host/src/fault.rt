//! Why a store or a host is not opened.
ghost use Rattle.std.specs.Prelude.{◌≡◌};
ghost use Rattle.dk_host.specs.declared.fault.OpenFault.TheVariants.{NoMemory as WantOfMemory};

use dk_types::{GameId, Side};
use std::fmt::Debug;
use thiserror::Error;

/// Why a store is not opened. But for `DiskFault`, both files are as they read before.
#[derive(Clone, Copy, Debug, Drop, PartialEq, Eq, Error)]
pub enum OpenFault {
    #[error("out of memory")]
    NoMemory,
    /// The home failed, and its count of faults rose.
    #[error("disk fault")]
    DiskFault,
    /// The file is no store from this place on.
    #[error("not a store, at byte {at} of file {side:?}")]
    NotAStore { side: Side, at: u64 },
    /// The store is of another game.
    #[error("the store is of another game")]
    WrongGame { found: GameId },
    /// The record of the gate at this place breaks a rule.
    #[error("damaged, at byte {at} of file {side:?}")]
    Damaged { side: Side, at: u64 },
    /// The store is of the older format, and the image of its world would have this length, which 32 bits do not hold.
    #[error("the image would have {length} bytes, more than 32 bits hold")]
    ImageTooLarge { length: u64 },
    /// The store is of the older format, and was written anew as often as its header can count.
    #[error("the store is in its last epoch, {epoch}")]
    EpochEnd { epoch: u64 },
}

/// A store or a host that was not opened. The home comes back.
#[derive(Debug, Drop, Error)]
#[error_bound(M: Debug)]
#[error("not opened: {fault}")]
pub struct OpenRefused<M> {
    pub home: M,
    pub fault: OpenFault,
}

impl<M> OpenRefused<M> {
    // For want of memory.
    pub(crate) fn no_memory(home: M) -> OpenRefused<M>
        ensures home { result.home ≡ home }
        ensures fault { result.fault ≡ WantOfMemory }
    {
        OpenRefused {
            home,
            fault: OpenFault::NoMemory,
        }
    }
}
