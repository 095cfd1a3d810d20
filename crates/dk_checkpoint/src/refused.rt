//! Why a store is not written anew.
ghost use Rattle.std.specs.Prelude.{◌≡◌};
ghost use Rattle.dk_checkpoint.specs.Refusals.{refusal_of};
ghost use Rattle.dk_checkpoint.specs.declared.refused.CheckpointRefused.TheVariants.{DiskFault as FaultOfDisk, NoMemory as WantOfMemory};

use dk_image::ImageRefused;
use dk_types::{Failed, NoMemory};
use thiserror::Error;

/// A store that was not written anew. But for `DiskFault`, nothing was written.
#[derive(Clone, Copy, Debug, PartialEq, Eq, Error)]
pub enum CheckpointRefused {
    /// The home failed, and its count of faults rose. The store is to be opened again.
    #[error("disk fault")]
    DiskFault,
    /// The image would have this length, which 32 bits do not hold.
    #[error("the image would have {length} bytes, more than 32 bits hold")]
    TooLarge { length: u64 },
    /// The store was written anew as often as its header can count.
    #[error("epochs exhausted at {epoch}")]
    EpochEnd { epoch: u64 },
    #[error("out of memory")]
    NoMemory,
}

impl From<Failed> for CheckpointRefused {
    ghost from_gives = { λ _ e. e ≡ FaultOfDisk };

    fn from(_: Failed) -> CheckpointRefused {
        CheckpointRefused::DiskFault
    }
}

impl From<NoMemory> for CheckpointRefused {
    ghost from_gives = { λ _ e. e ≡ WantOfMemory };

    fn from(_: NoMemory) -> CheckpointRefused {
        CheckpointRefused::NoMemory
    }
}

impl From<ImageRefused> for CheckpointRefused {
    ghost from_gives = { λ refused e. e ≡ refusal_of refused };

    fn from(refused: ImageRefused) -> CheckpointRefused {
        match refused {
            ImageRefused::TooLarge { length } => CheckpointRefused::TooLarge { length },
            ImageRefused::NoMemory => CheckpointRefused::NoMemory,
        }
    }
}
