//! Why a world has no image.
ghost use Rattle.std.specs.Prelude.{◌≡◌};
ghost use Rattle.dk_image.specs.declared.refused.ImageRefused.TheVariants.{NoMemory as WantOfMemory};

use dk_types::NoMemory;
use thiserror::Error;

/// A world that was not written as an image.
#[derive(Clone, Copy, Debug, PartialEq, Eq, Error)]
pub enum ImageRefused {
    /// The image would have this length, which 32 bits do not hold.
    #[error("the image would have {length} bytes, more than 32 bits hold")]
    TooLarge { length: u64 },
    #[error("out of memory")]
    NoMemory,
}

impl From<NoMemory> for ImageRefused {
    ghost from_gives = { λ _ e. e ≡ WantOfMemory };

    fn from(_: NoMemory) -> ImageRefused {
        ImageRefused::NoMemory
    }
}
