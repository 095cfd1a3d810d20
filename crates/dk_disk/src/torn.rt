//! What a crash makes of the positions that no sync has reached.
ghost use Rattle.std.specs.Prelude.{◌≡◌};
ghost use Rattle.dk_disk.specs.declared.torn.CrashRefused.TheVariants.{NoMemory as WantOfMemory};

use dk_types::NoMemory;
use thiserror::Error;

/// Which image of a file a crash gives.
#[derive(Clone, Copy, Debug, PartialEq, Eq)]
pub enum Torn {
    /// The contents at the last sync that succeeded.
    Old,
    /// What a read gives.
    New,
    /// The least length, with 00 at each position that is not safe.
    Zeros,
    /// The greatest length, with FF at each position that is not safe.
    Ones,
}

/// Why `crash_at` gives no image.
#[derive(Clone, Copy, Debug, PartialEq, Eq, Error)]
pub enum CrashRefused {
    /// No call has that number. So many were made.
    #[error("no call has that number: {made} calls were made")]
    NoSuchCall { made: u64 },
    #[error("out of memory")]
    NoMemory,
}

impl From<NoMemory> for CrashRefused {
    ghost from_gives = { λ _ e. e ≡ WantOfMemory };

    fn from(_: NoMemory) -> Self {
        CrashRefused::NoMemory
    }
}
