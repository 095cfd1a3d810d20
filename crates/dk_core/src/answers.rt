//! Why a call was refused.

use crate::durable::Conflict;
use dk_types::NoMemory;
use thiserror::Error;

/// Why a connection was not made. The first cause in this order is told.
#[derive(Clone, Copy, Debug, PartialEq, Eq, Error)]
pub enum ConnectRefused {
    /// Every number below 2^62 is drawn; `next` is the next one.
    #[error("every number is drawn, and {next} would be the next")]
    Exhausted { next: u64 },
    #[error("out of memory")]
    NoMemory,
}

/// Why nothing was claimed although something can be run. The first cause in this order is told.
#[derive(Clone, Copy, Debug, PartialEq, Eq, Error)]
pub enum ClaimRefused {
    /// The budget's claims are granted; `granted` is how many.
    #[error("the budget of {granted} claims is spent")]
    Spent { granted: u64 },
    /// Every number below 2^62 is drawn; `next` is the next one.
    #[error("every number is drawn, and {next} would be the next")]
    Exhausted { next: u64 },
    #[error("out of memory")]
    NoMemory,
}

/// Why a finished run can not be committed.
#[derive(Debug, Drop, PartialEq, Eq, Error)]
pub enum PrepareRefused {
    /// A read no longer stands: the first in the order of the reads, with what it saw and what is seen now. The job is to
    /// be run again.
    #[error("a read no longer stands: {0:?}")]
    Retry(Conflict),
    #[error("out of memory")]
    NoMemory,
}

impl From<NoMemory> for ConnectRefused {
    ghost use Rattle.std.specs.Prelude.{◌≡◌};
    ghost use Rattle.dk_core.specs.declared.answers.ConnectRefused.TheVariants as refused;

    ghost from_gives = { λ _ e. e ≡ refused.NoMemory };

    fn from(_: NoMemory) -> ConnectRefused {
        ConnectRefused::NoMemory
    }
}

impl From<NoMemory> for ClaimRefused {
    ghost use Rattle.std.specs.Prelude.{◌≡◌};
    ghost use Rattle.dk_core.specs.declared.answers.ClaimRefused.TheVariants as refused;

    ghost from_gives = { λ _ e. e ≡ refused.NoMemory };

    fn from(_: NoMemory) -> ClaimRefused {
        ClaimRefused::NoMemory
    }
}

impl From<NoMemory> for PrepareRefused {
    ghost use Rattle.std.specs.Prelude.{◌≡◌};
    ghost use Rattle.dk_core.specs.declared.answers.PrepareRefused.TheVariants as refused;

    ghost from_gives = { λ _ e. e ≡ refused.NoMemory };

    fn from(_: NoMemory) -> PrepareRefused {
        PrepareRefused::NoMemory
    }
}
