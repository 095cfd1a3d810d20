//! Why a game stops.
ghost use Rattle.std.specs.Prelude.{◌≡◌};

use dk_txn::Refusal;
use dk_types::{AppFault, NoMemory};
use std::alloc::{AllocError, AllocFailed};
use thiserror::Error;

/// Why a game stops: a fault, which its run tells, or want of memory, of which nothing is told.
#[derive(Clone, Copy, Debug, PartialEq, Eq, Error)]
pub enum Halt {
    #[error("the run fails: {0:?}")]
    Fault(AppFault),
    #[error("out of memory")]
    NoMemory,
}

impl From<Refusal> for Halt {
    ghost use Rattle.dk_txn.specs.Refusals.{refusal_fault};
    ghost use Rattle.dk_game.specs.Halted.{halt_fault};

    ghost from_gives = { λ refusal halt. halt_fault halt ≡ refusal_fault refusal };

    fn from(refusal: Refusal) -> Halt {
        match refusal {
            Refusal::NameNotBound => Halt::Fault(AppFault::Refused(1)),
            Refusal::ObjectNotFound => Halt::Fault(AppFault::Refused(2)),
            Refusal::WrongKind { found: _ } => Halt::Fault(AppFault::Refused(3)),
            Refusal::TooLong { len: _ } => Halt::Fault(AppFault::Refused(4)),
            Refusal::BadDelay => Halt::Fault(AppFault::Refused(5)),
            Refusal::Reserved => Halt::Fault(AppFault::Refused(6)),
            Refusal::NoMemory => Halt::NoMemory,
            Refusal::TooMany => Halt::Fault(AppFault::Refused(8)),
            Refusal::NameExists => Halt::Fault(AppFault::Refused(9)),
            Refusal::BadBytes => Halt::Fault(AppFault::Refused(10)),
        }
    }
}

impl From<NoMemory> for Halt {
    ghost use Rattle.dk_game.specs.declared.halt.Halt.TheVariants as halt;

    ghost from_gives = { λ _ h. h ≡ halt.NoMemory };

    fn from(_: NoMemory) -> Halt {
        Halt::NoMemory
    }
}

impl From<AllocError> for Halt {
    ghost use Rattle.dk_game.specs.declared.halt.Halt.TheVariants as halt;

    ghost from_gives = { λ _ h. h ≡ halt.NoMemory };

    fn from(_: AllocError) -> Halt {
        Halt::NoMemory
    }
}

impl<T: Drop> From<AllocFailed<T>> for Halt {
    ghost use Rattle.dk_game.specs.declared.halt.Halt.TheVariants as halt;

    ghost from_gives = { λ _ h. h ≡ halt.NoMemory };

    fn from(_: AllocFailed<T>) -> Halt {
        Halt::NoMemory
    }
}
