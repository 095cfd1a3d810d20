//! Why a call of a transaction was refused.
ghost use Rattle.std.specs.Prelude.{◌≡◌};
ghost use Rattle.dk_txn.specs.Refusals.{number_of};

use dk_types::NoMemory;
use std::alloc::AllocError;
use thiserror::Error;

/// Why a call was refused. Each refusal has a number, by which a run that gives up over it tells it.
#[derive(Clone, Copy, Debug, PartialEq, Eq, Error)]
pub enum Refusal {
    /// 1: the name is bound to nothing (`NameNotBoundException`).
    #[error("the name is bound to nothing")]
    NameNotBound,
    /// 2: there is no such object, or no such pending task (`ObjectNotFoundException`).
    #[error("there is no such object or task")]
    ObjectNotFound,
    /// 3: the object is of another kind; `found` is the one that it has.
    #[error("the object is of kind {found}")]
    WrongKind { found: u16 },
    /// 4: an object, an argument or a body has more than 1,048,576 bytes; `len` is how many.
    #[error("{len} bytes are too many")]
    TooLong { len: u64 },
    /// 5: a delay or a period is out of its limits.
    #[error("the delay or the period is out of its limits")]
    BadDelay,
    /// 6: a game may not touch names that begin with `$`, nor kinds from 0xFF00 on.
    #[error("the name or the kind is the platform's")]
    Reserved,
    /// 7: there was no memory.
    #[error("out of memory")]
    NoMemory,
    /// 8: the run has made, scheduled or sent as many as one run may (`TaskRejectedException`).
    #[error("the run has made, scheduled or sent as many as it may")]
    TooMany,
    /// 9: the name is bound already (`NameExistsException`).
    #[error("the name is bound already")]
    NameExists,
    /// 10: the bytes are none of a value of this type.
    #[error("the bytes are no value of this type")]
    BadBytes,
}

impl Refusal {
    /// The refusal's number.
    pub fn number(&self) -> u8
        ensures { result ≡ number_of self.now }
    {
        match self {
            Refusal::NameNotBound => 1,
            Refusal::ObjectNotFound => 2,
            Refusal::WrongKind { found: _ } => 3,
            Refusal::TooLong { len: _ } => 4,
            Refusal::BadDelay => 5,
            Refusal::Reserved => 6,
            Refusal::NoMemory => 7,
            Refusal::TooMany => 8,
            Refusal::NameExists => 9,
            Refusal::BadBytes => 10,
        }
    }
}

impl From<NoMemory> for Refusal {
    ghost use Rattle.dk_txn.specs.declared.refusal.Refusal.TheVariants as refusal;

    ghost from_gives = { λ _ e. e ≡ refusal.NoMemory };

    fn from(_: NoMemory) -> Refusal {
        Refusal::NoMemory
    }
}

impl From<AllocError> for Refusal {
    ghost use Rattle.dk_txn.specs.declared.refusal.Refusal.TheVariants as refusal;

    ghost from_gives = { λ _ e. e ≡ refusal.NoMemory };

    fn from(_: AllocError) -> Refusal {
        Refusal::NoMemory
    }
}
