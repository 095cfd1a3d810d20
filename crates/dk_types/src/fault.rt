//! How a run ends, and the two faults that any call may meet.

use std::alloc::{AllocError, AllocFailed};
use thiserror::Error;

/// There was no memory.
#[derive(Clone, Copy, Debug, PartialEq, Eq, Error)]
#[error("out of memory")]
pub struct NoMemory;

impl From<AllocError> for NoMemory {
    fn from(_: AllocError) -> Self {
        NoMemory
    }
}

impl<T: Drop> From<AllocFailed<T>> for NoMemory {
    fn from(_: AllocFailed<T>) -> Self {
        NoMemory
    }
}

/// An outer object, as a disk, a source or a sink, failed. Its own count of faults rose.
#[derive(Clone, Copy, Debug, PartialEq, Eq, Error)]
#[error("a disk, a stream or a listener failed")]
pub struct Failed;

/// Why a run failed.
#[derive(Clone, Copy, Debug, PartialEq, Eq)]
pub enum AppFault {
    /// A platform operation was refused, by its number.
    Refused(u8),
    /// The game gave up, by a code of its own.
    Game(u16),
    /// The effects of the run encode to more bytes than a run may have.
    TooLarge,
}

/// How a run ended. A failed run is committed too.
#[derive(Clone, Copy, Debug, PartialEq, Eq)]
pub enum Outcome {
    Ok,
    Fail(AppFault),
}
