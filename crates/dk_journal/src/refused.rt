//! Why a journal refuses.

use thiserror::Error;

/// What a call on a journal refuses.
#[derive(Clone, Copy, Debug, Drop, PartialEq, Eq, Error)]
pub enum JournalRefused {
    /// The home failed, and its count of faults rose. The store is to be opened again.
    #[error("disk fault")]
    DiskFault,
    /// The journal would have this length, which is too long. Nothing was written.
    #[error("journal full at {length} bytes")]
    Full { length: u64 },
    /// The file's header has a wrong field at this place.
    #[error("not a store, at {at}")]
    NotAStore { at: u64 },
    /// The record of this gate, or the gate behind it, is past the file's end.
    #[error("damaged, at {at}")]
    Damaged { at: u64 },
    /// There was no memory. Nothing was written.
    #[error("out of memory")]
    NoMemory,
}
