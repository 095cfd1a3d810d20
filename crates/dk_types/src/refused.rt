//! Why what is left does not begin with a field.

use thiserror::Error;

/// Why a field could not be taken, or why bytes are left.
#[derive(Clone, Copy, Debug, PartialEq, Eq, Error)]
pub enum WireRefused {
    /// A number, or the bytes after a length, need `need` bytes and only `have` are left.
    #[error("cut off: {need} bytes are needed and {have} are left")]
    Short { need: u64, have: u64 },
    /// Bytes are left where none may be; `at` is the place of the first.
    #[error("bytes are left, the first at byte {at}")]
    Extra { at: u64 },
    /// A name's length is 0, its bytes are not UTF-8, or an id's run is 2^62 or more. `tag` is the byte at `at`.
    #[error("the byte {tag} may not stand at byte {at}")]
    BadTag { at: u64, tag: u8 },
    /// A blob's length is above its limit.
    #[error("a length is above its limit")]
    TooLong,
    #[error("out of memory")]
    NoMemory,
}
