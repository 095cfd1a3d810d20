//! The formats of a store, which set how long a blob may be.

/// The most bytes of an object or of a task's argument in a store of format 1.
pub const FIRST_BLOB_MOST_BYTES: u32 = 65_535;

/// The most bytes of an object or of a task's argument in a store of format 2.
pub const SECOND_BLOB_MOST_BYTES: u32 = 1_048_576;

/// A format by its number.
pub trait StoreFormat {
    ghost use Rattle.std.specs.Prelude.{◌≡◌, ℕ};
    ghost use Rattle.dk_model.specs.Entries.{blob_most};

    ghost number: { ℕ };

    /// The most bytes of a blob.
    fn blob_most_bytes() -> u32
        ensures { result ≡ blob_most number };
}

/// Format 1, which is read.
pub struct FirstFormat;

impl StoreFormat for FirstFormat {
    ghost number = { 1 };

    fn blob_most_bytes() -> u32 {
        FIRST_BLOB_MOST_BYTES
    }
}

/// Format 2, which is read and written.
pub struct SecondFormat;

impl StoreFormat for SecondFormat {
    ghost number = { 2 };

    fn blob_most_bytes() -> u32 {
        SECOND_BLOB_MOST_BYTES
    }
}
