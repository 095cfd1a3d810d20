//! The two files of a store.

/// A file of a store: `store.0` or `store.1`.
#[derive(Clone, Copy, Debug, PartialEq, Eq, PartialOrd, Ord)]
pub enum Side {
    Zero,
    One,
}
