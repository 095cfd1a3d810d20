//! A map that finds its entries by a hash of their keys, for what is only looked up by key: an object by its id, a task by its key.
//!
//! A contract sees it as it sees an ordered map: a list of entries in the order of their keys, and `spare`, how many more fit
//! without memory. `reserve` makes room in advance. The hash is of keys that are numbers, which no client picks (`KeyHasher`).
#![tactic(auto)]

pub use hashed::HashedMap;
pub use key_hasher::KeyHasher;

pub mod hashed;
pub mod key_hasher;
