//! Laws of a store's files: what they hold, at one moment and while they are written.
//!
//! Each is the contract of a function that does nothing. The layers above cite them: a file has one reading and one
//! world, bytes behind the closed gate do not count, one more record is its entries, and whatever a stop leaves of an
//! append or of a new file recovers to the world before it or after it.
#![tactic(auto)]

pub mod files;
pub mod stops;
