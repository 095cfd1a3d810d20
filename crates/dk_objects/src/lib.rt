//! The managed objects of a world: each under its id, with the number of the commit that wrote it
//! last.
//!
//! The core keeps them here. `reserve` makes the room that a commit needs, and then neither `put`
//! nor `remove` takes memory.
#![tactic(auto)]

pub use objects::Objects;

pub mod objects;
