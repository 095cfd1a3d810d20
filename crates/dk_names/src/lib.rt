//! The bound names of a world: each with the id that it is bound to and the number of the commit
//! that wrote it last, in the order of the names' bytes.
//!
//! The core keeps them here. `reserve` makes the room that a commit needs, and then neither `put`
//! nor `remove` takes memory.
#![tactic(auto)]

pub use names::Names;

pub mod names;
