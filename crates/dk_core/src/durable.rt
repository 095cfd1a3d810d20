//! The durable world in memory, with a stamp on each item: the number of the commit that wrote it last.
//!
//! A run reads it through `look`. A finished run is committed in three calls: `first_conflict` tells whether its reads
//! still stand, `reserve_for` makes the room, and `commit` then makes its effects and takes no memory. Who may run
//! what, and when, is the business of the core.

pub use conflicts::Conflict;
pub use copies::WorldCopy;
pub use look::WorldLook;
pub use world::StampedWorld;

pub mod commits;
pub mod conflicts;
pub mod copies;
pub mod listing;
pub mod look;
mod publish;
pub mod world;
