//! The world on one thread: the durable world with its stamps, the connections and the claims, changed by the seven
//! events and by nothing else.
//!
//! A core stands for a history of the model. Each call leaves it standing for that history with the call's event at its
//! end, and a commit is refused exactly where something that the run read has changed since. What claims take is found
//! by indexes. Nothing here runs a job, locks or writes a disk.
#![tactic(auto)]

pub use answers::{ClaimRefused, ConnectRefused, PrepareRefused};
pub use claimed::Claimed;
pub use dk_connections::{Handed, PostRefused};
pub use durable::{Conflict, WorldCopy, WorldLook};
pub use prepared::Prepared;
pub use world::Core;

pub mod answers;
mod choice;
pub mod claimed;
mod claims;
mod commits;
pub mod durable;
mod events;
mod grants;
pub mod opening;
pub mod prepared;
mod rooms;
pub mod world;
