//! The connections of the world: what waits at each to be run and to be handed, with the input that a claim takes first
//! found by an index.
//!
//! The core keeps its connections here. What a commit publishes needs no memory: its messages come as `Deliveries`, which
//! bring their room. A contract sees a finite map; the index is in no clause. Nothing here grants claims or runs an input.
#![tactic(auto)]

mod answers;
mod connections;
mod deliveries;
mod place;
mod queue;
mod stored_connection;

pub use answers::{Handed, PostRefused};
pub use connections::Connections;
pub use deliveries::Deliveries;
