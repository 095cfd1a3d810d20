//! A lock whose value stands for one history of entries. Whoever calls it has a pass, whose front is the part of the history that it has seen.
//!
//! Each call has its place in that history: its new front begins with the old one and ends with the entries of this call, and both stand in
//! the contract after the lock is free. So a layer above can say what a call did to a value that other threads go on changing.
//! The value's own meaning, and what a call may do to it, come from the traits `Book` and `Step`. No clause says that a call gets its turn.
#![tactic(auto)]

mod book;
mod builder;
mod empty_step;
mod ghost_list;
mod guarded;
mod lending;
mod naming;
mod pass;
mod rule;
mod spinning;
mod turn;
mod watcher;

pub use book::{Book, Step};
pub use builder::TurnBuilder;
pub use empty_step::EmptyStep;
pub use ghost_list::{GhostList, Noting, NotingAll};
pub use naming::Naming;
pub use pass::{Pass, Waking};
pub use spinning::{pause, spin_then_lock};
pub use turn::{Turn, TurnRefused};
pub use watcher::Watcher;
