//! The pending tasks of the world: a map from their keys whose room is made in advance, with the due task that comes
//! first found by an index.
//!
//! The core keeps its tasks here. A commit reserves before it writes, and what it then does needs no memory. A
//! contract sees a finite map and `spare`; the index is in no clause. Nothing here grants claims or runs a task.
#![tactic(auto)]

mod stored;
mod tasks;

pub use tasks::Tasks;
