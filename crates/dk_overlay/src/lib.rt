//! What a run has read and changed: the reads in the order in which they were first made, the
//! changes of objects, names and tasks, what was written and what was sent.
//!
//! It knows no world: its contracts speak of the lists and maps that it keeps. `ReadWriteSet::into_effects` gives the net
//! effects of the changes. Where the reads come from, what a run may do and what it comes to in a world is
//! the business of `dk_txn`.
#![tactic(auto)]

pub use answers::{copy_answer, copy_name, object_of_answer, says_named, says_next, says_pending};
pub use change::{Change, Scheduled, TaskChange, copy_change, copy_object, copy_value};
pub use items::is_same_item;
pub use names::{NameChanges, NameEffects};
pub use objects::{ObjectChanges, ObjectEffects};
pub use read_write_set::{ReadWriteParts, ReadWriteSet};
pub use reads::Reads;
pub use tasks::{TaskChanges, TaskEffects};

pub mod answers;
pub mod change;
mod index;
pub mod items;
pub mod names;
pub mod objects;
pub mod read_write_set;
pub mod reads;
mod small_map;
pub mod tasks;
