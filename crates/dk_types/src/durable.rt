//! What a store keeps, as lists, and what a commit changes of it.

use crate::blob::Blob;
use crate::listed::Listed;
use crate::name::Name;
use crate::number::{ObjectId, RunNo, TaskKey};
use crate::object::Object;

/// A pending task. `due` is a moment and `period` a span, in ms; a period of 0 marks a once-task.
#[derive(Clone, Debug, Drop, PartialEq, Eq)]
pub struct Pending {
    pub key: TaskKey,
    pub due: u64,
    pub period: u64,
    pub kind: u16,
    pub arg: Blob,
}

/// The durable world as lists, each strictly ascending by its id, name or key.
#[derive(Clone, Debug, Drop, PartialEq, Eq)]
pub struct Durable {
    pub commits: u64,
    /// The largest committed run.
    pub last: Option<RunNo>,
    pub objects: Listed<(ObjectId, Object)>,
    pub names: Listed<(Name, ObjectId)>,
    pub tasks: Listed<Pending>,
}

/// The net effects of a run, each list strictly ascending by its id, name or key.
#[derive(Clone, Debug, Drop, PartialEq, Eq)]
pub struct Effects {
    pub written: Listed<(ObjectId, Object)>,
    pub removed: Listed<ObjectId>,
    pub bound: Listed<(Name, ObjectId)>,
    pub unbound: Listed<Name>,
    pub added: Listed<Pending>,
    pub dropped: Listed<TaskKey>,
    /// Each task whose due moment changed, with the new one in ms.
    pub requeued: Listed<(TaskKey, u64)>,
}

/// A commit: its number, from 1, its run and its effects.
#[derive(Clone, Debug, Drop, PartialEq, Eq)]
pub struct Entry {
    pub seq: u64,
    pub run: RunNo,
    pub effects: Effects,
}
