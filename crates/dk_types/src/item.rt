//! What a run may ask of the world, what it is answered, and what a read saw.

use crate::name::Name;
use crate::number::{ObjectId, TaskKey};
use crate::object::Object;

/// Something that a run may ask for.
#[derive(Clone, Debug, Drop, PartialEq, Eq)]
pub enum Item {
    Object(ObjectId),
    Bound(Name),
    /// The least bound name above this one, or the first.
    NextAfter(Option<Name>),
    Task(TaskKey),
}

/// What the world answers. Each item has an absent form.
#[derive(Clone, Debug, Drop, PartialEq, Eq)]
pub enum Answer {
    NoObject,
    Object(Object),
    NoName,
    Named(ObjectId),
    Next(Option<Name>),
    NoTask,
    Task,
}

/// What a read saw, by which a commit tells whether the answer still stands.
#[derive(Clone, Debug, Drop, PartialEq, Eq)]
pub enum Seen {
    Absent,
    /// The number of the last commit that wrote the item.
    At(u64),
    Next(Option<Name>),
}

/// An answer, and what was seen of it.
#[derive(Clone, Debug, Drop, PartialEq, Eq)]
pub struct Read {
    pub answer: Answer,
    pub seen: Seen,
}
