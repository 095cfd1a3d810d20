//! The numbers of runs, connections, objects and tasks.

/// The number of a run, drawn from the counter that connections share. Below 2^62.
#[derive(Clone, Copy, Debug, PartialEq, Eq, PartialOrd, Ord, Hash)]
pub struct RunNo(pub u64);

/// The number of a connection, drawn from the counter that runs share. Below 2^62.
#[derive(Clone, Copy, Debug, PartialEq, Eq, PartialOrd, Ord, Hash)]
pub struct ConnNo(pub u64);

/// An object's id: the run that made it, and its place among the objects of that run.
#[derive(Clone, Copy, Debug, PartialEq, Eq, PartialOrd, Ord, Hash)]
pub struct ObjectId {
    pub run: RunNo,
    pub k: u32,
}

/// A task's key: the run that scheduled it, and its place among the tasks of that run.
#[derive(Clone, Copy, Debug, PartialEq, Eq, PartialOrd, Ord, Hash)]
pub struct TaskKey {
    pub run: RunNo,
    pub k: u32,
}
