// How a task is kept, and where it stands among those that wait for a run.

use dk_types::{Pending, TaskKey};

/// A task with its stamp, and whether a claimed run has it.
#[derive(Drop)]
pub struct Stored {
    pub task: Pending,
    pub stamp: u64,
    pub claimed: bool,
}

/// The place of a task that no run has: the sooner ones come first, then those of lesser keys.
#[derive(Clone, Copy, PartialEq, Eq, PartialOrd, Ord)]
pub struct TaskRank {
    pub due: u64,
    pub key: TaskKey,
}

impl Stored {
    ghost use Rattle.std.specs.Prelude.{◌≡◌};
    ghost use Rattle.dk_tasks.specs.Places.{place_of};

    /// Where the task stands among those that no run has.
    pub fn place(&self) -> TaskRank
        ensures { result ≡ place_of self.now.task.key self.now }
    {
        TaskRank {
            due: self.task.due,
            key: self.task.key,
        }
    }
}
