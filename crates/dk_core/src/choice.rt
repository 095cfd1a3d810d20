// What a claim takes.

use dk_types::{ConnNo, TaskKey};

/// The first run, a task, or the first input of a connection.
#[derive(Clone, Copy, Debug, PartialEq, Eq)]
pub(crate) enum Choice {
    First,
    Task(TaskKey),
    Input(ConnNo),
}
