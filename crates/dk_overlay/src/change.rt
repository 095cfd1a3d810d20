//! One change of a run, at one key.
ghost use Rattle.std.specs.Prelude.{◌≡◌, IfOk};
ghost use Rattle.std.specs.Option.{option_copied};
ghost use Rattle.dk_overlay.specs.Changes.{removing, moving, settled};

use dk_types::{Blob, NoMemory, Object};

/// What a key had before the run, and what it has now.
#[derive(Debug, Drop)]
pub struct Change<T> {
    pub before: Option<T>,
    pub after: Option<T>,
}

/// A task that the run scheduled, under its key. `due` is a moment and `period` a span, in ms.
#[derive(Debug, Drop)]
pub struct Scheduled {
    pub due: u64,
    pub period: u64,
    pub kind: u16,
    pub arg: Blob,
}

/// What a run did to a task.
#[derive(Debug, Drop)]
pub enum TaskChange {
    /// The run scheduled it, and it is pending.
    Added(Scheduled),
    /// The run scheduled it, and it is no longer pending.
    Withdrawn,
    /// It was pending before the run, and no longer is.
    Dropped,
    /// It was pending before the run, due at `from`, and is now due at `to`; moments in ms.
    Moved { from: u64, to: u64 },
}

/// A copy of an object.
pub fn copy_object(object: &Object) -> Result<Object, NoMemory>
    ensures { IfOk result (λ copy. copy ≡ object.now) }
{
    let bytes = object.bytes.clone()?;
    Ok(Object {
        kind: object.kind,
        bytes,
    })
}

/// A copy of what may be an object.
pub fn copy_value(value: &Option<Object>) -> Result<Option<Object>, NoMemory>
    ensures { IfOk result (λ copy. copy ≡ value.now) }
{
    match value {
        None => Ok(None),
        Some(object) => Ok(Some(copy_object(object)?)),
    }
}

/// A copy of a change of an object.
pub fn copy_change(change: &Change<Object>) -> Result<Change<Object>, NoMemory>
    ensures { IfOk result (λ copy. copy ≡ change.now) }
{
    let before = copy_value(&change.before)?;
    let after = copy_value(&change.after)?;
    Ok(Change { before, after })
}

impl TaskChange {
    /// Whether the task is pending, where its change alone tells it.
    pub(crate) fn settled(change: Option<&TaskChange>) -> Option<bool>
        ensures { result ≡ settled (option_copied change.entry) }
    {
        match change {
            None | Some(TaskChange::Moved { .. }) => None,
            Some(TaskChange::Added(_)) => Some(true),
            Some(TaskChange::Withdrawn | TaskChange::Dropped) => Some(false),
        }
    }

    /// The change after the task was taken away.
    pub(crate) fn removed(before: Option<&TaskChange>) -> TaskChange
        ensures { result ≡ removing (option_copied before.entry) }
    {
        match before {
            Some(TaskChange::Added(_) | TaskChange::Withdrawn) => TaskChange::Withdrawn,
            None | Some(TaskChange::Dropped | TaskChange::Moved { .. }) => TaskChange::Dropped,
        }
    }

    /// The change after the task got another due moment; `from` is the one before the run.
    pub(crate) fn moved(
        before: Option<&TaskChange>,
        from: u64,
        to: u64,
    ) -> Result<TaskChange, NoMemory>
        ensures { IfOk result (λ change. change ≡ moving (option_copied before.entry) from to) }
    {
        match before {
            None => Ok(TaskChange::Moved { from, to }),
            Some(TaskChange::Added(task)) => Ok(TaskChange::Added(Scheduled {
                due: to,
                period: task.period,
                kind: task.kind,
                arg: task.arg.clone()?,
            })),
            Some(TaskChange::Withdrawn) => Ok(TaskChange::Withdrawn),
            Some(TaskChange::Dropped) => Ok(TaskChange::Dropped),
            Some(TaskChange::Moved { from: first, to: _ }) => Ok(TaskChange::Moved {
                from: *first,
                to,
            }),
        }
    }
}
