//! Changes of the pending tasks.
ghost use Rattle.std.specs.Prelude.{◌≡◌, ◌≤◌, true, map as list_map, length, Ok, IfOk};
ghost use Rattle.dk_map.specs.Entries.{find, IsOrdered};
ghost use Rattle.dk_map.specs.AsMap.{map_of};
ghost use Rattle.dk_model.specs.Keys.{key_cmp};
ghost use Rattle.dk_model.specs.Effects.{task_of, with_moved};
ghost use Rattle.dk_recover.specs.Changes.{with_put, changed_by};
ghost use Rattle.dk_recover.specs.TaskChanges.{is_due_else, all_new, all_moved, is_task_change};

use crate::changes::{are_there, remove_all};
use dk_map::OrderedMap;
use dk_types::{Blob, Listed, NoMemory, Pending, TaskKey};
use std::marker::Model;

/// A pending task but for its key.
#[derive(Drop)]
pub(crate) struct Task {
    pub(crate) due: u64,
    pub(crate) period: u64,
    pub(crate) kind: u16,
    pub(crate) arg: Blob,
}

impl Model for Task {
    ghost use Rattle.dk_types.specs.Values.{Task as TaskValue};
    ghost use Rattle.dk_recover.specs.Worlds.{task_code};

    ghost Value = { TaskValue };

    ghost coded = { task_code };

    ghost view = { λ t. record { due = t.due; period = t.period; kind = t.kind; arg = t.arg } };
}

/// The pending tasks, by their keys.
pub(crate) type Tasks = OrderedMap<TaskKey, Task>;

/// Whether none of these tasks is there yet.
fn are_new(tasks: &Tasks, added: &[Pending]) -> bool
    ensures { result ≡ all_new tasks.now.entries added.now }
{
    added.iter().all(|task| !tasks.contains_key(&task.key))
}

/// Whether the task is there and due at another moment than this.
fn is_moved(tasks: &Tasks, key: &TaskKey, due: u64) -> bool
    ensures { result ≡ is_due_else (find key_cmp key.now tasks.now.entries) due }
{
    match tasks.get(key) {
        None => false,
        Some(task) => task.due != due,
    }
}

fn are_moved(tasks: &Tasks, moved: &[(TaskKey, u64)]) -> bool
    ensures { result ≡ all_moved tasks.now.entries moved.now }
{
    moved.iter().all(|(key, due)| is_moved(tasks, key, *due))
}

/// Puts tasks into their places. There is room for them.
pub(crate) fn add_all(tasks: &mut Tasks, added: Listed<Pending>)
    requires { length added ≤ tasks.old.spare }
    ensures { tasks.new.entries ≡ with_put key_cmp (list_map task_of added) tasks.old.entries }
{
    for task in added.into_vec() {
        let Pending {
            key,
            due,
            period,
            kind,
            arg,
        } = task;
        let value = Task {
            due,
            period,
            kind,
            arg,
        };
        tasks.insert(key, value);
    }
}

/// Gives tasks their new due moments.
fn move_all(tasks: &mut Tasks, moved: &[(TaskKey, u64)])
    requires { IsOrdered key_cmp tasks.old.entries }
    ensures moved { map_of key_cmp tasks.new.entries ≡ with_moved moved.now (map_of key_cmp tasks.old.entries) }
    ensures ordered { IsOrdered key_cmp tasks.new.entries }
{
    for (key, due) in moved {
        tasks.change(key, |task| task.due = *due);
    }
}

// Makes a change of the tasks, if it is one.
fn try_tasks(
    tasks: &mut Tasks,
    added: Listed<Pending>,
    dropped: &[TaskKey],
    moved: &[(TaskKey, u64)],
) -> Result<bool, NoMemory>
    requires { IsOrdered key_cmp tasks.old.entries }
    ensures fits { IfOk result (λ fits. fits ≡ is_task_change added dropped.now moved.now tasks.old.entries) }
    ensures tasks { result ≡ Ok true → map_of key_cmp tasks.new.entries ≡ with_moved moved.now (map_of key_cmp (changed_by key_cmp (list_map task_of added) dropped.now tasks.old.entries)) }
{
    if !are_new(tasks, added.as_slice()) || !are_there(tasks, dropped) {
        return Ok(false);
    }
    remove_all(tasks, dropped);
    if !are_moved(tasks, moved) {
        return Ok(false);
    }
    tasks.reserve(added.as_slice().len())?;
    add_all(tasks, added);
    move_all(tasks, moved);
    Ok(true)
}

/// Makes a change of the tasks, if it is one. Else the tasks are of no use any more, but that they are in order.
pub(crate) fn change_tasks(
    tasks: &mut Tasks,
    added: Listed<Pending>,
    dropped: &[TaskKey],
    moved: &[(TaskKey, u64)],
) -> Result<bool, NoMemory>
    requires { IsOrdered key_cmp tasks.old.entries }
    ensures fits { IfOk result (λ fits. fits ≡ is_task_change added dropped.now moved.now tasks.old.entries) }
    ensures tasks { result ≡ Ok true → map_of key_cmp tasks.new.entries ≡ with_moved moved.now (map_of key_cmp (changed_by key_cmp (list_map task_of added) dropped.now tasks.old.entries)) }
    ensures ordered { IsOrdered key_cmp tasks.new.entries }
{
    let made = try_tasks(tasks, added, dropped, moved);
    // The map tells that it is in order.
    let _ = tasks.len();
    made
}
