//! The store of pending tasks: what a call costs where there are many entries.
//! Each figure is the nanoseconds of all timed calls together.

use crate::stores::{CALLS, ROUNDS, nanoseconds, scattered};
use dk_tasks::Tasks;
use dk_types::{Blob, Pending, RunNo, TaskKey};
use std::alloc::Global;
use std::time::{Clock, Instant};

/// What is timed. The calls that change a task look for it first.
#[derive(Clone, Copy, PartialEq, Eq)]
pub enum TaskCall {
    Put,
    Get,
    LeastDue,
    Requeue,
    Claim,
    Cancel,
}

/// The call of this word.
pub fn named(word: &str) -> Option<TaskCall> {
    match word {
        "tasks-put" => Some(TaskCall::Put),
        "tasks-get" => Some(TaskCall::Get),
        "tasks-least-due" => Some(TaskCall::LeastDue),
        "tasks-requeue" => Some(TaskCall::Requeue),
        "tasks-claim" => Some(TaskCall::Claim),
        "tasks-cancel" => Some(TaskCall::Cancel),
        _ => None,
    }
}

/// The nanoseconds of the calls on a store of so many tasks.
pub fn of_tasks<R: AllocGlobal + Clock>(rt: &R, call: TaskCall, entries: u64) -> Option<u64> {
    let alloc = rt.alloc();
    let mut tasks = tasks_of(alloc, entries)?;
    let mut spent: u64 = 0;
    for round in 0..ROUNDS {
        let keys = round_keys(alloc, call, round, entries)?;
        let fresh = pending_of(alloc, keys.as_slice())?;
        tasks.reserve(CALLS).ok()?;
        if call == TaskCall::Cancel {
            put_all(&mut tasks, fresh);
            let start = Instant::now(rt).ok()?;
            call_all(&mut tasks, call, keys.as_slice(), entries);
            spent = spent.saturating_add(nanoseconds(rt, &start)?);
            continue;
        }
        let start = Instant::now(rt).ok()?;
        if call == TaskCall::Put {
            put_all(&mut tasks, fresh);
        } else if call_all(&mut tasks, call, keys.as_slice(), entries) == 0 {
            return None;
        }
        spent = spent.saturating_add(nanoseconds(rt, &start)?);
        undo(&mut tasks, call, keys.as_slice());
    }
    Some(spent)
}

/// Tasks whose keys are even, due in the order of their keys.
fn tasks_of(alloc: Global, entries: u64) -> Option<Tasks> {
    let mut tasks = Tasks::new(alloc);
    tasks.reserve(entries.saturating_add(CALLS)).ok()?;
    for n in 0..entries {
        let at = scattered(n, entries).wrapping_mul(2);
        if tasks.spare() > 0 {
            tasks.put(pending(alloc, key(at)), n);
        }
    }
    Some(tasks)
}

fn key(number: u64) -> TaskKey {
    TaskKey {
        run: RunNo(number),
        k: 0,
    }
}

/// A task without an argument, due at the number of its run.
fn pending(alloc: Global, key: TaskKey) -> Pending {
    Pending {
        key,
        due: key.run.0,
        period: 1,
        kind: 0,
        arg: Blob::from_vec(Vec::new(alloc)),
    }
}

/// The keys of a round. For `put` and `cancel` they stand between the others.
fn round_keys(alloc: Global, call: TaskCall, round: u64, entries: u64) -> Option<Vec<TaskKey>> {
    let between = (call == TaskCall::Put || call == TaskCall::Cancel) as u64;
    let mut keys = Vec::new(alloc);
    for n in 0..CALLS {
        let at = scattered(round.wrapping_mul(CALLS).wrapping_add(n), entries);
        keys.push(key(at.wrapping_mul(2).wrapping_add(between)))
            .ok()?;
    }
    Some(keys)
}

fn pending_of(alloc: Global, keys: &[TaskKey]) -> Option<Vec<Pending>> {
    let mut fresh = Vec::new(alloc);
    for key in keys {
        fresh.push(pending(alloc, *key)).ok()?;
    }
    Some(fresh)
}

fn put_all(tasks: &mut Tasks, fresh: Vec<Pending>) {
    for task in fresh {
        if tasks.spare() > 0 {
            tasks.put(task, 0);
        }
    }
}

/// The calls, and how many found a task.
fn call_all(tasks: &mut Tasks, call: TaskCall, keys: &[TaskKey], entries: u64) -> u64 {
    let mut found: u64 = 0;
    for key in keys {
        if called(tasks, call, *key, entries) {
            found = found.saturating_add(1);
        }
    }
    found
}

/// One call, and whether it found a task. A moved task is due behind all others.
fn called(tasks: &mut Tasks, call: TaskCall, key: TaskKey, entries: u64) -> bool {
    match call {
        TaskCall::Get => return tasks.get(key).is_some(),
        TaskCall::LeastDue => return tasks.least_due(key.run.0).is_some(),
        TaskCall::Put | TaskCall::Requeue | TaskCall::Claim | TaskCall::Cancel => {}
    }
    if !tasks.contains_key(key) {
        return false;
    }
    match call {
        TaskCall::Requeue => tasks.requeue(key, key.run.0.saturating_add(entries)),
        TaskCall::Claim => tasks.set_claimed(key, true),
        TaskCall::Cancel => tasks.cancel(key),
        TaskCall::Put | TaskCall::Get | TaskCall::LeastDue => {}
    }
    true
}

/// Takes back what a round changed.
fn undo(tasks: &mut Tasks, call: TaskCall, keys: &[TaskKey]) {
    for key in keys {
        if !tasks.contains_key(*key) {
            continue;
        }
        match call {
            TaskCall::Put => tasks.cancel(*key),
            TaskCall::Requeue => tasks.requeue(*key, key.run.0),
            TaskCall::Claim => tasks.set_claimed(*key, false),
            TaskCall::Get | TaskCall::LeastDue | TaskCall::Cancel => {}
        }
    }
}
