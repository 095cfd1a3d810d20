// The store.
ghost use Rattle.std.specs.Prelude.{◌≡◌, ◌+◌, ◌<◌, ◌≤◌, ◌↔◌, true, false, None, Some, Ok, IsTrue, IfOk, IfSome, OnOk, OnErr, map as list_map, if◌then◌else◌};
ghost use Rattle.std.specs.Option.{option_map};
ghost use Rattle.std.specs.FinMap as map;
ghost use Rattle.dk_model.specs.Effects.{pending_of, task_of};
ghost use Rattle.dk_model.specs.Picks.{pick_task};
ghost use Rattle.dk_model.specs.Worlds.{World};
ghost use Rattle.dk_tasks.specs.Tasks.{unclaimed, with_due, with_stamp, with_claim, changed_at, stamped, durable_tasks};
ghost use Rattle.dk_tasks.specs.Due.{least_due as soonest, HasTasks, job_at};
ghost use Rattle.dk_tasks.specs.Places.{IsMoved, IsMarked, IsVacated};
ghost use Rattle.dk_tasks.specs.declared.stored.Stored.{Stored};
ghost use Rattle.dk_map.specs.Entries.{find, put};
ghost use Rattle.dk_model.specs.Keys.{key_cmp};

use crate::stored::{Stored, TaskRank};
use dk_hashed::HashedMap;
use dk_map::OrderedMap;
use dk_types::{NoMemory, Pending, TaskKey};
use std::alloc::Global;
use std::marker::Model;

/// The pending tasks by their keys, and the places of those that no run has. The room that was made stays until the
/// store is dropped.
#[derive(Drop)]
pub struct Tasks {
    tasks: HashedMap<TaskKey, Stored>,
    places: OrderedMap<TaskRank, ()>,
}

impl Model for Tasks {
    ghost use Rattle.std.specs.Prelude.{◌-◌, ◌≤◌, min};
    ghost use Rattle.dk_tasks.specs.Tasks.{TaskStore, shown_code};
    ghost use Rattle.dk_tasks.specs.Places.{kept_tasks, held_count, IsInStep};

    ghost Value = { TaskStore };

    ghost coded = { shown_code };

    ghost view = { λ a. record { tasks = kept_tasks a.tasks.entries; spare = min a.tasks.spare (a.places.spare - held_count a.tasks.entries) } };

    ghost invariant = { λ a. IsInStep a.tasks.entries a.places.entries × (held_count a.tasks.entries ≤ a.places.spare) };
}

/// Gives a task another due moment, and tells the old one and whether a run has it. Its place is not moved.
fn set_due(tasks: &mut HashedMap<TaskKey, Stored>, key: TaskKey, due: u64) -> Option<(u64, bool)>
    ensures moved { IsMoved key due tasks.old.entries tasks.new.entries result }
    ensures spare { tasks.new.spare ≡ tasks.old.spare }
{
    tasks.change(&key, |stored| {
        let was = (stored.task.due, stored.claimed);
        stored.task.due = due;
        was
    })
}

/// Marks whether a claimed run has a task, and tells its due moment and how it was marked. Its place is not moved.
fn set_claim(
    tasks: &mut HashedMap<TaskKey, Stored>,
    key: TaskKey,
    claimed: bool,
) -> Option<(u64, bool)>
    ensures marked { IsMarked key claimed tasks.old.entries tasks.new.entries result }
    ensures spare { tasks.new.spare ≡ tasks.old.spare }
{
    tasks.change(&key, |stored| {
        let was = (stored.task.due, stored.claimed);
        stored.claimed = claimed;
        was
    })
}

/// Takes out the place of a task that another has replaced, if there was one and no run had it.
fn vacate(places: &mut OrderedMap<TaskRank, ()>, old: Option<Stored>)
    ensures { IsVacated old places.old.entries places.new.entries places.old.spare places.new.spare }
{
    let Some(old) = old else {
        return;
    };
    if old.claimed {
        return;
    }
    places.remove(&old.place());
}

impl Tasks {
    ghost use Rattle.dk_tasks.specs.Places.{kept_of};

    /// No tasks, which takes no memory.
    pub fn new(alloc: Global) -> Tasks
        ensures empty { result.tasks ≡ map.empty }
        ensures spare { result.spare ≡ 0 }
    {
        Tasks {
            tasks: HashedMap::new(alloc),
            places: OrderedMap::new(alloc),
        }
    }

    /// Makes room for `more` tasks. Where memory is refused nothing changes.
    pub fn reserve(&mut self, more: u64) -> Result<(), NoMemory>
        ensures tasks { self.new.tasks ≡ self.old.tasks }
        ensures room { OnOk result (more ≤ self.new.spare) }
        ensures kept { self.old.spare ≤ self.new.spare }
        ensures had_room { more ≤ self.old.spare → (self.new ≡ self.old) × (result ≡ Ok tt) }
        ensures refused { OnErr result (self.new ≡ self.old) }
    {
        let more = more as usize;
        // What a run has needs its place when it is given back.
        let held = self.tasks.len() - self.places.len();
        let Some(places) = more.checked_add(held) else {
            return Err(NoMemory);
        };
        // The map with more room comes first: `spare` is that of the other, so that a refusal leaves it.
        if self.tasks.spare() < self.places.spare() - held {
            self.places.reserve(places)?;
            self.tasks.reserve(more)?;
        } else {
            self.tasks.reserve(more)?;
            self.places.reserve(places)?;
        }
        Ok(())
    }

    /// How many more tasks fit without memory.
    pub fn spare(&self) -> u64
        ensures { result ≡ self.now.spare }
    {
        let held = self.tasks.len() - self.places.len();
        self.tasks.spare().min(self.places.spare() - held) as u64
    }

    /// How many tasks are pending.
    pub fn len(&self) -> u64
        ensures { result ≡ map.len self.now.tasks }
    {
        self.tasks.len() as u64
    }

    /// Whether no task is pending.
    pub fn is_empty(&self) -> bool
        ensures { IsTrue result ↔ (map.len self.now.tasks ≡ 0) }
    {
        self.tasks.is_empty()
    }

    /// Whether a task is pending at a key.
    pub fn contains_key(&self, key: TaskKey) -> bool
        ensures { result ≡ map.contains_key self.now.tasks key }
    {
        self.tasks.contains_key(&key)
    }

    /// The task at a key, claimed or not, and its stamp.
    pub fn get(&self, key: TaskKey) -> Option<(&Pending, u64)>
        ensures { option_map (λ found. (found.0.now, found.1)) result ≡ option_map (stamped key) (map.get self.now.tasks key) }
    {
        let Some(stored) = self.tasks.get(&key) else {
            return None;
        };
        Some((&stored.task, stored.stamp))
    }

    /// The task that comes first among those that no run has and whose due moment is at most `at`, in ms: the one of
    /// the least due moment, and among equal ones of the least key.
    pub fn least_due(&self, at: u64) -> Option<TaskKey>
        ensures least { result ≡ soonest at self.now.tasks }
        ensures picked { (w : World) → HasTasks w self.now.tasks at → pick_task w ≡ job_at self.now.tasks result }
    {
        let Some((place, _)) = self.places.first() else {
            return None;
        };
        if place.due > at {
            return None;
        }
        Some(place.key)
    }

    /// All tasks in the order of their keys. Only the list itself, and what sorts it, take memory.
    pub fn in_order(&self, alloc: Global) -> Result<Vec<&Pending>, NoMemory>
        ensures { IfOk result (λ list. list_map (λ task. task.now) list.items ≡ list_map pending_of (map.entries (durable_tasks self.now.tasks))) }
    {
        let entries = self.tasks.entries(alloc)?;
        let mut list = Vec::with_capacity(alloc, entries.len())?;
        for (_, stored) in entries {
            list.push(&stored.task)?;
        }
        Ok(list)
    }

    /// Puts a task at its key with the number of the commit that wrote it. It takes no memory, and one of `spare`
    /// where the key is new. At a key that is there the old task goes, and with it its stamp and its claim.
    pub fn put(&mut self, task: Pending, stamp: u64)
        requires room { map.get self.old.tasks task.key ≡ None → 0 < self.old.spare }
        ensures tasks { self.new.tasks ≡ map.insert self.old.tasks task.key (unclaimed (task_of task).1 stamp) }
        ensures spare { self.new.spare + (if map.contains_key self.old.tasks task.key then 0 else 1) ≡ self.old.spare }
    {
        let stored = Stored {
            task,
            stamp,
            claimed: false,
        };
        let place = stored.place();
        let old = self.tasks.insert(place.key, stored);
        vacate(&mut self.places, old);
        self.places.insert_new(place, ());
    }

    /// Takes a task out. What room there was stays, and mostly its own is spare from then on.
    pub fn cancel(&mut self, key: TaskKey)
        requires pending { map.contains_key self.old.tasks key ≡ true }
        ensures tasks { self.new.tasks ≡ map.remove self.old.tasks key }
        ensures spare { self.old.spare ≤ self.new.spare }
    {
        self.take(key);
    }

    /// Takes a task out, if it is pending. What room there was stays, and mostly its own is spare from then on.
    pub fn remove(&mut self, key: TaskKey)
        ensures tasks { self.new.tasks ≡ map.remove self.old.tasks key }
        ensures spare { self.old.spare ≤ self.new.spare }
    {
        self.take(key);
    }

    /// Moves a task to another due moment, in ms, if it is pending. It takes no memory, and the stamp stays: a task
    /// that is due again was not written.
    pub fn requeue(&mut self, key: TaskKey, due: u64)
        ensures tasks { self.new.tasks ≡ changed_at (with_due due) key self.old.tasks }
        ensures spare { self.new.spare ≡ self.old.spare }
    {
        let Some((was, held)) = set_due(&mut self.tasks, key, due) else {
            return;
        };
        if held {
            return;
        }
        self.places.remove(&TaskRank { due: was, key });
        self.places.insert(TaskRank { due, key }, ());
    }

    /// Gives a task another stamp, if it is pending. It takes no memory, and the task is not copied.
    pub fn restamp(&mut self, key: TaskKey, stamp: u64)
        ensures tasks { self.new.tasks ≡ changed_at (with_stamp stamp) key self.old.tasks }
        ensures spare { self.new.spare ≡ self.old.spare }
    {
        self.tasks.change(&key, |stored| stored.stamp = stamp);
    }

    /// Marks whether a claimed run has a task, if it is pending. It takes no memory.
    pub fn set_claimed(&mut self, key: TaskKey, claimed: bool)
        ensures tasks { self.new.tasks ≡ changed_at (with_claim claimed) key self.old.tasks }
        ensures spare { self.new.spare ≡ self.old.spare }
    {
        let Some((due, was)) = set_claim(&mut self.tasks, key, claimed) else {
            return;
        };
        if was == claimed {
            return;
        }
        let place = TaskRank { due, key };
        if claimed {
            self.places.remove(&place);
        } else {
            self.places.insert_new(place, ());
        }
    }

    /// Takes a task out, with its place, if there is one.
    fn take(&mut self, key: TaskKey) -> Option<Stored>
        ensures found { option_map kept_of result ≡ map.get self.old.tasks key }
        ensures same_key { IfSome result (λ stored. stored.task.key ≡ key) }
        ensures tasks { self.new.tasks ≡ map.remove self.old.tasks key }
        ensures spare { self.old.spare ≤ self.new.spare }
    {
        let Some((_, stored)) = self.tasks.remove(&key) else {
            return None;
        };
        if !stored.claimed {
            self.places.remove(&stored.place());
        }
        Some(stored)
    }
}
