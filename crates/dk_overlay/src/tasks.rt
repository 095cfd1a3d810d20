//! The tasks that a run has scheduled, taken away or moved.
ghost use Rattle.std.specs.Prelude.{◌≡◌, [], ◌∷◌, ◌++◌, IfOk, OnOk, OnErr, map as list_map};
ghost use Rattle.std.specs.FinMap as map;
ghost use Rattle.std.specs.Map.{keys_of};
ghost use Rattle.dk_types.specs.Values.{pending_of};
ghost use Rattle.dk_overlay.specs.declared.change.TaskChange.TheVariants.{Added};
ghost use Rattle.dk_overlay.specs.Changes.{removing, moving, settled};
ghost use Rattle.dk_overlay.specs.Picks.{picked, task_added, task_dropped, task_moved};

use crate::change::{Scheduled, TaskChange};
use crate::small_map::SmallMap;
use dk_types::{NoMemory, Pending, TaskKey};
use std::alloc::Global;
use std::marker::Model;

/// A change at each task that the run has touched.
pub struct TaskChanges {
    changes: SmallMap<TaskKey, TaskChange>,
}

impl Drop for TaskChanges {
    fn drop(self) {
        let TaskChanges { changes: _ } = self;
    }
}

impl Model for TaskChanges {
    ghost use Rattle.std.specs.FinMap as map;
    ghost use Rattle.dk_types.specs.Keys.{key_cmp};
    ghost use Rattle.dk_map.specs.AsMap.{map_of};
    ghost use Rattle.dk_map.specs.Entries.{IsOrdered};
    ghost use Rattle.dk_overlay.specs.declared.change.TaskChange.{TaskChange};
    ghost use Rattle.dk_overlay.specs.Codes.{key_code, task_change_code};

    ghost Value = { map.FinMap key_cmp TaskChange };

    ghost coded = { map.code key_code task_change_code };

    ghost view = { λ a. map_of key_cmp a.changes.entries };

    ghost invariant = { λ a. IsOrdered key_cmp a.changes.entries };
}

/// What the changes of tasks come to, each list in the order of the keys.
#[derive(Drop)]
pub struct TaskEffects {
    /// The tasks that were added.
    pub added: Vec<Pending>,
    /// Those that were pending before the run and no longer are.
    pub dropped: Vec<TaskKey>,
    /// Those that have another due moment than before, with it, in ms.
    pub requeued: Vec<(TaskKey, u64)>,
}

impl TaskEffects {
    /// Puts last what one more change comes to.
    fn add(&mut self, key: TaskKey, change: TaskChange) -> Result<(), NoMemory>
        ensures added { OnOk result (self.new.added.items ≡ self.old.added.items ++ list_map pending_of (picked task_added ((key, change) ∷ []))) }
        ensures dropped { OnOk result (self.new.dropped.items ≡ self.old.dropped.items ++ keys_of (picked task_dropped ((key, change) ∷ []))) }
        ensures requeued { OnOk result (self.new.requeued.items ≡ self.old.requeued.items ++ picked task_moved ((key, change) ∷ [])) }
    {
        match change {
            TaskChange::Added(task) => self.added.push(Pending {
                key,
                due: task.due,
                period: task.period,
                kind: task.kind,
                arg: task.arg,
            })?,
            TaskChange::Withdrawn => {}
            TaskChange::Dropped => self.dropped.push(key)?,
            TaskChange::Moved { from, to } => {
                if from != to {
                    self.requeued.push((key, to))?;
                }
            }
        }
        Ok(())
    }
}

impl TaskChanges {
    /// No changes. Takes no memory.
    pub fn new(alloc: Global) -> TaskChanges
        ensures { result ≡ map.empty }
    {
        TaskChanges {
            changes: SmallMap::new(alloc),
        }
    }

    /// Whether the task is pending, where the changes alone tell it. Of a moved task they do not: it is pending where it
    /// was before the run.
    pub fn settled(&self, key: TaskKey) -> Option<bool>
        ensures { result ≡ settled (map.get self.now key) }
    {
        TaskChange::settled(self.changes.get(&key))
    }

    /// Adds a task. Refused, it changes nothing.
    pub fn add(&mut self, key: TaskKey, task: Scheduled) -> Result<(), NoMemory>
        ensures ok { OnOk result (self.new ≡ map.insert self.old key (Added task)) }
        ensures err { OnErr result (self.new ≡ self.old) }
    {
        self.changes.reserve_for(&key)?;
        self.changes.insert(key, TaskChange::Added(task));
        Ok(())
    }

    /// Takes a task away. Refused, it changes nothing.
    pub fn remove(&mut self, key: TaskKey) -> Result<(), NoMemory>
        ensures ok { OnOk result (self.new ≡ map.insert self.old key (removing (map.get self.old key))) }
        ensures err { OnErr result (self.new ≡ self.old) }
    {
        self.changes.reserve_for(&key)?;
        let change = TaskChange::removed(self.changes.get(&key));
        self.changes.insert(key, change);
        Ok(())
    }

    /// Gives a task another due moment, in ms; `from` is the one before the run. Refused, it changes nothing.
    pub fn move_to(&mut self, key: TaskKey, from: u64, to: u64) -> Result<(), NoMemory>
        ensures ok { OnOk result (self.new ≡ map.insert self.old key (moving (map.get self.old key) from to)) }
        ensures err { OnErr result (self.new ≡ self.old) }
    {
        self.changes.reserve_for(&key)?;
        let change = TaskChange::moved(self.changes.get(&key), from, to)?;
        self.changes.insert(key, change);
        Ok(())
    }

    /// What the changes come to, in the order of the keys. The arguments are moved, not copied; without a change it
    /// takes no memory.
    pub fn into_effects(self, alloc: Global) -> Result<TaskEffects, NoMemory>
        ensures added { IfOk result (λ effects. effects.added.items ≡ list_map pending_of (picked task_added (map.entries self))) }
        ensures dropped { IfOk result (λ effects. effects.dropped.items ≡ keys_of (picked task_dropped (map.entries self))) }
        ensures requeued { IfOk result (λ effects. effects.requeued.items ≡ picked task_moved (map.entries self)) }
    {
        let TaskChanges { changes } = self;
        let mut effects = TaskEffects {
            added: Vec::new(alloc),
            dropped: Vec::new(alloc),
            requeued: Vec::new(alloc),
        };
        for (key, change) in changes.into_entries()? {
            effects.add(key, change)?;
        }
        Ok(effects)
    }
}
