//! The durable world, kept in the stores.
ghost use Rattle.std.specs.Prelude.{◌≡◌};
ghost use Rattle.std.specs.Option.{option_copied, option_map};
ghost use Rattle.std.specs.FinMap as map;
ghost use Rattle.dk_model.specs.DurableWorlds.{empty_world};
ghost use Rattle.dk_model.specs.Effects.{pending_of};
ghost use Rattle.dk_model.specs.Picks.{pick_task};
ghost use Rattle.dk_model.specs.Worlds.{World};
ghost use Rattle.dk_tasks.specs.Tasks.{with_claim, changed_at};
ghost use Rattle.dk_tasks.specs.Due.{least_due as soonest, HasTasks, job_at};
ghost use Rattle.dk_core.specs.StampedWorlds.{nothing, durable_of, seen_now, HasStamps};

use dk_names::Names;
use dk_objects::Objects;
use dk_tasks::Tasks;
use dk_types::{Object, ObjectId, Pending, RunNo, TaskKey};
use std::alloc::Global;
use std::marker::Model;

/// The durable world, with the stamp of each item: the number of the commit that wrote it last, or how many commits there
/// were when the world was opened.
pub struct StampedWorld {
    pub(crate) objects: Objects,
    pub(crate) names: Names,
    pub(crate) tasks: Tasks,
    pub(crate) commits: u64,
    pub(crate) last: Option<RunNo>,
}

// Written out, so that a function which lets a world go proves one call and not the way down its trees.
impl Drop for StampedWorld {
    fn drop(self) {
        let StampedWorld {
            objects: _,
            names: _,
            tasks: _,
            commits: _,
            last: _,
        } = self;
    }
}

impl Model for StampedWorld {
    ghost use Rattle.dk_core.specs.StampedWorlds.{Stamped, stamped_code};

    ghost Value = { Stamped };

    ghost coded = { stamped_code };

    ghost view = { λ a. record { objects = a.objects.objects; names = a.names.names; tasks = a.tasks.tasks; commits = a.commits; last = a.last; room = record { objects = a.objects.spare; names = a.names.spare; tasks = a.tasks.spare } } };
}

impl StampedWorld {
    ghost use Rattle.dk_types.specs.declared.item.Item.{Item};

    /// The empty world. It takes no memory.
    pub fn new(alloc: Global) -> StampedWorld
        ensures nothing { result ≡ nothing }
        ensures empty { durable_of result ≡ empty_world }
        ensures stamps { HasStamps (λ _. 0) result }
    {
        StampedWorld {
            objects: Objects::new(alloc),
            names: Names::new(alloc),
            tasks: Tasks::new(alloc),
            commits: 0,
            last: None,
        }
    }

    /// How many runs are committed.
    pub fn commits(&self) -> u64
        ensures { result ≡ self.now.commits }
    {
        self.commits
    }

    /// The largest committed run.
    pub fn last(&self) -> Option<RunNo>
        ensures { result ≡ self.now.last }
    {
        self.last
    }

    /// How many tasks are pending.
    pub fn pending_len(&self) -> u64
        ensures { result ≡ map.len (durable_of self.now).tasks }
    {
        self.tasks.len()
    }

    /// The object under an id, and its stamp.
    pub fn object(&self, id: ObjectId) -> Option<(&Object, u64)>
        ensures { option_map (λ e. (e.0.now, e.1)) result ≡ map.get self.now.objects id }
    {
        self.objects.get(id)
    }

    /// The pending task at a key, claimed or not.
    pub fn task(&self, key: TaskKey) -> Option<&Pending>
        ensures { option_copied result ≡ option_map (λ kept. pending_of (key, kept.task)) (map.get self.now.tasks key) }
    {
        let Some((task, _)) = self.tasks.get(key) else {
            return None;
        };
        Some(task)
    }

    /// The task that comes first among those that no run has and whose due moment is at most `at`, in ms: the one of
    /// the least due moment, and among equal ones of the least key.
    pub fn least_due(&self, at: u64) -> Option<TaskKey>
        ensures least { result ≡ soonest at self.now.tasks }
        ensures picked { (w : World) → HasTasks w self.now.tasks at → pick_task w ≡ job_at self.now.tasks result }
    {
        self.tasks.least_due(at)
    }

    /// Marks whether a claimed run has a task, if it is pending. It takes no memory, and changes nothing that a read sees.
    pub fn set_claimed(&mut self, key: TaskKey, claimed: bool)
        ensures tasks { self.new ≡ record (self.old) { tasks = changed_at (with_claim claimed) key self.old.tasks } }
        ensures durable { durable_of self.new ≡ durable_of self.old }
        ensures seen { (item : Item) → seen_now self.new item ≡ seen_now self.old item }
    {
        self.tasks.set_claimed(key, claimed);
    }
}
