//! The world from a list of what it holds, and back.
ghost use Rattle.std.specs.Prelude.{◌≡◌, false, Some, IfOk, map as list_map};
ghost use Rattle.std.specs.List.Sorted.{IsPermutation};
ghost use Rattle.std.specs.FinMap.{entries as entries_of, get as get_of};
ghost use Rattle.dk_types.specs.declared.number.TaskKey.{TaskKey as Key};
ghost use Rattle.dk_model.specs.Effects.{pending_of};
ghost use Rattle.dk_objects.specs.StampedObjects.{objects_of};
ghost use Rattle.dk_names.specs.Bindings.{ids_of};
ghost use Rattle.dk_tasks.specs.Tasks.{Kept, durable_tasks};
ghost use Rattle.dk_core.specs.StampedWorlds.{durable_of, HasStamps};
ghost use Rattle.dk_core.specs.Listings.{world_of, listed};

use crate::durable::copies::WorldCopy;
use crate::durable::publish::{add_tasks, bind_names, set_objects};
use crate::durable::world::StampedWorld;
use dk_names::Names;
use dk_objects::Objects;
use dk_tasks::Tasks;
use dk_types::{Durable, Name, NoMemory, Object, ObjectId, Pending};
use std::alloc::Global;

/// A copy of the objects in no order.
fn list_objects(objects: &Objects, alloc: Global) -> Result<Vec<(ObjectId, Object)>, NoMemory>
    ensures { IfOk result (λ list. IsPermutation list.items (entries_of (objects_of objects.now.objects))) }
{
    let mut list = Vec::new(alloc);
    for (id, stamped) in objects.unordered(alloc)? {
        list.push((*id, stamped.0.clone()?))?;
    }
    Ok(list)
}

/// A copy of the bound names in their order.
fn list_names(names: &Names, alloc: Global) -> Result<Vec<(Name, ObjectId)>, NoMemory>
    ensures { IfOk result (λ list. list.items ≡ entries_of (ids_of names.now.names)) }
{
    let mut list = Vec::new(alloc);
    for (name, binding) in names.entries(alloc)? {
        list.push((name.clone()?, binding.0))?;
    }
    Ok(list)
}

/// A copy of the pending tasks in the order of their keys.
fn list_tasks(tasks: &Tasks, alloc: Global) -> Result<Vec<Pending>, NoMemory>
    ensures { IfOk result (λ list. list.items ≡ list_map pending_of (entries_of (durable_tasks tasks.now.tasks))) }
{
    let mut list = Vec::new(alloc);
    for task in tasks.in_order(alloc)? {
        list.push(task.clone()?)?;
    }
    Ok(list)
}

impl StampedWorld {
    /// The world of a list. The stamp of each item is the number of commits.
    pub fn open(alloc: Global, durable: Durable) -> Result<StampedWorld, NoMemory>
        ensures world { IfOk result (λ w. durable_of w ≡ world_of durable) }
        ensures stamps { IfOk result (HasStamps (λ _. durable.commits)) }
        ensures unclaimed { IfOk result (λ w. (key : Key) (t : Kept) → get_of w.tasks key ≡ Some t → t.claimed ≡ false) }
    {
        let mut world = StampedWorld::new(alloc);
        world
            .objects
            .reserve(durable.objects.as_slice().len() as u64)?;
        world.names.reserve(durable.names.as_slice().len() as u64)?;
        world.tasks.reserve(durable.tasks.as_slice().len() as u64)?;
        set_objects(&mut world.objects, durable.objects, durable.commits);
        bind_names(&mut world.names, durable.names, durable.commits);
        add_tasks(&mut world.tasks, durable.tasks, durable.commits);
        world.commits = durable.commits;
        world.last = durable.last;
        Ok(world)
    }

    /// All bound names in their order, each with its id and stamp. Only the list itself takes memory.
    pub fn bound_names(&self, alloc: Global) -> Result<Vec<(&Name, &(ObjectId, u64))>, NoMemory>
        ensures { IfOk result (λ list. list_map (λ e. (e.0.now, e.1.now.0)) list.items ≡ entries_of (ids_of self.now.names)) }
    {
        self.names.entries(alloc)
    }

    /// A copy of the world, whose objects are in no order yet.
    pub fn copy(&self, alloc: Global) -> Result<WorldCopy, NoMemory>
        ensures { IfOk result (λ copy. copy ≡ listed (durable_of self.now)) }
    {
        Ok(WorldCopy {
            commits: self.commits,
            last: self.last,
            objects: list_objects(&self.objects, alloc)?,
            names: list_names(&self.names, alloc)?,
            tasks: list_tasks(&self.tasks, alloc)?,
        })
    }
}
