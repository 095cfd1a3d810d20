//! A world in memory as lists.
ghost use Rattle.std.specs.Prelude.{◌≡◌, map as list_map, IfOk};
ghost use Rattle.dk_types.specs.declared.number.TaskKey.{TaskKey as Key};
ghost use Rattle.dk_types.specs.Values.{Task as TaskValue};
ghost use Rattle.dk_model.specs.Effects.{pending_of};

use crate::tasks::{Task, Tasks};
use dk_map::OrderedMap;
use dk_types::{Name, NoMemory, Object, ObjectId, Pending, TaskKey};
use std::alloc::Global;

/// A copy of the objects in the order of their ids.
pub(crate) fn list_objects(
    alloc: Global,
    objects: &OrderedMap<ObjectId, Object>,
) -> Result<Vec<(ObjectId, Object)>, NoMemory>
    ensures { IfOk result (λ list. list.items ≡ objects.now.entries) }
{
    let mut list = Vec::new(alloc);
    for (id, object) in objects.entries(alloc)? {
        list.push((*id, object.clone()?))?;
    }
    Ok(list)
}

/// A copy of the bound names in their order.
pub(crate) fn list_names(
    alloc: Global,
    names: &OrderedMap<Name, ObjectId>,
) -> Result<Vec<(Name, ObjectId)>, NoMemory>
    ensures { IfOk result (λ list. list.items ≡ names.now.entries) }
{
    let mut list = Vec::new(alloc);
    for (name, id) in names.entries(alloc)? {
        list.push((name.clone()?, *id))?;
    }
    Ok(list)
}

// A pending task with its key.
fn pending(key: TaskKey, task: &Task) -> Result<Pending, NoMemory>
    ensures { IfOk result (λ made. made ≡ pending_of (key, task.now)) }
{
    Ok(Pending {
        key,
        due: task.due,
        period: task.period,
        kind: task.kind,
        arg: task.arg.clone()?,
    })
}

/// A copy of the pending tasks in the order of their keys.
pub(crate) fn list_tasks(alloc: Global, tasks: &Tasks) -> Result<Vec<Pending>, NoMemory>
    ensures { IfOk result (λ list. list.items ≡ list_map pending_of tasks.now.entries) }
{
    let mut list = Vec::new(alloc);
    for (key, task) in tasks.entries(alloc)? {
        list.push(pending(*key, task)?)?;
    }
    Ok(list)
}
