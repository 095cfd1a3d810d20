// The effects of a finished run, made in the stores with no memory.
ghost use Rattle.std.specs.Prelude.{◌≡◌, ◌≤◌, length, map as list_map};
ghost use Rattle.dk_model.specs.Effects.{with_set, without_keys};
ghost use Rattle.dk_objects.specs.StampedObjects.{restamped};
ghost use Rattle.dk_tasks.specs.Tasks.{with_stamp, changed_at};
ghost use Rattle.dk_core.specs.Publishing.{stamped_entry, unclaimed_entry, with_due_at, objects_restamped, names_restamped, tasks_restamped};

use dk_names::Names;
use dk_objects::Objects;
use dk_tasks::Tasks;
use dk_types::{Effects, Item, Listed, Name, Object, ObjectId, Pending, TaskKey};

pub(crate) fn set_objects(objects: &mut Objects, written: Listed<(ObjectId, Object)>, stamp: u64)
    requires room { length written ≤ objects.old.spare }
    ensures { objects.new.objects ≡ with_set (list_map (stamped_entry stamp) written) objects.old.objects }
{
    for (id, object) in written.into_vec() {
        objects.put(id, object, stamp);
    }
}

pub(crate) fn remove_objects(objects: &mut Objects, removed: &[ObjectId])
    ensures { objects.new.objects ≡ without_keys removed.now objects.old.objects }
{
    for id in removed {
        objects.remove(*id);
    }
}

pub(crate) fn bind_names(names: &mut Names, bound: Listed<(Name, ObjectId)>, stamp: u64)
    requires room { length bound ≤ names.old.spare }
    ensures { names.new.names ≡ with_set (list_map (stamped_entry stamp) bound) names.old.names }
{
    for (name, id) in bound.into_vec() {
        names.put(name, id, stamp);
    }
}

pub(crate) fn unbind_names(names: &mut Names, unbound: &[Name])
    ensures { names.new.names ≡ without_keys unbound.now names.old.names }
{
    for name in unbound {
        names.remove(name);
    }
}

pub(crate) fn add_tasks(tasks: &mut Tasks, added: Listed<Pending>, stamp: u64)
    requires room { length added ≤ tasks.old.spare }
    ensures { tasks.new.tasks ≡ with_set (list_map (unclaimed_entry stamp) added) tasks.old.tasks }
{
    for task in added.into_vec() {
        tasks.put(task, stamp);
    }
}

pub(crate) fn drop_tasks(tasks: &mut Tasks, dropped: &[TaskKey])
    ensures { tasks.new.tasks ≡ without_keys dropped.now tasks.old.tasks }
{
    for key in dropped {
        tasks.remove(*key);
    }
}

/// Gives tasks their new due moments, in ms. Their stamps stay.
pub(crate) fn move_tasks(tasks: &mut Tasks, requeued: &[(TaskKey, u64)])
    ensures { tasks.new.tasks ≡ with_due_at requeued.now tasks.old.tasks }
{
    for (key, due) in requeued {
        tasks.requeue(*key, *due);
    }
}

/// Gives an object this stamp, but for the next one that will be written: it gets the stamp then.
fn restamp_object(
    objects: &mut Objects,
    id: ObjectId,
    written: &[(ObjectId, Object)],
    next: &mut usize,
    stamp: u64,
)
    ensures stamped { with_set (list_map (stamped_entry stamp) written.now) objects.new.objects ≡ restamped stamp id (with_set (list_map (stamped_entry stamp) written.now) objects.old.objects) }
    ensures spare { objects.new.spare ≡ objects.old.spare }
{
    match written.get(*next) {
        Some((other, _)) if *other == id => *next += 1,
        _ => objects.restamp(id, stamp),
    }
}

/// Gives a task this stamp, but for the next one that will be added: it gets the stamp then.
fn restamp_task(tasks: &mut Tasks, key: TaskKey, added: &[Pending], next: &mut usize, stamp: u64)
    ensures stamped { with_set (list_map (unclaimed_entry stamp) added.now) tasks.new.tasks ≡ changed_at (with_stamp stamp) key (with_set (list_map (unclaimed_entry stamp) added.now) tasks.old.tasks) }
    ensures spare { tasks.new.spare ≡ tasks.old.spare }
{
    match added.get(*next) {
        Some(task) if task.key == key => *next += 1,
        _ => tasks.restamp(key, stamp),
    }
}

/// Gives this stamp to what stands at each of the items, before the effects are made. Objects that are written and tasks
/// that are added get it as they are made, so that no tree is gone down for them twice, where items and effects have
/// them in one order.
pub(crate) fn restamp(
    objects: &mut Objects,
    names: &mut Names,
    tasks: &mut Tasks,
    items: &[Item],
    effects: &Effects,
    stamp: u64,
)
    ensures objects { with_set (list_map (stamped_entry stamp) effects.now.written) objects.new.objects ≡ objects_restamped stamp items.now (with_set (list_map (stamped_entry stamp) effects.now.written) objects.old.objects) }
    ensures names { names.new.names ≡ names_restamped stamp items.now names.old.names }
    ensures tasks { with_set (list_map (unclaimed_entry stamp) effects.now.added) tasks.new.tasks ≡ tasks_restamped stamp items.now (with_set (list_map (unclaimed_entry stamp) effects.now.added) tasks.old.tasks) }
    ensures object_room { objects.new.spare ≡ objects.old.spare }
    ensures name_room { names.new.spare ≡ names.old.spare }
    ensures task_room { tasks.new.spare ≡ tasks.old.spare }
{
    let written = effects.written.as_slice();
    let added = effects.added.as_slice();
    let mut next_object = 0;
    let mut next_task = 0;
    for item in items {
        match item {
            Item::Object(id) => restamp_object(objects, *id, written, &mut next_object, stamp),
            Item::Bound(name) => names.restamp(name, stamp),
            Item::NextAfter(_) => {}
            Item::Task(key) => restamp_task(tasks, *key, added, &mut next_task, stamp),
        }
    }
}
