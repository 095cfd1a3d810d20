//! How many bytes effects are written in. A count that would pass 2^64 - 1 stays there.
ghost use Rattle.std.specs.Prelude.{◌≡◌, ◌+◌, ◌*◌, ◌<◌, ◌^◌, nat_lt, length};
ghost use Rattle.dk_types.specs.declared.limits.TheConstants.{EFFECTS_MOST_BYTES};
ghost use Rattle.dk_model.specs.Effects.{effects_length, list_length, object_length, binding_length, name_length, pending_length};
ghost use Rattle.dk_txn.specs.Counting.{Counts};

use dk_types::limits::EFFECTS_MOST_BYTES;
use dk_types::{Effects, Name, Object, ObjectId, Pending};

/// The bytes of a count before a list.
const COUNT_BYTES: u64 = 4;

/// The bytes of an object beside its own: its id, its kind and its length.
const OBJECT_BYTES: u64 = 18;

/// The bytes of an id or of a task's key.
const ID_BYTES: u64 = 12;

/// The bytes of a pending task beside its argument: its key, two times, its kind and its length.
const PENDING_BYTES: u64 = 34;

/// The bytes of a task with its new due moment.
const MOVED_BYTES: u64 = 20;

fn objects_bytes(objects: &[(ObjectId, Object)]) -> u64
    ensures { Counts result (list_length object_length objects.now) }
{
    let mut bytes = COUNT_BYTES;
    for (_, object) in objects {
        let len = object.bytes.as_slice().len() as u64;
        bytes = bytes.saturating_add(OBJECT_BYTES + len);
    }
    bytes
}

fn bindings_bytes(bindings: &[(Name, ObjectId)]) -> u64
    ensures { Counts result (list_length binding_length bindings.now) }
{
    let mut bytes = COUNT_BYTES;
    for (name, _) in bindings {
        let len = name.as_slice().len() as u64;
        bytes = bytes.saturating_add(1 + len + ID_BYTES);
    }
    bytes
}

fn names_bytes(names: &[Name]) -> u64
    ensures { Counts result (list_length name_length names.now) }
{
    let mut bytes = COUNT_BYTES;
    for name in names {
        let len = name.as_slice().len() as u64;
        bytes = bytes.saturating_add(1 + len);
    }
    bytes
}

fn tasks_bytes(tasks: &[Pending]) -> u64
    ensures { Counts result (list_length pending_length tasks.now) }
{
    let mut bytes = COUNT_BYTES;
    for task in tasks {
        let len = task.arg.as_slice().len() as u64;
        bytes = bytes.saturating_add(PENDING_BYTES + len);
    }
    bytes
}

/// The bytes of a list of items that take as many each.
fn equal_bytes(count: usize, each: u64) -> u64
    requires { each < 2 ^ 8 }
    ensures { Counts result (4 + count * each) }
{
    (count as u64)
        .saturating_mul(each)
        .saturating_add(COUNT_BYTES)
}

/// How many bytes the seven lists are written in.
fn total_bytes(effects: &Effects) -> u64
    ensures { Counts result (effects_length effects.now) }
{
    let written = objects_bytes(effects.written.as_slice());
    let removed = equal_bytes(effects.removed.as_slice().len(), ID_BYTES);
    let bound = bindings_bytes(effects.bound.as_slice());
    let unbound = names_bytes(effects.unbound.as_slice());
    let added = tasks_bytes(effects.added.as_slice());
    let dropped = equal_bytes(effects.dropped.as_slice().len(), ID_BYTES);
    let requeued = equal_bytes(effects.requeued.as_slice().len(), MOVED_BYTES);
    let objects = written.saturating_add(removed);
    let with_bound = objects.saturating_add(bound);
    let with_names = with_bound.saturating_add(unbound);
    let with_added = with_names.saturating_add(added);
    let with_dropped = with_added.saturating_add(dropped);
    let total = with_dropped.saturating_add(requeued);
    total
}

/// Whether effects are written in more bytes than one run may have.
pub fn is_too_large(effects: &Effects) -> bool
    ensures { result ≡ nat_lt EFFECTS_MOST_BYTES (effects_length effects.now) }
{
    let total = total_bytes(effects);
    total > EFFECTS_MOST_BYTES
}
