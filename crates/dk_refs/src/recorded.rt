//! The platform names of sessions, and what they are bound to.
ghost use Rattle.std.specs.Prelude.{◌≡◌, true, false, IfOk, MatchOption};
ghost use Rattle.dk_types.specs.declared.item.Item.TheVariants as ask;
ghost use Rattle.dk_model.specs.Records.{session_name as named, is_name_too_long};
ghost use Rattle.dk_txn.specs.Asks.{Asks};
ghost use Rattle.dk_txn.specs.Does.{Does, SameChanges};
ghost use Rattle.dk_txn.specs.Refusals.{refusal_fault, TellsLength};
ghost use Rattle.dk_refs.specs.Lookups as lookup;

use dk_txn::{Refusal, Txn, View};
use dk_types::limits::NAME_MOST_BYTES;
use dk_types::{Name, NoMemory, ObjectId};
use std::alloc::Global;

/// The platform name of a session's record, `$s.` and the login name; none where it would pass 255 bytes.
pub fn session_name(alloc: Global, name: &Name) -> Result<Option<Name>, NoMemory>
    ensures { IfOk result (λ key. MatchOption key (is_name_too_long (named name.now) ≡ true) (λ key. (key ≡ named name.now) × (is_name_too_long (named name.now) ≡ false))) }
{
    name.with_prefix(alloc, "$s.")
}

/// Whether the platform name of a login name would pass 255 bytes.
pub fn is_too_long(name: &Name) -> bool
    ensures { result ≡ is_name_too_long (named name.now) }
{
    name.as_slice().len() as u64 + 3 > NAME_MOST_BYTES
}

/// The refusal of a login name whose platform name would be too long.
pub fn too_long(name: &Name) -> Refusal
    ensures length { TellsLength (named name.now) result }
    ensures told { lookup.IsTooLong result }
{
    Refusal::TooLong {
        len: name.as_slice().len() as u64 + 3,
    }
}

/// The id of the record of a login name, where one is bound.
pub fn recorded<V: View>(
    alloc: Global,
    txn: &mut Txn<'_, V>,
    name: &Name,
) -> Result<Option<ObjectId>, Refusal>
    ensures does { Does V.sights refusal_fault txn.old txn.new (lookup.recorded name.now) result }
    ensures asks { Asks (ask.Bound (named name.now)) V.sights txn.old txn.new }
    ensures same_changes { SameChanges txn.old.set txn.new.set }
{
    match session_name(alloc, name)? {
        None => Ok(None),
        Some(key) => txn.binding(&key),
    }
}

/// Whether a login name has a record. Refuses 7 alone.
pub fn is_recorded<V: View>(
    alloc: Global,
    txn: &mut Txn<'_, V>,
    name: &Name,
) -> Result<bool, Refusal>
    ensures does { Does V.sights refusal_fault txn.old txn.new (lookup.is_recorded name.now) result }
    ensures asks { Asks (ask.Bound (named name.now)) V.sights txn.old txn.new }
    ensures same_changes { SameChanges txn.old.set txn.new.set }
{
    let id = recorded(alloc, txn, name)?;
    Ok(id.is_some())
}
