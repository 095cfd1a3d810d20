//! Records that begin and end, on the platform's behalf.
ghost use Rattle.std.specs.Prelude.{◌≡◌, ℕ, List, OnErr, IfErr};
ghost use Rattle.dk_types.specs.declared.item.Item.TheVariants as ask;
ghost use Rattle.dk_types.specs.declared.mode.Mode.TheVariants as mode;
ghost use Rattle.dk_model.specs.Records.{session_name as named};
ghost use Rattle.dk_model.specs.Platforms as platform;
ghost use Rattle.dk_txn.specs.Asks.{Asks, AsksOf};
ghost use Rattle.dk_txn.specs.Does.{Does, SameChanges};
ghost use Rattle.dk_txn.specs.Refusals.{refusal_fault};
ghost use Rattle.dk_refs.specs.RecordAsks.{IsOfRecord};
ghost use Rattle.dk_refs.specs.Telling.{TellsKindOf, TellsLengthIn, kind_under};
ghost use Rattle.dk_sessions.specs.Openings as opening;

use dk_refs::own_records::own_record;
use dk_refs::recorded::{session_name, too_long};
use dk_refs::{Managed, SessionRecord};
use dk_txn::{Mode, Refusal, Txn, View};
use dk_types::{ConnNo, Listed, Name, Session};
use std::alloc::Global;

/// Records a session that has begun, on the platform's behalf, whoever calls. Refuses 4, 9, 8.
pub fn open_record<V: View>(
    alloc: Global,
    txn: &mut Txn<'_, V>,
    session: &Session,
) -> Result<(), Refusal>
    ensures does { Does V.sights refusal_fault txn.old txn.new (platform.open_record session.now) result }
    ensures asks { Asks (ask.Bound (named session.now.name)) V.sights txn.old txn.new }
    ensures refused { OnErr result (SameChanges txn.old.set txn.new.set) }
    ensures same_mode { txn.new.set.mode ≡ txn.old.set.mode }
    ensures length { IfErr result (TellsLengthIn txn.new.set (named session.now.name)) }
{
    let before = txn.set_mode(Mode::Platform);
    let end = new_record(alloc, txn, session);
    txn.set_mode(before);
    end
}

/// Takes away the record of a session that ends, and its binding, on the platform's behalf, whoever calls. Refuses 1,
/// also where another connection's number is recorded, and then 2, 3 and 10 of the record.
pub fn close_record<V: View>(
    alloc: Global,
    txn: &mut Txn<'_, V>,
    session: &Session,
) -> Result<(), Refusal>
    ensures does { Does V.sights refusal_fault txn.old txn.new (platform.close_record session.now) result }
    ensures asks { AsksOf (IsOfRecord txn.old.set txn.new.set (named session.now.name)) V.sights txn.old txn.new }
    ensures refused { OnErr result (SameChanges txn.old.set txn.new.set) }
    ensures same_mode { txn.new.set.mode ≡ txn.old.set.mode }
    ensures kind { IfErr result (TellsKindOf txn.new.set (kind_under (named session.now.name))) }
{
    let before = txn.set_mode(Mode::Platform);
    let end = take_record(alloc, txn, session);
    txn.set_mode(before);
    end
}

fn new_record<V: View>(
    alloc: Global,
    txn: &mut Txn<'_, V>,
    session: &Session,
) -> Result<(), Refusal>
    requires { txn.old.set.mode ≡ mode.Platform }
    ensures does { Does V.sights refusal_fault txn.old txn.new (platform.new_record session.now) result }
    ensures asks { Asks (ask.Bound (named session.now.name)) V.sights txn.old txn.new }
    ensures refused { OnErr result (SameChanges txn.old.set txn.new.set) }
    ensures length { IfErr result (TellsLengthIn txn.new.set (named session.now.name)) }
{
    let key = match session_name(alloc, &session.name)? {
        None => return Err(too_long(&session.name)),
        Some(key) => key,
    };
    match txn.binding(&key)? {
        Some(_) => Err(Refusal::NameExists),
        None => record_under(alloc, txn, &key, session.conn),
    }
}

/// Makes the record of a session that is on no channel, under a name.
fn record_under<V: View>(
    alloc: Global,
    txn: &mut Txn<'_, V>,
    key: &Name,
    conn: ConnNo,
) -> Result<(), Refusal>
    requires { txn.old.set.mode ≡ mode.Platform }
    ensures does { Does V.sights refusal_fault txn.old txn.new (opening.recording key.now conn) result }
    ensures asks { Asks (ask.Bound key.now) V.sights txn.old txn.new }
    ensures refused { OnErr result (SameChanges txn.old.set txn.new.set) }
    ensures length { (bytes : List ℕ) → IfErr result (TellsLengthIn txn.new.set bytes) }
{
    let session = SessionRecord {
        conn,
        channels: Listed::from_vec(Vec::new(alloc)),
    };
    let payload = session.encode(alloc)?;
    txn.create_bound(key, SessionRecord::KIND, payload)
}

fn take_record<V: View>(
    alloc: Global,
    txn: &mut Txn<'_, V>,
    session: &Session,
) -> Result<(), Refusal>
    requires { txn.old.set.mode ≡ mode.Platform }
    ensures does { Does V.sights refusal_fault txn.old txn.new (opening.taking session.now) result }
    ensures asks { AsksOf (IsOfRecord txn.old.set txn.new.set (named session.now.name)) V.sights txn.old txn.new }
    ensures refused { OnErr result (SameChanges txn.old.set txn.new.set) }
    ensures kind { IfErr result (TellsKindOf txn.new.set (kind_under (named session.now.name))) }
{
    let found = own_record(alloc, txn, session)?;
    match session_name(alloc, &session.name)? {
        None => Err(too_long(&session.name)),
        Some(key) => txn.unbind_and_remove(&key, found.0.id()),
    }
}
