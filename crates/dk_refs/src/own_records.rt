//! A session's own record, by its name and its connection's number.
ghost use Rattle.std.specs.Prelude.{◌≡◌, IfErr};
ghost use Rattle.dk_model.specs.Records.{session_name};
ghost use Rattle.dk_model.specs.Platforms as platform;
ghost use Rattle.dk_txn.specs.Asks.{AsksOf};
ghost use Rattle.dk_txn.specs.Does.{Does, SameChanges};
ghost use Rattle.dk_txn.specs.Refusals.{refusal_fault};
ghost use Rattle.dk_refs.specs.RecordAsks.{IsOfRecord};
ghost use Rattle.dk_refs.specs.Telling.{TellsKindOf, kind_under};

use crate::recorded::recorded;
use crate::reference::ManagedRef;
use dk_model::SessionRecord;
use dk_txn::{Refusal, Txn, View};
use dk_types::{Name, Session};
use std::alloc::Global;

/// The record of a login name, and the reference to it. Refuses 1, and then 2, 3 and 10 of the record.
pub fn session_under<V: View>(
    alloc: Global,
    txn: &mut Txn<'_, V>,
    name: &Name,
) -> Result<(ManagedRef<SessionRecord>, SessionRecord), Refusal>
    ensures does { Does V.sights refusal_fault txn.old txn.new (platform.session_under name.now) result }
    ensures asks { AsksOf (IsOfRecord txn.old.set txn.new.set (session_name name.now)) V.sights txn.old txn.new }
    ensures same_changes { SameChanges txn.old.set txn.new.set }
    ensures kind { IfErr result (TellsKindOf txn.new.set (kind_under (session_name name.now))) }
{
    match recorded(alloc, txn, name)? {
        None => Err(Refusal::NameNotBound),
        Some(id) => {
            let reference = ManagedRef::of(id);
            let session = reference.get(alloc, txn)?;
            Ok((reference, session))
        }
    }
}

/// The session's own record, and the reference to it. Refuses 1, also where another connection's number is recorded, and
/// then 2, 3 and 10 of the record.
pub fn own_record<V: View>(
    alloc: Global,
    txn: &mut Txn<'_, V>,
    session: &Session,
) -> Result<(ManagedRef<SessionRecord>, SessionRecord), Refusal>
    ensures does { Does V.sights refusal_fault txn.old txn.new (platform.own_record session.now) result }
    ensures asks { AsksOf (IsOfRecord txn.old.set txn.new.set (session_name session.now.name)) V.sights txn.old txn.new }
    ensures same_changes { SameChanges txn.old.set txn.new.set }
    ensures kind { IfErr result (TellsKindOf txn.new.set (kind_under (session_name session.now.name))) }
{
    let found = session_under(alloc, txn, &session.name)?;
    if found.1.conn.0 != session.conn.0 {
        return Err(Refusal::NameNotBound);
    }
    Ok(found)
}

/// The session's own record, and the reference to it, where the session is recorded with its number. Refuses 2, 3 and
/// 10 of the record.
pub fn record_if_connected<V: View>(
    alloc: Global,
    txn: &mut Txn<'_, V>,
    session: &Session,
) -> Result<Option<(ManagedRef<SessionRecord>, SessionRecord)>, Refusal>
    ensures does { Does V.sights refusal_fault txn.old txn.new (platform.record_if_connected session.now) result }
    ensures asks { AsksOf (IsOfRecord txn.old.set txn.new.set (session_name session.now.name)) V.sights txn.old txn.new }
    ensures same_changes { SameChanges txn.old.set txn.new.set }
    ensures kind { IfErr result (TellsKindOf txn.new.set (kind_under (session_name session.now.name))) }
{
    match recorded(alloc, txn, &session.name)? {
        None => Ok(None),
        Some(id) => {
            let reference = ManagedRef::of(id);
            let found: SessionRecord = reference.get(alloc, txn)?;
            if found.conn.0 == session.conn.0 {
                Ok(Some((reference, found)))
            } else {
                Ok(None)
            }
        }
    }
}
