//! The calls that read a session's record.
ghost use Rattle.std.specs.Prelude.{◌≡◌, IfErr};
ghost use Rattle.dk_model.specs.Records.{session_name};
ghost use Rattle.dk_model.specs.Platforms as platform;
ghost use Rattle.dk_txn.specs.Asks.{AsksOf};
ghost use Rattle.dk_txn.specs.Does.{Does, SameChanges};
ghost use Rattle.dk_txn.specs.Refusals.{refusal_fault};
ghost use Rattle.dk_refs.specs.RecordAsks.{IsOfRecord};
ghost use Rattle.dk_refs.specs.Telling.{TellsKindOf, TellsLengthIn, kind_under};

use dk_refs::own_records::session_under;
use dk_refs::recorded::{is_too_long, recorded, too_long};
use dk_refs::{ManagedRef, SessionRecord};
use dk_txn::{Refusal, Txn, View};
use dk_types::{Name, Session};
use std::alloc::Global;

/// Whether the session is recorded with its number (`ClientSession.isConnected`). Refuses 2, 3 and 10 of the record.
pub fn is_connected<V: View>(
    alloc: Global,
    txn: &mut Txn<'_, V>,
    session: &Session,
) -> Result<bool, Refusal>
    ensures does { Does V.sights refusal_fault txn.old txn.new (platform.is_connected session.now) result }
    ensures asks { AsksOf (IsOfRecord txn.old.set txn.new.set (session_name session.now.name)) V.sights txn.old txn.new }
    ensures same_changes { SameChanges txn.old.set txn.new.set }
    ensures kind { IfErr result (TellsKindOf txn.new.set (kind_under (session_name session.now.name))) }
{
    match recorded(alloc, txn, &session.name)? {
        None => Ok(false),
        Some(id) => {
            let found = ManagedRef::<SessionRecord>::of(id).get(alloc, txn)?;
            Ok(found.conn.0 == session.conn.0)
        }
    }
}

/// The session that is recorded under a login name. Refuses 4, 1, and then 2, 3 and 10 of the record.
pub fn find<V: View>(alloc: Global, txn: &mut Txn<'_, V>, name: &Name) -> Result<Session, Refusal>
    ensures does { Does V.sights refusal_fault txn.old txn.new (platform.find_session name.now) result }
    ensures asks { AsksOf (IsOfRecord txn.old.set txn.new.set (session_name name.now)) V.sights txn.old txn.new }
    ensures same_changes { SameChanges txn.old.set txn.new.set }
    ensures kind { IfErr result (TellsKindOf txn.new.set (kind_under (session_name name.now))) }
    ensures length { IfErr result (TellsLengthIn txn.new.set (session_name name.now)) }
{
    if is_too_long(name) {
        return Err(too_long(name));
    }
    let found = session_under(alloc, txn, name)?;
    let copy = name.clone()?;
    Ok(Session {
        name: copy,
        conn: found.1.conn,
    })
}
