//! Messages to sessions.
ghost use Rattle.std.specs.Prelude.{◌≡◌, OnErr, IfErr};
ghost use Rattle.dk_model.specs.Records.{session_name};
ghost use Rattle.dk_model.specs.Platforms as platform;
ghost use Rattle.dk_txn.specs.Asks.{AsksOf};
ghost use Rattle.dk_txn.specs.Does.{Does, SameChanges};
ghost use Rattle.dk_txn.specs.Refusals.{refusal_fault};
ghost use Rattle.dk_refs.specs.RecordAsks.{IsOfRecord};
ghost use Rattle.dk_refs.specs.Telling.{TellsKindOf, TellsLengthIn, kind_under};

use crate::records::is_connected;
use dk_txn::{Refusal, Txn, View};
use dk_types::{Blob, Out, Session};
use std::alloc::Global;

/// A message to a session that is connected (`ClientSession.send`). The body is copied. Refuses 2, 3 and 10 of the
/// record, and then 1, 4, 8.
pub fn send<V: View>(
    alloc: Global,
    txn: &mut Txn<'_, V>,
    session: &Session,
    body: &Blob,
) -> Result<(), Refusal>
    ensures does { Does V.sights refusal_fault txn.old txn.new (platform.session_send session.now body.now) result }
    ensures asks { AsksOf (IsOfRecord txn.old.set txn.new.set (session_name session.now.name)) V.sights txn.old txn.new }
    ensures refused { OnErr result (SameChanges txn.old.set txn.new.set) }
    ensures kind { IfErr result (TellsKindOf txn.new.set (kind_under (session_name session.now.name))) }
    ensures length { IfErr result (TellsLengthIn txn.new.set body.now) }
{
    let connected = is_connected(alloc, txn, session)?;
    if !connected {
        return Err(Refusal::NameNotBound);
    }
    let copy = Blob::copy_of(alloc, body.as_slice())?;
    txn.send(session.conn, Out::Message(copy))
}
