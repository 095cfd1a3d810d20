// The sessions that are recorded in a durable world.
ghost use Rattle.std.specs.Prelude.{◌≡◌, nat_lt, IfOk};
ghost use Rattle.std.specs.FinMap as map;
ghost use Rattle.dk_model.specs.Openings.{login_of as login_in, record_in, session_at};
ghost use Rattle.dk_model.specs.Records.{session_of};
ghost use Rattle.dk_model.specs.Validity.{next_of};
ghost use Rattle.dk_core.specs.StampedWorlds.{durable_of};

use crate::durable::StampedWorld;
use dk_model::SessionRecord;
use dk_records::SessionForm;
use dk_types::{Blob, ConnNo, Name, NoMemory, ObjectId, Session};
use dk_wire::{PayloadRefused, decode};
use std::alloc::Global;

/// The kind of the objects that are session records.
const SESSION_KIND: u16 = 0xFF01;

/// The login name of a name that is `$s.` and more.
fn login_of(alloc: Global, name: &Name) -> Result<Option<Name>, NoMemory>
    ensures { IfOk result (λ login. login ≡ login_in name.now) }
{
    let Some(login) = name.as_str().strip_prefix("$s.") else {
        return Ok(None);
    };
    if login.is_empty() {
        return Ok(None);
    }
    Ok(Some(Name::from_text(alloc, login)?))
}

/// The session's record that the bytes are, where they are one.
fn decode_record(alloc: Global, bytes: &Blob) -> Result<Option<SessionRecord>, NoMemory>
    ensures { IfOk result (λ found. found ≡ session_of bytes.now) }
{
    match decode::<SessionRecord, SessionForm>(alloc, bytes.as_slice()) {
        Ok(record) => Ok(Some(record)),
        Err(PayloadRefused::NotInGrammar { .. }) => Ok(None),
        Err(PayloadRefused::NoMemory) => Err(NoMemory),
    }
}

/// The record that the object under an id is, where there is one and it is a session's.
fn record_at(
    alloc: Global,
    world: &StampedWorld,
    id: ObjectId,
) -> Result<Option<SessionRecord>, NoMemory>
    ensures { IfOk result (λ found. found ≡ record_in (map.get (durable_of world.now).objects id)) }
{
    let Some((object, _)) = world.object(id) else {
        return Ok(None);
    };
    if object.kind != SESSION_KIND {
        return Ok(None);
    }
    decode_record(alloc, &object.bytes)
}

/// Whether a number was drawn up to the largest committed run.
fn is_drawn(world: &StampedWorld, conn: ConnNo) -> bool
    ensures { result ≡ nat_lt conn.0 (next_of world.now.last) }
{
    match world.last() {
        Some(last) => conn.0 <= last.0,
        None => false,
    }
}

/// The session that a bound name and its id record: that of the login name in the name, with the number in the record,
/// where the object under the id is a session's record and its number was drawn up to the largest committed run.
pub(crate) fn recorded_session(
    alloc: Global,
    world: &StampedWorld,
    name: &Name,
    id: ObjectId,
) -> Result<Option<Session>, NoMemory>
    ensures { IfOk result (λ session. session ≡ session_at (durable_of world.now) (login_in name.now) id) }
{
    let Some(login) = login_of(alloc, name)? else {
        return Ok(None);
    };
    let Some(record) = record_at(alloc, world, id)? else {
        return Ok(None);
    };
    if !is_drawn(world, record.conn) {
        return Ok(None);
    }
    Ok(Some(Session {
        name: login,
        conn: record.conn,
    }))
}
