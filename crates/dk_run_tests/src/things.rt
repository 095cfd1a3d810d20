//! Typed references to a thing, a managed object of SwordWorld's that is a text.

use crate::said;
use crate::view::Counting;
use dk_refs::{ManagedRef, SessionRecord};
use dk_rows::Words;
use dk_txn::{Refusal, Txn};
use dk_types::{ConnNo, Listed};
use std::alloc::Global;
use sword_world::Thing;

/// What a call on a game's things answers, as rows have it.
pub fn answer(alloc: Global, txn: &mut Txn<'_, Counting>, call: &mut Words<'_>) -> Option<String> {
    match call.word()? {
        "create" => created(alloc, txn, call),
        "get" => read(alloc, thing(call)?.get(alloc, txn)),
        "get-for-update" => read(alloc, thing(call)?.get_for_update(alloc, txn)),
        "mark" => said::done(alloc, thing(call)?.mark_for_update(txn)),
        "save" => saved(alloc, txn, call),
        "remove" => said::done(alloc, thing(call)?.remove(txn)),
        "get-session" => read_session(alloc, txn, call),
        "save-session" => saved_session(alloc, txn, call),
        _ => None,
    }
}

fn thing(call: &mut Words<'_>) -> Option<ManagedRef<Thing>> {
    Some(ManagedRef::of(said::id(call)?))
}

fn thing_of(alloc: Global, call: &mut Words<'_>) -> Option<Thing> {
    let description = said::name(alloc, call)?;
    Some(Thing { description })
}

/// The text of a thing.
fn read(alloc: Global, answer: Result<Thing, Refusal>) -> Option<String> {
    said::a_name(alloc, answer.map(|thing| Some(thing.description)))
}

fn created(alloc: Global, txn: &mut Txn<'_, Counting>, call: &mut Words<'_>) -> Option<String> {
    let thing = thing_of(alloc, call)?;
    match ManagedRef::create(alloc, txn, &thing) {
        Ok(made) => said::id_text(alloc, made.id()),
        Err(refusal) => said::refused(alloc, refusal),
    }
}

fn saved(alloc: Global, txn: &mut Txn<'_, Counting>, call: &mut Words<'_>) -> Option<String> {
    let known = thing(call)?;
    let thing = thing_of(alloc, call)?;
    said::done(alloc, known.save(alloc, txn, &thing))
}

/// The number of a session's record.
fn read_session(
    alloc: Global,
    txn: &mut Txn<'_, Counting>,
    call: &mut Words<'_>,
) -> Option<String> {
    let record: ManagedRef<SessionRecord> = ManagedRef::of(said::id(call)?);
    match record.get(alloc, txn) {
        Ok(session) => format!(in alloc; "{}", session.conn.0).ok(),
        Err(refusal) => said::refused(alloc, refusal),
    }
}

fn saved_session(
    alloc: Global,
    txn: &mut Txn<'_, Counting>,
    call: &mut Words<'_>,
) -> Option<String> {
    let record: ManagedRef<SessionRecord> = ManagedRef::of(said::id(call)?);
    let session = SessionRecord {
        conn: ConnNo(1),
        channels: Listed::from_vec(Vec::new(alloc)),
    };
    said::done(alloc, record.save(alloc, txn, &session))
}
