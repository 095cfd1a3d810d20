//! Words as values, and values as texts.

use dk_rows::Words;
use dk_txn::Refusal;
use dk_types::{Blob, ConnNo, Name, ObjectId, RunNo, Session, TaskKey};
use std::alloc::Global;

/// An id, as `2.0`.
pub fn id(call: &mut Words<'_>) -> Option<ObjectId> {
    let (run, k) = call.word()?.split_once(".")?;
    Some(ObjectId {
        run: RunNo(run.parse::<u64>().ok()?),
        k: k.parse::<u32>().ok()?,
    })
}

/// A task's key, as `2.0`.
pub fn key(call: &mut Words<'_>) -> Option<TaskKey> {
    let ObjectId { run, k } = id(call)?;
    Some(TaskKey { run, k })
}

/// The name that comes next in a row.
pub fn name(alloc: Global, call: &mut Words<'_>) -> Option<Name> {
    let text = call.text(alloc)?;
    Name::new(alloc, text.as_bytes()).ok()
}

/// A name, or `-` for none.
pub fn name_after(alloc: Global, call: &mut Words<'_>) -> Option<Option<Name>> {
    let name = name(alloc, call)?;
    if name.as_str() == "-" {
        return Some(None);
    }
    Some(Some(name))
}

/// A session: its login name and its number.
pub fn session(alloc: Global, call: &mut Words<'_>) -> Option<Session> {
    let name = name(alloc, call)?;
    let conn = ConnNo(call.number()?);
    Some(Session { name, conn })
}

/// So many bytes 7.
pub fn bytes(alloc: Global, call: &mut Words<'_>) -> Option<Blob> {
    let len = call.small()?;
    Some(Blob::from_vec(vec![in alloc; 7u8; len as usize].ok()?))
}

/// The bytes of hexadecimal digits.
pub fn digits(alloc: Global, call: &mut Words<'_>) -> Option<Blob> {
    let bytes = dk_rows::bytes::read(alloc, call.word()?)?;
    Some(Blob::from_vec(bytes))
}

/// A copy of a text, if there is memory.
pub fn text(alloc: Global, text: &str) -> Option<String> {
    String::from_str(alloc, text).ok()
}

/// A refusal, as rows have it.
pub fn refused(alloc: Global, refusal: Refusal) -> Option<String> {
    format!(in alloc; "{refusal:?}").ok()
}

/// What a call that gives nothing answered, as rows have it.
pub fn done(alloc: Global, answer: Result<(), Refusal>) -> Option<String> {
    match answer {
        Ok(()) => text(alloc, "ok"),
        Err(refusal) => refused(alloc, refusal),
    }
}

/// What a call that tells a fact answered, as rows have it.
pub fn is(alloc: Global, answer: Result<bool, Refusal>) -> Option<String> {
    match answer {
        Ok(true) => text(alloc, "yes"),
        Ok(false) => text(alloc, "no"),
        Err(refusal) => refused(alloc, refusal),
    }
}

/// An id, as rows have it.
pub fn id_text(alloc: Global, id: ObjectId) -> Option<String> {
    let (run, k) = (id.run.0, id.k);
    format!(in alloc; "{run}.{k}").ok()
}

/// A task's key, as rows have it.
pub fn key_text(alloc: Global, key: TaskKey) -> Option<String> {
    let TaskKey { run, k } = key;
    id_text(alloc, ObjectId { run, k })
}

/// What was made or found, or the refusal.
pub fn an_id(alloc: Global, answer: Result<ObjectId, Refusal>) -> Option<String> {
    match answer {
        Ok(id) => id_text(alloc, id),
        Err(refusal) => refused(alloc, refusal),
    }
}

/// What a call that gives a key answered, as rows have it.
pub fn a_key(alloc: Global, answer: Result<TaskKey, Refusal>) -> Option<String> {
    match answer {
        Ok(key) => key_text(alloc, key),
        Err(refusal) => refused(alloc, refusal),
    }
}

/// What a call that may give a name answered, as rows have it.
pub fn a_name(alloc: Global, answer: Result<Option<Name>, Refusal>) -> Option<String> {
    match answer {
        Ok(Some(name)) => text(alloc, name.as_str()),
        Ok(None) => text(alloc, "none"),
        Err(refusal) => refused(alloc, refusal),
    }
}
