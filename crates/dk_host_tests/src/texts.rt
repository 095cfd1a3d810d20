//! What a host answers, as rows write it.

use dk_core::Handed;
use dk_inspect::inspect_text;
use dk_rows::bytes;
use dk_types::{Answer, Durable, Entry, GameId, ObjectId, Out, Read, RunNo};
use std::alloc::Global;
use std::str::from_utf8;

/// The game of every host.
pub fn game() -> Option<GameId> {
    GameId::new(b"sword-world").ok()
}

/// A durable world, as the command `inspect` writes it.
pub fn of_world(alloc: Global, durable: &Durable) -> Option<String> {
    let text = inspect_text(alloc, &game()?, durable).ok()?;
    String::from_str(alloc, from_utf8(text.as_slice()).ok()?.trim_end()).ok()
}

/// Entries by their commits, runs, and numbers of things written, removed, bound and unbound.
pub fn of_entries(alloc: Global, entries: &[Entry]) -> Option<String> {
    let mut text = String::new(alloc);
    for entry in entries {
        let effects = &entry.effects;
        let written = effects.written.as_slice().len();
        let removed = effects.removed.as_slice().len();
        let bound = effects.bound.as_slice().len();
        let unbound = effects.unbound.as_slice().len();
        write!(text, "{} run {}: ", entry.seq, entry.run.0).ok()?;
        write!(text, "{written} {removed} {bound} {unbound}; ").ok()?;
    }
    Some(text)
}

/// An object by the commit that wrote it and its bytes, or how anything else was seen.
pub fn of_read(alloc: Global, read: &Read) -> Option<String> {
    match &read.answer {
        Answer::Object(object) => {
            let bytes = bytes::spelled(alloc, object.bytes.as_slice()).ok()?;
            format!(in alloc; "{:?} {bytes}", read.seen).ok()
        }
        _ => format!(in alloc; "{:?}", read.seen).ok(),
    }
}

fn of_out(alloc: Global, out: &Out) -> Option<String> {
    match out {
        Out::Accepted => String::from_str(alloc, "accepted").ok(),
        Out::Message(body) => { format!(in alloc; "{:?}", from_utf8(body.as_slice()).ok()?).ok() }
        _ => String::from_str(alloc, "another").ok(),
    }
}

/// The messages that were handed, in order.
pub fn of_handed(alloc: Global, handed: &Handed) -> Option<String> {
    let mut text = String::new(alloc);
    for out in handed.outs.as_slice() {
        text.push_str(of_out(alloc, out)?.as_str()).ok()?;
        text.push_str(" ").ok()?;
    }
    Some(text)
}

/// An object's id, as `RUN.K`.
pub fn object(word: &str) -> Option<ObjectId> {
    let (run, k) = word.split_once(".")?;
    Some(ObjectId {
        run: RunNo(run.parse::<u64>().ok()?),
        k: k.parse::<u32>().ok()?,
    })
}
