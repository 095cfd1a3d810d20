//! Whole payloads: the records of sessions and channels, and scores.

use crate::scores::{Scores, ScoresForm};
use dk_model::{ChannelRecord, SessionRecord};
use dk_records::{ChannelForm, SessionForm};
use dk_rows::Words;
use dk_types::{Blob, NoMemory};
use dk_wire::{PayloadRefused, decode, encode};
use std::alloc::Global;

/// What the bytes are as a `session`, a `channel` or `scores`, with how they are spelled again; or why they are none.
fn read_as(alloc: Global, bytes: &[u8], form: &str) -> Option<String> {
    match form {
        "session" => session(alloc, bytes),
        "channel" => channel(alloc, bytes),
        "scores" => scores(alloc, bytes),
        _ => None,
    }
}

/// What reading a payload answers, as rows have it.
pub fn read(alloc: Global, bytes: &[u8], call: &mut Words<'_>) -> Option<String> {
    read_as(alloc, bytes, call.word()?)
}

/// `changed session 5 0xFF`: the same with another byte at a place.
pub fn changed(alloc: Global, bytes: &[u8], call: &mut Words<'_>) -> Option<String> {
    let form = call.word()?;
    let at = usize::try_from(call.number()?).ok()?;
    let mut changed = Vec::from_slice(alloc, bytes).ok()?;
    if at >= changed.len() {
        return None;
    }
    changed[at] = u8::try_from(call.number()?).ok()?;
    read_as(alloc, changed.as_slice(), form)
}

/// `cut session 7`: the same of so many bytes alone.
pub fn cut(alloc: Global, bytes: &[u8], call: &mut Words<'_>) -> Option<String> {
    let form = call.word()?;
    let len = usize::try_from(call.number()?).ok()?;
    read_as(alloc, bytes.get(..len)?, form)
}

fn refused(alloc: Global, refused: PayloadRefused) -> Option<String> {
    match refused {
        PayloadRefused::NotInGrammar { at } => format!(in alloc; "at {at}").ok(),
        PayloadRefused::NoMemory => None,
    }
}

/// Puts last whether the value is spelled as the bytes.
fn spelled(text: &mut String, bytes: &[u8], payload: Result<Blob, NoMemory>) -> Option<()> {
    let same = payload.ok()?.as_slice() == bytes;
    text.push_str(if same { "and back" } else { "otherwise" })
        .ok()
}

fn session(alloc: Global, bytes: &[u8]) -> Option<String> {
    let session = match decode::<SessionRecord, SessionForm>(alloc, bytes) {
        Ok(session) => session,
        Err(fault) => return refused(alloc, fault),
    };
    let mut text = format!(in alloc; "{} ", session.conn.0).ok()?;
    for channel in session.channels.as_slice() {
        text.push_str(channel.as_str()).ok()?;
        text.push(' ').ok()?;
    }
    spelled(
        &mut text,
        bytes,
        encode::<SessionRecord, SessionForm>(alloc, &session),
    )?;
    Some(text)
}

fn channel(alloc: Global, bytes: &[u8]) -> Option<String> {
    let channel = match decode::<ChannelRecord, ChannelForm>(alloc, bytes) {
        Ok(channel) => channel,
        Err(fault) => return refused(alloc, fault),
    };
    let (listener, delivery) = (channel.listener, channel.delivery);
    let mut text = format!(in alloc; "{listener} {delivery:?} ").ok()?;
    for member in channel.members.as_slice() {
        let part = format!(in alloc; "{} {} ", member.name.as_str(), member.conn.0).ok()?;
        text.push_str(part.as_str()).ok()?;
    }
    spelled(
        &mut text,
        bytes,
        encode::<ChannelRecord, ChannelForm>(alloc, &channel),
    )?;
    Some(text)
}

fn scores(alloc: Global, bytes: &[u8]) -> Option<String> {
    let scores = match decode::<Scores, ScoresForm>(alloc, bytes) {
        Ok(scores) => scores,
        Err(fault) => return refused(alloc, fault),
    };
    let mut text = format!(in alloc; "{} ", scores.best).ok()?;
    for (name, score) in scores.rows.as_slice() {
        let part = format!(in alloc; "{} {score} ", name.as_str()).ok()?;
        text.push_str(part.as_str()).ok()?;
    }
    spelled(
        &mut text,
        bytes,
        encode::<Scores, ScoresForm>(alloc, &scores),
    )?;
    Some(text)
}
