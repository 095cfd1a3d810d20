//! The calls on channels.

use crate::look_in::look_in;
use crate::said;
use crate::view::Counting;
use dk_channels::{
    Channel, Delivery, create_channel, get_channel, join, leave, leave_all, members, send,
};
use dk_refs::{ManagedRef, SessionRecord};
use dk_rows::Words;
use dk_txn::{Mode, Refusal, Txn};
use dk_types::Name;
use std::alloc::Global;

/// A call for a game. However it ends, the run acts for the game again.
pub fn answer(alloc: Global, txn: &mut Txn<'_, Counting>, call: &mut Words<'_>) -> Option<String> {
    let text = made(alloc, txn, call);
    match txn.set_mode(Mode::Game) {
        Mode::Game => text,
        Mode::Platform => said::text(alloc, "for the platform"),
    }
}

fn made(alloc: Global, txn: &mut Txn<'_, Counting>, call: &mut Words<'_>) -> Option<String> {
    match call.word()? {
        "create" => created(alloc, txn, call),
        "get" => got(alloc, txn, call),
        "join" => joined(alloc, txn, call),
        "leave" => left(alloc, txn, call),
        "leave-all" => all_left(alloc, txn, call),
        "members" => told_members(alloc, txn, call),
        "of" => channels_of(alloc, txn, call),
        "send" => sent(alloc, txn, call),
        "speak" => spoken(alloc, txn, call),
        "look-in" => looked_in(alloc, txn, call),
        _ => None,
    }
}

fn channel(alloc: Global, call: &mut Words<'_>) -> Option<Channel> {
    let name = said::name(alloc, call)?;
    Some(Channel { name })
}

/// The channel's name.
fn told(alloc: Global, answer: Result<Channel, Refusal>) -> Option<String> {
    said::a_name(alloc, answer.map(|channel| Some(channel.name)))
}

fn created(alloc: Global, txn: &mut Txn<'_, Counting>, call: &mut Words<'_>) -> Option<String> {
    let name: Name = said::name(alloc, call)?;
    told(
        alloc,
        create_channel(alloc, txn, &name, true, Delivery::Unreliable),
    )
}

fn got(alloc: Global, txn: &mut Txn<'_, Counting>, call: &mut Words<'_>) -> Option<String> {
    let name = said::name(alloc, call)?;
    told(alloc, get_channel(alloc, txn, &name))
}

/// `join hall alice 1`
fn joined(alloc: Global, txn: &mut Txn<'_, Counting>, call: &mut Words<'_>) -> Option<String> {
    let channel = channel(alloc, call)?;
    let session = said::session(alloc, call)?;
    said::done(alloc, join(alloc, txn, &channel, &session))
}

fn left(alloc: Global, txn: &mut Txn<'_, Counting>, call: &mut Words<'_>) -> Option<String> {
    let channel = channel(alloc, call)?;
    let session = said::session(alloc, call)?;
    said::done(alloc, leave(alloc, txn, &channel, &session))
}

fn all_left(alloc: Global, txn: &mut Txn<'_, Counting>, call: &mut Words<'_>) -> Option<String> {
    let channel = channel(alloc, call)?;
    said::done(alloc, leave_all(alloc, txn, &channel))
}

/// The members' numbers.
fn told_members(
    alloc: Global,
    txn: &mut Txn<'_, Counting>,
    call: &mut Words<'_>,
) -> Option<String> {
    let channel = channel(alloc, call)?;
    let members = match members(alloc, txn, &channel) {
        Ok(members) => members,
        Err(refusal) => return said::refused(alloc, refusal),
    };
    let mut text = String::new(alloc);
    for member in members.as_slice() {
        let part = format!(in alloc; "{} ", member.conn.0).ok()?;
        text.push_str(part.as_str()).ok()?;
    }
    Some(text)
}

/// The channels that the session of a record is on.
fn channels_of(alloc: Global, txn: &mut Txn<'_, Counting>, call: &mut Words<'_>) -> Option<String> {
    let record: ManagedRef<SessionRecord> = ManagedRef::of(said::id(call)?);
    let session = record.get(alloc, txn).ok()?;
    let mut text = String::new(alloc);
    for name in session.channels.as_slice() {
        text.push_str(name.as_str()).ok()?;
        text.push(' ').ok()?;
    }
    Some(text)
}

/// `send hall 5`: the game's message to all members.
fn sent(alloc: Global, txn: &mut Txn<'_, Counting>, call: &mut Words<'_>) -> Option<String> {
    let channel = channel(alloc, call)?;
    let body = said::bytes(alloc, call)?;
    said::done(alloc, send(alloc, txn, &channel, None, &body))
}

/// `speak hall alice 1 5`: a session's message to all members.
fn spoken(alloc: Global, txn: &mut Txn<'_, Counting>, call: &mut Words<'_>) -> Option<String> {
    let channel = channel(alloc, call)?;
    let session = said::session(alloc, call)?;
    let body = said::bytes(alloc, call)?;
    said::done(alloc, send(alloc, txn, &channel, Some(&session), &body))
}

fn looked_in(alloc: Global, txn: &mut Txn<'_, Counting>, call: &mut Words<'_>) -> Option<String> {
    let channel = channel(alloc, call)?;
    let session = said::session(alloc, call)?;
    let greeting = said::bytes(alloc, call)?;
    said::done(alloc, look_in(alloc, txn, &channel, &session, &greeting))
}
