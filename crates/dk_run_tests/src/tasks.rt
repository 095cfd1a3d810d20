//! The calls on tasks and messages.

use crate::said;
use crate::view::Counting;
use dk_rows::Words;
use dk_txn::{Mode, Txn};
use dk_types::limits::{MOMENT_MOST_MS, PERIOD_MOST_MS};
use dk_types::{ConnNo, Out};
use std::alloc::Global;

/// What a call on tasks answers, as rows have it.
pub fn answer(
    alloc: Global,
    txn: &mut Txn<'_, Counting>,
    word: &str,
    call: &mut Words<'_>,
) -> Option<String> {
    match word {
        "schedule" => schedule(alloc, txn, call),
        "periodic" => periodic(alloc, txn, call),
        "cancel" => said::done(alloc, txn.cancel(said::key(call)?)),
        "own" => own(alloc, txn, call),
        "send" => send(alloc, txn, call),
        "room" => said::is(alloc, Ok(txn.has_room_for(call.number()?))),
        "mode" => mode(alloc, txn, call),
        _ => None,
    }
}

/// `schedule 3 50`: how many bytes the argument has, and the delay.
fn schedule(alloc: Global, txn: &mut Txn<'_, Counting>, call: &mut Words<'_>) -> Option<String> {
    let arg = said::bytes(alloc, call)?;
    said::a_key(alloc, txn.schedule(1, arg, call.number()?))
}

/// `periodic 3 50 20`: how many bytes the argument has, the delay and the period.
fn periodic(alloc: Global, txn: &mut Txn<'_, Counting>, call: &mut Words<'_>) -> Option<String> {
    let arg = said::bytes(alloc, call)?;
    let delay = call.number()?;
    let period = call.number()?;
    said::a_key(alloc, txn.schedule_periodic(1, arg, delay, period))
}

/// `own 2.0 50 20`: the task of the run's job, when it was due and its period. Whether it is pending.
fn own(alloc: Global, txn: &mut Txn<'_, Counting>, call: &mut Words<'_>) -> Option<String> {
    let key = said::key(call)?;
    let due = call.number()?;
    let period = call.number()?;
    if due > MOMENT_MOST_MS || period > PERIOD_MOST_MS {
        return None;
    }
    said::is(alloc, txn.own_task(key, due, period))
}

/// `send 4 5`: the connection's number, and how many bytes.
fn send(alloc: Global, txn: &mut Txn<'_, Counting>, call: &mut Words<'_>) -> Option<String> {
    let conn = ConnNo(call.number()?);
    let body = said::bytes(alloc, call)?;
    said::done(alloc, txn.send(conn, Out::Message(body)))
}

/// Acts for the game or the platform, and tells for which before.
fn mode(alloc: Global, txn: &mut Txn<'_, Counting>, call: &mut Words<'_>) -> Option<String> {
    let mode = match call.word()? {
        "game" => Mode::Game,
        _ => Mode::Platform,
    };
    match txn.set_mode(mode) {
        Mode::Game => said::text(alloc, "game"),
        Mode::Platform => said::text(alloc, "platform"),
    }
}
