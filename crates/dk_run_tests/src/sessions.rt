//! The calls on sessions.

use crate::said;
use crate::view::Counting;
use dk_rows::Words;
use dk_sessions::{close_record, find, is_connected, is_recorded, open_record, send};
use dk_txn::Txn;
use std::alloc::Global;

/// What a call on sessions and channels answers, as rows have it.
pub fn answer(alloc: Global, txn: &mut Txn<'_, Counting>, call: &mut Words<'_>) -> Option<String> {
    match call.word()? {
        "find" => found(alloc, txn, call),
        "recorded" => recorded(alloc, txn, call),
        "connected" => connected(alloc, txn, call),
        "open" => opened(alloc, txn, call),
        "close" => closed(alloc, txn, call),
        "send" => sent(alloc, txn, call),
        _ => None,
    }
}

/// The session's name and its number.
fn found(alloc: Global, txn: &mut Txn<'_, Counting>, call: &mut Words<'_>) -> Option<String> {
    let name = said::name(alloc, call)?;
    match find(alloc, txn, &name) {
        Ok(session) => {
            let (name, conn) = (session.name.as_str(), session.conn.0);
            format!(in alloc; "{name} {conn}").ok()
        }
        Err(refusal) => said::refused(alloc, refusal),
    }
}

fn recorded(alloc: Global, txn: &mut Txn<'_, Counting>, call: &mut Words<'_>) -> Option<String> {
    let name = said::name(alloc, call)?;
    said::is(alloc, is_recorded(alloc, txn, &name))
}

fn connected(alloc: Global, txn: &mut Txn<'_, Counting>, call: &mut Words<'_>) -> Option<String> {
    let session = said::session(alloc, call)?;
    said::is(alloc, is_connected(alloc, txn, &session))
}

fn opened(alloc: Global, txn: &mut Txn<'_, Counting>, call: &mut Words<'_>) -> Option<String> {
    let session = said::session(alloc, call)?;
    said::done(alloc, open_record(alloc, txn, &session))
}

fn closed(alloc: Global, txn: &mut Txn<'_, Counting>, call: &mut Words<'_>) -> Option<String> {
    let session = said::session(alloc, call)?;
    said::done(alloc, close_record(alloc, txn, &session))
}

/// `send alice 1 5`: to whom, and how many bytes.
fn sent(alloc: Global, txn: &mut Txn<'_, Counting>, call: &mut Words<'_>) -> Option<String> {
    let session = said::session(alloc, call)?;
    let body = said::bytes(alloc, call)?;
    said::done(alloc, send(alloc, txn, &session, &body))
}
