//! The calls on objects.

use crate::said;
use crate::view::Counting;
use dk_rows::Words;
use dk_txn::Txn;
use std::alloc::Global;

/// What a call on objects answers, as rows have it.
pub fn answer(
    alloc: Global,
    txn: &mut Txn<'_, Counting>,
    word: &str,
    call: &mut Words<'_>,
) -> Option<String> {
    match word {
        "create" => create(alloc, txn, call),
        "make" => make(alloc, txn, call),
        "get" => get(alloc, txn, call),
        "bytes" => bytes(alloc, txn, call),
        "save" => save(alloc, txn, call),
        "write" => write(alloc, txn, call),
        "mark" => said::done(alloc, txn.mark(said::id(call)?)),
        "remove" => said::done(alloc, txn.remove(said::id(call)?)),
        _ => None,
    }
}

/// `create 3 5`: the kind and how many bytes.
fn create(alloc: Global, txn: &mut Txn<'_, Counting>, call: &mut Words<'_>) -> Option<String> {
    let kind = u16::try_from(call.number()?).ok()?;
    let bytes = said::bytes(alloc, call)?;
    said::an_id(alloc, txn.create(kind, bytes))
}

/// `make 3 00ff`: the kind and the bytes.
fn make(alloc: Global, txn: &mut Txn<'_, Counting>, call: &mut Words<'_>) -> Option<String> {
    let kind = u16::try_from(call.number()?).ok()?;
    let bytes = said::digits(alloc, call)?;
    said::an_id(alloc, txn.create(kind, bytes))
}

/// The kind and how many bytes.
fn get(alloc: Global, txn: &mut Txn<'_, Counting>, call: &mut Words<'_>) -> Option<String> {
    match txn.get(said::id(call)?) {
        Ok(object) => {
            let (kind, len) = (object.kind, object.bytes.as_slice().len());
            format!(in alloc; "kind {kind} len {len}").ok()
        }
        Err(refusal) => said::refused(alloc, refusal),
    }
}

/// The bytes of an object that is there.
fn bytes(alloc: Global, txn: &mut Txn<'_, Counting>, call: &mut Words<'_>) -> Option<String> {
    let object = txn.get(said::id(call)?).ok()?;
    dk_rows::bytes::spelled(alloc, object.bytes.as_slice()).ok()
}

/// `save 2.0 5`: the id and how many bytes.
fn save(alloc: Global, txn: &mut Txn<'_, Counting>, call: &mut Words<'_>) -> Option<String> {
    let id = said::id(call)?;
    let bytes = said::bytes(alloc, call)?;
    said::done(alloc, txn.save(id, bytes))
}

/// `write 2.0 00ff`: the id and the bytes.
fn write(alloc: Global, txn: &mut Txn<'_, Counting>, call: &mut Words<'_>) -> Option<String> {
    let id = said::id(call)?;
    let bytes = said::digits(alloc, call)?;
    said::done(alloc, txn.save(id, bytes))
}
