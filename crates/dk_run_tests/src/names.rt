//! The calls on names.

use crate::said;
use crate::view::Counting;
use dk_rows::Words;
use dk_txn::Txn;
use std::alloc::Global;

/// What a call on names answers, as rows have it.
pub fn answer(
    alloc: Global,
    txn: &mut Txn<'_, Counting>,
    word: &str,
    call: &mut Words<'_>,
) -> Option<String> {
    match word {
        "bound" => bound(alloc, txn, call),
        "binding" => binding(alloc, txn, call),
        "bind" => bind(alloc, txn, call),
        "unbind" => unbind(alloc, txn, call),
        "next" => next(alloc, txn, call),
        _ => None,
    }
}

fn bound(alloc: Global, txn: &mut Txn<'_, Counting>, call: &mut Words<'_>) -> Option<String> {
    let name = said::name(alloc, call)?;
    said::an_id(alloc, txn.bound(&name))
}

fn binding(alloc: Global, txn: &mut Txn<'_, Counting>, call: &mut Words<'_>) -> Option<String> {
    let name = said::name(alloc, call)?;
    match txn.binding(&name) {
        Ok(Some(id)) => said::id_text(alloc, id),
        Ok(None) => said::text(alloc, "none"),
        Err(refusal) => said::refused(alloc, refusal),
    }
}

fn bind(alloc: Global, txn: &mut Txn<'_, Counting>, call: &mut Words<'_>) -> Option<String> {
    let name = said::name(alloc, call)?;
    said::done(alloc, txn.bind(&name, said::id(call)?))
}

fn unbind(alloc: Global, txn: &mut Txn<'_, Counting>, call: &mut Words<'_>) -> Option<String> {
    let name = said::name(alloc, call)?;
    said::done(alloc, txn.unbind(&name))
}

fn next(alloc: Global, txn: &mut Txn<'_, Counting>, call: &mut Words<'_>) -> Option<String> {
    let after = said::name_after(alloc, call)?;
    said::a_name(alloc, txn.next_bound(after.as_ref()))
}
