//! Names, games' ids, words and lists.

use crate::fields;
use crate::texts::{body, said};
use dk_rows::Words as Call;
use dk_types::{Blob, GameId, Listed, Name, Out, Words};
use std::alloc::Global;

/// What a call on values answers, as rows have it.
pub fn answer(alloc: Global, word: &str, call: &mut Call<'_>) -> Option<String> {
    match word {
        "name" => named(alloc, call),
        "compare" => compared(alloc, call),
        "copy" => copied(alloc, call),
        "game" => game(alloc, call),
        "same-game" => is_same_game(alloc, call),
        "words" => words(alloc, call),
        "list" => listed(alloc, call),
        "shared" => shared(alloc, call),
        _ => None,
    }
}

/// How long the name of these bytes is, or why they are none.
fn named(alloc: Global, call: &mut Call<'_>) -> Option<String> {
    let bytes = fields::bytes(alloc, call)?;
    match Name::new(alloc, bytes.as_slice()) {
        Ok(name) => format!(in alloc; "{} bytes", name.as_slice().len()).ok(),
        Err(refused) => format!(in alloc; "{refused:?}").ok(),
    }
}

fn name(alloc: Global, call: &mut Call<'_>) -> Option<Name> {
    Name::new(alloc, call.word()?.as_bytes()).ok()
}

fn compared(alloc: Global, call: &mut Call<'_>) -> Option<String> {
    let first = name(alloc, call)?;
    let second = name(alloc, call)?;
    let order = first.cmp(&second);
    format!(in alloc; "{order:?}").ok()
}

/// Whether a copy of a name is the same.
fn copied(alloc: Global, call: &mut Call<'_>) -> Option<String> {
    let name = name(alloc, call)?;
    said(alloc, name.clone().ok()? == name)
}

fn game(alloc: Global, call: &mut Call<'_>) -> Option<String> {
    let bytes = fields::bytes(alloc, call)?;
    match GameId::new(bytes.as_slice()) {
        Ok(id) => said(alloc, id.as_slice() == bytes.as_slice()),
        Err(refused) => format!(in alloc; "{refused:?}").ok(),
    }
}

/// Whether two games' ids are the same, the second as a copy.
fn is_same_game(alloc: Global, call: &mut Call<'_>) -> Option<String> {
    let first = GameId::new(call.text(alloc)?.as_bytes()).ok()?;
    let second = GameId::new(call.text(alloc)?.as_bytes()).ok()?;
    said(alloc, first == second.clone().ok()?)
}

/// Pushes two words and tells how many there are and the second, if a copy of the first alone is another.
fn words(alloc: Global, call: &mut Call<'_>) -> Option<String> {
    let mut words = Words::new(alloc);
    words.push(call.word()?).ok()?;
    let copy = words.clone().ok()?;
    words.push(call.word()?).ok()?;
    if words == copy || words.count() != 2 {
        return None;
    }
    format!(in alloc; "{} {}", words.count(), words.word(1)).ok()
}

/// A message and a Close: how many they are, whether a copy is the same, and whether one without the Close is.
fn listed(alloc: Global, call: &mut Call<'_>) -> Option<String> {
    let message = Out::Message(body(alloc, call.word()?)?);
    let outs = Listed::from_vec(vec![in alloc; message, Out::Close].ok()?);
    let mut fewer = outs.clone().ok()?.into_vec();
    let is_same = Listed::from_vec(fewer.clone().ok()?) == outs;
    fewer.pop();
    let is_still = Listed::from_vec(fewer) == outs;
    format!(in alloc; "{} {is_same} {is_still}", outs.as_slice().len()).ok()
}

/// Bytes that a clone shares: whether both are the same as they were alone, and whether each hands over the same, the first
/// while it has a clone and the other as the last.
fn shared(alloc: Global, call: &mut Call<'_>) -> Option<String> {
    let alone = body(alloc, call.word()?)?;
    let first = alone.clone().ok()?.shared(alloc).ok()?;
    let last = first.clone().ok()?;
    let is_same = first == alone && last == alone;
    let copied = Blob::from_vec(first.into_vec().ok()?) == alone;
    let handed = Blob::from_vec(last.into_vec().ok()?) == alone;
    format!(in alloc; "{is_same} {copied} {handed}").ok()
}
