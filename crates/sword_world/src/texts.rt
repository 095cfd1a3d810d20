//! What a player is told.
ghost use Rattle.std.specs.Prelude.{◌≡◌, ◌++◌, ◌∷◌, OnOk, IfOk};
ghost use Rattle.sword_world.specs.Texts.{followed, joined, list_line, look_text, sentence, already_text, bare_text, take_text, empty_text, drop_text};

use dk_types::{Blob, Listed, Name, NoMemory};
use std::alloc::Global;

fn push_followed(text: &mut Vec<u8>, names: &[Name]) -> Result<(), NoMemory>
    ensures { OnOk result (text.new.items ≡ text.old.items ++ followed names.now) }
{
    for i in 0..names.len() {
        if i + 1 == names.len() {
            text.extend_from_slice(b" and ")?;
        } else {
            text.extend_from_slice(b", ")?;
        }
        text.extend_from_slice(names[i].as_slice())?;
    }
    Ok(())
}

fn push_joined(text: &mut Vec<u8>, names: &[Name]) -> Result<(), NoMemory>
    ensures { OnOk result (text.new.items ≡ text.old.items ++ joined names.now) }
{
    match names.split_first() {
        None => Ok(()),
        Some((first, others)) => {
            text.extend_from_slice(first.as_slice())?;
            push_followed(text, others)
        }
    }
}

fn push_list(text: &mut Vec<u8>, front: &[u8], names: &[Name]) -> Result<(), NoMemory>
    ensures { OnOk result (text.new.items ≡ text.old.items ++ list_line front.now names.now) }
{
    match names {
        [] => Ok(()),
        [_, ..] => {
            text.extend_from_slice(front)?;
            push_joined(text, names)?;
            text.extend_from_slice(b".\n")?;
            Ok(())
        }
    }
}

/// What is seen in the room: the other players, and what lies on the floor.
pub fn look_body(
    alloc: Global,
    others: &Listed<Name>,
    things: &Listed<Name>,
) -> Result<Blob, NoMemory>
    ensures { IfOk result (λ body. body ≡ look_text others.now things.now) }
{
    let mut text = Vec::new(alloc);
    text.extend_from_slice(b"You are in a plain room.\n")?;
    push_list(&mut text, b"Also in here: ", others.as_slice())?;
    push_list(&mut text, b"On the floor: ", things.as_slice())?;
    Ok(Blob::from_vec(text))
}

/// A sentence about a thing.
fn sentence_of(alloc: Global, front: &[u8], description: &Name) -> Result<Blob, NoMemory>
    ensures { IfOk result (λ body. body ≡ sentence front.now description.now) }
{
    let mut text = Vec::new(alloc);
    text.extend_from_slice(front)?;
    text.extend_from_slice(description.as_slice())?;
    text.extend_from_slice(b".")?;
    Ok(Blob::from_vec(text))
}

/// A player carries one thing at most.
pub fn already_body(alloc: Global, description: &Name) -> Result<Blob, NoMemory>
    ensures { IfOk result (λ body. body ≡ already_text description.now) }
{
    sentence_of(alloc, b"You already carry ", description)
}

/// No thing lies in the room.
pub fn bare_body(alloc: Global) -> Result<Blob, NoMemory>
    ensures { IfOk result (λ body. body ≡ bare_text) }
{
    Blob::copy_of(alloc, b"There is nothing to take.")
}

/// A thing was taken.
pub fn take_body(alloc: Global, description: &Name) -> Result<Blob, NoMemory>
    ensures { IfOk result (λ body. body ≡ take_text description.now) }
{
    sentence_of(alloc, b"You take ", description)
}

/// There is no thing to drop.
pub fn empty_body(alloc: Global) -> Result<Blob, NoMemory>
    ensures { IfOk result (λ body. body ≡ empty_text) }
{
    Blob::copy_of(alloc, b"You carry nothing.")
}

/// A thing was dropped.
pub fn drop_body(alloc: Global, description: &Name) -> Result<Blob, NoMemory>
    ensures { IfOk result (λ body. body ≡ drop_text description.now) }
{
    sentence_of(alloc, b"You drop ", description)
}
