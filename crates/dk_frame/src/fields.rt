//! The fields of a frame.
ghost use Rattle.std.specs.Prelude.{◌≡◌, ◌<◌, ◌≤◌, ◌++◌, ℕ, List, IfOk, IfSome, IfNone, MatchOption, length};
ghost use Rattle.dk_types.specs.Names.{IsName};
ghost use Rattle.dk_types.specs.Fields.{name_spelling};
ghost use Rattle.dk_model.specs.Frames.{Frame};
ghost use Rattle.dk_frame.specs.Fields.{IsFrameOf, HasNoFrame, BeginsWithNoName};

use crate::body::Body;
use crate::frame::ClientFrame;
use crate::stage::{CHANNEL, LOGIN, MESSAGE};
use dk_types::limits::BODY_MOST_BYTES;
use dk_types::{Name, NoMemory};
use dk_wire::{Reader, WireRefused};
use std::alloc::Global;

/// The frame of this opcode that has these fields, if one has.
pub(crate) fn frame_of(
    alloc: Global,
    opcode: u8,
    fields: &[u8],
) -> Result<Option<ClientFrame>, NoMemory>
    requires some { 1 ≤ opcode }
    requires most { opcode ≤ 4 }
    ensures { IfOk result (λ found. MatchOption found (HasNoFrame opcode fields.now) (IsFrameOf opcode fields.now)) }
{
    match opcode {
        LOGIN => login(alloc, fields),
        MESSAGE => message(alloc, fields),
        CHANNEL => channel(alloc, fields),
        _ => Ok(if fields.is_empty() {
            Some(ClientFrame::Logout)
        } else {
            None
        }),
    }
}

#[tactic(auto, using(crate::proofs::FieldLemmas::no_login))]
fn login(alloc: Global, fields: &[u8]) -> Result<Option<ClientFrame>, NoMemory>
    ensures { IfOk result (λ found. MatchOption found (HasNoFrame 1 fields.now) (IsFrameOf 1 fields.now)) }
{
    let Some((name, behind)) = name_of(alloc, fields)? else {
        return Ok(None);
    };
    if !behind.is_empty() {
        return Ok(None);
    }
    Ok(Some(ClientFrame::Login(name)))
}

fn message(alloc: Global, fields: &[u8]) -> Result<Option<ClientFrame>, NoMemory>
    ensures { IfOk result (λ found. MatchOption found (HasNoFrame 2 fields.now) (IsFrameOf 2 fields.now)) }
{
    if fields.len() as u64 > BODY_MOST_BYTES {
        return Ok(None);
    }
    Ok(Some(ClientFrame::Message(Body::copy_of(alloc, fields)?)))
}

#[tactic(auto, using(crate::proofs::FieldLemmas::no_channel))]
fn channel(alloc: Global, fields: &[u8]) -> Result<Option<ClientFrame>, NoMemory>
    ensures { IfOk result (λ found. MatchOption found (HasNoFrame 3 fields.now) (IsFrameOf 3 fields.now)) }
{
    let Some((channel, body)) = name_of(alloc, fields)? else {
        return Ok(None);
    };
    if body.len() as u64 > BODY_MOST_BYTES {
        return Ok(None);
    }
    let body = Body::copy_of(alloc, body)?;
    Ok(Some(ClientFrame::Channel { channel, body }))
}

/// The name at the front, and what stands behind it.
fn name_of(alloc: Global, fields: &[u8]) -> Result<Option<(Name, &[u8])>, NoMemory>
    ensures { IfOk result (λ found. MatchOption found (BeginsWithNoName fields.now) (λ p. IsName p.0 × (fields.now ≡ name_spelling p.0 ++ p.1.now))) }
{
    let mut reader = Reader::new(fields);
    match reader.take_name(alloc) {
        Ok(name) => {
            let at = reader.at() as usize;
            Ok(Some((name, &fields[at..])))
        }
        Err(WireRefused::NoMemory) => Err(NoMemory),
        Err(_) => Ok(None),
    }
}
