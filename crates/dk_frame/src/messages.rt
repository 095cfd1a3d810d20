//! Messages one behind another, as most frames of a session are. They are taken in a loop of their own, since each costs
//! little more there than its memory.
ghost use Rattle.std.specs.Prelude.{◌≡◌, [], ◌∷◌, ◌++◌, map, IfOk, OnOk, IfSome};
ghost use Rattle.dk_model.specs.Frames.{Message};
ghost use Rattle.dk_frame.specs.Meanings.{frame_of, stage_of};
ghost use Rattle.dk_frame.specs.Fronts.{AddsTaken, IsMessage};

use crate::body::Body;
use crate::frame::ClientFrame;
use crate::front::length_of;
use crate::stage::{MESSAGE, Stage};
use dk_types::NoMemory;
use dk_types::limits::BODY_MOST_BYTES;
use std::alloc::Global;

/// Puts messages at the front of these bytes behind the frames, where `stage` says that one may come, and tells how many
/// bytes they take.
pub(crate) fn take_messages(
    alloc: Global,
    stage: Stage,
    frames: &mut Vec<ClientFrame>,
    bytes: &[u8],
) -> Result<usize, NoMemory>
    ensures { IfOk result (AddsTaken (stage_of stage) bytes.now (map frame_of frames.old.items) (map frame_of frames.new.items)) }
{
    if stage != Stage::InSession {
        return Ok(0);
    }
    let mut rest = bytes;
    'messages: while let Some((body, behind)) = message_at(rest) {
        push_message(alloc, frames, body)?;
        rest = behind;
    }
    Ok(bytes.len() - rest.len())
}

// Puts a message with this body behind the frames. It is written where it stands, since a copy that was just written is slow
// to be copied on.
fn push_message(alloc: Global, frames: &mut Vec<ClientFrame>, body: &[u8]) -> Result<(), NoMemory>
    ensures { OnOk result (map frame_of frames.new.items ≡ map frame_of frames.old.items ++ Message body.now ∷ []) }
{
    let at = frames.len();
    frames.push(ClientFrame::Message(Body::new(alloc)))?;
    match &mut frames[at] {
        ClientFrame::Message(message) => message.extend_from_slice(body),
        _ => unreachable!(),
    }
}

/// The body of a message at the front of these bytes, and what stands behind it. Where it gives none, `Front::of` judges
/// what stands there.
fn message_at(bytes: &[u8]) -> Option<(&[u8], &[u8])>
    ensures { IfSome result (λ found. IsMessage bytes.now found.0.now found.1.now) }
{
    let (len, behind) = length_of(bytes)?;
    let (opcode, fields) = behind.split_first()?;
    let len = len as usize;
    if *opcode != MESSAGE || len == 0 || behind.len() < len {
        return None;
    }
    let (body, rest) = fields.split_at(len - 1);
    if body.len() as u64 > BODY_MOST_BYTES {
        return None;
    }
    Some((body, rest))
}
