//! The server's messages as bytes.
ghost use Rattle.std.specs.Prelude.{◌≡◌, ◌+◌, ◌^◌, ◌<◌, ◌≤◌, [], ◌∷◌, ◌++◌, length, IfOk};
ghost use Rattle.dk_types.specs.Fields.{u32_spelling, name_spelling};
ghost use Rattle.dk_model.specs.Frames.{spelled, out_spelling, HasBodyWithin, body_most, length_most};

use dk_types::{Blob, Name, NoMemory, Out};
use dk_wire::Writer;
use std::alloc::Global;

// The opcodes of the server's frames.
const ACCEPTED: u8 = 0x81;

const REFUSED: u8 = 0x82;

const MESSAGE: u8 = 0x83;

const CHANNEL: u8 = 0x84;

const CLOSE: u8 = 0x85;

/// The frame of a message.
pub fn encode_out(alloc: Global, out: &Out) -> Result<Blob, NoMemory>
    requires { HasBodyWithin out.now }
    ensures { IfOk result (λ frame. frame ≡ out_spelling out.now) }
{
    match out {
        Out::Accepted => body_frame(alloc, ACCEPTED, &[]),
        Out::Refused => body_frame(alloc, REFUSED, &[]),
        Out::Message(body) => body_frame(alloc, MESSAGE, body.as_slice()),
        Out::Channel { channel, body } => channel_frame(alloc, channel, body.as_slice()),
        Out::Close => body_frame(alloc, CLOSE, &[]),
    }
}

/// A frame whose fields are these bytes.
#[tactic(auto, unfolding(dk_model::specs::Frames::spelled))]
fn body_frame(alloc: Global, opcode: u8, body: &[u8]) -> Result<Blob, NoMemory>
    requires { length body.now ≤ body_most }
    ensures { IfOk result (λ frame. frame ≡ spelled opcode body.now) }
{
    ended(begun(alloc, opcode, body.len() as u64)?, body)
}

/// A frame of a channel's message.
#[tactic(auto, unfolding(dk_model::specs::Frames::spelled))]
fn channel_frame(alloc: Global, channel: &Name, body: &[u8]) -> Result<Blob, NoMemory>
    requires { length body.now ≤ body_most }
    ensures { IfOk result (λ frame. frame ≡ spelled CHANNEL (name_spelling channel.now ++ body.now)) }
{
    let mut writer = begun(alloc, CHANNEL, channel_fields(channel, body))?;
    writer.put_name(channel)?;
    ended(writer, body)
}

/// How many bytes a channel's name and a body have.
#[tactic(auto, using(crate::proofs::Lengths::length_of_named))]
fn channel_fields(channel: &Name, body: &[u8]) -> u64
    requires { length body.now ≤ body_most }
    ensures bytes { result ≡ length (name_spelling channel.now ++ body.now) }
    ensures most { result < length_most }
{
    1 + channel.as_slice().len() as u64 + body.len() as u64
}

/// The length and the opcode of a frame whose fields have so many bytes.
#[tactic(auto, unfolding(dk_types::specs::Fields::u8_spelling))]
fn begun(alloc: Global, opcode: u8, fields: u64) -> Result<Writer, NoMemory>
    requires { fields + 1 < 2 ^ 32 }
    ensures { IfOk result (λ writer. writer ≡ u32_spelling (1 + fields) ++ opcode ∷ []) }
{
    let mut writer = Writer::new(alloc);
    writer.put_u32((1 + fields) as u32)?;
    writer.put_u8(opcode)?;
    Ok(writer)
}

/// All of a frame, whose last field is this body.
fn ended(writer: Writer, body: &[u8]) -> Result<Blob, NoMemory>
    ensures { IfOk result (λ frame. frame ≡ writer ++ body.now) }
{
    let mut bytes = writer.into_vec();
    bytes.extend_from_slice(body)?;
    Ok(Blob::from_vec(bytes))
}
