//! A client's stream, decoded in pieces.
ghost use Rattle.std.specs.Prelude.{◌<◌};

use crate::stores::nanoseconds;
use dk_frame::Decoder;
use dk_frame::limits::STREAM_MOST_BYTES;
use std::alloc::Global;
use std::time::{Clock, Instant};

/// How a stream is fed.
#[derive(Clone, Copy)]
pub enum Feeding {
    /// 64 MiB in pieces of 64 KiB.
    InPieces,
    /// 4 MiB in pieces of one byte.
    ByByte,
}

/// The way of feeding of this word.
pub fn named(word: &str) -> Option<Feeding> {
    match word {
        "frames-in-pieces" => Some(Feeding::InPieces),
        "frames-by-byte" => Some(Feeding::ByByte),
        _ => None,
    }
}

/// The bytes in which a message states its length and its opcode.
const HEAD_BYTES: u32 = 5;

/// A login, and so many messages of so many bytes each.
fn stream(alloc: Global, messages: u32, frame_bytes: u32) -> Option<Vec<u8>> {
    let length = frame_bytes.checked_sub(HEAD_BYTES)?;
    let body = vec![in alloc; b'x'; length as usize].ok()?;
    let mut bytes = Vec::new(alloc);
    bytes
        .extend_from_slice(b"\x00\x00\x00\x07\x01\x05alice")
        .ok()?;
    for _ in 0..messages {
        bytes
            .extend_from_slice(&length.checked_add(1)?.to_be_bytes())
            .ok()?;
        bytes.push(2).ok()?;
        bytes.extend_from_slice(body.as_slice()).ok()?;
    }
    Some(bytes)
}

/// How many frames a decoder gives of these bytes, in pieces of so many.
fn decoded(alloc: Global, bytes: &[u8], piece_bytes: usize) -> Option<u64>
    requires { 0 < piece_bytes }
{
    let mut decoder = Decoder::new(alloc);
    let mut frames = 0u64;
    for piece in bytes.chunks(piece_bytes) {
        let left = STREAM_MOST_BYTES.checked_sub(decoder.fed())?;
        if piece.len() as u64 > left {
            return None;
        }
        let given = decoder.feed(piece).ok()?;
        frames = frames.saturating_add(given.len() as u64);
    }
    Some(frames)
}

/// Decodes a stream of messages of so many bytes, and tells the nanoseconds; nothing where memory or the clock is
/// wanting, or a frame is lost.
pub fn decode<R: AllocGlobal + Clock>(rt: &R, feeding: Feeding, frame_bytes: u32) -> Option<u64> {
    let (total, piece_bytes) = match feeding {
        Feeding::InPieces => (1u32 << 26, 1usize << 16),
        Feeding::ByByte => (1u32 << 22, 1usize),
    };
    let messages = total.checked_div(frame_bytes)?;
    let bytes = stream(rt.alloc(), messages, frame_bytes)?;
    let start = Instant::now(rt).ok()?;
    let frames = decoded(rt.alloc(), bytes.as_slice(), piece_bytes)?;
    let spent = nanoseconds(rt, &start);
    if frames != u64::from(messages).saturating_add(1) {
        return None;
    }
    spent
}
