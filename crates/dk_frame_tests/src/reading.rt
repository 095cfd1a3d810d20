//! What a decoder gives of a stream.

use dk_frame::limits::STREAM_MOST_BYTES;
use dk_frame::{ClientFrame, Decoder, FrameFault, FrameRefused};
use std::alloc::{AllocError, Global};
use std::test::Fail;

/// What follows the whole frames of a stream.
#[derive(Clone, Copy, Debug, PartialEq, Eq)]
pub(crate) enum Next {
    Nothing,
    Begun { at: u64 },
    Bad { at: u64, why: FrameFault },
}

/// The frames of a stream in pieces of so many bytes, as text, and what follows them.
pub(crate) fn read(alloc: Global, stream: &[u8], most: usize) -> Result<(String, Next), Fail> {
    if most == 0 {
        return Err("a piece has a byte")?;
    }
    let mut decoder = Decoder::new(alloc);
    let mut text = String::new(alloc);
    let mut told = None;
    for piece in stream.chunks(most) {
        let now = feed(&mut decoder, piece, &mut text)?;
        if told.is_some() && now != told {
            return Err("a fault was not told again")?;
        }
        told = now;
    }
    // A bad frame behind whole ones is told by the next call.
    if let Some(bad) = feed(&mut decoder, b"".as_slice(), &mut text)? {
        return Ok((text, bad));
    }
    Ok(match decoder.end() {
        Ok(()) => (text, Next::Nothing),
        Err(truncated) => (text, Next::Begun { at: truncated.at }),
    })
}

// One more piece: its frames go to the text, and a fault is the answer.
fn feed(decoder: &mut Decoder, piece: &[u8], text: &mut String) -> Result<Option<Next>, Fail> {
    let half = STREAM_MOST_BYTES / 2;
    if decoder.fed() > half || piece.len() as u64 > half {
        return Err("too many bytes")?;
    }
    match decoder.feed(piece) {
        Ok(frames) => {
            for frame in &frames {
                push_frame(text, frame)?;
            }
            Ok(None)
        }
        Err(FrameRefused::BadFrame { at, why }) => Ok(Some(Next::Bad { at, why })),
        Err(FrameRefused::NoMemory) => Err("no memory")?,
    }
}

// A frame in words, ended by a semicolon. A body is told by its length.
fn push_frame(text: &mut String, frame: &ClientFrame) -> Result<(), AllocError> {
    match frame {
        ClientFrame::Login(name) => write!(text, "login {};", name.as_str()),
        ClientFrame::Message(body) => write!(text, "message {};", body.as_slice().len()),
        ClientFrame::Channel { channel, body } => {
            write!(
                text,
                "channel {} {};",
                channel.as_str(),
                body.as_slice().len()
            )
        }
        ClientFrame::Logout => write!(text, "logout;"),
    }
}
