//! Clients' streams.

use crate::reading::{Next, read};
use dk_frame::FrameFault::{Field, Length, Opcode};
use dk_types::limits::BODY_MOST_BYTES;
use std::alloc::Global;
use std::test::*;

// A stream, its frames, and what follows them.
struct Row(&'static [u8], &'static str, Next);

// alice logs in, looks and logs out.
const SESSION: &[u8] = b"\x00\x00\x00\x07\x01\x05alice\x00\x00\x00\x05\x02look\x00\x00\x00\x01\x04";

const ROWS: [Row; 27] = [
    Row(b"", "", Next::Nothing),
    Row(b"\x00", "", Next::Begun { at: 0 }),
    Row(b"\x00\x00\x00\x00", "", Next::Bad { at: 0, why: Length }),
    Row(b"\x00\x10\x01\x02", "", Next::Bad { at: 0, why: Length }),
    Row(
        b"\xFF\xFF\xFF\xFF\x01",
        "",
        Next::Bad { at: 0, why: Length },
    ),
    Row(b"\x00\x10\x01\x01", "", Next::Begun { at: 0 }),
    Row(
        b"\x00\x00\x00\x01\x02",
        "",
        Next::Bad { at: 0, why: Opcode },
    ),
    Row(
        b"\x00\x00\x00\x01\x81",
        "",
        Next::Bad { at: 0, why: Opcode },
    ),
    Row(
        b"\x00\x00\x00\x02\x01\x00",
        "",
        Next::Bad { at: 0, why: Field },
    ),
    Row(
        b"\x00\x00\x00\x03\x01\x01\xFF",
        "",
        Next::Bad { at: 0, why: Field },
    ),
    Row(
        b"\x00\x00\x00\x03\x01\x02a",
        "",
        Next::Bad { at: 0, why: Field },
    ),
    Row(
        b"\x00\x00\x00\x08\x01\x05alice!",
        "",
        Next::Bad { at: 0, why: Field },
    ),
    Row(
        b"\x00\x00\x00\x07\x01\x05alice",
        "login alice;",
        Next::Nothing,
    ),
    // A later login is told at its opcode, and a length at its fourth byte.
    Row(
        b"\x00\x00\x00\x07\x01\x05alice\x00\x00\x00\x07\x01",
        "login alice;",
        Next::Bad {
            at: 11,
            why: Opcode,
        },
    ),
    Row(
        b"\x00\x00\x00\x07\x01\x05alice\x00\x00\x00\x00",
        "login alice;",
        Next::Bad {
            at: 11,
            why: Length,
        },
    ),
    Row(
        b"\x00\x00\x00\x07\x01\x05alice\x00\x00\x00\x05\x05",
        "login alice;",
        Next::Bad {
            at: 11,
            why: Opcode,
        },
    ),
    Row(
        b"\x00\x00\x00\x07\x01\x05alice\x00\x00\x00\x05\x00",
        "login alice;",
        Next::Bad {
            at: 11,
            why: Opcode,
        },
    ),
    Row(
        b"\x00\x00\x00\x07\x01\x05alice\x00\x00\x00\x02\x04\x00",
        "login alice;",
        Next::Bad { at: 11, why: Field },
    ),
    Row(
        b"\x00\x00\x00\x07\x01\x05alice\x00\x00\x00\x02\x04",
        "login alice;",
        Next::Begun { at: 11 },
    ),
    Row(
        b"\x00\x00\x00\x07\x01\x05alice\x00\x00\x00\x01\x02",
        "login alice;message 0;",
        Next::Nothing,
    ),
    Row(
        b"\x00\x00\x00\x07\x01\x05alice\x00\x00\x00\x09\x03\x04townhi!",
        "login alice;channel town 3;",
        Next::Nothing,
    ),
    Row(
        b"\x00\x00\x00\x07\x01\x05alice\x00\x00\x00\x06\x03\x04town",
        "login alice;channel town 0;",
        Next::Nothing,
    ),
    Row(
        b"\x00\x00\x00\x07\x01\x05alice\x00\x00\x00\x05\x03\x04tow",
        "login alice;",
        Next::Bad { at: 11, why: Field },
    ),
    Row(
        b"\x00\x00\x00\x07\x01\x05alice\x00\x00\x00\x01\x02\x00\x00\x00\x01\x07",
        "login alice;message 0;",
        Next::Bad {
            at: 16,
            why: Opcode,
        },
    ),
    Row(
        b"\x00\x00\x00\x07\x01\x05alice\x00\x00\x00\x05\x02look\x00\x00\x00\x01\x04",
        "login alice;message 4;logout;",
        Next::Nothing,
    ),
    // Bytes behind a logout are not looked at.
    Row(
        b"\x00\x00\x00\x07\x01\x05alice\x00\x00\x00\x01\x04\x00\x00\x00\x00",
        "login alice;logout;",
        Next::Nothing,
    ),
    Row(
        b"\x00\x00\x00\x07\x01\x05alice\x00\x00\x00\x01\x04\x00",
        "login alice;logout;",
        Next::Nothing,
    ),
];

#[test]
fn a_stream_gives_its_frames_in_any_pieces(rt: HostRuntime) -> Result<(), Fail> {
    for Row(stream, frames, next) in &ROWS {
        for most in [1, 2, 3, 5, 1_000] {
            let (told, after) = read(rt.alloc(), stream, most)?;
            assert_eq!(rt; told.as_str(), *frames, "{stream:?} in pieces of {most}");
            assert_eq!(rt; after, *next, "{stream:?} in pieces of {most}");
        }
    }
    Ok(())
}

#[test]
fn a_session_is_truncated_within_each_frame(rt: HostRuntime) -> Result<(), Fail> {
    for len in 0..SESSION.len() {
        let next = match len {
            0 | 11 | 20 => Next::Nothing,
            1..=10 => Next::Begun { at: 0 },
            12..=19 => Next::Begun { at: 11 },
            _ => Next::Begun { at: 20 },
        };
        for most in [1, 25] {
            let (_, after) = read(rt.alloc(), &SESSION[..len], most)?;
            assert_eq!(rt; after, next, "cut at {len}");
        }
    }
    Ok(())
}

// A login, and a frame of this length and opcode, with this field before a body of zeros.
fn with_body(alloc: Global, head: &[u8], body: u64) -> Result<Vec<u8>, Fail> {
    let mut stream = Vec::from_slice(alloc, b"\x00\x00\x00\x07\x01\x05alice")?;
    stream.extend_from_slice(head)?;
    stream.resize(stream.len().saturating_add(body as usize), 0)?;
    Ok(stream)
}

#[test]
fn a_body_has_its_limit(rt: HostRuntime) -> Result<(), Fail> {
    let alloc = rt.alloc();
    let most = BODY_MOST_BYTES;
    let field = Next::Bad { at: 11, why: Field };
    // The head, the bytes behind it, what comes of them, and a length of pieces.
    for (head, body, frames, next, least) in [
        (
            b"\x00\x10\x00\x01\x02".as_slice(),
            most,
            "login alice;message 1048576;",
            Next::Nothing,
            4_096,
        ),
        (
            b"\x00\x10\x00\x02\x02".as_slice(),
            most + 1,
            "login alice;",
            field,
            1,
        ),
        (
            b"\x00\x10\x00\x03\x03\x01a".as_slice(),
            most,
            "login alice;channel a 1048576;",
            Next::Nothing,
            1_000,
        ),
        (
            b"\x00\x10\x00\x04\x03\x01a".as_slice(),
            most + 1,
            "login alice;",
            field,
            65_536,
        ),
        (
            b"\x00\x10\x00\x01\x02".as_slice(),
            most - 1,
            "login alice;",
            Next::Begun { at: 11 },
            4_097,
        ),
        // One byte above what two bytes can state.
        (
            b"\x00\x01\x00\x01\x02".as_slice(),
            65_536,
            "login alice;message 65536;",
            Next::Nothing,
            1,
        ),
        // The greatest length, of which a message cannot have the body.
        (
            b"\x00\x10\x01\x01\x02".as_slice(),
            most + 256,
            "login alice;",
            field,
            65_537,
        ),
    ] {
        let stream = with_body(alloc, head, body)?;
        for piece in [least, 2_000_000] {
            let (told, after) = read(alloc, stream.as_slice(), piece)?;
            assert_eq!(rt; told.as_str(), frames, "{head:?} and {body} bytes");
            assert_eq!(rt; after, next, "{head:?} and {body} bytes");
        }
    }
    Ok(())
}

// How many frames follow the login.
const FLOOD_COUNT: u32 = 1_024;

#[test]
fn a_flood_of_small_frames_loses_none(rt: HostRuntime) -> Result<(), Fail> {
    let alloc = rt.alloc();
    // A frame, and its text.
    for (frame, text) in [
        (b"\x00\x00\x00\x01\x02".as_slice(), "message 0;"),
        (b"\x00\x00\x00\x05\x03\x01ahi".as_slice(), "channel a 2;"),
    ] {
        let mut stream = Vec::from_slice(alloc, b"\x00\x00\x00\x07\x01\x05alice")?;
        let mut wanted = String::from_str(alloc, "login alice;")?;
        for _ in 0..FLOOD_COUNT {
            stream.extend_from_slice(frame)?;
            wanted.push_str(text)?;
        }
        for most in [1, 7, 100_000] {
            let (told, after) = read(alloc, stream.as_slice(), most)?;
            assert_eq!(rt;
                told.as_str(),
                wanted.as_str(),
                "{frame:?} in pieces of {most}"
            );
            assert_eq!(rt; after, Next::Nothing, "{frame:?} in pieces of {most}");
        }
    }
    Ok(())
}
