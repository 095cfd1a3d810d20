//! Sessions that are read by the blocking calls.

use crate::blocking::{Sessions, TwoRead};
use crate::hosting::play;
use crate::rows::{LOGIN, ROWS, Row, SESSION};
use dk_edge::MemorySource;
use dk_frame::FrameFault::Field;
use dk_pump::{BadFrame, SessionEnd};
use dk_types::{ConnectReply, Event, Input, PostReply};
use std::alloc::Global;
use std::sync::Wait;
use std::test::*;
use sword_world::SwordWorld;

/// A source of these bytes, in pieces of so many at most.
pub(crate) fn source(
    alloc: Global,
    bytes: &[u8],
    piece: usize,
    failing: &[u64],
) -> Result<MemorySource, Fail> {
    Ok(MemorySource::in_pieces(
        Vec::from_slice(alloc, bytes)?,
        Vec::from_slice(alloc, failing)?,
        piece.max(1),
    ))
}

// Two sessions on a host that keeps its events, or none.
fn kept_sessions<R: Wait>(
    rt: &R,
    alloc: Global,
    first: MemorySource,
    second: MemorySource,
    keep: bool,
) -> Result<Sessions, Fail> {
    play(
        rt,
        alloc,
        &SwordWorld::new(),
        keep,
        TwoRead { first, second },
    )
}

// How a session of this stream in such pieces ends, with these calls failing, and how another does after it on the same host.
fn two_sessions<R: Wait>(
    rt: &R,
    alloc: Global,
    stream: &[u8],
    failing: &[u64],
    pieces: (usize, usize),
) -> Result<(SessionEnd, SessionEnd), Fail> {
    let first = source(alloc, stream, pieces.0, failing)?;
    let second = source(alloc, SESSION, pieces.1, &[])?;
    Ok(kept_sessions(rt, alloc, first, second, false)?.ends)
}

#[test]
fn a_stream_ends_its_session_in_any_pieces(rt: HostRuntime) -> Result<(), Fail> {
    let alloc = rt.alloc();
    for Row(stream, end) in &ROWS {
        for piece in [1, 1_000] {
            let (one, other) = two_sessions(&rt, alloc, stream, &[], (piece, piece))?;
            assert_eq!(rt; one, *end, "{stream:?} in pieces of {piece}");
            assert_eq!(rt; other, SessionEnd::Logout);
        }
    }
    Ok(())
}

#[test]
fn a_source_that_fails_ends_its_session_alone(rt: HostRuntime) -> Result<(), Fail> {
    let alloc = rt.alloc();
    for failing in 1..=25 {
        let (one, other) = two_sessions(&rt, alloc, SESSION, &[failing], (1, 1))?;
        assert_eq!(rt; one, SessionEnd::ReadFault, "at call {failing}");
        assert_eq!(rt; other, SessionEnd::Logout);
    }
    Ok(())
}

/// The login, and these bytes so many times.
pub(crate) fn login_and(alloc: Global, bytes: &[u8], times: u32) -> Result<Vec<u8>, Fail> {
    let mut stream = Vec::from_slice(alloc, LOGIN)?;
    for _ in 0..times {
        stream.extend_from_slice(bytes)?;
    }
    Ok(stream)
}

/// The login, these bytes, and so many zeros.
pub(crate) fn login_and_body(alloc: Global, head: &[u8], body: u32) -> Result<Vec<u8>, Fail> {
    let mut stream = login_and(alloc, head, 1)?;
    for _ in 0..body {
        stream.push(0)?;
    }
    Ok(stream)
}

#[test]
fn a_session_floods_its_queue(rt: HostRuntime) -> Result<(), Fail> {
    let alloc = rt.alloc();
    // The login waits too, so the last of these has no place.
    for (count, end) in [
        (1_023, SessionEnd::End { at: 5_126 }),
        (1_024, SessionEnd::Flood { waiting: 1_024 }),
    ] {
        let stream = login_and(alloc, b"\x00\x00\x00\x01\x02", count)?;
        for piece in [1, 100_000] {
            let (one, other) = two_sessions(&rt, alloc, &stream, &[], (piece, piece))?;
            assert_eq!(rt; one, end, "{count} messages in pieces of {piece}");
            assert_eq!(rt; other, SessionEnd::Logout);
        }
    }
    Ok(())
}

#[test]
fn a_body_that_is_too_long_is_bad(rt: HostRuntime) -> Result<(), Fail> {
    let alloc = rt.alloc();
    let stream = login_and_body(alloc, b"\x00\x10\x00\x02\x02", 1_048_577)?;
    let (one, other) = two_sessions(&rt, alloc, &stream, &[], (100_000, 1))?;
    assert_eq!(rt; one, SessionEnd::Bad(BadFrame { at: 11, why: Field }));
    assert_eq!(rt; other, SessionEnd::Logout);
    Ok(())
}

// What two whole sessions enter, after a hand to a connection that is not there.
const KEPT: &str =
    "hand 7, connect 0, message 0, disconnect 0, connect 1, message 1, disconnect 1, ";

// An event by a word and its connection, if it is one of these.
fn kept_event(event: &Event) -> Option<(&'static str, u64)> {
    match event {
        Event::Hand {
            conn,
            end: true,
            ..
        } => Some(("hand", conn.0)),
        Event::Connect {
            reply: ConnectReply::Number(conn),
            ..
        } => Some(("connect", conn.0)),
        Event::Post {
            conn,
            input: Input::Message(_),
            reply: PostReply::Taken,
            ..
        } => Some(("message", conn.0)),
        Event::Post {
            conn,
            input: Input::Disconnect { graceful: true },
            reply: PostReply::Taken,
            ..
        } => Some(("disconnect", conn.0)),
        _ => None,
    }
}

fn kept(alloc: Global, events: &[Event]) -> Result<String, Fail> {
    let mut text = String::new(alloc);
    for event in events {
        let line = match kept_event(event) {
            Some((word, conn)) => format!(in alloc; "{word} {conn}, ")?,
            None => format!(in alloc; "other, ")?,
        };
        text.push_str(line.as_str())?;
    }
    Ok(text)
}

// How two whole sessions end, how many events are kept by then, and which, on a host that keeps its events or none.
fn kept_of_two<R: Wait>(
    rt: &R,
    alloc: Global,
    keep: bool,
) -> Result<((SessionEnd, SessionEnd), u64, String), Fail> {
    let first = source(alloc, SESSION, 1, &[])?;
    let second = source(alloc, SESSION, 1_000, &[])?;
    let Sessions {
        ends,
        count,
        events,
    } = kept_sessions(rt, alloc, first, second, keep)?;
    Ok((ends, count, kept(alloc, events.as_slice())?))
}

#[test]
fn a_host_keeps_its_events_where_it_is_to(rt: HostRuntime) -> Result<(), Fail> {
    let alloc = rt.alloc();
    for (keep, count, wanted) in [(true, 7, KEPT), (false, 0, "")] {
        let told = kept_of_two(&rt, alloc, keep)?;
        assert_eq!(rt; told.0, (SessionEnd::Logout, SessionEnd::Logout));
        assert_eq!(rt; told.1, count);
        assert_eq!(rt; told.2.as_str(), wanted);
    }
    Ok(())
}
