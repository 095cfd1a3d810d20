//! Clients that break the rules, or never take, over sessions that are polled.

use crate::hosting::play;
use crate::links::{link, polled, ready};
use crate::polled::BothEnded;
use crate::reading::{login_and, login_and_body};
use crate::rows::{ROWS, Row, SERVED, SESSION};
use crate::untaken::Untaken;
use dk_frame::FrameFault::Field;
use dk_pump::{BadFrame, SessionEnd, WriteEnd};
use std::alloc::AllocGlobal;
use std::random::RandomSource;
use std::sync::Wait;
use std::test::*;
use sword_world::SwordWorld;

// How a session of this stream in such pieces ends, and at which poll. One after it is served.
fn ended<R: Wait + RandomSource>(
    rt: &R,
    stream: &[u8],
    piece: usize,
) -> Result<(SessionEnd, u64), Fail>
where
    R: AllocGlobal,
{
    let first = link(rt.alloc(), stream, ready(piece))?;
    let second = link(rt.alloc(), SESSION, ready(piece))?;
    let told = polled(rt, first, second, false)?;
    if is_served(&told) {
        Ok((told.first.end, told.polls))
    } else {
        Err(Fail::from("a session that is served"))
    }
}

// Whether the second is served behind the first.
fn is_served(told: &BothEnded) -> bool {
    told.second.end == SessionEnd::Logout
        && told.second.put.as_slice() == SERVED
        && told.first.write == WriteEnd::Done
        && !told.recorded
}

#[test]
fn a_stream_ends_its_polled_session(rt: HostRuntime) -> Result<(), Fail> {
    for Row(stream, end) in &ROWS {
        for piece in [1, 1_000] {
            let told = ended(&rt, stream, piece)?.0;
            assert_eq!(rt; told, *end, "{stream:?} in pieces of {piece}");
        }
    }
    Ok(())
}

// The login waits too, so the last message has no place. The end is told when the worker has run what was taken.
#[test]
fn a_polled_session_floods_its_queue(rt: HostRuntime) -> Result<(), Fail> {
    let stream = login_and(rt.alloc(), b"\x00\x00\x00\x01\x02", 1_024)?;
    for piece in [1, 100_000] {
        let told = ended(&rt, stream.as_slice(), piece)?;
        assert_eq!(rt; told, (SessionEnd::Flood { waiting: 1_024 }, 2));
    }
    Ok(())
}

#[test]
fn a_body_has_its_limit_in_a_polled_session(rt: HostRuntime) -> Result<(), Fail> {
    let bad = SessionEnd::Bad(BadFrame { at: 11, why: Field });
    for (head, body, end) in [
        (
            b"\x00\x01\x00\x01\x02".as_slice(),
            65_536,
            SessionEnd::End { at: 65_552 },
        ),
        (b"\x00\x10\x00\x02\x02".as_slice(), 1_048_577, bad),
    ] {
        let stream = login_and_body(rt.alloc(), head, body)?;
        for piece in [1, 100_000] {
            assert_eq!(rt; ended(&rt, stream.as_slice(), piece)?.0, end);
        }
    }
    Ok(())
}

// The answer to the last look finds 4,096 messages that wait, and cuts the connection off.
#[test]
fn a_client_that_never_takes_is_cut_off(rt: HostRuntime) -> Result<(), Fail> {
    let scene = Untaken {
        batches: &[1_000, 1_000, 1_000, 1_000, 96],
        hands: 5,
        most: 1_000,
    };
    let handed = play(&rt, rt.alloc(), &SwordWorld::new(), false, scene)?;
    let wanted = [
        (1_000, false),
        (1_000, false),
        (1_000, false),
        (1_000, false),
        (96, true),
    ];
    assert_eq!(rt; handed.as_slice(), wanted.as_slice());
    Ok(())
}
