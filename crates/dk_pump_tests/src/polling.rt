//! Sessions that are polled, over links of each manner.

use crate::links::{Manner, link, polled, ready, waiting};
use crate::polled::{BothEnded, Ended};
use crate::rows::{SERVED, SESSION};
use dk_pump::{SessionEnd, WriteEnd};
use std::process::Abort;
use std::random::RandomSource;
use std::sync::Wait;
use std::test::*;

// bob logs in, looks and logs out.
const BOB: &[u8] = b"\x00\x00\x00\x05\x01\x03bob\x00\x00\x00\x05\x02look\x00\x00\x00\x01\x04";

// How many bytes a link gives at a call, and how many it takes where it is not ready before each answer.
const MANNERS: [(usize, Option<usize>); 5] = [
    (25, None),
    (1, None),
    (1, Some(1_000)),
    (25, Some(1)),
    (1, Some(1)),
];

// Two sessions in SwordWorld over links of these manners.
fn both<R: Wait + RandomSource>(
    rt: &R,
    first: Manner,
    stream: &[u8],
    second: Manner,
    together: bool,
) -> Result<BothEnded, Fail>
where
    R: AllocGlobal,
{
    let first = link(rt.alloc(), SESSION, first)?;
    let second = link(rt.alloc(), stream, second)?;
    polled(rt, first, second, together)
}

fn assert_left(rt: &impl Abort, told: &BothEnded) {
    assert_eq!(rt; told.tally, 2);
    assert!(rt; !told.recorded);
}

fn assert_served(rt: &impl Abort, ended: &Ended, manner: Manner) {
    assert_eq!(rt; ended.end, SessionEnd::Logout, "{manner:?}");
    assert_eq!(rt; ended.write, WriteEnd::Done, "{manner:?}");
    assert_eq!(rt; ended.put.as_slice(), SERVED, "{manner:?}");
}

// How a session ended and was written, where the first link failed after so many bytes.
fn assert_ended(rt: &impl Abort, ended: &Ended, end: SessionEnd, write: WriteEnd, after: usize) {
    assert_eq!(rt; ended.end, end, "after {after} bytes");
    assert_eq!(rt; ended.write, write, "after {after} bytes");
}

fn assert_put(rt: &impl Abort, ended: &Ended, put: &[u8]) {
    assert_eq!(rt; ended.put.as_slice(), put);
}

#[test]
fn a_session_is_served_over_each_link(rt: HostRuntime) -> Result<(), Fail> {
    for (take, put) in MANNERS {
        let manner = match put {
            None => ready(take),
            Some(put) => waiting(take, put),
        };
        let told = both(&rt, manner, SESSION, manner, false)?;
        assert_served(&rt, &told.first, manner);
        assert_served(&rt, &told.second, manner);
        assert_left(&rt, &told);
    }
    Ok(())
}

// Bob's session begins before alice's fails, and ends after it.
#[test]
fn a_link_that_fails_to_give_ends_its_session_alone(rt: HostRuntime) -> Result<(), Fail> {
    for taken in 0..25usize {
        let mut manner = waiting(1, 1_000);
        manner.take_fails = taken as u64 + 1;
        let told = both(&rt, manner, BOB, waiting(1, 1), true)?;
        assert_ended(
            &rt,
            &told.first,
            SessionEnd::ReadFault,
            WriteEnd::Done,
            taken,
        );
        assert_ended(&rt, &told.second, SessionEnd::Logout, WriteEnd::Done, taken);
        assert_left(&rt, &told);
    }
    Ok(())
}

#[test]
fn a_link_that_fails_to_take_ends_its_session_alone(rt: HostRuntime) -> Result<(), Fail> {
    for put in 0..SERVED.len() {
        let mut manner = waiting(25, 1);
        manner.put_fails = put as u64 + 1;
        let told = both(&rt, manner, BOB, waiting(1, 1), true)?;
        assert_ended(
            &rt,
            &told.first,
            SessionEnd::Logout,
            WriteEnd::WriteFault,
            put,
        );
        assert_put(&rt, &told.first, &SERVED[..put]);
        assert_ended(&rt, &told.second, SessionEnd::Logout, WriteEnd::Done, put);
        assert_put(&rt, &told.second, SERVED);
        assert_left(&rt, &told);
    }
    Ok(())
}
