//! Books that threads share behind a turn.

use dk_turn_books::{
    Leg, append_both_anew, count_by_each, empty_turns_anew, locked_adds, race_in_threads,
    tally_in_threads,
};
use std::alloc::Global;
use std::io::{self, Write};
use std::sync::Wait;
use std::thread::Threads;

/// What comes of each book: two lines, a million turns of two threads, two thousand legs, a thousand empty turns beside as many
/// additions under a lock, and the most passes that a turn has.
pub fn tell<R: Threads + Wait + Sync, W: Write>(
    alloc: Global,
    rt: &R,
    out: &mut W,
) -> io::Result<()> {
    line(out, lines(alloc, rt, 30, 40))?;
    line(out, tally(alloc, rt, 500_000))?;
    line(out, relay(alloc, rt, 1_000))?;
    line(out, empty(alloc, rt, 1_000))?;
    line(out, passes(alloc, rt, 1_025))
}

fn line<W: Write>(out: &mut W, text: Option<String>) -> io::Result<()> {
    match text {
        Some(text) => writeln!(out, "{text}"),
        None => writeln!(out, "nothing"),
    }
}

fn tally<R: Threads + Wait + Sync>(alloc: Global, rt: &R, turns: u32) -> Option<String> {
    let total = tally_in_threads(rt, alloc, u64::from(turns))?;
    format!(in alloc; "{total} turns").ok()
}

/// Two lines of two threads: how many there are, what stands where each thread was told, and what was read.
fn lines<R: Threads + Wait + Sync>(alloc: Global, rt: &R, one: u64, two: u64) -> Option<String> {
    if one == 0 || two == 0 {
        return None;
    }
    let (lines, first, second, read) = append_both_anew(rt, alloc, one, two)?;
    let (first, second) = (lines.get(first)?.value, lines.get(second)?.value);
    format!(in alloc;
        "{} lines, {first} and {second}, read {}",
        lines.len(),
        read.value
    )
    .ok()
}

/// How many legs were run, at most a million by each, and whether by two passes in turn.
fn relay<R: Threads + Wait + Sync>(alloc: Global, rt: &R, legs: usize) -> Option<String> {
    if legs > 1_000_000 {
        return None;
    }
    let run = race_in_threads(rt, alloc, legs)?;
    let in_turn = is_in_turn(run.as_slice());
    format!(in alloc; "{} legs, in turn {in_turn}", run.len()).ok()
}

fn is_in_turn(legs: &[Leg]) -> bool {
    for (place, leg) in legs.iter().enumerate() {
        if leg.by as usize != place % 2 {
            return false;
        }
    }
    true
}

/// What so many empty turns enter, and so many additions under a lock.
fn empty<R: Wait>(alloc: Global, rt: &R, turns: u64) -> Option<String> {
    let entered = empty_turns_anew(rt, alloc, turns)?;
    let added = locked_adds(rt, turns);
    format!(in alloc; "{entered} entered and {added} added").ok()
}

/// What a tally has come to when each of so many passes has counted once.
fn passes<R: Wait>(alloc: Global, rt: &R, passes: u32) -> Option<String> {
    let count = count_by_each(rt, alloc, passes)?;
    format!(in alloc; "{count} passes").ok()
}
