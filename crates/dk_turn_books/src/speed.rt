//! What a benchmark of the turn runs: turns that do nothing, beside a plain lock that does nothing and counts.
ghost use Rattle.std.specs.Prelude.{◌≡◌, ◌<◌, ◌≤◌, [], IfSome};
ghost use Rattle.dk_turn.specs.Fronts.{Continues};

use crate::many_turns::{begin, end};
use crate::tally::Tally;
use dk_turn::{EmptyStep, Naming, Pass, Turn, TurnBuilder};
use std::alloc::Global;
use std::marker::Brand;
use std::sync::atomic::AtomicU64;
use std::sync::atomic::Ordering::SeqCst;
use std::sync::{Mutex, Wait};

/// Takes this many turns that do nothing, in one thread.
pub fn empty_turns<J: Naming, R: Wait>(
    rt: &R,
    turn: &Turn<Tally, J>,
    pass: &mut Pass<Tally, J>,
    turns: u64,
)
    ensures number { pass.new.number ≡ pass.old.number }
    ensures seen { Continues (λ t. t.by) pass.old.number pass.old.front pass.new.front }
{
    for _ in 0..turns {
        turn.with(rt, pass, EmptyStep);
    }
}

/// Locks a mutex that nobody else has, unlocks it, and adds one to an atomic number, this many times. Answers the number.
pub fn locked_adds<R: Wait>(rt: &R, rounds: u64) -> u64 {
    let lock = Mutex::new(0u64);
    let added = AtomicU64::new(0);
    for _ in 0..rounds {
        drop(lock.lock(rt));
        added.fetch_add(1, SeqCst);
    }
    added.load(SeqCst)
}

fn empty_turns_of<J: Naming, R: Wait>(
    rt: &R,
    alloc: Global,
    blank: TurnBuilder<Tally>,
    turns: u64,
) -> Option<u64>
    requires { (blank ≡ J.name) × (blank.passes ≡ 2) }
    ensures { IfSome result (λ total. total ≡ 0) }
{
    let (turn, mut one, two) = begin::<J>(alloc, blank)?;
    empty_turns(rt, &turn, &mut one, turns);
    let total = end(alloc, turn, one, two)?;
    Some(total)
}

/// The same turns at a tally of their own, whose count at the end is answered. None where there was no memory.
pub fn empty_turns_anew<R: Wait>(rt: &R, alloc: Global, turns: u64) -> Option<u64>
    ensures { IfSome result (λ total. total ≡ 0) }
{
    let blank = TurnBuilder::new(alloc, 2).ok()?;
    empty_turns_of::<Brand, R>(rt, alloc, blank, turns)
}
