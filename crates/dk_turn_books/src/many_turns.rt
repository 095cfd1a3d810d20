//! Two threads that take many turns each at one tally.
ghost use Rattle.std.specs.Prelude.{◌≡◌, ◌+◌, ◌*◌, ◌-◌, ◌^◌, ◌<◌, ◌≤◌, true, false, List, [], ◌∷◌, length, IfSome};
ghost use Rattle.std.specs.List.{All};
ghost use Rattle.dk_turn.specs.Fronts.{known, ContinuesAll};
ghost use Rattle.dk_turn_books.specs.Ticks.{ticks_of, Took};
ghost use Rattle.dk_turn_books.specs.declared.tally.Tick.{Tick};

use crate::tally::{Count, Tally, Tick};
use dk_turn::{GhostList, Naming, Pass, Turn, TurnBuilder};
use std::alloc::Global;
use std::marker::Brand;
use std::sync::Wait;
use std::thread::{Threads, join};

// An empty tally behind a turn with two passes.
pub(crate) fn begin<J: Naming>(
    alloc: Global,
    blank: TurnBuilder<Tally>,
) -> Option<(Turn<Tally, J>, Pass<Tally, J>, Pass<Tally, J>)>
    requires { (blank ≡ J.name) × (blank.passes ≡ 2) }
    ensures { IfSome result (λ r. (r.1 ≡ known 0 []) × (r.2 ≡ known 1 [])) }
{
    let ticks = GhostList::new(alloc).ok()?;
    let Ok((turn, mut passes)) = Turn::<Tally, J>::new(alloc, blank, Tally { ticks, count: 0 })
    else {
        return None;
    };
    let two = passes.pop()?;
    let one = passes.pop()?;
    Some((turn, one, two))
}

// One turn, and whether it was counted.
fn count<J: Naming, R: Wait>(rt: &R, turn: &Turn<Tally, J>, pass: &mut Pass<Tally, J>) -> bool
    ensures number { pass.new.number ≡ pass.old.number }
    ensures counted { result ≡ true
        → ticks_of pass.old.number pass.new.front ≡ ticks_of pass.old.number pass.old.front + 1 }
    ensures full { result ≡ false
        → (ticks_of pass.old.number pass.new.front ≡ ticks_of pass.old.number pass.old.front)
        × (length pass.new.front ≡ 2 ^ 64 - 1) }
    ensures longer { length pass.old.front ≤ length pass.new.front }
{
    turn.with(rt, pass, Count).is_some()
}

// Takes the turns one after another, and gives the pass back with the number of those that were counted.
fn count_all<J: Naming, R: Wait>(
    rt: &R,
    turn: &Turn<Tally, J>,
    mut pass: Pass<Tally, J>,
    turns: u64,
) -> (Pass<Tally, J>, u64)
    requires { pass.front ≡ [] }
    ensures number { result.0.number ≡ pass.number }
    ensures took { Took pass.number turns result.1 result.0.front }
{
    let mut counted = 0;
    for _ in 0..turns {
        if count(rt, turn, &mut pass) {
            counted += 1;
        }
    }
    (pass, counted)
}

// Two threads take that many turns each.
fn count_in_threads<J: Naming + Send + Sync, R: Threads + Wait + Sync>(
    rt: &R,
    turn: &Turn<Tally, J>,
    one: Pass<Tally, J>,
    two: Pass<Tally, J>,
    turns: u64,
) -> ((Pass<Tally, J>, u64), (Pass<Tally, J>, u64))
    requires fronts { (one.front ≡ []) × (two.front ≡ []) }
    ensures numbers { (result.0.0.number ≡ one.number) × (result.1.0.number ≡ two.number) }
    ensures one { Took one.number turns result.0.1 result.0.0.front }
    ensures two { Took two.number turns result.1.1 result.1.0.front }
{
    join(
        rt,
        || -> (Pass<Tally, J>, u64)
            requires { one.front ≡ [] }
            ensures number { result.0.number ≡ one.number }
            ensures took { Took one.number turns result.1 result.0.front }
        { count_all(rt, turn, one, turns) },
        || -> (Pass<Tally, J>, u64)
            requires { two.front ≡ [] }
            ensures number { result.0.number ≡ two.number }
            ensures took { Took two.number turns result.1 result.0.front }
        { count_all(rt, turn, two, turns) },
    )
}

// The tally at the end. Its history is what it stands for, and is handed out to contracts alone.
pub(crate) fn end<J: Naming>(
    alloc: Global,
    turn: Turn<Tally, J>,
    one: Pass<Tally, J>,
    two: Pass<Tally, J>,
) -> Option<u64>
    ensures { IfSome result (λ n. (log : List Tick)
        × (n ≡ length log)
        × ContinuesAll (λ t. t.by) (one ∷ two ∷ []) log
        × All (λ t. t.by < J.name.passes) log) }
{
    let mut passes = Vec::new(alloc);
    passes.reserve(2).ok()?;
    passes.push_reserved(one);
    passes.push_reserved(two);
    let Tally { ticks: _, count } = turn.close(passes);
    Some(count)
}

fn tally<J: Naming + Send + Sync, R: Threads + Wait + Sync>(
    rt: &R,
    alloc: Global,
    blank: TurnBuilder<Tally>,
    turns: u64,
) -> Option<u64>
    requires name { (blank ≡ J.name) × (blank.passes ≡ 2) }
    requires turns { turns < 2 ^ 62 }
    ensures { IfSome result (λ total. total ≡ 2 * turns) }
{
    let (turn, one, two) = begin::<J>(alloc, blank)?;
    let ((one, _), (two, _)) = count_in_threads(rt, &turn, one, two, turns);
    let total = end(alloc, turn, one, two)?;
    Some(total)
}

/// Two threads take that many turns each at one tally, and no turn is lost. None where there was no memory.
pub fn tally_in_threads<R: Threads + Wait + Sync>(rt: &R, alloc: Global, turns: u64) -> Option<u64>
    requires { turns < 2 ^ 62 }
    ensures { IfSome result (λ total. total ≡ 2 * turns) }
{
    let blank = TurnBuilder::new(alloc, 2).ok()?;
    tally::<Brand, R>(rt, alloc, blank, turns)
}

fn count_by_passes<J: Naming, R: Wait>(
    rt: &R,
    alloc: Global,
    blank: TurnBuilder<Tally>,
) -> Option<u64>
    requires { blank ≡ J.name }
{
    let ticks = GhostList::new(alloc).ok()?;
    let Ok((turn, mut passes)) = Turn::<Tally, J>::new(alloc, blank, Tally { ticks, count: 0 })
    else {
        return None;
    };
    for pass in passes.iter_mut() {
        turn.with(rt, pass, Count);
    }
    let Tally { ticks: _, count } = turn.close(passes);
    Some(count)
}

/// Each of so many passes of one tally counts once, and the number at the end is answered. None where there was no memory, or
/// no turn has so many.
pub fn count_by_each<R: Wait>(rt: &R, alloc: Global, passes: u32) -> Option<u64> {
    let blank = TurnBuilder::new(alloc, passes).ok()?;
    count_by_passes::<Brand, R>(rt, alloc, blank)
}
