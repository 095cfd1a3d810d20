//! Two threads that run the legs of a relay, each waiting for the other's.
ghost use Rattle.std.specs.Prelude.{◌≡◌, ◌+◌, ◌*◌, ◌%◌, ◌^◌, ◌<◌, [], ◌∷◌, length, IfSome, OnOk, OnErr};
ghost use Rattle.std.specs.List.{All};
ghost use Rattle.dk_turn.specs.Fronts.{known, Continues, ContinuesAll};
ghost use Rattle.dk_turn_books.specs.Legs.{legs_of, IsInTurn};

use crate::relay::{CountLegs, Leg, Relay, RunLeg};
use dk_turn::{Naming, Pass, Turn, TurnBuilder};
use std::alloc::{AllocError, Global};
use std::marker::Brand;
use std::sync::Wait;
use std::thread::{Threads, join};

// Waits until the next leg is this pass's.
fn await_turn<J: Naming, R: Wait>(rt: &R, turn: &Turn<Relay, J>, pass: &mut Pass<Relay, J>)
    ensures number { pass.new.number ≡ pass.old.number }
    ensures seen { Continues (λ l. l.by) pass.old.number pass.old.front pass.new.front }
    ensures own_turn { length pass.new.front % 2 ≡ pass.old.number }
{
    for _ in rt.forever() {
        let legs = turn.with(rt, pass, CountLegs);
        if legs % 2 == pass.number() as usize {
            return;
        }
        turn.wait(rt, pass);
    }
    unreachable!()
}

// Runs a leg. That it is still this pass's, whatever the others did, follows from the relay's order: the next leg is no other pass's.
fn run_leg<J: Naming, R: Wait>(
    rt: &R,
    turn: &Turn<Relay, J>,
    pass: &mut Pass<Relay, J>,
) -> Result<(), AllocError>
    requires { length pass.old.front % 2 ≡ pass.old.number }
    ensures number { pass.new.number ≡ pass.old.number }
    ensures ran { OnOk result (legs_of pass.old.number pass.new.front ≡ legs_of pass.old.number pass.old.front + 1) }
    ensures err { OnErr result (legs_of pass.old.number pass.new.front ≡ legs_of pass.old.number pass.old.front) }
{
    turn.with(rt, pass, RunLeg)
}

// Runs this many legs, and gives the pass back.
fn run_legs<J: Naming, R: Wait>(
    rt: &R,
    turn: &Turn<Relay, J>,
    mut pass: Pass<Relay, J>,
    legs: usize,
) -> Option<Pass<Relay, J>>
    requires { pass.front ≡ [] }
    ensures number { IfSome result (λ p. p.number ≡ pass.number) }
    ensures ran { IfSome result (λ p. legs_of pass.number p.front ≡ legs) }
{
    for _ in 0..legs {
        await_turn(rt, turn, &mut pass);
        run_leg(rt, turn, &mut pass).ok()?;
    }
    Some(pass)
}

// A relay with room for this many legs, so that none of them takes memory, behind a turn with two passes.
fn begin<J: Naming>(
    alloc: Global,
    blank: TurnBuilder<Relay>,
    room: usize,
) -> Option<(Turn<Relay, J>, Pass<Relay, J>, Pass<Relay, J>)>
    requires { (blank ≡ J.name) × (blank.passes ≡ 2) }
    ensures { IfSome result (λ r. (r.1 ≡ known 0 []) × (r.2 ≡ known 1 [])) }
{
    let mut legs = Vec::new(alloc);
    legs.reserve(room).ok()?;
    let Ok((turn, mut passes)) = Turn::<Relay, J>::new(alloc, blank, Relay { legs }) else {
        return None;
    };
    let two = passes.pop()?;
    let one = passes.pop()?;
    Some((turn, one, two))
}

// Two threads run this many legs each.
fn run_in_threads<J: Naming + Send + Sync, R: Threads + Wait + Sync>(
    rt: &R,
    turn: &Turn<Relay, J>,
    one: Pass<Relay, J>,
    two: Pass<Relay, J>,
    legs: usize,
) -> Option<(Pass<Relay, J>, Pass<Relay, J>)>
    requires fronts { (one.front ≡ []) × (two.front ≡ []) }
    ensures numbers { IfSome result (λ r. (r.0.number ≡ one.number) × (r.1.number ≡ two.number)) }
    ensures one { IfSome result (λ r. legs_of one.number r.0.front ≡ legs) }
    ensures two { IfSome result (λ r. legs_of two.number r.1.front ≡ legs) }
{
    let (first, second) = join(
        rt,
        || -> Option<Pass<Relay, J>>
            requires { one.front ≡ [] }
            ensures number { IfSome result (λ p. p.number ≡ one.number) }
            ensures ran { IfSome result (λ p. legs_of one.number p.front ≡ legs) }
        { run_legs(rt, turn, one, legs) },
        || -> Option<Pass<Relay, J>>
            requires { two.front ≡ [] }
            ensures number { IfSome result (λ p. p.number ≡ two.number) }
            ensures ran { IfSome result (λ p. legs_of two.number p.front ≡ legs) }
        { run_legs(rt, turn, two, legs) },
    );
    Some((first?, second?))
}

// All legs, once no thread has the turn.
fn end<J: Naming>(
    alloc: Global,
    turn: Turn<Relay, J>,
    one: Pass<Relay, J>,
    two: Pass<Relay, J>,
) -> Option<Vec<Leg>>
    ensures fronts { IfSome result (λ v. ContinuesAll (λ l. l.by) (one ∷ two ∷ []) v.items) }
    ensures named { IfSome result (λ v. All (λ l. l.by < J.name.passes) v.items) }
    ensures in_turn { IfSome result (λ v. IsInTurn v.items) }
{
    let mut passes = Vec::new(alloc);
    passes.reserve(2).ok()?;
    passes.push_reserved(one);
    passes.push_reserved(two);
    let Relay { legs } = turn.close(passes);
    Some(legs)
}

fn race_of<J: Naming + Send + Sync, R: Threads + Wait + Sync>(
    rt: &R,
    alloc: Global,
    blank: TurnBuilder<Relay>,
    legs: usize,
) -> Option<Vec<Leg>>
    requires name { (blank ≡ J.name) × (blank.passes ≡ 2) }
    requires legs { legs < 2 ^ 62 }
    ensures in_turn { IfSome result (λ v. IsInTurn v.items) }
    ensures all { IfSome result (λ v. length v.items ≡ 2 * legs) }
{
    let (turn, one, two) = begin::<J>(alloc, blank, 2 * legs)?;
    let (one, two) = run_in_threads(rt, &turn, one, two, legs)?;
    let legs_run = end(alloc, turn, one, two)?;
    Some(legs_run)
}

/// Two threads run this many legs each, in turn. None where there was no memory. It needs both threads at once, since each waits for the other.
pub fn race_in_threads<R: Threads + Wait + Sync>(
    rt: &R,
    alloc: Global,
    legs: usize,
) -> Option<Vec<Leg>>
    requires { legs < 2 ^ 62 }
    ensures in_turn { IfSome result (λ v. IsInTurn v.items) }
    ensures all { IfSome result (λ v. length v.items ≡ 2 * legs) }
{
    let blank = TurnBuilder::new(alloc, 2).ok()?;
    race_of::<Brand, R>(rt, alloc, blank, legs)
}
