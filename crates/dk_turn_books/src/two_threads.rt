//! Calls by passes, in any thread.
ghost use Rattle.std.specs.Prelude.{◌≡◌, ◌<◌, [], ◌∷◌, ◌++◌, length, Some, IfSome, MatchOption, slice_get};
ghost use Rattle.std.specs.List.{All};
ghost use mathlib.Core.List.{IsPrefix};
ghost use Rattle.dk_turn.specs.Fronts.{known, Continues, ContinuesAll};
ghost use Rattle.dk_turn_books.specs.Lines.{line, own_lines, HasLine, portion};

use crate::journal::{Append, Journal, Line, Portion, Recall};
use dk_turn::{Naming, Pass, Turn, TurnBuilder};
use std::alloc::Global;
use std::marker::Brand;
use std::sync::Wait;
use std::thread::{Threads, join};

/// Appends a line, and answers its place in the history.
pub fn append<J: Naming, R: Wait>(
    rt: &R,
    turn: &Turn<Journal, J>,
    pass: &mut Pass<Journal, J>,
    value: u64,
) -> Option<usize>
    requires { 0 < value }
    ensures number { pass.new.number ≡ pass.old.number }
    ensures seen { IsPrefix pass.old.front pass.new.front }
    ensures own { MatchOption result
        (own_lines pass.old.number pass.new.front ≡ own_lines pass.old.number pass.old.front)
        (λ _. own_lines pass.old.number pass.new.front
        ≡ own_lines pass.old.number pass.old.front ++ line pass.old.number value ∷ []) }
    ensures place { IfSome result (λ place. slice_get pass.new.front place ≡ Some (line pass.old.number value)) }
{
    turn.with(rt, pass, Append { value })
}

/// The line at a place that the pass has seen.
pub fn recall<J: Naming, R: Wait>(
    rt: &R,
    turn: &Turn<Journal, J>,
    pass: &mut Pass<Journal, J>,
    place: usize,
) -> Line
    requires { place < length pass.old.front }
    ensures number { pass.new.number ≡ pass.old.number }
    ensures seen { Continues (λ l. l.by) pass.old.number pass.old.front pass.new.front }
    ensures line { slice_get pass.old.front place ≡ Some result }
{
    turn.with(rt, pass, Recall { place })
}

/// The portion at a place that the pass has seen, whose value is positive as all are.
pub fn portion_of<J: Naming, R: Wait>(
    rt: &R,
    turn: &Turn<Journal, J>,
    pass: &mut Pass<Journal, J>,
    place: usize,
    total: u64,
) -> u64
    requires { place < length pass.old.front }
    ensures number { pass.new.number ≡ pass.old.number }
    ensures seen { Continues (λ l. l.by) pass.old.number pass.old.front pass.new.front }
    ensures portion { portion place total pass.old.front result }
{
    turn.with(
        rt,
        pass,
        Portion {
            place: &place,
            total,
        },
    )
}

// A turn with two passes.
fn begin<J: Naming>(
    alloc: Global,
    blank: TurnBuilder<Journal>,
) -> Option<(Turn<Journal, J>, Pass<Journal, J>, Pass<Journal, J>)>
    requires { (blank ≡ J.name) × (blank.passes ≡ 2) }
    ensures { IfSome result (λ r. (r.1 ≡ known 0 []) × (r.2 ≡ known 1 [])) }
{
    let lines = Vec::new(alloc);
    let Ok((turn, mut passes)) = Turn::<Journal, J>::new(alloc, blank, Journal { lines }) else {
        return None;
    };
    let two = passes.pop()?;
    let one = passes.pop()?;
    Some((turn, one, two))
}

// Appends the first line of a pass, and gives the pass back.
fn append_first<J: Naming, R: Wait>(
    rt: &R,
    turn: &Turn<Journal, J>,
    mut pass: Pass<Journal, J>,
    value: u64,
) -> (Pass<Journal, J>, Option<usize>)
    requires { (pass.front ≡ []) × (0 < value) }
    ensures number { result.0.number ≡ pass.number }
    ensures place { IfSome result.1 (λ place. HasLine pass.number value place result.0.front) }
{
    let place = append(rt, turn, &mut pass, value);
    (pass, place)
}

// Two threads append a line each.
fn append_in_threads<J: Naming + Send + Sync, R: Threads + Wait + Sync>(
    rt: &R,
    turn: &Turn<Journal, J>,
    one: Pass<Journal, J>,
    two: Pass<Journal, J>,
    first: u64,
    second: u64,
) -> Option<(Pass<Journal, J>, Pass<Journal, J>, usize, usize)>
    requires fronts { (one.front ≡ []) × (two.front ≡ []) }
    requires positive { (0 < first) × (0 < second) }
    ensures numbers { IfSome result (λ r. (r.0.number ≡ one.number) × (r.1.number ≡ two.number)) }
    ensures first { IfSome result (λ r. HasLine one.number first r.2 r.0.front) }
    ensures second { IfSome result (λ r. HasLine two.number second r.3 r.1.front) }
{
    let ((one, first_place), (two, second_place)) = join(
        rt,
        || -> (Pass<Journal, J>, Option<usize>)
            requires { (one.front ≡ []) × (0 < first) }
            ensures number { result.0.number ≡ one.number }
            ensures place { IfSome result.1 (λ place. HasLine one.number first place result.0.front) }
        { append_first(rt, turn, one, first) },
        || -> (Pass<Journal, J>, Option<usize>)
            requires { (two.front ≡ []) × (0 < second) }
            ensures number { result.0.number ≡ two.number }
            ensures place { IfSome result.1 (λ place. HasLine two.number second place result.0.front) }
        { append_first(rt, turn, two, second) },
    );
    Some((one, two, first_place?, second_place?))
}

// The whole history, once no thread has the turn.
fn end<J: Naming>(
    alloc: Global,
    turn: Turn<Journal, J>,
    one: Pass<Journal, J>,
    two: Pass<Journal, J>,
) -> Option<Vec<Line>>
    ensures fronts { IfSome result (λ v. ContinuesAll (λ l. l.by) (one ∷ two ∷ []) v.items) }
    ensures named { IfSome result (λ v. All (λ l. l.by < J.name.passes) v.items) }
{
    let mut passes = Vec::new(alloc);
    passes.reserve(2).ok()?;
    passes.push_reserved(one);
    passes.push_reserved(two);
    let Journal { lines } = turn.close(passes);
    Some(lines)
}

/// Two threads append a line each, and then one pass reads what the other was told. Both lines stand in the history
/// at the places that the threads were told, and neither pass has another.
pub fn append_both<J: Naming + Send + Sync, R: Threads + Wait + Sync>(
    rt: &R,
    alloc: Global,
    blank: TurnBuilder<Journal>,
    first: u64,
    second: u64,
) -> Option<(Vec<Line>, usize, usize, Line)>
    requires name { (blank ≡ J.name) × (blank.passes ≡ 2) }
    requires positive { (0 < first) × (0 < second) }
    ensures first { IfSome result (λ r. HasLine 0 first r.1 r.0.items) }
    ensures second { IfSome result (λ r. HasLine 1 second r.2 r.0.items) }
    ensures named { IfSome result (λ r. All (λ l. l.by < 2) r.0.items) }
    ensures read { IfSome result (λ r. r.3 ≡ line 0 first) }
{
    let (turn, one, two) = begin::<J>(alloc, blank)?;
    let (mut one, mut two, first_place, second_place) = append_in_threads(
        rt, &turn, one, two, first, second,
    )?;
    turn.meet(rt, &mut one, &mut two);
    let line = recall(rt, &turn, &mut two, first_place);
    let lines = end(alloc, turn, one, two)?;
    Some((lines, first_place, second_place, line))
}

/// The same in a turn of its own, which gets its name here.
pub fn append_both_anew<R: Threads + Wait + Sync>(
    rt: &R,
    alloc: Global,
    first: u64,
    second: u64,
) -> Option<(Vec<Line>, usize, usize, Line)>
    requires { (0 < first) × (0 < second) }
    ensures first { IfSome result (λ r. HasLine 0 first r.1 r.0.items) }
    ensures second { IfSome result (λ r. HasLine 1 second r.2 r.0.items) }
    ensures named { IfSome result (λ r. All (λ l. l.by < 2) r.0.items) }
    ensures read { IfSome result (λ r. r.3 ≡ line 0 first) }
{
    let Ok(blank) = TurnBuilder::new(alloc, 2) else {
        return None;
    };
    append_both::<Brand, R>(rt, alloc, blank, first, second)
}
