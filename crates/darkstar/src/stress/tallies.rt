//! The counters, as a pass reads them.
ghost use Rattle.std.specs.Prelude.{◌≡◌, ◌<◌, IfOk};
ghost use Rattle.dk_overlay.specs.Answers.{object_in};
ghost use Rattle.darkstar.specs.Tallies.{count_in, ReadsCounter, ReadsCounters};

use dk_demos::{Counter, counter_name};
use dk_disk::Home;
use dk_host::{Host, Hosting, WorldBook};
use dk_overlay::{object_of_answer, says_named};
use dk_refs::Managed;
use dk_turn::{Naming, Pass};
use dk_types::{Answer, Item, NoMemory};
use std::alloc::Global;
use std::sync::Wait;

/// How many counters there are.
const COUNTERS: u8 = 16;

/// The count of an object that was answered; an absent one, and one that is no counter, counts 0.
fn count_reported(alloc: Global, answer: Answer) -> Result<u64, NoMemory>
    ensures { IfOk result (λ count. count ≡ count_in (object_in answer)) }
{
    let Some(object) = object_of_answer(answer) else {
        return Ok(0);
    };
    match Counter::decode(alloc, &object.bytes)? {
        Some(counter) => Ok(counter.count),
        None => Ok(0),
    }
}

/// The count of the counter of this number; an absent one counts 0.
fn read_counter<W: Hosting, J: Naming, M: Home, R: Wait>(
    rt: &R,
    alloc: Global,
    host: &Host<W, J, M>,
    pass: &mut Pass<WorldBook<W>, J>,
    number: u8,
) -> Result<u64, NoMemory>
    requires { number < 16 }
    ensures { IfOk result (λ count. ReadsCounter W.opened J.name.passes number pass.old pass.new count) }
{
    let name = counter_name(alloc, number)?;
    let bound = host.read(rt, pass, &Item::Bound(name))?;
    let Some(id) = says_named(&bound.answer) else {
        return Ok(0);
    };
    let object = host.read(rt, pass, &Item::Object(id))?;
    count_reported(alloc, object.answer)
}

/// The counts of all counters, in order.
pub(crate) fn read_counters<W: Hosting, J: Naming, M: Home, R: Wait>(
    rt: &R,
    alloc: Global,
    host: &Host<W, J, M>,
    pass: &mut Pass<WorldBook<W>, J>,
) -> Result<Vec<u64>, NoMemory>
    ensures { IfOk result (λ counts. ReadsCounters W.opened J.name.passes 16 pass.old pass.new counts.items) }
{
    let mut counts = Vec::new(alloc);
    for number in 0..COUNTERS {
        let count = read_counter(rt, alloc, host, pass, number)?;
        counts.push(count)?;
    }
    Ok(counts)
}
