//! A run that was begun before another's commit is refused, and run again.
ghost use Rattle.std.specs.Prelude.{IfOk};
ghost use Rattle.dk_core.specs.Cores.{IsGranted};
ghost use Rattle.dk_workers.specs.Working.{RepresentsSome};
ghost use Rattle.dk_core_tests.specs.Twins.{twins_rules};

use crate::between::commit_after_others;
use crate::by_hand::Deed::{Compares, ReadsNames};
use crate::by_hand::{Deed, own_task, run_now, run_over, twin};
use crate::driving::{PASS, claim, commit, commit_stale, opened, serve, serve_beside, text};
use crate::twins::Twins;
use dk_core::{Claimed, Conflict, Core};
use dk_txn::{Finished, ListView};
use dk_types::{AppFault, Input, Item, Outcome, Read, Seen};
use std::alloc::Global;
use std::process::Abort;
use std::test::Fail;

/// A core after the first run.
fn begun(alloc: Global) -> Result<Core, Fail>
    ensures { IfOk result (RepresentsSome twins_rules) }
{
    let mut core = opened(alloc, &Twins, 0, None)?;
    serve(alloc, &Twins, &mut core)?;
    Ok(core)
}

/// The run of a claim on the world as it stands, committed: how it ended, and as which commit.
fn commit_now(
    rt: &impl Abort,
    alloc: Global,
    core: &mut Core,
    claimed: Claimed,
    deed: Deed,
) -> Result<(Outcome, u64), Fail>
    requires { IsGranted core.old claimed }
{
    let finished = run_now(rt, alloc, core, &claimed, deed)?;
    let outcome = *finished.outcome();
    Ok((outcome, commit(&Twins, core, claimed, finished)?))
}

/// A run that read the names a and c is refused, since another has bound b.
fn stale_names(
    rt: &impl Abort,
    alloc: Global,
    core: &mut Core,
    reader: Claimed,
) -> Result<(Claimed, Conflict), Fail>
    requires standing { RepresentsSome twins_rules core.old }
    requires granted { IsGranted core.old reader }
    ensures { IfOk result (λ back. IsGranted core.new back.0) }
{
    let finished = run_now(rt, alloc, core, &reader, ReadsNames)?;
    serve_beside(alloc, &Twins, core, &reader)?;
    commit_stale(&Twins, core, reader, finished)
}

/// What refuses it, and how it ends and as which commit, run again.
fn names_again(rt: &impl Abort, alloc: Global) -> Result<(Conflict, (Outcome, u64)), Fail> {
    let mut core = begun(alloc)?;
    let reader = claim(&Twins, &mut core)?;
    let (reader, changed) = stale_names(rt, alloc, &mut core, reader)?;
    Ok((
        changed,
        commit_now(rt, alloc, &mut core, reader, ReadsNames)?,
    ))
}

fn name_between(alloc: Global) -> Result<Conflict, Fail> {
    Ok(Conflict {
        item: Item::NextAfter(Some(text(alloc, "a")?)),
        found: Seen::Next(Some(text(alloc, "c")?)),
        now: Seen::Next(Some(text(alloc, "b")?)),
    })
}

#[test]
fn a_name_bound_between_is_told(rt: HostRuntime) -> Result<(), Fail> {
    let (changed, (_, seq)) = names_again(&rt, rt.alloc())?;
    let told = name_between(rt.alloc())?;
    assert!(rt; changed == told);
    assert_eq!(rt; seq, 3);
    Ok(())
}

/// An item, and what is read of it, is put to the reads.
fn add_read(core: &Core, reads: &mut Vec<(Item, Read)>, item: Item) -> Result<(), Fail> {
    let read = core.read(&item).ok().ok_or("a read")?;
    Ok(reads.push((item, read))?)
}

/// What a reader sees of its task and the first object.
fn first_reads(alloc: Global, core: &Core, reader: &Claimed) -> Result<Vec<(Item, Read)>, Fail> {
    let (key, _) = own_task(reader)?;
    let mut reads = Vec::new(alloc);
    add_read(core, &mut reads, Item::Task(key))?;
    add_read(core, &mut reads, Item::Object(twin(0)))?;
    Ok(reads)
}

/// The same, and of the second object after another's commit.
fn torn_reads(alloc: Global, core: &mut Core, reader: &Claimed) -> Result<Vec<(Item, Read)>, Fail>
    requires standing { RepresentsSome twins_rules core.old }
    requires granted { IsGranted core.old reader.now }
    ensures standing { IfOk result (λ _. RepresentsSome twins_rules core.new) }
    ensures granted { IfOk result (λ _. IsGranted core.new reader.now) }
{
    let mut reads = first_reads(alloc, core, reader)?;
    serve_beside(alloc, &Twins, core, reader)?;
    add_read(core, &mut reads, Item::Object(twin(1)))?;
    Ok(reads)
}

/// The run of a reader that is given what it read before and after another's commit. It finds the two objects unequal.
fn compares_torn(
    rt: &impl Abort,
    alloc: Global,
    reads: Vec<(Item, Read)>,
    claimed: &Claimed,
) -> Result<Finished, Fail> {
    let mut view = ListView::new(reads);
    let finished = run_over(rt, alloc, &mut view, claimed, Compares)?;
    assert!(rt; *finished.outcome() == Outcome::Fail(AppFault::Game(1)));
    Ok(finished)
}

/// Such a run is refused.
fn stale_objects(
    rt: &impl Abort,
    alloc: Global,
    core: &mut Core,
    reader: Claimed,
) -> Result<(Claimed, Conflict), Fail>
    requires standing { RepresentsSome twins_rules core.old }
    requires granted { IsGranted core.old reader }
    ensures { IfOk result (λ back. IsGranted core.new back.0) }
{
    let reads = torn_reads(alloc, core, &reader)?;
    let torn = compares_torn(rt, alloc, reads, &reader)?;
    commit_stale(&Twins, core, reader, torn)
}

/// What refuses it, and how it ends and as which commit, run again.
fn objects_again(rt: &impl Abort, alloc: Global) -> Result<(Conflict, (Outcome, u64)), Fail> {
    let mut core = begun(alloc)?;
    let reader = claim(&Twins, &mut core)?;
    let (reader, changed) = stale_objects(rt, alloc, &mut core, reader)?;
    Ok((changed, commit_now(rt, alloc, &mut core, reader, Compares)?))
}

#[test]
fn a_run_that_saw_two_worlds_is_refused(rt: HostRuntime) -> Result<(), Fail> {
    let (changed, (outcome, seq)) = objects_again(&rt, rt.alloc())?;
    let told = Conflict {
        item: Item::Object(twin(0)),
        found: Seen::At(1),
        now: Seen::At(2),
    };
    assert!(rt; changed == told);
    assert!(rt; outcome == Outcome::Ok);
    assert_eq!(rt; seq, 3);
    Ok(())
}

/// A run is prepared, a connection is made and cut off meanwhile, and the run is published. The number of its commit.
fn published(rt: &impl Abort, alloc: Global) -> Result<u64, Fail> {
    let mut core = begun(alloc)?;
    let reader = claim(&Twins, &mut core)?;
    let finished = run_now(rt, alloc, &core, &reader, Compares)?;
    assert!(rt; reader.pass() == PASS);
    let dan = text(alloc, "dan")?;
    let end = Input::Disconnect { graceful: true };
    commit_after_others(&mut core, reader, finished, &dan, end)
}

#[test]
fn a_prepared_run_is_published_after_other_events(rt: HostRuntime) -> Result<(), Fail> {
    let seq = published(&rt, rt.alloc())?;
    assert_eq!(rt; seq, 2);
    Ok(())
}
