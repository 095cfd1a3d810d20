//! Runs that a test makes by hand, over any view of a world.

use dk_core::{Claimed, Core};
use dk_txn::{Finished, Txn, View};
use dk_types::limits::MOMENT_MOST_MS;
use dk_types::{AppFault, Blob, Job, Name, Object, ObjectId, RunNo, TaskKey};
use std::alloc::Global;
use std::process::Abort;
use std::test::Fail;

/// What a run does.
#[derive(Clone, Copy, Debug)]
pub(crate) enum Deed {
    /// It takes its own task away and reads the first two names.
    ReadsNames,
    /// It takes its own task away, and gives up where the two objects of the first run are unequal.
    Compares,
    /// It schedules a task, which is due at once, and then gives up.
    GivesUp,
}

/// An object that the first run made, which has number 0.
pub(crate) fn twin(k: u32) -> ObjectId {
    ObjectId { run: RunNo(0), k }
}

/// The key of a claimed task, and when it is due, in ms.
pub(crate) fn own_task(claimed: &Claimed) -> Result<(TaskKey, u64), Fail> {
    match claimed.job() {
        Job::Task { key, due, .. } => Ok((*key, *due)),
        _ => Err(Fail::from("a task")),
    }
}

/// The once-task of a claim is taken away.
fn take_own<V: View>(rt: &impl Abort, txn: &mut Txn<'_, V>, claimed: &Claimed) -> Result<(), Fail> {
    let (key, due) = own_task(claimed)?;
    assert!(rt; due <= MOMENT_MOST_MS);
    let pending = txn.own_task(key, due, 0).ok().ok_or("a read")?;
    assert!(rt; pending);
    Ok(())
}

fn next_name<V: View>(txn: &mut Txn<'_, V>, after: Option<&Name>) -> Result<Name, Fail> {
    let next = txn.next_bound(after).ok().ok_or("a read")?;
    Ok(next.ok_or("a name")?)
}

fn read_names<V: View>(txn: &mut Txn<'_, V>) -> Result<(), Fail> {
    let first = next_name(txn, None)?;
    next_name(txn, Some(&first))?;
    Ok(())
}

fn get<V: View>(txn: &mut Txn<'_, V>, id: ObjectId) -> Result<Object, Fail> {
    Ok(txn.get(id).ok().ok_or("an object")?)
}

/// Whether the two objects are equal.
fn are_equal<V: View>(txn: &mut Txn<'_, V>) -> Result<bool, Fail> {
    let first = get(txn, twin(0))?;
    let second = get(txn, twin(1))?;
    Ok(first == second)
}

fn schedule<V: View>(alloc: Global, txn: &mut Txn<'_, V>) -> Result<(), Fail> {
    let arg = Blob::from_vec(Vec::new(alloc));
    txn.schedule(1, arg, 0).ok().ok_or("a task")?;
    Ok(())
}

/// The calls of a run, and whether it ends well.
fn act<V: View>(
    rt: &impl Abort,
    alloc: Global,
    txn: &mut Txn<'_, V>,
    claimed: &Claimed,
    deed: Deed,
) -> Result<bool, Fail> {
    match deed {
        Deed::ReadsNames => {
            take_own(rt, txn, claimed)?;
            read_names(txn)?;
            Ok(true)
        }
        Deed::Compares => {
            take_own(rt, txn, claimed)?;
            are_equal(txn)
        }
        Deed::GivesUp => {
            schedule(alloc, txn)?;
            Ok(false)
        }
    }
}

fn end_of(is_well: bool) -> Result<(), AppFault> {
    if is_well {
        Ok(())
    } else {
        Err(AppFault::Game(1))
    }
}

/// A claimed run over a view.
pub(crate) fn run_over<V: View>(
    rt: &impl Abort,
    alloc: Global,
    view: &mut V,
    claimed: &Claimed,
    deed: Deed,
) -> Result<Finished, Fail> {
    let at = claimed.at();
    assert!(rt; at <= MOMENT_MOST_MS);
    let mut txn = Txn::begin(alloc, view, claimed.run(), at);
    let is_well = act(rt, alloc, &mut txn, claimed, deed)?;
    Ok(txn.end(claimed.job(), end_of(is_well))?)
}

/// The same over the world as it stands.
pub(crate) fn run_now(
    rt: &impl Abort,
    alloc: Global,
    core: &Core,
    claimed: &Claimed,
    deed: Deed,
) -> Result<Finished, Fail> {
    let mut look = core.look();
    run_over(rt, alloc, &mut look, claimed, deed)
}
