//! The end of a run.
ghost use Rattle.std.specs.Prelude.{◌≡◌, ◌+◌, ◌*◌, ◌<◌, ◌≤◌, Ok, OnOk, OnErr, IfOk, is_some};
ghost use Rattle.std.specs.FinMap as map;
ghost use Rattle.dk_types.specs.declared.item.Item.TheVariants as ask;
ghost use Rattle.dk_types.specs.declared.limits.TheConstants.{MOMENT_MOST_MS};
ghost use Rattle.dk_model.specs.DurableWorlds.{DurableWorld, Agrees};
ghost use Rattle.dk_model.specs.Steps.{next_due as next_moment, failed_outs as outs_of_failed};
ghost use Rattle.dk_overlay.specs.Asked.{IsAsked, IsOnce};
ghost use Rattle.dk_txn.specs.Finishes.{TellsEnd, TellsFailed, IsKept};
ghost use Rattle.dk_txn.specs.Knowing.{Fits};
ghost use Rattle.dk_txn.specs.Current.{passing_own};

use crate::finished::Finished;
use crate::sizes::is_too_large;
use dk_overlay::{ReadWriteParts, ReadWriteSet, says_pending};
use dk_types::{AppFault, ConnNo, Item, Job, NoMemory, Out, Outcome, TaskKey};
use std::alloc::Global;

/// The least moment above `at` that lies whole periods after `due`, all in ms.
fn next_due(due: u64, period: u64, at: u64) -> u64
    requires some { 0 < period }
    requires most { at ≤ MOMENT_MOST_MS }
    ensures { Fits due period → result ≡ next_moment due period at }
{
    let times = at.saturating_sub(due) / period + 1;
    due.saturating_add(period.saturating_mul(times))
}

/// What a failed run sends: a failed login is refused.
fn failed_outs(alloc: Global, job: &Job) -> Result<Vec<(ConnNo, Out)>, NoMemory>
    ensures { IfOk result (λ outs. outs.items ≡ outs_of_failed job.now) }
{
    let mut outs = Vec::new(alloc);
    if let Job::Login { conn, name: _ } = job {
        outs.push((*conn, Out::Refused))?;
        outs.push((*conn, Out::Close))?;
    }
    Ok(outs)
}

/// Does to a run's own task, which is pending, what its occurrence does: a once-task is taken away, and a
/// periodic one gets its next due moment. `due` is the moment that it is due before the run, `period` its
/// period or 0, in ms.
pub(crate) fn pass_own_task(
    set: &mut ReadWriteSet,
    key: TaskKey,
    due: u64,
    period: u64,
) -> Result<(), NoMemory>
    ensures ok { OnOk result (Fits due period → set.new ≡ passing_own set.old key due period) }
    ensures err { OnErr result (set.new ≡ set.old) }
{
    if period == 0 {
        set.remove_task(key)
    } else {
        let to = next_due(due, period, set.at());
        set.move_task(key, due, to)
    }
}

/// Whether the run was told that the task is pending.
fn was_pending(set: &ReadWriteSet, key: TaskKey) -> bool
    ensures { IsAsked set.now.reads (ask.Task key) → (d : DurableWorld) → Agrees d set.now.reads → is_some (map.get d.tasks key) ≡ result }
{
    match set.read(&Item::Task(key)) {
        None => false,
        Some(read) => says_pending(&read.answer),
    }
}

/// What a failed run keeps: what it does to its own task.
fn kept(set: &ReadWriteSet, job: &Job) -> Result<ReadWriteSet, NoMemory>
    ensures { IfOk result (IsKept set.now job.now) }
{
    let mut kept = ReadWriteSet::new(set.allocator(), set.run(), set.at());
    if let Job::Task {
        key,
        due,
        period,
        kind: _,
        arg: _,
    } = job
    {
        if was_pending(set, *key) {
            pass_own_task(&mut kept, *key, *due, *period)?;
        }
    }
    Ok(kept)
}

/// What the run tells where it failed.
fn fail(set: ReadWriteSet, job: &Job, fault: AppFault) -> Result<Finished, NoMemory>
    ensures reads { IfOk result (λ f. f.reads.items ≡ set.reads) }
    ensures once { IfOk result (λ f. IsOnce f.reads.items) }
    ensures told { IfOk result (TellsFailed set job.now fault) }
{
    let kept = kept(&set, job)?;
    let (effects, kept) = kept.into_effects()?;
    let outs = failed_outs(set.allocator(), job)?;
    let ReadWriteParts {
        reads,
        touched: _,
        outs: _,
    } = set.into_parts();
    let ReadWriteParts {
        reads: _,
        touched,
        outs: _,
    } = kept.into_parts();
    Ok(Finished {
        reads,
        effects,
        outs,
        outcome: Outcome::Fail(fault),
        touched,
    })
}

/// What the run tells where it came to its end.
fn come_to_end(set: ReadWriteSet, job: &Job) -> Result<Finished, NoMemory>
    ensures reads { IfOk result (λ f. f.reads.items ≡ set.reads) }
    ensures once { IfOk result (λ f. IsOnce f.reads.items) }
    ensures told { IfOk result (TellsEnd set job.now (Ok tt)) }
{
    let (effects, set) = set.into_effects()?;
    if is_too_large(&effects) {
        return fail(set, job, AppFault::TooLarge);
    }
    let parts = set.into_parts();
    Ok(Finished {
        reads: parts.reads,
        effects,
        outs: parts.outs,
        outcome: Outcome::Ok,
        touched: parts.touched,
    })
}

/// What the run tells at its end. A run whose effects are too large fails, and a failed run keeps what it did to
/// its own task alone.
pub(crate) fn finish(
    set: ReadWriteSet,
    job: &Job,
    end: Result<(), AppFault>,
) -> Result<Finished, NoMemory>
    ensures reads { IfOk result (λ f. f.reads.items ≡ set.reads) }
    ensures once { IfOk result (λ f. IsOnce f.reads.items) }
    ensures told { IfOk result (TellsEnd set job.now end) }
{
    match end {
        Ok(()) => come_to_end(set, job),
        Err(fault) => fail(set, job, fault),
    }
}
