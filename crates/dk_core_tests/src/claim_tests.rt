//! A budget's last claim, and a failed run, with runs that are made by hand.
ghost use Rattle.std.specs.Prelude.{IfOk};
ghost use Rattle.dk_core.specs.Cores.{IsGranted};
ghost use Rattle.dk_workers.specs.Working.{RepresentsSome};
ghost use Rattle.dk_core_tests.specs.Twins.{twins_rules};

use crate::by_hand::Deed::GivesUp;
use crate::by_hand::run_now;
use crate::driving::{PASS, claim, commit, opened};
use crate::rows::Row::Connect;
use crate::rows::play;
use crate::twins::Twins;
use dk_core::{ClaimRefused, Claimed, Core};
use dk_types::Job;
use std::alloc::Global;
use std::process::Abort;
use std::test::Fail;

/// A claim that is refused, as the budget's are granted. The one that is held stays.
fn claim_spent(core: &mut Core, held: &Claimed) -> Result<u64, Fail>
    requires standing { RepresentsSome twins_rules core.old }
    requires granted { IsGranted core.old held.now }
    ensures { IfOk result (λ _. IsGranted core.new held.now) }
{
    let Err(ClaimRefused::Spent { granted }) = core.claim(PASS) else {
        return Err(Fail::from("no claim"));
    };
    Ok(granted)
}

/// The job of a claim, which is granted.
fn claim_job(core: &mut Core) -> Result<Job, Fail> {
    match core.claim(PASS) {
        Ok(Some(claimed)) => Ok(claimed.job().clone()?),
        Ok(None) | Err(_) => Err(Fail::from("a claim")),
    }
}

/// The second of two claims.
fn claim_second(core: &mut Core) -> Result<Claimed, Fail>
    requires { RepresentsSome twins_rules core.old }
    ensures standing { IfOk result (λ _. RepresentsSome twins_rules core.new) }
    ensures granted { IfOk result (IsGranted core.new) }
{
    claim(&Twins, core)?;
    claim(&Twins, core)
}

/// The job of the second of two claims, how many are granted when a third is refused, and the job of the third once the second is
/// given back.
fn beyond_two(core: &mut Core) -> Result<(Job, u64, Job), Fail>
    requires { RepresentsSome twins_rules core.old }
{
    let second = claim_second(core)?;
    let job = second.job().clone()?;
    let granted = claim_spent(core, &second)?;
    core.release(second);
    Ok((job, granted, claim_job(core)?))
}

/// The same on a core with three logins and two claims to grant.
fn beyond_the_budget(rt: &impl Abort, alloc: Global) -> Result<(Job, u64, Job), Fail> {
    let mut core = opened(alloc, &Twins, 1, Some(2))?;
    let names = [Connect("alice", 1), Connect("bob", 2), Connect("carol", 3)];
    play(rt, alloc, &Twins, &mut core, &names)?;
    beyond_two(&mut core)
}

#[test]
fn a_claim_beyond_the_budget_is_refused(rt: HostRuntime) -> Result<(), Fail> {
    let (bobs, granted, third) = beyond_the_budget(&rt, rt.alloc())?;
    assert_eq!(rt; granted, 2);
    // Bob's turn is now the number of the run that was given back, and Carol's her own.
    assert!(rt; third != bobs);
    Ok(())
}

/// Whether a claim finds nothing that can be run.
fn is_idle(core: &mut Core) -> bool {
    match core.claim(PASS) {
        Ok(None) => true,
        Ok(Some(_)) | Err(_) => false,
    }
}

/// The first run schedules a task and gives up: as which commit.
fn fail_first(rt: &impl Abort, alloc: Global, core: &mut Core) -> Result<u64, Fail>
    requires { RepresentsSome twins_rules core.old }
{
    let first = claim(&Twins, core)?;
    let finished = run_now(rt, alloc, core, &first, GivesUp)?;
    commit(&Twins, core, first, finished)
}

/// The same, how many tasks are left behind it, and whether nothing can be run.
fn left_behind(rt: &impl Abort, alloc: Global) -> Result<(u64, u64, bool), Fail> {
    let mut core = opened(alloc, &Twins, 0, None)?;
    let seq = fail_first(rt, alloc, &mut core)?;
    let tasks = core.pending_len();
    Ok((seq, tasks, is_idle(&mut core)))
}

#[test]
fn a_failed_run_leaves_no_task(rt: HostRuntime) -> Result<(), Fail> {
    let (seq, tasks, is_idle) = left_behind(&rt, rt.alloc())?;
    assert_eq!(rt; seq, 1);
    assert_eq!(rt; tasks, 0);
    assert!(rt; is_idle);
    Ok(())
}
