//! One job after another.
ghost use Rattle.std.specs.Prelude.{◌≡◌, IfOk};
ghost use Rattle.dk_model.specs.Finishes.{KeepsLaw};
ghost use Rattle.dk_txn.specs.Finishes.{report};
ghost use Rattle.dk_core.specs.Cores.{IsGranted};
ghost use Rattle.dk_workers.specs.Working.{AreReadsNow, CommitsOrGivesBack, EndsRun, RepresentsSome, Works};

use dk_core::{ClaimRefused, Claimed, Core, PrepareRefused};
use dk_game::{Game, run_over};
use dk_txn::Finished;
use dk_types::{Job, NoMemory, Outcome, RunNo};
use std::alloc::Global;

/// A run that was claimed and committed: for which job and at which moment, in ms, as which commit, and how it ended.
#[derive(Debug, Drop, PartialEq, Eq)]
pub struct Ran {
    pub run: RunNo,
    pub at: u64,
    pub job: Job,
    pub seq: u64,
    pub outcome: Outcome,
}

/// What came of one claim.
#[derive(Debug, Drop, PartialEq, Eq)]
pub enum Step {
    Ran(Ran),
    /// Nothing can be run.
    Idle,
    /// The budget's claims are granted; `granted` is how many.
    Spent { granted: u64 },
    /// Every number below 2^62 is drawn; `next` is the next one.
    Exhausted { next: u64 },
}

/// A claimed job, and what it comes to on the world as it stands.
fn run_claimed<G: Game>(
    alloc: Global,
    game: &G,
    core: &Core,
    claimed: &Claimed,
) -> Result<(Job, Finished), NoMemory>
    requires standing { RepresentsSome (G.rules game.now) core.now }
    requires granted { IsGranted core.now claimed.now }
    ensures job { IfOk result (λ ran. ran.0 ≡ claimed.now.job) }
    ensures law { IfOk result (λ ran. KeepsLaw (G.rules game.now) claimed.now.job claimed.now.run claimed.now.at ran.1.reads.items (report ran.1)) }
    ensures now { IfOk result (λ ran. AreReadsNow core.now.world ran.1.reads.items) }
{
    let job = claimed.copy_job()?;
    let mut look = core.look();
    let finished = run_over(alloc, game, &job, &mut look, claimed.run(), claimed.at())?;
    Ok((job, finished))
}

/// Commits a run that read the world as it stands. Where memory is refused its claim is given back.
fn commit_run(core: &mut Core, claimed: Claimed, finished: Finished) -> Result<u64, NoMemory>
    requires granted { IsGranted core.old claimed }
    requires now { AreReadsNow core.old.world finished.reads.items }
    ensures { CommitsOrGivesBack core.old core.new claimed finished result }
{
    match core.commit(claimed, finished) {
        Ok(seq) => Ok(seq),
        Err((claimed, PrepareRefused::NoMemory)) => {
            core.release(claimed);
            Err(NoMemory)
        }
        Err((_, PrepareRefused::Retry(_))) => unreachable!(),
    }
}

/// Runs a claimed job and commits what it came to. Where memory is refused its claim is given back.
fn end_claimed<G: Game>(
    alloc: Global,
    game: &G,
    core: &mut Core,
    claimed: Claimed,
) -> Result<Ran, NoMemory>
    requires standing { RepresentsSome (G.rules game.now) core.old }
    requires granted { IsGranted core.old claimed }
    ensures { EndsRun (G.rules game.now) core.old core.new claimed result }
{
    let run = claimed.run();
    let at = claimed.at();
    let Ok((job, finished)) = run_claimed(alloc, game, core, &claimed) else {
        core.release(claimed);
        return Err(NoMemory);
    };
    let outcome = *finished.outcome();
    let seq = commit_run(core, claimed, finished)?;
    Ok(Ran {
        run,
        at,
        job,
        seq,
        outcome,
    })
}

/// Claims the job that comes next, for a pass, runs it and commits what it came to. After want of memory nothing
/// happened, or the job was claimed and given back.
pub fn work_once<G: Game>(
    alloc: Global,
    game: &G,
    core: &mut Core,
    pass: u32,
) -> Result<Step, NoMemory>
    requires standing { RepresentsSome (G.rules game.now) core.old }
    ensures { Works (G.rules game.now) core.old core.new pass result }
{
    let claimed = match core.claim(pass) {
        Ok(Some(claimed)) => claimed,
        Ok(None) => return Ok(Step::Idle),
        Err(ClaimRefused::Spent { granted }) => return Ok(Step::Spent { granted }),
        Err(ClaimRefused::Exhausted { next }) => return Ok(Step::Exhausted { next }),
        Err(ClaimRefused::NoMemory) => return Err(NoMemory),
    };
    match end_claimed(alloc, game, core, claimed) {
        Ok(ran) => Ok(Step::Ran(ran)),
        Err(refused) => Err(refused),
    }
}
