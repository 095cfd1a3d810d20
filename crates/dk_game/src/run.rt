//! The running of a job.
ghost use Rattle.std.specs.Prelude.{◌≡◌, IfOk};
ghost use Rattle.std.specs.List.{AllByRecursion};
ghost use Rattle.dk_types.specs.declared.item.Item.{Item};
ghost use Rattle.dk_types.specs.declared.item.Read.{Read};
ghost use Rattle.dk_model.specs.Finishes.{KeepsLaw};
ghost use Rattle.dk_overlay.specs.Asked.{IsOnce};
ghost use Rattle.dk_txn.specs.Asks.{IsAskedOnce};
ghost use Rattle.dk_txn.specs.Finishes.{report};
ghost use Rattle.dk_txn.specs.Knowing.{HasTaskLimits};
ghost use Rattle.dk_txn.specs.Law.{IsBegun};

use crate::game::Game;
use crate::halt::Halt;
use crate::jobs::work_job;
use dk_txn::{Finished, Txn, View};
use dk_types::{Job, NoMemory};
use std::alloc::Global;

/// Runs a job, and finishes its run. The transaction is as `Txn::begin` made it, and the moments of a task are
/// within their limits. What the run tells is what the job does alone, in every world that agrees with what was read.
pub fn run_job<G: Game, V: View>(
    alloc: Global,
    game: &G,
    job: &Job,
    txn: &mut Txn<'_, V>,
) -> Result<Finished, NoMemory>
    requires begun { IsBegun txn.old.set }
    requires fits { HasTaskLimits job.now }
    ensures law { IfOk result (λ f. KeepsLaw (G.rules game.now) job.now txn.old.set.run txn.old.set.at f.reads.items (report f)) }
    ensures same_view { txn.new.view.ghost_name ≡ txn.old.view.ghost_name }
    ensures becomes { V.sights.becomes txn.old.view.now txn.new.view.now }
    ensures given { IfOk result (λ f. AllByRecursion (λ r. V.sights.gave txn.new.view.now r.0 r.1) f.reads.items) }
    ensures once { IfOk result (λ f. IsOnce f.reads.items) }
    ensures asked { IfOk result (λ f. IsAskedOnce V.sights txn.old.view.now txn.new.view.now f.reads.items) }
{
    let end = match work_job(alloc, game, job, txn) {
        Ok(()) => Ok(()),
        Err(Halt::Fault(fault)) => Err(fault),
        Err(Halt::NoMemory) => return Err(NoMemory),
    };
    txn.end(job, end)
}
