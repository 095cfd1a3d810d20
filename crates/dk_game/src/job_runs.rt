//! The running of a job over a view that is lent.
ghost use Rattle.std.specs.Prelude.{◌≡◌, ◌≤◌, IfOk};
ghost use Rattle.std.specs.List.{AllByRecursion};
ghost use Rattle.dk_types.specs.declared.item.Item.{Item};
ghost use Rattle.dk_types.specs.declared.item.Read.{Read};
ghost use Rattle.dk_types.specs.declared.limits.TheConstants.{MOMENT_MOST_MS};
ghost use Rattle.dk_model.specs.Finishes.{KeepsLaw};
ghost use Rattle.dk_overlay.specs.Asked.{IsOnce};
ghost use Rattle.dk_txn.specs.Asks.{IsAskedOnce};
ghost use Rattle.dk_txn.specs.Finishes.{report};
ghost use Rattle.dk_txn.specs.Knowing.{HasTaskLimits};

use crate::game::Game;
use crate::run::run_job;
use dk_txn::{Finished, Txn, View};
use dk_types::{Job, NoMemory, RunNo};
use std::alloc::Global;

/// Runs a job as this run at this moment, in ms, over a view that is lent: what it read was given by the view as it is had back,
/// which was asked for each item once.
/// The moments of a task are within their limits.
pub fn run_over<G: Game, V: View>(
    alloc: Global,
    game: &G,
    job: &Job,
    view: &mut V,
    number: RunNo,
    at: u64,
) -> Result<Finished, NoMemory>
    requires moment { at ≤ MOMENT_MOST_MS }
    requires fits { HasTaskLimits job.now }
    ensures law { IfOk result (λ f. KeepsLaw (G.rules game.now) job.now number at f.reads.items (report f)) }
    ensures becomes { V.sights.becomes view.old view.new }
    ensures given { IfOk result (λ f. AllByRecursion (λ r. V.sights.gave view.new r.0 r.1) f.reads.items) }
    ensures once { IfOk result (λ f. IsOnce f.reads.items) }
    ensures asked { IfOk result (λ f. IsAskedOnce V.sights view.old view.new f.reads.items) }
{
    let mut txn = Txn::begin(alloc, view, number, at);
    run_job(alloc, game, job, &mut txn)
}
