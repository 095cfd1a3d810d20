//! One try of a claimed job: it is run, and its commit is asked for once.
ghost use Rattle.std.specs.Prelude.{◌≡◌, ◌<◌};
ghost use Rattle.std.specs.List.{All};
ghost use Rattle.dk_model.specs.Legal.{pass_of};
ghost use Rattle.dk_host.specs.Calls.{IsClaimOf};
ghost use Rattle.dk_workers.specs.Refused.{WasRefused, end_by};
ghost use Rattle.dk_workers.specs.Tries.{EndsRefused, EndsTry};

use crate::gate::Gate;
use crate::recipients::Recipients;
use crate::running::run_claimed;
use crate::worked::Worked;
use dk_core::Claimed;
use dk_disk::Home;
use dk_game::Game;
use dk_host::{CommitRefused, Host, Hosting, Why, WorldBook};
use dk_turn::{Naming, Pass};
use std::alloc::Global;
use std::sync::Wait;

// How a try ends.
pub(crate) enum Tried {
    Committed,
    // A read no longer stood, and the claim is in hand still.
    Again(Claimed),
    // The claim was released.
    GivenUp(Worked),
}

// Runs a claimed job and asks for its commit once.
pub(crate) fn try_run<G: Game, W: Hosting, J: Naming, M: Home, T: Gate, R: Wait>(
    rt: &R,
    alloc: Global,
    host: &Host<W, J, M>,
    pass: &mut Pass<WorldBook<W>, J>,
    game: &G,
    gate: &T,
    worker: u32,
    claimed: Claimed,
) -> Tried
    requires rules { W.opened.rules ≡ G.rules game.now }
    requires claim { IsClaimOf W.opened pass.old claimed }
    ensures number { pass.new.number ≡ pass.old.number }
    ensures ends { EndsTry W.opened claimed result pass.old pass.new }
    ensures named { All (λ e. pass_of e < J.name.passes) pass.new.front }
{
    let Ok(finished) = run_claimed(rt, alloc, game, host, pass, &claimed) else {
        host.release(rt, pass, claimed);
        return Tried::GivenUp(Worked::NoMemory);
    };
    let run = claimed.run();
    let recipients = Recipients::of(finished.outs());
    gate.before_commit(worker, run);
    match host.commit(rt, pass, claimed, finished) {
        Ok(_) => {
            gate.after_commit(worker, run, &recipients);
            Tried::Committed
        }
        Err(shown) => after_refusal(rt, host, pass, shown.refused),
    }
}

// A claim whose commit was refused is kept where its job is to be run again, and else released.
fn after_refusal<W: Hosting, J: Naming, M: Home, R: Wait>(
    rt: &R,
    host: &Host<W, J, M>,
    pass: &mut Pass<WorldBook<W>, J>,
    refused: CommitRefused,
) -> Tried
    requires claim { IsClaimOf W.opened pass.old refused.claimed }
    requires cause { WasRefused W.opened refused.claimed refused.why pass.old.front }
    requires named { All (λ e. pass_of e < J.name.passes) pass.old.front }
    ensures number { pass.new.number ≡ pass.old.number }
    ensures ends { EndsRefused W.opened refused.claimed result pass.old pass.new }
    ensures named { All (λ e. pass_of e < J.name.passes) pass.new.front }
{
    let CommitRefused { claimed, why } = refused;
    match end_of(why) {
        None => Tried::Again(claimed),
        Some(end) => {
            host.release(rt, pass, claimed);
            Tried::GivenUp(end)
        }
    }
}

// The end of a worker whose commit was refused. None where the job is to be run again.
fn end_of(why: Why) -> Option<Worked>
    ensures { result ≡ end_by why }
{
    match why {
        Why::Retry { .. } => None,
        Why::Stopped { faults } => Some(Worked::Stopped { faults }),
        Why::JournalFull { length } => Some(Worked::JournalFull { length }),
        Why::DiskFault => Some(Worked::DiskFault),
        Why::NoMemory => Some(Worked::NoMemory),
    }
}
