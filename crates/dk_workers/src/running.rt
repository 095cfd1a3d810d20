//! A claimed job, run over a look at the shared host.
ghost use Rattle.std.specs.Prelude.{◌≡◌, IfOk};
ghost use Rattle.dk_model.specs.Legal.{IsFront};
ghost use Rattle.dk_host.specs.Calls.{IsClaimOf, IsHonestAt};

use dk_core::Claimed;
use dk_disk::Home;
use dk_game::{Game, run_over};
use dk_host::{Host, Hosting, WorldBook};
use dk_turn::{Naming, Pass};
use dk_txn::Finished;
use dk_types::NoMemory;
use std::alloc::Global;
use std::sync::Wait;

/// Runs a claimed job over a look at the host. The finished run is honest for this claim at the front to which its reads
/// brought the pass, and the claim still stands there.
pub fn run_claimed<G: Game, W: Hosting, J: Naming, M: Home, R: Wait>(
    rt: &R,
    alloc: Global,
    game: &G,
    host: &Host<W, J, M>,
    pass: &mut Pass<WorldBook<W>, J>,
    claimed: &Claimed,
) -> Result<Finished, NoMemory>
    requires rules { W.opened.rules ≡ G.rules game.now }
    requires claim { IsClaimOf W.opened pass.old claimed.now }
    ensures number { pass.new.number ≡ pass.old.number }
    ensures front { IsFront pass.old.number pass.old.front pass.new.front }
    ensures claim { IsClaimOf W.opened pass.new claimed.now }
    ensures honest { IfOk result (IsHonestAt W.opened pass.new.front claimed.now) }
{
    let mut look = host.look(rt, pass, claimed);
    run_over(
        alloc,
        game,
        claimed.job(),
        &mut look,
        claimed.run(),
        claimed.at(),
    )
}
