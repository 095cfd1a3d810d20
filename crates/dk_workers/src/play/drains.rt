//! Jobs run by workers until none is left.
ghost use Rattle.std.specs.Prelude.{◌≡◌};
ghost use Rattle.dk_play_laws.specs.BegunLaw.{HaveOnlyWorked};
ghost use Rattle.dk_play_laws.specs.Phased.{HaveMet};
ghost use Rattle.dk_workers.specs.Drains.{Drains};

use super::fault::{PlayFault, early_fault, end_of};
use crate::gate::Gate;
use crate::team::work_all;
use crate::worker::work;
use dk_disk::Home;
use dk_game::Game;
use dk_host::{Host, Hosting, WorldBook};
use dk_turn::{Naming, Pass};
use std::alloc::Global;
use std::sync::Wait;
use std::thread::Threads;

/// The main pass meets each worker's, one after another.
fn meet_all<W: Hosting, J: Naming, M: Home, R: Wait>(
    rt: &R,
    host: &Host<W, J, M>,
    main: &mut Pass<WorldBook<W>, J>,
    workers: &mut [Pass<WorldBook<W>, J>],
)
    ensures { HaveMet workers.old workers.new main.old main.new }
{
    for k in 0..workers.len() {
        host.meet(rt, main, &mut workers[k]);
    }
}

/// Runs jobs until none is left: the workers work until each comes to an end, and then the main pass works. It meets them
/// before and after, so that it has seen all that they entered. The commands that open a host call it.
pub fn drain<
    G: Game + Sync,
    W: Hosting + Send + Sync,
    J: Naming + Send + Sync,
    M: Home + Send,
    T: Gate + Sync,
    R: Threads + Wait + Sync,
>(
    rt: &R,
    alloc: Global,
    host: &Host<W, J, M>,
    main: &mut Pass<WorldBook<W>, J>,
    workers: &mut [Pass<WorldBook<W>, J>],
    game: &G,
    gate: &T,
) -> Result<(), PlayFault>
    requires rules { W.opened.rules ≡ G.rules game.now }
    ensures drains { Drains W.opened J.name.passes result workers.old workers.new main.old main.new }
    ensures only { HaveOnlyWorked workers.old workers.new main.old main.new }
{
    meet_all(rt, host, main, workers);
    let worked = work_all(rt, alloc, host, workers, game, gate);
    if let Some(fault) = early_fault(worked) {
        return Err(fault);
    }
    meet_all(rt, host, main, workers);
    let number = main.number();
    end_of(work(rt, alloc, host, main, game, gate, number))
}
