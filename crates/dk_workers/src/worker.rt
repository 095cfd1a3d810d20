//! A worker of a shared host: its jobs are claimed, run and committed one after another.
ghost use Rattle.std.specs.Prelude.{◌≡◌, ◌<◌};
ghost use Rattle.std.specs.List.{All};
ghost use Rattle.dk_model.specs.Legal.{pass_of};
ghost use Rattle.dk_host.specs.Calls.{IsClaimOf};
ghost use Rattle.dk_workers.specs.Refused.{unclaimed_by};
ghost use Rattle.dk_workers.specs.Tries.{EndsClaim};
ghost use Rattle.dk_workers.specs.Workers.{WorksNext, Works};

use crate::gate::Gate;
use crate::trying::{Tried, try_run};
use crate::worked::Worked;
use dk_core::{ClaimRefused, Claimed};
use dk_disk::Home;
use dk_game::Game;
use dk_host::{Host, Hosting, WorldBook};
use dk_turn::{Naming, Pass};
use std::alloc::Global;
use std::sync::Wait;

/// Claims, runs and commits one job after another, and runs a job again after each retry, until another answer comes; a
/// claim in hand is released first. `worker` is the number that the gate is told.
pub fn work<G: Game, W: Hosting, J: Naming, M: Home, T: Gate, R: Wait>(
    rt: &R,
    alloc: Global,
    host: &Host<W, J, M>,
    pass: &mut Pass<WorldBook<W>, J>,
    game: &G,
    gate: &T,
    worker: u32,
) -> Worked
    requires rules { W.opened.rules ≡ G.rules game.now }
    ensures works { Works W.opened J.name.passes result pass.old pass.new }
{
    for _ in rt.forever() {
        if let Err(worked) = work_next(rt, alloc, host, pass, game, gate, worker) {
            return worked;
        }
    }
    unreachable!()
}

/// Claims a job and runs it until it is committed. Where there is none, or it is not committed, that is the worker's end.
pub fn work_next<G: Game, W: Hosting, J: Naming, M: Home, T: Gate, R: Wait>(
    rt: &R,
    alloc: Global,
    host: &Host<W, J, M>,
    pass: &mut Pass<WorldBook<W>, J>,
    game: &G,
    gate: &T,
    worker: u32,
) -> Result<(), Worked>
    requires rules { W.opened.rules ≡ G.rules game.now }
    ensures works { WorksNext W.opened J.name.passes result pass.old pass.new }
{
    match host.claim(rt, pass) {
        Ok(Some(claimed)) => end_claimed(rt, alloc, host, pass, game, gate, worker, claimed),
        Ok(None) => Err(Worked::Idle),
        Err(refused) => Err(unclaimed(refused)),
    }
}

// The end of a worker to which nothing was granted.
fn unclaimed(refused: ClaimRefused) -> Worked
    ensures { result ≡ unclaimed_by refused }
{
    match refused {
        ClaimRefused::Spent { granted } => Worked::Spent { granted },
        ClaimRefused::Exhausted { next } => Worked::Exhausted { next },
        ClaimRefused::NoMemory => Worked::NoMemory,
    }
}

// Runs a claimed job until it is committed, or released for another cause than a read that no longer stood.
fn end_claimed<G: Game, W: Hosting, J: Naming, M: Home, T: Gate, R: Wait>(
    rt: &R,
    alloc: Global,
    host: &Host<W, J, M>,
    pass: &mut Pass<WorldBook<W>, J>,
    game: &G,
    gate: &T,
    worker: u32,
    claimed: Claimed,
) -> Result<(), Worked>
    requires rules { W.opened.rules ≡ G.rules game.now }
    requires claim { IsClaimOf W.opened pass.old claimed }
    ensures number { pass.new.number ≡ pass.old.number }
    ensures ends { EndsClaim W.opened pass.old.number claimed result pass.old.front pass.new.front }
    ensures named { All (λ e. pass_of e < J.name.passes) pass.new.front }
{
    let mut claimed = claimed;
    for _ in rt.forever() {
        match try_run(rt, alloc, host, pass, game, gate, worker, claimed) {
            Tried::Committed => return Ok(()),
            Tried::Again(back) => claimed = back,
            Tried::GivenUp(worked) => return Err(worked),
        }
    }
    unreachable!()
}
