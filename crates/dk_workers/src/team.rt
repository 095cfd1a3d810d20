//! Workers in threads of their own, one for each pass.
ghost use Rattle.std.specs.Prelude.{◌≡◌};
ghost use Rattle.dk_workers.specs.Workers.{WorkAll};

use crate::gate::Gate;
use crate::row::{Server, serve_all};
use crate::worked::Worked;
use crate::worker::work;
use dk_disk::Home;
use dk_game::Game;
use dk_host::{Host, Hosting, WorldBook};
use dk_turn::{Naming, Pass};
use std::alloc::Global;
use std::sync::Wait;
use std::thread::Threads;

// What the workers of a host share.
#[derive(Drop)]
struct Team<'a, G: Game, W: Hosting, J: Naming, M: Home, T: Gate, R: Wait> {
    rt: &'a R,
    alloc: Global,
    host: &'a Host<W, J, M>,
    game: &'a G,
    gate: &'a T,
}

impl<G: Game, W: Hosting, J: Naming, M: Home, T: Gate, R: Wait> Server<Pass<WorldBook<W>, J>>
    for Team<'_, G, W, J, M, T, R> {
    ghost use Rattle.std.specs.Prelude.{◌≡◌};
    ghost use Rattle.dk_workers.specs.Workers.{Works};

    ghost ready = { λ team. W.opened.rules ≡ G.rules team.game.now };

    ghost serves = { λ team old end new. Works W.opened J.name.passes end old new };

    fn serve(&self, number: u32, element: &mut Pass<WorldBook<W>, J>) -> Worked {
        work(
            self.rt, self.alloc, self.host, element, self.game, self.gate, number,
        )
    }
}

/// `work` once for each pass, by joined threads; the worker of the first pass has number 0, of the next 1, and so on. It
/// answers the first, in the order of the passes, that is not Idle, or Idle.
pub fn work_all<
    G: Game + Sync,
    W: Hosting + Send + Sync,
    J: Naming + Send + Sync,
    M: Home + Send,
    T: Gate + Sync,
    R: Threads + Wait + Sync,
>(
    rt: &R,
    alloc: Global,
    host: &Host<W, J, M>,
    passes: &mut [Pass<WorldBook<W>, J>],
    game: &G,
    gate: &T,
) -> Worked
    requires rules { W.opened.rules ≡ G.rules game.now }
    ensures work { WorkAll W.opened J.name.passes result passes.old passes.new }
{
    let team = Team {
        rt,
        alloc,
        host,
        game,
        gate,
    };
    serve_all(rt, &team, passes)
}
