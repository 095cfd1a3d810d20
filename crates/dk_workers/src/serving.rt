//! A worker of a server, which waits where nothing can be run.
ghost use Rattle.std.specs.Prelude.{◌≡◌};
ghost use Rattle.dk_workers.specs.Serving.{ServesOn};

use crate::gate::Gate;
use crate::worked::Worked;
use crate::worker::work;
use dk_disk::Home;
use dk_game::Game;
use dk_host::{Host, Hosting, WorldBook};
use dk_turn::{Naming, Pass};
use std::alloc::Global;
use std::sync::Wait;
use std::sync::atomic::{AtomicBool, Ordering};

/// Works, and where nothing can be run waits and works on, until the server is ending or there is another answer; then the
/// server is ending. `worker` is the number that the gate is told.
pub fn serve_jobs<G: Game, W: Hosting, J: Naming, M: Home, T: Gate, R: Wait>(
    rt: &R,
    alloc: Global,
    host: &Host<W, J, M>,
    pass: &mut Pass<WorldBook<W>, J>,
    game: &G,
    gate: &T,
    worker: u32,
    ending: &AtomicBool,
) -> Worked
    requires rules { W.opened.rules ≡ G.rules game.now }
    ensures serves { ServesOn W.opened J.name.passes result pass.old pass.new }
{
    for _ in rt.forever() {
        match work(rt, alloc, host, pass, game, gate, worker) {
            Worked::Idle => {}
            end => {
                ending.store(true, Ordering::SeqCst);
                return end;
            }
        }
        // Behind the claim that found nothing: whoever ends the server wakes this pass behind that.
        if ending.load(Ordering::SeqCst) {
            return Worked::Idle;
        }
        host.wait(rt, pass);
    }
    unreachable!()
}
