//! Time, while a server runs.
ghost use Rattle.std.specs.Prelude.{◌≡◌, OnErr, IsTrue};
ghost use Rattle.dk_pump.specs.Ticking.{Ticks};

use dk_disk::Home;
use dk_edge::Clock;
use dk_host::{Host, Hosting, WorldBook};
use dk_turn::{Naming, Pass};
use dk_types::NoMemory;
use std::sync::Wait;
use std::sync::atomic::{AtomicBool, Ordering};

/// Ticks the host to the clock's moments, until the server is ending. It ticks once more when it has seen that, which wakes
/// whoever waits for the host. It takes no memory unless events are kept.
pub fn keep_time<W: Hosting, J: Naming, M: Home, C: Clock, R: Wait>(
    rt: &R,
    host: &Host<W, J, M>,
    pass: &mut Pass<WorldBook<W>, J>,
    clock: &C,
    ending: &AtomicBool,
) -> Result<(), NoMemory>
    ensures number { pass.new.number ≡ pass.old.number }
    ensures ticks { Ticks W.opened J.name.passes pass.old.number pass.old.front pass.new.front }
    ensures only { OnErr result (IsTrue W.keeps) }
{
    for _ in rt.forever() {
        let is_last = ending.load(Ordering::SeqCst);
        let ticked = host.tick(rt, pass, clock.now());
        if is_last || ticked.is_err() {
            return ticked;
        }
        clock.pause();
    }
    unreachable!()
}
