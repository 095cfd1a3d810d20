//! The writing of a session.
ghost use Rattle.std.specs.Prelude.{◌≡◌};
ghost use Rattle.dk_pump.specs.Writing.{HandsOn, WritesSession};

use crate::closing::disconnect;
use crate::ends::WriteEnd;
use crate::limits::HAND_MOST_COUNT;
use crate::putting::{PutRefused, put_frames};
use dk_disk::Home;
use dk_edge::Sink;
use dk_host::{Host, Hosting, WorldBook};
use dk_turn::{Naming, Pass};
use dk_types::ConnNo;
use std::alloc::Global;
use std::sync::Wait;

/// Puts the frames of what a connection is handed, until it is gone. After the sink failed it posts a Disconnect that is
/// not graceful, and hands on without putting. After want of memory it posts that Disconnect and returns.
pub fn write_session<W: Hosting, J: Naming, M: Home, R: Wait, K: Sink>(
    rt: &R,
    alloc: Global,
    host: &Host<W, J, M>,
    pass: &mut Pass<WorldBook<W>, J>,
    conn: ConnNo,
    sink: &mut K,
) -> WriteEnd
    ensures number { pass.new.number ≡ pass.old.number }
    ensures writes { WritesSession W.opened W.keeps J.name.passes pass.old.number conn result (K.contents sink.old) (K.contents sink.new) (K.counted sink.old) (K.counted sink.new) pass.old.front pass.new.front }
{
    for _ in rt.forever() {
        let Ok(handed) = host.hand(rt, pass, conn, HAND_MOST_COUNT) else {
            disconnect(rt, host, pass, conn, false);
            return WriteEnd::NoMemory;
        };
        let end = handed.end;
        match put_frames(alloc, sink, handed.outs.as_slice()) {
            Ok(()) => {}
            Err(PutRefused::Failed) => {
                disconnect(rt, host, pass, conn, false);
                return hand_on(rt, host, pass, conn, end);
            }
            Err(PutRefused::NoMemory) => {
                disconnect(rt, host, pass, conn, false);
                return WriteEnd::NoMemory;
            }
        }
        if end {
            return WriteEnd::Done;
        }
        if handed.outs.as_slice().is_empty() {
            host.wait(rt, pass);
        }
    }
    unreachable!()
}

/// Hands on, and puts nothing, until the connection is gone, as it may be already.
fn hand_on<W: Hosting, J: Naming, M: Home, R: Wait>(
    rt: &R,
    host: &Host<W, J, M>,
    pass: &mut Pass<WorldBook<W>, J>,
    conn: ConnNo,
    gone: bool,
) -> WriteEnd
    ensures number { pass.new.number ≡ pass.old.number }
    ensures hands { HandsOn W.opened J.name.passes pass.old.number conn gone result pass.old.front pass.new.front }
{
    let mut over = gone;
    for _ in rt.forever() {
        if over {
            return WriteEnd::WriteFault;
        }
        let Ok(handed) = host.hand(rt, pass, conn, HAND_MOST_COUNT) else {
            return WriteEnd::NoMemory;
        };
        over = handed.end;
        if handed.outs.as_slice().is_empty() && !over {
            host.wait(rt, pass);
        }
    }
    unreachable!()
}
