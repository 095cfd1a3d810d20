//! The Disconnect that ends a session.
ghost use Rattle.std.specs.Prelude.{◌≡◌};
ghost use Rattle.dk_pump.specs.Passes.{Enters};
ghost use Rattle.dk_pump.specs.Reading.{Disconnects};

use dk_disk::Home;
use dk_host::{Host, Hosting, WorldBook};
use dk_turn::{Naming, Pass};
use dk_types::{ConnNo, Input};
use std::sync::Wait;

/// Posts a Disconnect, which has always a place. It takes no memory, unless events are kept and the connection was closed.
pub(crate) fn disconnect<W: Hosting, J: Naming, M: Home, R: Wait>(
    rt: &R,
    host: &Host<W, J, M>,
    pass: &mut Pass<WorldBook<W>, J>,
    conn: ConnNo,
    graceful: bool,
)
    ensures number { pass.new.number ≡ pass.old.number }
    ensures posted { Disconnects W.opened W.keeps J.name.passes pass.old.number conn graceful pass.old.front pass.new.front }
{
    let _ = host.post(rt, pass, conn, Input::Disconnect { graceful });
}
