//! Messages handed to the clients.
ghost use Rattle.std.specs.Prelude.{◌≡◌, IfErr, OnErr, OnOk};
ghost use Rattle.dk_workers.specs.Lines.{BeginsHands, HandsAll};
ghost use Rattle.dk_workers.specs.declared.play.fault.PlayFault.TheVariants.{NoMemory as no_memory};

use super::fault::PlayFault;
use dk_disk::Home;
use dk_host::{Host, Hosting, WorldBook};
use dk_turn::{Naming, Pass};
use dk_types::ConnNo;
use dk_types::limits::OUTS_MOST_COUNT;
use std::sync::Wait;

/// Hands each connection as many messages as may wait, in order.
pub(crate) fn hand_all<W: Hosting, J: Naming, M: Home, R: Wait>(
    rt: &R,
    host: &Host<W, J, M>,
    pass: &mut Pass<WorldBook<W>, J>,
    conns: &[ConnNo],
) -> Result<(), PlayFault>
    ensures handed { OnOk result (HandsAll W.opened J.name.passes pass.old pass.new conns.now) }
    ensures begun { OnErr result (BeginsHands W.opened J.name.passes pass.old pass.new conns.now) }
    ensures fault { IfErr result (λ why. why ≡ no_memory) }
{
    for conn in conns {
        host.hand(rt, pass, *conn, OUTS_MOST_COUNT as u32)?;
    }
    Ok(())
}
