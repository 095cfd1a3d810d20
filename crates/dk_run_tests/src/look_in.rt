//! A game's function that goes to a channel, speaks there and leaves, as a game's writer would write it.
ghost use Rattle.dk_model.specs.Platforms as platform;
ghost use Rattle.dk_model.specs.Runs.{and_then};
ghost use Rattle.dk_txn.specs.Does.{Does};
ghost use Rattle.dk_txn.specs.Refusals.{refusal_fault};
ghost use Rattle.std.specs.Prelude.{Some};

use dk_channels::{Channel, join, leave, send};
use dk_txn::{Refusal, Txn, View};
use dk_types::{Blob, Session};
use std::alloc::Global;

/// Joins the channel, says so to all who are on it, and leaves again.
pub fn look_in<V: View>(
    alloc: Global,
    txn: &mut Txn<'_, V>,
    room: &Channel,
    session: &Session,
    greeting: &Blob,
) -> Result<(), Refusal>
    ensures { Does V.sights refusal_fault txn.old txn.new (and_then (platform.join room.now.name session.now) (λ _. and_then (platform.channel_send room.now.name (Some session.now) greeting.now) (λ _. platform.leave room.now.name session.now))) result }
{
    join(alloc, txn, room, session)?;
    send(alloc, txn, room, Some(session), greeting)?;
    leave(alloc, txn, room, session)
}
