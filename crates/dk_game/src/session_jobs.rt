//! Logins, messages and the ends of sessions.
ghost use Rattle.std.specs.Prelude.{◌≡◌};
ghost use Rattle.dk_model.specs.Runs.{and_then};
ghost use Rattle.dk_model.specs.Steps as step;
ghost use Rattle.dk_txn.specs.Does.{Does};
ghost use Rattle.dk_txn.specs.Refusals.{refusal_fault};
ghost use Rattle.dk_game.specs.Halted.{halt_fault};

use crate::game::Game;
use crate::halt::Halt;
use crate::job_parts::game_part;
use dk_channels::{Channel, leave};
use dk_sessions::{close_record, find, is_connected, is_recorded, open_record, own_record};
use dk_txn::{Refusal, Txn, View};
use dk_types::{Job, Name, Out, Session};
use std::alloc::Global;

/// A login displaces the session that its name is recorded for, and then its own is recorded, told, and the game's.
pub(crate) fn login<G: Game, V: View>(
    alloc: Global,
    game: &G,
    job: &Job,
    session: &Session,
    txn: &mut Txn<'_, V>,
) -> Result<(), Halt>
    ensures does { Does V.sights halt_fault txn.old txn.new (and_then (step.displace_recorded session.now.name (step.game_part (G.rules game.now))) (λ _. step.admit session.now (step.game_part (G.rules game.now) job.now))) result }
    ensures same_mode { txn.new.set.mode ≡ txn.old.set.mode }
{
    displace_recorded(alloc, game, &session.name, txn)?;
    open_record(alloc, txn, session)?;
    txn.send(session.conn, Out::Accepted)?;
    game_part(alloc, game, job, txn)
}

/// The session that a name is recorded for, if there is one, ends as if its connection were lost, and the connection is
/// closed.
fn displace_recorded<G: Game, V: View>(
    alloc: Global,
    game: &G,
    name: &Name,
    txn: &mut Txn<'_, V>,
) -> Result<(), Halt>
    ensures does { Does V.sights halt_fault txn.old txn.new (step.displace_recorded name.now (step.game_part (G.rules game.now))) result }
    ensures same_mode { txn.new.set.mode ≡ txn.old.set.mode }
{
    if is_recorded(alloc, txn, name)? {
        let old = find(alloc, txn, name)?;
        displace(alloc, game, &old, txn)
    } else {
        Ok(())
    }
}

fn displace<G: Game, V: View>(
    alloc: Global,
    game: &G,
    old: &Session,
    txn: &mut Txn<'_, V>,
) -> Result<(), Halt>
    ensures does { Does V.sights halt_fault txn.old txn.new (step.displace old.now (step.game_part (G.rules game.now))) result }
    ensures same_mode { txn.new.set.mode ≡ txn.old.set.mode }
{
    let lost = Job::Disconnect {
        conn: old.conn,
        name: old.name.clone()?,
        graceful: false,
    };
    end_session(alloc, game, &lost, old, txn)?;
    txn.send(old.conn, Out::Close)?;
    Ok(())
}

/// A message is the game's where its session is recorded with its number; else it is nothing.
pub(crate) fn message<G: Game, V: View>(
    alloc: Global,
    game: &G,
    job: &Job,
    session: &Session,
    txn: &mut Txn<'_, V>,
) -> Result<(), Halt>
    ensures does { Does V.sights halt_fault txn.old txn.new (step.for_session session.now (step.game_part (G.rules game.now) job.now)) result }
    ensures same_mode { txn.new.set.mode ≡ txn.old.set.mode }
{
    if is_connected(alloc, txn, session)? {
        game_part(alloc, game, job, txn)
    } else {
        Ok(())
    }
}

/// The end of a session that is recorded with its number: the game's part, and then its channels and its record.
pub(crate) fn disconnect<G: Game, V: View>(
    alloc: Global,
    game: &G,
    job: &Job,
    session: &Session,
    txn: &mut Txn<'_, V>,
) -> Result<(), Halt>
    ensures does { Does V.sights halt_fault txn.old txn.new (step.for_session session.now (step.end_session session.now (step.game_part (G.rules game.now) job.now))) result }
    ensures same_mode { txn.new.set.mode ≡ txn.old.set.mode }
{
    if is_connected(alloc, txn, session)? {
        end_session(alloc, game, job, session, txn)
    } else {
        Ok(())
    }
}

fn end_session<G: Game, V: View>(
    alloc: Global,
    game: &G,
    job: &Job,
    session: &Session,
    txn: &mut Txn<'_, V>,
) -> Result<(), Halt>
    ensures does { Does V.sights halt_fault txn.old txn.new (step.end_session session.now (step.game_part (G.rules game.now) job.now)) result }
    ensures same_mode { txn.new.set.mode ≡ txn.old.set.mode }
{
    game_part(alloc, game, job, txn)?;
    let (_, record) = own_record(alloc, txn, session)?;
    leave_channels(alloc, txn, session, record.channels.as_slice())?;
    close_record(alloc, txn, session)?;
    Ok(())
}

/// Takes the session from each of the channels, in their order.
fn leave_channels<V: View>(
    alloc: Global,
    txn: &mut Txn<'_, V>,
    session: &Session,
    channels: &[Name],
) -> Result<(), Refusal>
    ensures does { Does V.sights refusal_fault txn.old txn.new (step.leave_channels session.now channels.now) result }
    ensures same_mode { txn.new.set.mode ≡ txn.old.set.mode }
{
    for name in channels {
        let channel = Channel {
            name: name.clone()?,
        };
        leave(alloc, txn, &channel, session)?;
    }
    Ok(())
}
