//! Messages on channels.
ghost use Rattle.std.specs.Prelude.{◌≡◌};
ghost use Rattle.dk_model.specs.Steps as step;
ghost use Rattle.dk_txn.specs.Does.{Does};
ghost use Rattle.dk_game.specs.Halted.{halt_fault};

use crate::game::Game;
use crate::halt::Halt;
use crate::job_parts::game_part;
use dk_channels::{Channel, is_member, record_of, send};
use dk_sessions::is_connected;
use dk_txn::{Refusal, Txn, View};
use dk_types::{Blob, Job, Name, Session};
use std::alloc::Global;

/// A message on a channel, of a session that is recorded with its number: it is nothing where there is no such channel, or
/// where the session is not on it. It goes to the game where the game listens, and else to every member.
pub(crate) fn channel<G: Game, V: View>(
    alloc: Global,
    game: &G,
    job: &Job,
    session: &Session,
    name: &Name,
    body: &Blob,
    txn: &mut Txn<'_, V>,
) -> Result<(), Halt>
    ensures does { Does V.sights halt_fault txn.old txn.new (step.for_session session.now (step.channel_message session.now name.now body.now (step.game_part (G.rules game.now) job.now))) result }
    ensures same_mode { txn.new.set.mode ≡ txn.old.set.mode }
{
    if is_connected(alloc, txn, session)? {
        on_channel(alloc, game, job, session, name, body, txn)
    } else {
        Ok(())
    }
}

fn on_channel<G: Game, V: View>(
    alloc: Global,
    game: &G,
    job: &Job,
    session: &Session,
    name: &Name,
    body: &Blob,
    txn: &mut Txn<'_, V>,
) -> Result<(), Halt>
    ensures does { Does V.sights halt_fault txn.old txn.new (step.channel_message session.now name.now body.now (step.game_part (G.rules game.now) job.now)) result }
    ensures same_mode { txn.new.set.mode ≡ txn.old.set.mode }
{
    match record_of(alloc, txn, name) {
        Ok((_, record)) => {
            if !is_member(session, record.members.as_slice()) {
                Ok(())
            } else if record.listener {
                game_part(alloc, game, job, txn)
            } else {
                let on = Channel {
                    name: name.clone()?,
                };
                send(alloc, txn, &on, None, body)?;
                Ok(())
            }
        }
        Err(refused) => match refused {
            Refusal::NameNotBound => Ok(()),
            _ => Err(Halt::from(refused)),
        },
    }
}
