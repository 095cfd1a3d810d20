//! The whole of a job.
ghost use Rattle.std.specs.Prelude.{◌≡◌, IfOk};
ghost use Rattle.dk_model.specs.Steps.{of_session, game_part as part, work};
ghost use Rattle.dk_txn.specs.Knowing.{HasTaskLimits};
ghost use Rattle.dk_txn.specs.Does.{DoesFor};
ghost use Rattle.dk_txn.specs.Law.{IsBegun};
ghost use Rattle.dk_game.specs.Halted.{halt_fault};
ghost use Rattle.dk_game.specs.Moving.{MayMove, AsksOwn};

use crate::channel_jobs::channel;
use crate::game::Game;
use crate::halt::Halt;
use crate::job_parts::{game_part, occurrence};
use crate::session_jobs::{disconnect, login, message};
use dk_txn::{Txn, View};
use dk_types::{ConnNo, Job, Name, Session};
use std::alloc::{AllocError, Global};

fn session_of(conn: ConnNo, name: &Name) -> Result<Session, AllocError>
    ensures { IfOk result (λ session. session ≡ of_session conn name.now) }
{
    let name = name.clone()?;
    Ok(Session { name, conn })
}

/// The platform's part of a job, round the game's.
pub(crate) fn work_job<G: Game, V: View>(
    alloc: Global,
    game: &G,
    job: &Job,
    txn: &mut Txn<'_, V>,
) -> Result<(), Halt>
    requires { HasTaskLimits job.now }
    ensures does { DoesFor (MayMove job.now) V.sights halt_fault txn.old txn.new (work (part (G.rules game.now)) job.now) result }
    ensures same_mode { txn.new.set.mode ≡ txn.old.set.mode }
    ensures asked { IsBegun txn.old.set → AsksOwn job.now txn.new.set result }
{
    match job {
        Job::Initialize => game_part(alloc, game, job, txn),
        Job::Login { conn, name } => {
            let session = session_of(*conn, name)?;
            login(alloc, game, job, &session, txn)
        }
        Job::Message {
            conn,
            name,
            body: _,
        } => {
            let session = session_of(*conn, name)?;
            message(alloc, game, job, &session, txn)
        }
        Job::Channel {
            conn,
            name,
            channel: on,
            body,
        } => {
            let session = session_of(*conn, name)?;
            channel(alloc, game, job, &session, on, body, txn)
        }
        Job::Disconnect {
            conn,
            name,
            graceful: _,
        } => {
            let session = session_of(*conn, name)?;
            disconnect(alloc, game, job, &session, txn)
        }
        Job::Task {
            key,
            due,
            period,
            kind: _,
            arg: _,
        } => occurrence(alloc, game, job, *key, *due, *period, txn),
    }
}
