//! The game's part of a job, and the occurrence of a task.
ghost use Rattle.std.specs.Prelude.{◌≡◌, Ok, if◌then◌else◌};
ghost use Rattle.dk_model.specs.Runs.{and_then, give};
ghost use Rattle.dk_model.specs.Steps.{game_part as part, own_task as own_act};
ghost use Rattle.dk_txn.specs.Knowing.{Fits};
ghost use Rattle.dk_txn.specs.Does.{Does, DoesFor, Only};
ghost use Rattle.dk_txn.specs.Law.{IsBegun};
ghost use Rattle.dk_game.specs.Halted.{halt_fault};
ghost use Rattle.dk_game.specs.Moving.{AsksTask};

use crate::game::Game;
use crate::halt::Halt;
use dk_txn::{Mode, Txn, View};
use dk_types::{Job, TaskKey};
use std::alloc::Global;

/// The game's part, in the game's mode.
pub(crate) fn game_part<G: Game, V: View>(
    alloc: Global,
    game: &G,
    job: &Job,
    txn: &mut Txn<'_, V>,
) -> Result<(), Halt>
    ensures does { Does V.sights halt_fault txn.old txn.new (part (G.rules game.now) job.now) result }
    ensures same_mode { txn.new.set.mode ≡ txn.old.set.mode }
{
    let before = txn.set_mode(Mode::Game);
    let end = game.run(alloc, job, txn);
    txn.set_mode(before);
    end
}

/// An occurrence of a task: it is nothing where the task is no longer pending; else the task is taken away, or gets its
/// next due moment, and the rest is the game's. `due` is a moment and `period` a span, in ms.
pub(crate) fn occurrence<G: Game, V: View>(
    alloc: Global,
    game: &G,
    job: &Job,
    key: TaskKey,
    due: u64,
    period: u64,
    txn: &mut Txn<'_, V>,
) -> Result<(), Halt>
    requires { Fits due period }
    ensures does { DoesFor (Only key due) V.sights halt_fault txn.old txn.new (and_then (own_act key due period) (λ pending. if pending then part (G.rules game.now) job.now else give (Ok tt))) result }
    ensures same_mode { txn.new.set.mode ≡ txn.old.set.mode }
    ensures asked { IsBegun txn.old.set → AsksTask key txn.new.set result }
{
    if txn.own_task(key, due, period)? {
        game_part(alloc, game, job, txn)
    } else {
        Ok(())
    }
}
