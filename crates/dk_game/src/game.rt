//! What a game is.
ghost use Rattle.std.specs.Prelude.{◌≡◌};
ghost use Rattle.dk_txn.specs.Does.{Does};
ghost use Rattle.dk_game.specs.Halted.{halt_fault};

use crate::halt::Halt;
use dk_model::Rules;
use dk_txn::{Txn, View};
use dk_types::{GameId, Job};
use std::alloc::Global;

/// A game: what it answers to the start of the application (`AppListener.initialize`), to logins, to its
/// clients' messages, to the ends of their sessions, and to its tasks (`AppListener`,
/// `ClientSessionListener`, `ChannelListener`, `Task`). It does in a transaction what its rules say.
pub trait Game: Rules {
    ghost use Rattle.std.specs.Prelude.{ℕ, List};

    ghost id: { Self → List ℕ };

    /// The id by which a store knows whose it is; a game has one.
    fn id(&self) -> GameId
        ensures { result ≡ Self.id self.now };

    /// The game's part of a job. The platform's part goes before and after it.
    fn run<V: View>(&self, alloc: Global, job: &Job, txn: &mut Txn<'_, V>) -> Result<(), Halt>
        ensures { Does V.sights halt_fault txn.old txn.new (Self.rules self.now job.now) result };
}
