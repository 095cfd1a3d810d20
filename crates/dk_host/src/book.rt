//! The value behind the world's lock.

use crate::history::History;
use crate::hosting::{CommitLedger, Hosting, PlaceLedger};
use dk_core::Core;
use dk_turn::Book;
use dk_types::Event;
use std::marker::Model;
use std::sync::ledger;

/// A core, which stands for the history of the events from the opening on. The one ledger's total is the number of its
/// commits; the other's is how much room its stores have for the next at least.
#[derive(Drop)]
pub struct WorldBook<W: Hosting> {
    pub(crate) core: Core,
    pub(crate) history: History<W>,
    pub(crate) commits: ledger::Book<CommitLedger<W>>,
    pub(crate) places: ledger::Book<PlaceLedger<W>>,
}

impl<W: Hosting> Model for WorldBook<W> {
    ghost use Rattle.std.specs.Prelude.{List};
    ghost use Rattle.dk_types.specs.declared.event.Event.{Event};
    ghost use Rattle.dk_host.specs.Books.{IsKept};

    ghost Value = { List Event };

    ghost view = { λ b. b.history.events };

    ghost invariant = { λ b. IsKept W.opened b.history.events b.core b.commits.total b.places.total };
}

impl<W: Hosting> Book for WorldBook<W> {
    ghost use Rattle.dk_model.specs.Legal.{pass_of};

    type Entry = Event;

    ghost history = { λ b. b };

    ghost number = { pass_of };
}
