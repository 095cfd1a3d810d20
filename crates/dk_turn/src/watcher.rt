//! One that sees the history and enters nothing.

use crate::book::Book;
use crate::naming::Naming;
use crate::rule::Place;
use std::marker::{Model, PhantomData};

/// A watcher of the turn that `J` names. It has no number, so that no entry is ever in its name. Contracts see its front, the part of the history
/// that it has seen.
#[derive(Drop)]
pub struct Watcher<O: Book, J: Naming> {
    pub(crate) seat: Place<O>,
    pub(crate) of: PhantomData<J>,
}

impl<O: Book, J: Naming> Model for Watcher<O, J> {
    ghost use Rattle.std.specs.Prelude.{◌≡◌};
    ghost use Rattle.dk_turn.specs.Fronts.{Watched, watched};
    ghost use Rattle.dk_turn.specs.Rule.{watcher_of};

    ghost Value = { Watched O.Entry };

    ghost view = { λ w. watched w.seat.me.0.seen };

    ghost invariant = { λ w. (w.seat.table_id ≡ J.name.table) × (w.seat.me.0 ≡ watcher_of w.seat.me.0.seen) };
}
