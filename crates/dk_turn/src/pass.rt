//! The right to call, and what the calls have seen.
ghost use Rattle.std.specs.Prelude.{◌≡◌, ◌<◌};
ghost use Rattle.std.specs.List.{All};

use crate::book::Book;
use crate::naming::Naming;
use crate::rule::Place;
use std::marker::{Model, PhantomData};

/// Which of those who wait (`Turn::wait`) the steps of a pass wake, where a step wakes at all (`Step::wakes`).
#[derive(Clone, Copy, Debug, PartialEq, Eq)]
pub enum Waking {
    All,
    /// One of them, whoever it is: enough where all who wait do the same, and a step brings work for one.
    One,
    /// Nobody: its thread goes on itself with what its steps bring. Whoever begins to wait sees them all the same.
    Nobody,
}

/// A pass of the turn that `J` names, for one thread at a time. Contracts see its number and its front, the part of the history that it has seen.
/// One that is dropped needs no return.
#[derive(Drop)]
pub struct Pass<O: Book, J: Naming> {
    pub(crate) number: u32,
    pub(crate) seat: Place<O>,
    // The word, as the last call found or left it. `Turn::wait` sleeps while it stays so.
    pub(crate) woken: u64,
    // Whom its steps wake.
    pub(crate) waking: Waking,
    pub(crate) of: PhantomData<J>,
}

impl<O: Book, J: Naming> Model for Pass<O, J> {
    ghost use Rattle.std.specs.Prelude.{◌≡◌, ◌<◌};
    ghost use Rattle.std.specs.List.{All};
    ghost use Rattle.dk_turn.specs.Fronts.{Known, known};
    ghost use Rattle.dk_turn.specs.Rule.{pass_of};

    ghost Value = { Known O.Entry };

    ghost view = { λ p. known p.number p.seat.me.0.seen };

    ghost invariant = { λ p. (p.seat.table_id ≡ J.name.table)
        × (p.seat.me.0 ≡ pass_of p.number p.seat.me.0.seen)
        × (p.number < J.name.passes)
        × All (λ e. O.number e < J.name.passes) p.seat.me.0.seen };
}

impl<O: Book, J: Naming> Pass<O, J> {
    /// The number in whose name its steps enter. The passes of a turn have the numbers from 0 on.
    pub fn number(&self) -> u32
        ensures { result ≡ self.now.number }
    {
        self.number
    }

    /// From now on its steps wake these of those who wait. A new pass wakes all. No contract speaks of it.
    pub fn set_waking(&mut self, waking: Waking)
        ensures { self.new ≡ self.old }
    {
        self.waking = waking;
    }

    /// Every entry that it has seen is of a pass of this turn. It does nothing.
    pub fn has_named(&self)
        ensures { All (λ e. O.number e < J.name.passes) self.now.front }
    {
        let _ = &self.number;
    }
}
