//! A relay, whose legs two passes run in turn. It keeps its history in memory.
ghost use Rattle.dk_turn_books.specs.Legs.{IsInTurn};

use dk_turn::{Book, Step};
use std::alloc::AllocError;

/// One leg, and the pass that ran it.
#[derive(Clone, Copy)]
pub struct Leg {
    pub by: u32,
}

/// The legs that were run: pass 0 ran the first, pass 1 the second, and so on in turn.
#[derive(Drop)]
pub struct Relay {
    pub legs: Vec<Leg>,
    pub ghost in_turn: { IsInTurn legs.items },
}

impl Book for Relay {
    type Entry = Leg;

    ghost history = { λ r. r.legs.items };

    ghost number = { λ l. l.by };
}

/// Runs the next leg, which has to be this pass's. With no memory it runs none.
#[derive(Drop)]
pub struct RunLeg;

impl Step<Relay> for RunLeg {
    ghost use Rattle.std.specs.Prelude.{◌≡◌, ◌%◌, [], ◌∷◌, length, OnOk, OnErr};
    ghost use Rattle.dk_turn_books.specs.Legs.{leg};

    type Reply = Result<(), AllocError>;

    ghost may = { λ _ pass history. length history % 2 ≡ pass };

    ghost gives = { λ _ pass _ reply added. OnOk reply (added ≡ leg pass ∷ []) × OnErr reply (added ≡ []) };

    fn apply(self, pass: u32, book: &mut Relay) -> Result<(), AllocError> {
        book.legs.push(Leg { by: pass })?;
        Ok(())
    }
}

/// How many legs were run. It only reads, so nobody who waits is woken for it.
#[derive(Drop)]
pub struct CountLegs;

impl Step<Relay> for CountLegs {
    ghost use Rattle.std.specs.Prelude.{◌≡◌, [], length};

    type Reply = usize;

    ghost may = { λ _ _ _. Unit {0} };

    ghost gives = { λ _ _ before reply added. (reply ≡ length before) × (added ≡ []) };

    fn apply(self, _pass: u32, book: &mut Relay) -> usize {
        book.legs.len()
    }

    fn wakes(_reply: &usize) -> bool {
        false
    }
}
