//! A tally, which keeps a number in memory and its history in contracts alone.
ghost use Rattle.std.specs.Prelude.{◌≡◌, length};

use dk_turn::{Book, GhostList, Noting, Step};

/// One turn that was counted, and the pass that took it. No value of it is made.
pub struct Tick {
    pub by: u32,
}

/// How many ticks its history has.
#[derive(Drop)]
pub struct Tally {
    pub(crate) ticks: GhostList<Tick>,
    pub(crate) count: u64,
    pub(crate) ghost counted: { count ≡ length ticks },
}

impl Book for Tally {
    type Entry = Tick;

    ghost history = { λ t. t.ticks };

    ghost number = { λ e. e.by };
}

/// Counts one more, and answers how many there are then. At the greatest count it does nothing.
#[derive(Drop)]
pub struct Count;

impl Noting<u32, Tick> for Count {
    ghost use Rattle.dk_turn_books.specs.Ticks.{tick};

    ghost entry = { λ pass. tick pass };
}

impl Step<Tally> for Count {
    ghost use Rattle.dk_turn_books.specs.Ticks.{counts};

    type Reply = Option<u64>;

    ghost may = { λ _ _ _. Unit {0} };

    ghost gives = { λ _ pass before reply added. counts pass before reply added };

    fn apply(self, pass: u32, book: &mut Tally) -> Option<u64> {
        let Tally { ticks, count } = book;
        let more = count.checked_add(1)?;
        ticks.note::<u32, Count>(&pass);
        *count = more;
        Some(more)
    }
}

/// How many there are. It only reads, so nobody who waits is woken for it.
#[derive(Drop)]
pub struct Total;

impl Step<Tally> for Total {
    ghost use Rattle.std.specs.Prelude.{◌≡◌, [], length};

    type Reply = u64;

    ghost may = { λ _ _ _. Unit {0} };

    ghost gives = { λ _ _ before reply added. (reply ≡ length before) × (added ≡ []) };

    fn apply(self, _pass: u32, book: &mut Tally) -> u64 {
        book.count
    }

    fn wakes(_reply: &u64) -> bool {
        false
    }
}
