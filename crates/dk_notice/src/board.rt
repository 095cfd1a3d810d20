//! The board.
ghost use Rattle.std.specs.Prelude.{◌≡◌, ◌≢◌, ◌<◌, true, false, IfOk};
ghost use Rattle.dk_notice.specs.Boards.{keeper_of};
ghost use Rattle.dk_notice.specs.Notices.{GoesOn, notice_of, nothing_told, said_on};

use crate::notice::Notice;
use crate::rule::{Agreed, Compares, Copies, Gives, Hears, Place, Tells, TellsMore, View, Words};
use crate::told::Told;
use atomic_table::Table;
use std::alloc::{AllocError, Global};
use std::marker::Model;

/// What is told of a device's faults, for good. Contracts see which board it is, and what it says.
pub struct NoticeBoard {
    table: Table<Told, View, (), Agreed, Global>,
    seat: Place,
    said: Told,
}

impl Model for NoticeBoard {
    ghost use Rattle.std.specs.Prelude.{◌≡◌};
    ghost use Rattle.dk_notice.specs.Boards.{keeper_of};
    ghost use Rattle.dk_notice.specs.Notices.{Says, said_on};

    ghost Value = { Says };

    ghost view = { λ b. said_on b.seat.table_id b.said };

    ghost invariant = { λ b. (b.table.shared.table_id.words ≡ 1)
        × (b.table.shared.table_id.slots ≡ 0)
        × (b.seat.table_id ≡ b.table.shared.table_id)
        × (b.seat.me.0 ≡ keeper_of b.said) };
}

// Tells this, of a greater count than before. The notice is the one of it.
fn tell_more(words: &Words, seat: &mut Place, told: &Told) -> Notice
    requires words { 0 < words.now.table_id.words }
    requires table { seat.old.table_id ≡ words.now.table_id }
    requires keeps { seat.old.me.0.keeps ≡ true }
    requires goes_on { GoesOn seat.old.me.0.known told.now }
    requires more { seat.old.me.0.known.counted < told.now.counted }
    ensures table { seat.new.table_id ≡ seat.old.table_id }
    ensures seat { seat.new.me.0 ≡ keeper_of told.now }
    ensures notice { result ≡ notice_of seat.old.table_id told.now true }
{
    words.compare_exchange_with::<TellsMore>(seat, 0, 0, 0, told);
    Notice {
        seat: words.split_seat::<Gives>(seat),
    }
}

// Tells this, of the count that was told before.
fn tell_same(words: &Words, seat: &mut Place, told: &Told) -> Notice
    requires words { 0 < words.now.table_id.words }
    requires table { seat.old.table_id ≡ words.now.table_id }
    requires keeps { seat.old.me.0.keeps ≡ true }
    requires goes_on { GoesOn seat.old.me.0.known told.now }
    ensures table { seat.new.table_id ≡ seat.old.table_id }
    ensures seat { seat.new.me.0 ≡ keeper_of told.now }
    ensures notice { result ≡ notice_of seat.old.table_id told.now false }
{
    words.compare_exchange_with::<Tells>(seat, 0, 0, 0, told);
    Notice {
        seat: words.split_seat::<Copies>(seat),
    }
}

impl NoticeBoard {
    /// A board on which nothing was told. It takes one word of memory, and its calls none.
    pub fn new(alloc: Global) -> Result<NoticeBoard, AllocError>
        ensures { IfOk result (λ b. b ≡ said_on b.board nothing_told) }
    {
        let (table, seat) = Table::of_words(alloc, &[0], &())?;
        let said = Told {
            counted: 0,
            stopped: None,
        };
        Ok(NoticeBoard { table, seat, said })
    }

    /// From now on it says this, which is what it said or more. Gives a notice of it: the one of this count, where that is
    /// new.
    pub fn tell(&mut self, told: Told) -> Notice
        requires { GoesOn self.old.told told }
        ensures board { self.new ≡ said_on self.old.board told }
        ensures notice { (result.board ≡ self.old.board) × (result.told ≡ told) }
        ensures first { self.old.told.counted < told.counted → result ≡ notice_of self.old.board told true }
    {
        let NoticeBoard { table, seat, said } = self;
        let is_more = said.counted < told.counted;
        *said = told;
        if is_more {
            tell_more(&table.shared, seat, &told)
        } else {
            tell_same(&table.shared, seat, &told)
        }
    }

    /// What a notice of this board says, the board says, or more. It does nothing.
    pub fn confirm(&mut self, notice: &mut Notice)
        requires { notice.old.board ≡ self.old.board }
        ensures goes_on { GoesOn notice.old.told self.old.told }
        ensures same { (self.new ≡ self.old) × (notice.new ≡ notice.old) }
    {
        let NoticeBoard {
            table,
            seat,
            said: _,
        } = self;
        let words = &table.shared;
        let copy = words.split_seat::<Copies>(&mut notice.seat);
        words.join_seat::<Hears>(seat, copy);
        words.load::<Compares>(seat, 0);
    }

    /// Two notices that are those of their counts say different counts. It does nothing.
    pub fn tell_apart(&self, one: &mut Notice, other: Notice)
        requires boards { (one.old.board ≡ self.now.board) × (other.board ≡ self.now.board) }
        requires firsts { (one.old.first ≡ true) × (other.first ≡ true) }
        ensures apart { one.old.told.counted ≢ other.told.counted }
        ensures same { one.new ≡ one.old }
    {
        let Notice { seat } = other;
        let words = &self.table.shared;
        words.join_seat::<Hears>(&mut one.seat, seat);
        words.load::<Compares>(&mut one.seat, 0);
    }
}

impl Drop for NoticeBoard {
    fn drop(self) {
        let NoticeBoard {
            table,
            seat: _,
            said: _,
        } = self;
        table.close().free();
    }
}
