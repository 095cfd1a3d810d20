//! A notice: what the board said when it was taken.

use crate::rule::Place;
use std::fmt::{Debug, Formatter, Result, Write};
use std::marker::Model;

/// What a board said when it was taken. It stays true, and has no bytes. Contracts see which board it was, what it said, and
/// whether it is the notice of that count: of all that say the same count one alone is.
#[derive(Drop)]
pub struct Notice {
    pub(crate) seat: Place,
}

impl Model for Notice {
    ghost use Rattle.std.specs.Prelude.{◌≡◌, false, []};
    ghost use Rattle.dk_notice.specs.Boards.{view as of_parts};
    ghost use Rattle.dk_notice.specs.Notices.{Said, notice_of};

    ghost Value = { Said };

    ghost view = { λ n. notice_of n.seat.table_id n.seat.me.0.known n.seat.me.0.first };

    ghost invariant = { λ n. n.seat.me ≡ (of_parts n.seat.me.0.known false n.seat.me.0.first, []) };
}

impl Debug for Notice {
    fn fmt<W: Write>(&self, f: &mut Formatter<W>) -> Result {
        f.write_str("Notice")
    }
}
