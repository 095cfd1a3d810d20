//! The rule of the table: what each seat knows of the one truth.
ghost use Rattle.dk_notice.specs.Boards.{IsAgreed, IsCompared, first_of, keeper_of, told_so};

use crate::told::Told;
use atomic_table::{Join, Play, Seat, Shared, Split, TableRule};

/// What a seat knows. No value of it is made.
pub struct View {
    /// What was told when it was taken; at the board's seat, all that was told.
    pub known: Told,
    /// What another knows that was held beside it.
    pub heard: Told,
    /// Whether it is the board's.
    pub keeps: bool,
    /// Whether it is the first of its count.
    pub first: bool,
    /// Whether the one that was held beside it is the first of its count.
    pub other: bool,
}

pub(crate) struct Agreed;

impl TableRule<Told, View, ()> for Agreed {
    ghost use Rattle.dk_notice.specs.Boards.{keeper_of};
    ghost use Rattle.dk_notice.specs.Notices.{nothing_told};

    ghost holds = { λ _. IsAgreed };

    ghost first = { λ _. keeper_of nothing_told };
}

// This is told, of a count that was told before.
pub(crate) struct Tells;

impl Play<Told, View> for Tells {
    ghost then = { λ step _ _ after. told_so keeper_of step.said after.0 };
}

// This is told, of a greater count than before.
pub(crate) struct TellsMore;

impl Play<Told, View> for TellsMore {
    ghost then = { λ step _ _ after. told_so first_of step.said after.0 };
}

// A seat gets what another knows.
pub(crate) struct Copies;

impl Split<View> for Copies {
    ghost use Rattle.dk_notice.specs.Boards.{copy_of};

    ghost left = { λ v. v };

    ghost right = { copy_of };
}

// A seat gets what another knows, and is the first of its count instead.
pub(crate) struct Gives;

impl Split<View> for Gives {
    ghost use Rattle.dk_notice.specs.Boards.{later_of, taker_of};

    ghost left = { later_of };

    ghost right = { taker_of };
}

// A seat hears what another knows.
pub(crate) struct Hears;

impl Join<View> for Hears {
    ghost use Rattle.dk_notice.specs.Boards.{hearing, nobody};

    ghost both = { hearing };

    ghost spent = { nobody };
}

// A seat knows how what it heard stands to what it knows.
pub(crate) struct Compares;

impl Play<Told, View> for Compares {
    ghost use Rattle.std.specs.Prelude.{◌≡◌};

    ghost then = { λ _ me _ after. IsCompared me.0 after.0 × (after.1 ≡ me.1) };
}

pub(crate) type Place = Seat<Told, View>;

pub(crate) type Words = Shared<Told, View, (), Agreed>;
