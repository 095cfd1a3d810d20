//! What tells one host from another.
ghost use Rattle.std.specs.Prelude.{ℕ, Bool, false};
ghost use Rattle.dk_disk.specs.DiskHistories.{DiskHistory};
ghost use Rattle.dk_disk.specs.Opening.{Opening, NotCalled};
ghost use Rattle.dk_model.specs.Legal.{Opened};
ghost use Rattle.dk_notice.specs.Notices.{BoardName, no_board};
ghost use Rattle.dk_host.specs.Openings.{nothing_opened, empty_files};

use std::marker::{Brand, PhantomData};
use std::sync::ledger::Ledger;

/// What a host was opened with, on which files, its two ledgers, and its board. A program picks it once, when it opens the host.
pub trait Hosting {
    ghost opened: { Opened };

    // What its files were, up to the moment at which it was opened.
    ghost began: { DiskHistory };

    // The store's epoch as it was opened.
    ghost first: { ℕ };

    // How its home was opened.
    ghost opening: { Opening };

    // The home's count of faults as the host was opened.
    ghost counted: { ℕ };

    // Whether it keeps its events in memory.
    ghost keeps: { Bool };

    // The name of the ledger of its commits.
    ghost commits: { ℕ };

    // The name of the ledger of the room that is kept for its next commit.
    ghost places: { ℕ };

    // The board on which the faults of its home are told.
    ghost board: { BoardName };
}

impl Hosting for Brand {
    ghost opened = { nothing_opened };

    ghost began = { empty_files };

    ghost first = { 0 };

    ghost opening = { NotCalled };

    ghost counted = { 0 };

    ghost keeps = { false };

    ghost commits = { 0 };

    ghost places = { 0 };

    ghost board = { no_board };
}

/// The ledger of a host's commits: one share. No value of it is made.
pub struct CommitLedger<W: Hosting> {
    of: PhantomData<W>,
}

impl<W: Hosting> Ledger for CommitLedger<W> {
    ghost name = { W.commits };

    ghost parts = { 1 };
}

/// The ledger of the room that is kept for a host's next commit: one share. No value of it is made.
pub struct PlaceLedger<W: Hosting> {
    of: PhantomData<W>,
}

impl<W: Hosting> Ledger for PlaceLedger<W> {
    ghost name = { W.places };

    ghost parts = { 1 };
}
