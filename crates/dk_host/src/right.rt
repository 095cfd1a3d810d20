//! The right to commit.
ghost use Rattle.std.specs.Prelude.{◌≡◌, ◌+◌};
ghost use Rattle.dk_host.specs.Steps.{places_for};

use crate::hosting::{CommitLedger, Hosting, PlaceLedger};
use dk_core::{PrepareRefused, Prepared};
use std::mem::replace;
use std::sync::ledger::{Book, Share};

/// The one share of each of a host's ledgers: who has it knows how many commits the history has, since nobody else can
/// commit, and that the room of the next is still there.
#[derive(Drop)]
pub struct CommitRight<W: Hosting> {
    pub(crate) commits: Share<CommitLedger<W>>,
    pub(crate) places: Share<PlaceLedger<W>>,
    // How many places are kept.
    pub(crate) kept: u64,
    pub(crate) ghost counted: { places.amount ≡ kept },
}

impl<W: Hosting> CommitRight<W> {
    // The shares of new ledgers: no commit, and no room.
    pub(crate) fn new(
        commits: Share<CommitLedger<W>>,
        places: Share<PlaceLedger<W>>,
    ) -> CommitRight<W>
        requires commits { (commits.parts ≡ 1) × (commits.amount ≡ 0) }
        requires places { (places.parts ≡ 1) × (places.amount ≡ 0) }
        ensures whole { (result.commits.parts ≡ 1) × (result.places.parts ≡ 1) }
        ensures commits { result.commits.amount ≡ 0 }
        ensures places { result.places.amount ≡ 0 }
    {
        CommitRight {
            commits,
            places,
            kept: 0,
        }
    }

    // The right itself. What stays here is of nothing.
    pub(crate) fn lend(&mut self) -> CommitRight<W>
        ensures commits { (result.commits.parts ≡ self.old.commits.parts) × (result.commits.amount ≡ self.old.commits.amount) }
        ensures places { (result.places.parts ≡ self.old.places.parts) × (result.places.amount ≡ self.old.places.amount) }
    {
        let none = CommitRight {
            commits: self.commits.empty(),
            places: self.places.empty(),
            kept: 0,
        };
        replace(self, none)
    }

    // The right is of all commits and of all the room that is kept.
    pub(crate) fn audit(
        &mut self,
        commits: &mut Book<CommitLedger<W>>,
        places: &mut Book<PlaceLedger<W>>,
    )
        requires whole { (self.old.commits.parts ≡ 1) × (self.old.places.parts ≡ 1) }
        ensures whole { (self.new.commits.parts ≡ 1) × (self.new.places.parts ≡ 1) }
        ensures commits { (self.old.commits.amount ≡ commits.old.total) × (self.new.commits.amount ≡ self.old.commits.amount) × (commits.new.total ≡ commits.old.total) }
        ensures places { (self.old.places.amount ≡ places.old.total) × (self.new.places.amount ≡ self.old.places.amount) × (places.new.total ≡ places.old.total) }
    {
        commits.audit(&mut self.commits);
        places.audit(&mut self.places);
    }

    // No room is kept any more.
    pub(crate) fn let_go(&mut self, places: &mut Book<PlaceLedger<W>>)
        requires whole { self.old.places.parts ≡ 1 }
        ensures whole { (self.new.commits.parts ≡ self.old.commits.parts) × (self.new.places.parts ≡ 1) }
        ensures commits { self.new.commits.amount ≡ self.old.commits.amount }
        ensures places { (self.new.places.amount ≡ 0) × (places.new.total ≡ 0) }
    {
        places.audit(&mut self.places);
        places.sub(&mut self.places, self.kept);
        self.kept = 0;
    }

    // The room of what was prepared is kept, where it was.
    pub(crate) fn keep_for(
        &mut self,
        places: &mut Book<PlaceLedger<W>>,
        found: &Result<Prepared, PrepareRefused>,
    )
        requires whole { self.old.places.parts ≡ 1 }
        requires none { (self.old.places.amount ≡ 0) × (places.old.total ≡ 0) }
        ensures whole { (self.new.commits.parts ≡ self.old.commits.parts) × (self.new.places.parts ≡ 1) }
        ensures commits { self.new.commits.amount ≡ self.old.commits.amount }
        ensures places { (self.new.places.amount ≡ places_for found.now) × (places.new.total ≡ places_for found.now) }
    {
        if let Ok(prepared) = found {
            let kept = prepared.places();
            places.add(&mut self.places, kept);
            self.kept = kept;
        }
    }

    // One commit more.
    pub(crate) fn count(&mut self, commits: &mut Book<CommitLedger<W>>)
        requires whole { self.old.commits.parts ≡ 1 }
        ensures whole { (self.new.commits.parts ≡ 1) × (self.new.places.parts ≡ self.old.places.parts) }
        ensures commits { (self.new.commits.amount ≡ self.old.commits.amount + 1) × (commits.new.total ≡ commits.old.total + 1) }
        ensures places { self.new.places.amount ≡ self.old.places.amount }
    {
        commits.add(&mut self.commits, 1);
    }
}
