//! Copies of the durable world, which enter nothing.

use crate::book::WorldBook;
use crate::hosting::Hosting;
use crate::right::CommitRight;
use dk_core::WorldCopy;
use dk_turn::Step;
use dk_types::NoMemory;

/// A look at the history as it is.
#[derive(Drop)]
pub(crate) struct Glance;

impl<W: Hosting> Step<WorldBook<W>> for Glance {
    ghost use Rattle.std.specs.Prelude.{[]};
    ghost use Rattle.dk_host.specs.Steps.{Adds};

    type Reply = ();

    ghost may = { λ _ _ _. Unit {0} };

    ghost gives = { λ s pass before reply added. Adds W.opened [] before added };

    fn apply(self, _pass: u32, book: &mut WorldBook<W>) {
        let _ = &book.core;
    }

    fn wakes(_reply: &()) -> bool {
        false
    }
}

/// A copy of the durable world.
#[derive(Drop)]
pub(crate) struct CopyWorld;

impl<W: Hosting> Step<WorldBook<W>> for CopyWorld {
    ghost use Rattle.dk_host.specs.Steps.{Copies};

    type Reply = Result<WorldCopy, NoMemory>;

    ghost may = { λ _ _ _. Unit {0} };

    ghost gives = { λ s pass before reply added. Copies W.opened before reply added };

    fn apply(self, _pass: u32, book: &mut WorldBook<W>) -> Result<WorldCopy, NoMemory> {
        book.core.copy()
    }

    fn wakes(_reply: &Result<WorldCopy, NoMemory>) -> bool {
        false
    }
}

/// A copy of the durable world, for the one who alone may commit.
pub(crate) struct CopyLast<W: Hosting> {
    pub(crate) right: CommitRight<W>,
}

impl<W: Hosting> Step<WorldBook<W>> for CopyLast<W> {
    ghost use Rattle.std.specs.Prelude.{◌≡◌};
    ghost use Rattle.dk_host.specs.Steps.{IsWhole, CopiesLast};

    type Reply = (CommitRight<W>, Result<WorldCopy, NoMemory>);

    ghost may = { λ s _ _. IsWhole s.right.commits.parts s.right.places.parts };

    ghost gives = { λ s _ before reply added. (reply.0.commits.amount ≡ s.right.commits.amount)
        × (reply.0.places.amount ≡ s.right.places.amount)
        × IsWhole reply.0.commits.parts reply.0.places.parts
        × CopiesLast W.opened s.right.commits.amount before reply.1 added };

    fn apply(
        self,
        _pass: u32,
        book: &mut WorldBook<W>,
    ) -> (CommitRight<W>, Result<WorldCopy, NoMemory>) {
        let CopyLast { mut right } = self;
        right.audit(&mut book.commits, &mut book.places);
        (right, book.core.copy())
    }

    fn wakes(_reply: &(CommitRight<W>, Result<WorldCopy, NoMemory>)) -> bool {
        false
    }
}

/// How many commits there are, for the one who alone may commit.
pub(crate) struct CountLast<W: Hosting> {
    pub(crate) right: CommitRight<W>,
}

impl<W: Hosting> Step<WorldBook<W>> for CountLast<W> {
    ghost use Rattle.std.specs.Prelude.{◌≡◌};
    ghost use Rattle.dk_host.specs.Steps.{IsWhole, CountsLast};

    type Reply = (CommitRight<W>, u64);

    ghost may = { λ s _ _. IsWhole s.right.commits.parts s.right.places.parts };

    ghost gives = { λ s _ before reply added. (reply.0.commits.amount ≡ s.right.commits.amount)
        × (reply.0.places.amount ≡ s.right.places.amount)
        × IsWhole reply.0.commits.parts reply.0.places.parts
        × CountsLast W.opened s.right.commits.amount before reply.1 added };

    fn apply(self, _pass: u32, book: &mut WorldBook<W>) -> (CommitRight<W>, u64) {
        let CountLast { mut right } = self;
        right.audit(&mut book.commits, &mut book.places);
        (right, book.core.commits())
    }

    fn wakes(_reply: &(CommitRight<W>, u64)) -> bool {
        false
    }
}
