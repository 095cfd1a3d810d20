//! The links that a listener gives, counted.
//!
//! A listener is lent to its arrivals, which lie behind a lock: whoever takes a link has a share of a ledger, and the share
//! rises by one. So all shares together are as many as the listener gave links.
ghost use Rattle.std.specs.Prelude.{◌≡◌, ◌↔◌, ◌+◌, ◌<◌, ◌≤◌, ℕ, IfOk, IsTrue, OnOk, OnErr};
ghost use Rattle.dk_types.specs.declared.limits.TheConstants.{NUMBERS_END};
ghost use Rattle.dk_pump.specs.Arrivals.{AreAll, HasGiven, IsFresh};

use crate::link_count::LinkCount;
use dk_edge::{Binding, Listener};
use dk_types::Failed;
use dk_types::limits::NUMBERS_END;
use std::marker::Brand;
use std::sync::ledger::{Book, Ledger, Share};
use thiserror::Error;

/// What tells one door from another: the ledger of its links, which is the supertrait's, and the listener that was lent to it, as
/// it was then.
pub trait Doorway: Ledger {
    // Which borrow of the listener it is.
    ghost lent: { ℕ };

    // At which port it listens.
    ghost port: { ℕ };

    // How many links it had given.
    ghost first: { ℕ };

    // How many are to be given from then on, or 0 where there is no end.
    ghost most: { ℕ };

    // The listener's count of faults then.
    ghost counted: { ℕ };
}

impl Doorway for Brand {
    ghost lent = { 0 };

    ghost port = { 0 };

    ghost first = { 0 };

    ghost most = { 0 };

    ghost counted = { 0 };
}

/// Whether a listener gives links still.
#[derive(Clone, Copy, Debug, PartialEq, Eq)]
pub enum Accepting {
    Open,
    /// It said that no more come.
    Ended,
    /// It failed.
    Failed,
}

/// Why no link is given.
#[derive(Clone, Copy, Debug, PartialEq, Eq, Error)]
pub enum NoLink {
    /// As many were given as there were to be, or the listener said that no more come.
    #[error("no more links come")]
    Over,
    /// The listener failed.
    #[error("the listener failed")]
    Failed,
    /// The server is ending.
    #[error("the server is ending")]
    Ending,
}

/// A listener that is lent, and how many links it gave since; the ledger's total is that number.
#[derive(Drop)]
pub struct Arrivals<'n, L: Listener, D: Doorway> {
    net: &'n mut L,
    book: Book<D>,
    given: u64,
    // How many are to be given, or 0 where there is no end.
    most: u64,
    accepting: Accepting,
    pub(crate) ghost same: { net.ghost_name ≡ D.lent },
    pub(crate) ghost asked: { most ≡ D.most },
    pub(crate) ghost total: { book.total ≡ given },
    pub(crate) ghost few: { given ≤ NUMBERS_END },
    pub(crate) ghost has_given: { HasGiven D.port D.first D.counted accepting (L.listening net.now) (L.counted net.now) given },
}

impl<'n, L: Listener, D: Doorway> Arrivals<'n, L, D> {
    /// The arrivals at a listener that listens: so many links, or with 0 any number.
    pub fn new(net: &'n mut L, book: Book<D>, most: u64) -> Arrivals<'n, L, D>
        requires lent { net.ghost_name ≡ D.lent }
        requires bound { (L.listening net.old).binding ≡ Binding.Bound D.port }
        requires first { (L.listening net.old).given ≡ D.first }
        requires counted { L.counted net.old ≡ D.counted }
        requires most { most ≡ D.most }
        requires none { book.total ≡ 0 }
    {
        Arrivals {
            net,
            book,
            given: 0,
            most,
            accepting: Accepting::Open,
        }
    }

    /// The next link, for which the share rises by one.
    pub(crate) fn next(&mut self, share: &mut Share<D>) -> Result<L::Whole, NoLink>
        requires part { 0 < share.old.parts }
        ensures given { OnOk result (share.new.amount ≡ share.old.amount + 1) }
        ensures few { OnOk result (share.old.amount < NUMBERS_END) }
        ensures fresh { IfOk result (λ link. IsFresh (L.Whole.take_counted link) (L.Whole.put_counted link)) }
        ensures refused { OnErr result (share.new.amount ≡ share.old.amount) }
        ensures parts { share.new.parts ≡ share.old.parts }
    {
        self.check()?;
        let Arrivals {
            net,
            book,
            given,
            most: _,
            accepting,
        } = self;
        match net.accept_link() {
            Ok(Some(link)) => {
                book.audit(share);
                book.add(share, 1);
                *given += 1;
                Ok(link)
            }
            Ok(None) => {
                *accepting = Accepting::Ended;
                Err(NoLink::Over)
            }
            Err(Failed) => {
                *accepting = Accepting::Failed;
                Err(NoLink::Failed)
            }
        }
    }

    // Whether another link may be asked for.
    fn check(&self) -> Result<(), NoLink>
        ensures awaits { OnOk result (self.now.accepting ≡ Accepting.Open) }
        ensures few { OnOk result (self.now.given < NUMBERS_END) }
    {
        match self.accepting {
            Accepting::Ended => return Err(NoLink::Over),
            Accepting::Failed => return Err(NoLink::Failed),
            Accepting::Open => {}
        }
        if self.given == NUMBERS_END || self.is_full() {
            return Err(NoLink::Over);
        }
        Ok(())
    }

    // Whether as many were given as there were to be.
    fn is_full(&self) -> bool
        ensures { IsTrue result ↔ ((0 < self.now.most) × (self.now.given ≡ self.now.most)) }
    {
        self.most > 0 && self.given == self.most
    }

    /// Whether as many links were given as there were to be, or it was said that no more come.
    pub fn is_over(&self) -> bool
        ensures { IsTrue result → AreAll D.most self.now.given (L.listening self.now.net.now) }
    {
        self.is_full() || matches!(self.accepting, Accepting::Ended)
    }

    /// How many links were given.
    pub fn given(&self) -> u64
        ensures { result ≡ self.now.given }
    {
        self.given
    }

    /// Both counts together.
    pub fn join<K>(&mut self, one: LinkCount<D, K>, other: LinkCount<D, K>) -> LinkCount<D, K>
        ensures given { self.new.given ≡ self.old.given }
        ensures net { (self.new.net.ghost_name ≡ self.old.net.ghost_name) × (self.new.net.now ≡ self.old.net.now) }
    {
        let LinkCount {
            places,
            mut share,
            tally,
        } = one;
        share.merge(other.share);
        self.book.audit(&mut share);
        LinkCount {
            places: places.saturating_add(other.places),
            share,
            tally: tally.join(other.tally),
        }
    }

    /// The count of all places has as many sessions as links were given. It does nothing.
    pub fn audit<K>(&mut self, count: &mut LinkCount<D, K>)
        requires places { count.old.places ≡ D.parts }
        ensures all { count.new.tally ≡ self.new.given }
        ensures tally { count.new.tally ≡ count.old.tally }
        ensures given { self.new.given ≡ self.old.given }
        ensures net { (self.new.net.ghost_name ≡ self.old.net.ghost_name) × (self.new.net.now ≡ self.old.net.now) }
    {
        let none = count.share.empty();
        count.share.merge(none);
        self.book.audit(&mut count.share);
    }

    /// The listener, given back.
    pub fn into_listener(self) -> &'n mut L
        ensures same { result.ghost_name ≡ D.lent }
        ensures now { result.now ≡ self.entry.net.now }
        ensures given { HasGiven D.port D.first D.counted self.entry.accepting (L.listening result.now) (L.counted result.now) self.entry.given }
    {
        let Arrivals {
            net,
            book: _,
            given: _,
            most: _,
            accepting: _,
        } = self;
        net
    }
}
