//! The door of a server: where places take links, one after another.
ghost use Rattle.std.specs.Prelude.{◌≡◌, ◌+◌, ◌<◌, IfOk, OnOk, OnErr};
ghost use Rattle.dk_types.specs.declared.limits.TheConstants.{NUMBERS_END};
ghost use Rattle.dk_pump.specs.Arrivals.{IsFresh};

use crate::arrivals::{Arrivals, Doorway, NoLink};
use dk_edge::Listener;
use std::sync::atomic::{AtomicBool, AtomicU64, Ordering};
use std::sync::ledger::Share;
use std::sync::{Mutex, Wait};

/// A listener's arrivals behind a lock, how many places have not left, and whether the server is ending. It is ending once
/// somebody said so, or all places have left.
#[derive(Drop)]
pub struct Door<'n, L: Listener, D: Doorway> {
    arrivals: Mutex<Arrivals<'n, L, D>>,
    places: AtomicU64,
    ending: AtomicBool,
}

impl<'n, L: Listener, D: Doorway> Door<'n, L, D> {
    /// A door at which so many places take links.
    pub fn new(arrivals: Arrivals<'n, L, D>, places: u64) -> Door<'n, L, D> {
        Door {
            arrivals: Mutex::new(arrivals),
            places: AtomicU64::new(places),
            ending: AtomicBool::new(false),
        }
    }

    /// Whether the server is ending, for those who do not wait at the door.
    pub fn ending(&self) -> &AtomicBool {
        &self.ending
    }

    /// The next link, for which the share rises by one. It waits for the lock, and under it for the link.
    pub fn next<R: Wait>(&self, rt: &R, share: &mut Share<D>) -> Result<L::Whole, NoLink>
        requires part { 0 < share.old.parts }
        ensures given { OnOk result (share.new.amount ≡ share.old.amount + 1) }
        ensures few { OnOk result (share.old.amount < NUMBERS_END) }
        ensures fresh { IfOk result (λ link. IsFresh (L.Whole.take_counted link) (L.Whole.put_counted link)) }
        ensures refused { OnErr result (share.new.amount ≡ share.old.amount) }
        ensures parts { share.new.parts ≡ share.old.parts }
    {
        let mut arrivals = self.arrivals.lock(rt);
        if self.ending.load(Ordering::SeqCst) {
            return Err(NoLink::Ending);
        }
        arrivals.next(share)
    }

    /// A place leaves. When all have left, the server is ending.
    pub fn leave(&self) {
        if self.places.fetch_sub(1, Ordering::SeqCst) == 1 {
            self.end();
        }
    }

    /// From now on the server is ending.
    pub fn end(&self) {
        self.ending.store(true, Ordering::SeqCst);
    }

    /// The arrivals, once nobody takes links.
    pub fn into_arrivals(self) -> Arrivals<'n, L, D> {
        let Door {
            arrivals,
            places: _,
            ending: _,
        } = self;
        arrivals.into_inner()
    }
}
