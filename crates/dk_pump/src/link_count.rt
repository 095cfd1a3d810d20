//! How many links places took, and how many sessions on them have ended.
ghost use Rattle.std.specs.Prelude.{◌≡◌, ◌+◌, ◌≤◌};

use crate::arrivals::Doorway;
use crate::tally::Tally;
use std::sync::ledger::Share;

/// A part of the ledger of links, and a tally of the sessions that have ended, which are as many as the part has links. It is
/// of so many places, each of which has one of the ledger's parts.
#[derive(Drop)]
pub struct LinkCount<D: Doorway, K> {
    pub(crate) places: u64,
    pub(crate) share: Share<D>,
    pub(crate) tally: Tally<K>,
    pub(crate) ghost parts: { places ≤ share.parts },
    pub(crate) ghost same: { share.amount ≡ tally },
}

impl<D: Doorway, K> LinkCount<D, K> {
    /// Of one place that has taken no link.
    pub fn new(share: Share<D>) -> LinkCount<D, K>
        requires part { share.parts ≡ 1 }
        requires none { share.amount ≡ 0 }
        ensures places { result.places ≡ 1 }
        ensures share { result.share ≡ share }
    {
        LinkCount {
            places: 1,
            share,
            tally: Tally::new(),
        }
    }

    /// Of no place.
    pub fn empty(share: &mut Share<D>) -> LinkCount<D, K>
        ensures places { result.places ≡ 0 }
        ensures same { share.new ≡ share.old }
    {
        LinkCount {
            places: 0,
            share: share.empty(),
            tally: Tally::new(),
        }
    }

    /// Of how many places.
    pub fn places(&self) -> u64
        ensures { result ≡ self.now.places }
    {
        self.places
    }

    /// The tally of the sessions.
    pub fn into_tally(self) -> Tally<K>
        ensures { result ≡ self.tally }
    {
        let LinkCount {
            places: _,
            share: _,
            tally,
        } = self;
        tally
    }
}
