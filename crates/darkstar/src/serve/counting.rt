//! What the members of a server's crew came to, together.
ghost use Rattle.std.specs.Prelude.{◌≡◌, ◌+◌, ◌⊎◌, None};
ghost use Rattle.dk_edge.specs.declared.listener.Binding.TheVariants.{Bound};
ghost use Rattle.dk_pump.specs.Arrivals.{AreAll};
ghost use Rattle.darkstar.specs.Served.{IsAllServed, IsSound};

use super::verdict::{ServeFault, Verdict};
use dk_edge::{Link, Listener};
use dk_pump::{Arrivals, Doorway, LinkCount, Tally};
use std::sync::ledger::Share;

/// What a member of the crew came to: its verdict, and a place's count, unless it is lost.
#[derive(Drop)]
pub(crate) struct MemberDone<D: Doorway, K> {
    pub(crate) verdict: Verdict,
    pub(crate) count: Option<LinkCount<D, K>>,
}

/// What all came to: the listener, the first fault in the order of the crew, and how many sessions have ended.
#[derive(Drop)]
pub(crate) struct Counted<'n, L: Listener> {
    pub(crate) net: &'n mut L,
    pub(crate) verdict: Verdict,
    pub(crate) served: Tally<L::Whole>,
}

/// The first fault of the members, in their order, and the counts of their places together.
pub(crate) fn gather<K: Link + Drop, L: Listener<Whole = K>, D: Doorway>(
    arrivals: &mut Arrivals<'_, L, D>,
    share: &mut Share<D>,
    dones: Vec<MemberDone<D, K>>,
) -> (Verdict, LinkCount<D, K>) {
    let mut verdict = Verdict::good();
    let mut count = LinkCount::empty(share);
    for done in dones {
        verdict = verdict.or(done.verdict);
        if let Some(one) = done.count {
            count = arrivals.join(count, one);
        }
    }
    (verdict, count)
}

/// What a server came to, whose members had this verdict and this count. Without a fault the count is of all places.
pub(crate) fn settle<'n, K: Link + Drop, L: Listener<Whole = K>, D: Doorway>(
    mut arrivals: Arrivals<'n, L, D>,
    verdict: Verdict,
    mut count: LinkCount<D, K>,
    places: u64,
) -> Counted<'n, L>
    requires places { places ≡ D.parts }
    ensures same { result.net.ghost_name ≡ D.lent }
    ensures bound { (L.listening result.net.now).binding ≡ Bound D.port }
    ensures all { result.verdict.fault ≡ None → IsAllServed D.first D.most result.served (L.listening result.net.now) }
{
    // A place that ends since the server is ending does so behind a member with a fault, and one that is lost is a fault.
    if count.places() != places || !arrivals.is_over() {
        return Counted {
            net: arrivals.into_listener(),
            verdict: verdict.or(Verdict::no_memory()),
            served: count.into_tally(),
        };
    }
    arrivals.audit(&mut count);
    Counted {
        net: arrivals.into_listener(),
        verdict,
        served: count.into_tally(),
    }
}
