//! A link in a session, with a count of the polls at which it was not ready.
ghost use Rattle.std.specs.Prelude.{◌≡◌, ◌<◌, ◌≤◌, length};
ghost use Rattle.futures.specs.Poll.{OnPending};
ghost use Rattle.futures.specs.Task.{IsArmed, Keeps};
ghost use Rattle.dk_types.specs.Faults.{HasRisen, COUNT_END};
ghost use Rattle.dk_edge.specs.Links.{Counts, PollPuts, PollTakes};
ghost use Rattle.dk_pump.specs.Sessions.{CountsWaits, KeepsPut, KeepsTake};

use dk_edge::Link;
use dk_types::{ConnNo, Failed};
use futures::task::{Context, Poll};
use std::marker::Model;

/// A link, and how often it was not ready to take and to put. Contracts see what it shows.
#[derive(Drop)]
pub(crate) struct Watched<K: Link + Drop> {
    link: K,
    take_waits: u64,
    put_waits: u64,
}

impl<K: Link + Drop> Model for Watched<K> {
    ghost use Rattle.dk_pump.specs.Sessions.{LinkState};

    ghost Value = { LinkState };

    ghost view = { λ w. record { left = K.remaining w.link; contents = K.contents w.link; take_counted = K.take_counted w.link; put_counted = K.put_counted w.link; take_waits = w.take_waits; put_waits = w.put_waits } };
}

impl<K: Link + Drop> Watched<K> {
    /// A link that was not polled in this session.
    pub(crate) fn new(link: K) -> Watched<K>
        ensures { result ≡ record { left = K.remaining link; contents = K.contents link; take_counted = K.take_counted link; put_counted = K.put_counted link; take_waits = 0; put_waits = 0 } }
    {
        Watched {
            link,
            take_waits: 0,
            put_waits: 0,
        }
    }

    /// The link.
    pub(crate) fn link(&self) -> &K
        ensures take { (K.remaining result.now ≡ self.now.left) × (K.take_counted result.now ≡ self.now.take_counted) }
        ensures put { (K.contents result.now ≡ self.now.contents) × (K.put_counted result.now ≡ self.now.put_counted) }
    {
        &self.link
    }

    /// The link, given back.
    pub(crate) fn into_link(self) -> K
        ensures take { (K.remaining result ≡ self.left) × (K.take_counted result ≡ self.take_counted) }
        ensures put { (K.contents result ≡ self.contents) × (K.put_counted result ≡ self.put_counted) }
    {
        let Watched {
            link,
            take_waits: _,
            put_waits: _,
        } = self;
        link
    }

    /// As the link's.
    pub(crate) fn belong_to(&mut self, conn: ConnNo)
        ensures { self.new ≡ self.old }
    {
        self.link.belong_to(conn);
    }

    /// As the link's.
    pub(crate) fn rest(&mut self)
        ensures { self.new ≡ self.old }
    {
        self.link.rest();
    }

    /// As the link's poll.
    pub(crate) fn poll_take(
        &mut self,
        context: &mut Context<'_>,
        into: &mut [u8],
    ) -> Poll<Result<usize, Failed>>
        requires { 0 < length into.old }
        ensures bytes { PollTakes self.old.left self.new.left into.new result }
        ensures count { Counts self.old.take_counted self.new.take_counted result }
        ensures waits { CountsWaits self.old.take_waits self.new.take_waits result }
        ensures put { KeepsPut self.old self.new }
        ensures armed { OnPending result (IsArmed context.new) }
        ensures kept { Keeps context.old context.new }
    {
        match self.link.poll_take(context, into) {
            Poll::Pending => {
                self.take_waits = one_more(self.take_waits);
                Poll::Pending
            }
            Poll::Ready(result) => Poll::Ready(result),
        }
    }

    /// As the link's poll.
    pub(crate) fn poll_put(
        &mut self,
        context: &mut Context<'_>,
        bytes: &[u8],
    ) -> Poll<Result<usize, Failed>>
        ensures bytes { PollPuts self.old.contents self.new.contents bytes.now result }
        ensures count { Counts self.old.put_counted self.new.put_counted result }
        ensures waits { CountsWaits self.old.put_waits self.new.put_waits result }
        ensures take { KeepsTake self.old self.new }
        ensures armed { OnPending result (IsArmed context.new) }
        ensures kept { Keeps context.old context.new }
    {
        match self.link.poll_put(context, bytes) {
            Poll::Pending => {
                self.put_waits = one_more(self.put_waits);
                Poll::Pending
            }
            Poll::Ready(result) => Poll::Ready(result),
        }
    }
}

// A count that stays at the end of its type.
fn one_more(count: u64) -> u64
    ensures { HasRisen count result }
{
    count.saturating_add(1)
}
