//! Both directions of a connection, polled.
ghost use Rattle.std.specs.Prelude.{◌≡◌, ◌<◌, ◌≤◌, ℕ, List, Option, length};
ghost use Rattle.futures.specs.Poll.{IfReady, OnPending};
ghost use Rattle.futures.specs.Task.{IsArmed, Keeps};
ghost use Rattle.dk_types.specs.Faults.{COUNT_END};
ghost use Rattle.dk_edge.specs.Links.{PollTakes, PollPuts, Counts};

use dk_types::{ConnNo, Failed};
use futures::task::{Context, Poll};

/// A link to a peer. A poll that is pending has registered with the link, or has asked for another poll.
pub trait Link {
    /// The bytes that are left to take, or `None` where the link does not tell them.
    ghost remaining: { Self → Option (List ℕ) };

    /// The bytes that were put, or `None` where the link does not tell them.
    ghost contents: { Self → Option (List ℕ) };

    /// The counts of faults, one for each direction. None falls, and each stays at 2^64 - 1.
    ghost take_counted: { Self → ℕ };

    /// The count of faults of putting.
    ghost put_counted: { Self → ℕ };

    /// Puts some of the bytes that are left at the front of `into`, and answers how many. Ok 0 is the end. A call that
    /// failed lost no byte.
    fn poll_take(
        &mut self,
        context: &mut Context<'_>,
        into: &mut [u8],
    ) -> Poll<Result<usize, Failed>>
        requires { 0 < length into.old }
        ensures bytes { PollTakes (remaining self.old) (remaining self.new) into.new result }
        ensures count { Counts (take_counted self.old) (take_counted self.new) result }
        ensures most { IfReady result (λ _. take_counted self.new ≤ COUNT_END) }
        // The other direction stays as it was.
        ensures put { contents self.new ≡ contents self.old }
        ensures put_count { put_counted self.new ≡ put_counted self.old }
        ensures armed { OnPending result (IsArmed context.new) }
        ensures kept { Keeps context.old context.new };

    /// Appends some of the bytes, from the first on, and answers how many: at least one where there are some. A call
    /// that failed appended some of them, or none.
    fn poll_put(&mut self, context: &mut Context<'_>, bytes: &[u8]) -> Poll<Result<usize, Failed>>
        ensures bytes { PollPuts (contents self.old) (contents self.new) bytes.now result }
        ensures count { Counts (put_counted self.old) (put_counted self.new) result }
        ensures most { IfReady result (λ _. put_counted self.new ≤ COUNT_END) }
        // The other direction stays as it was.
        ensures take { remaining self.new ≡ remaining self.old }
        ensures take_count { take_counted self.new ≡ take_counted self.old }
        ensures armed { OnPending result (IsArmed context.new) }
        ensures kept { Keeps context.old context.new };

    /// The link is of this connection from now on. Who has something for the connection may wake who waits for the link.
    fn belong_to(&mut self, conn: ConnNo)
        ensures take { (remaining self.new ≡ remaining self.old) × (take_counted self.new ≡ take_counted self.old) }
        ensures put { (contents self.new ≡ contents self.old) × (put_counted self.new ≡ put_counted self.old) };

    /// Nothing is left to take, and nothing to put: it may wait a little, for what the connection still gives.
    fn rest(&mut self)
        ensures take { (remaining self.new ≡ remaining self.old) × (take_counted self.new ≡ take_counted self.old) }
        ensures put { (contents self.new ≡ contents self.old) × (put_counted self.new ≡ put_counted self.old) }
    {}

    /// How often taking has failed.
    fn take_faults(&self) -> u64
        ensures { result ≡ take_counted self.now };

    /// How often putting has failed.
    fn put_faults(&self) -> u64
        ensures { result ≡ put_counted self.now };
}
