//! A link over bytes in memory.
ghost use Rattle.std.specs.Prelude.{◌≡◌, ◌<◌, ◌≤◌, ◌⊎◌, ◌↔◌, ◌-◌, ◌^◌, min, length, Some, true, false, IsErr, IsTrue, IfOk, OnErr};
ghost use Rattle.futures.specs.Poll.{IfReady, OnPending};
ghost use Rattle.futures.specs.Task.{IsArmed, Keeps};
ghost use Rattle.dk_types.specs.Faults.{COUNT_END};
ghost use Rattle.dk_types.specs.FaultPlan.{fails_next};
ghost use Rattle.dk_edge.specs.Links.{PollTakes, PollPuts, Counts};
ghost use Rattle.dk_edge.specs.MemorySource.{given_count};

use crate::link::Link;
use crate::memory_sink::MemorySink;
use crate::memory_source::MemorySource;
use crate::sink::Sink;
use crate::source::Source;
use dk_types::{ConnNo, Failed};
use futures::task::{Context, Poll};

/// Takes from a source in memory and puts to a sink in memory, which say at which calls they fail. It puts at most
/// `piece` bytes at a call. Where it waits, each ready answer comes after a pending one that asks for another poll.
#[derive(Drop)]
pub struct MemoryLink {
    source: MemorySource,
    sink: MemorySink,
    piece: usize,
    waits: bool,
    take_is_due: bool,
    put_is_due: bool,
    ghost some: { 0 < piece },
}

impl MemoryLink {
    /// A link that is ready at each poll, and puts all bytes.
    pub fn new(source: MemorySource, sink: MemorySink) -> MemoryLink
        ensures source { result.source ≡ source }
        ensures sink { result.sink ≡ sink }
        ensures piece { result.piece ≡ 2 ^ 64 - 1 }
        ensures ready { result.waits ≡ false }
    {
        MemoryLink {
            source,
            sink,
            piece: usize::MAX,
            waits: false,
            take_is_due: false,
            put_is_due: false,
        }
    }

    /// A link that puts at most `piece` bytes at a call, and waits before each ready answer.
    pub fn waiting(source: MemorySource, sink: MemorySink, piece: usize) -> MemoryLink
        requires { 0 < piece }
        ensures source { result.source ≡ source }
        ensures sink { result.sink ≡ sink }
        ensures piece { result.piece ≡ piece }
        ensures waits { result.waits ≡ true }
    {
        MemoryLink {
            source,
            sink,
            piece,
            waits: true,
            take_is_due: false,
            put_is_due: false,
        }
    }

    /// Where the bytes come from.
    pub fn source(&self) -> &MemorySource
        ensures { result.now ≡ self.now.source }
    {
        &self.source
    }

    /// Where the bytes went.
    pub fn sink(&self) -> &MemorySink
        ensures { result.now ≡ self.now.sink }
    {
        &self.sink
    }
}

impl Link for MemoryLink {
    ghost remaining = { λ l. Some l.source.left };

    ghost contents = { λ l. Some l.sink.contents };

    ghost take_counted = { λ l. l.source.plan.faults };

    ghost put_counted = { λ l. l.sink.plan.faults };

    fn poll_take(
        &mut self,
        context: &mut Context<'_>,
        into: &mut [u8],
    ) -> Poll<Result<usize, Failed>>
        requires { 0 < length into.old }
        ensures bytes { PollTakes (Some self.old.source.left) (Some self.new.source.left) into.new result }
        ensures count { Counts self.old.source.plan.faults self.new.source.plan.faults result }
        ensures most { IfReady result (λ _. self.new.source.plan.faults ≤ COUNT_END) }
        ensures put { Some self.new.sink.contents ≡ Some self.old.sink.contents }
        ensures put_count { self.new.sink.plan.faults ≡ self.old.sink.plan.faults }
        ensures armed { OnPending result (IsArmed context.new) }
        ensures kept { Keeps context.old context.new }

        // What it does beyond what each link does.
        ensures waits { OnPending result ((self.old.waits ≡ true) × (self.old.take_is_due ≡ false) × (self.new.take_is_due ≡ true)) }
        ensures due { IfReady result (λ _. ((self.old.waits ≡ false) ⊎ (self.old.take_is_due ≡ true)) × (self.new.take_is_due ≡ false)) }
        ensures fails { IfReady result (λ r. IsErr r ↔ IsTrue (fails_next self.old.source.plan)) }
        ensures amount { IfReady result (λ r. IfOk r (λ n. n ≡ given_count self.old.source (length into.old))) }
        ensures same { (self.new.waits ≡ self.old.waits) × (self.new.piece ≡ self.old.piece) × (self.new.sink ≡ self.old.sink) × (self.new.put_is_due ≡ self.old.put_is_due) }
    {
        if self.waits && !self.take_is_due {
            self.take_is_due = true;
            return context.yield_now();
        }
        self.take_is_due = false;
        Poll::Ready(self.source.take(into))
    }

    fn poll_put(&mut self, context: &mut Context<'_>, bytes: &[u8]) -> Poll<Result<usize, Failed>>
        ensures bytes { PollPuts (Some self.old.sink.contents) (Some self.new.sink.contents) bytes.now result }
        ensures count { Counts self.old.sink.plan.faults self.new.sink.plan.faults result }
        ensures most { IfReady result (λ _. self.new.sink.plan.faults ≤ COUNT_END) }
        ensures take { Some self.new.source.left ≡ Some self.old.source.left }
        ensures take_count { self.new.source.plan.faults ≡ self.old.source.plan.faults }
        ensures armed { OnPending result (IsArmed context.new) }
        ensures kept { Keeps context.old context.new }

        // What it does beyond what each link does.
        ensures waits { OnPending result ((self.old.waits ≡ true) × (self.old.put_is_due ≡ false) × (self.new.put_is_due ≡ true)) }
        ensures due { IfReady result (λ _. ((self.old.waits ≡ false) ⊎ (self.old.put_is_due ≡ true)) × (self.new.put_is_due ≡ false)) }
        ensures fails { IfReady result (λ r. IsTrue (fails_next self.old.sink.plan) → IsErr r) }
        ensures refused { IfReady result (λ r. OnErr r (IsTrue (fails_next self.old.sink.plan) ⊎ (self.old.sink.room < min (length bytes.now) self.old.piece))) }
        ensures amount { IfReady result (λ r. IfOk r (λ n. n ≡ min (length bytes.now) self.old.piece)) }
        ensures same { (self.new.waits ≡ self.old.waits) × (self.new.piece ≡ self.old.piece) × (self.new.source ≡ self.old.source) × (self.new.take_is_due ≡ self.old.take_is_due) }
    {
        if self.waits && !self.put_is_due {
            self.put_is_due = true;
            return context.yield_now();
        }
        self.put_is_due = false;
        let count = bytes.len().min(self.piece);
        match self.sink.put(&bytes[..count]) {
            Ok(()) => Poll::Ready(Ok(count)),
            Err(failed) => Poll::Ready(Err(failed)),
        }
    }

    fn belong_to(&mut self, _conn: ConnNo)
        ensures take { (Some self.new.source.left ≡ Some self.old.source.left) × (self.new.source.plan.faults ≡ self.old.source.plan.faults) }
        ensures put { (Some self.new.sink.contents ≡ Some self.old.sink.contents) × (self.new.sink.plan.faults ≡ self.old.sink.plan.faults) }

        // What it does beyond what each link does.
        ensures same { self.new ≡ self.old }
    {}

    fn take_faults(&self) -> u64 {
        self.source.faults()
    }

    fn put_faults(&self) -> u64 {
        self.sink.faults()
    }
}
