//! A sink into memory, which fails where a test says so.
ghost use Rattle.std.specs.Prelude.{◌≡◌, ◌<◌, ◌≤◌, ◌⊎◌, ℕ, List, Option, Some, [], length, min, OnOk, OnErr, IsErr, IsTrue};
ghost use Rattle.dk_types.specs.Faults.{HasRisen, COUNT_END};
ghost use Rattle.dk_edge.specs.Streams.{Puts};

use crate::sink::Sink;
use dk_types::{Failed, FaultPlan, NoMemory};
use std::alloc::Global;
use std::marker::Model;

/// Keeps the bytes that are put. It fails exactly at the calls whose numbers, counted from 1, were
/// named, and where there is no room for the bytes.
#[derive(Drop)]
pub struct MemorySink {
    bytes: Vec<u8>,
    torn: usize,
    plan: FaultPlan,
}

impl Model for MemorySink {
    ghost use Rattle.std.specs.Prelude.{◌-◌, vec_len};
    ghost use Rattle.std.specs.Vec.{vec_capacity};
    ghost use Rattle.dk_edge.specs.MemorySink.{Basin};

    ghost Value = { Basin };

    ghost view = { λ s. record { contents = s.bytes.items; torn = s.torn; room = vec_capacity s.bytes - vec_len s.bytes; plan = s.plan } };
}

impl MemorySink {
    /// An empty sink, whose failing calls append nothing.
    pub fn new(alloc: Global, failing: Vec<u64>) -> MemorySink
        ensures { result ≡ record { contents = []; torn = 0; room = result.room; plan = record { failing = failing.items; calls = 0; faults = 0 } } }
    {
        MemorySink::tearing(alloc, failing, 0)
    }

    /// An empty sink, whose failing calls still append the first `torn` of their bytes.
    pub fn tearing(alloc: Global, failing: Vec<u64>, torn: usize) -> MemorySink
        ensures { result ≡ record { contents = []; torn = torn; room = result.room; plan = record { failing = failing.items; calls = 0; faults = 0 } } }
    {
        MemorySink {
            bytes: Vec::new(alloc),
            torn,
            plan: FaultPlan::new(failing),
        }
    }

    /// Makes room for so many more bytes. A refused call changes nothing.
    pub fn reserve(&mut self, bytes: u64) -> Result<(), NoMemory>
        ensures room { OnOk result (bytes ≤ self.new.room) }
        ensures kept { self.new ≡ record self.old { room = self.new.room } }
        ensures more { self.old.room ≤ self.new.room }
        ensures refused { OnErr result (self.new ≡ self.old) }
        ensures full { OnErr result (self.old.room < bytes) }
    {
        self.bytes.reserve(bytes as usize)?;
        Ok(())
    }

    /// The bytes that were put.
    pub fn contents(&self) -> &[u8]
        ensures { result.now ≡ self.now.contents }
    {
        &self.bytes
    }

    /// How many calls of `put` were made.
    pub fn calls(&self) -> u64
        ensures { result ≡ self.now.plan.calls }
    {
        self.plan.calls()
    }
}

impl Sink for MemorySink {
    ghost use Rattle.dk_types.specs.FaultPlan.{fails_next};
    ghost use Rattle.dk_edge.specs.MemorySink.{IsPut, IsTorn, IsRefused};

    ghost contents = { λ s. Some s.contents };

    ghost counted = { λ s. s.plan.faults };

    fn put(&mut self, bytes: &[u8]) -> Result<(), Failed>
        ensures bytes { Puts (Some self.old.contents) (Some self.new.contents) bytes.now result }
        ensures steady { OnOk result (self.new.plan.faults ≡ self.old.plan.faults) }
        ensures cause { OnErr result (HasRisen self.old.plan.faults self.new.plan.faults) }
        ensures most { self.new.plan.faults ≤ COUNT_END }

        // What it does beyond what each sink does.
        ensures fails { IsTrue (fails_next self.old.plan) → IsErr result }
        ensures ok { OnOk result (IsPut self.old self.new bytes.now) }
        ensures failed { OnErr result ((IsTrue (fails_next self.old.plan) × ((n : ℕ) × IsTorn self.old self.new bytes.now n)) ⊎ IsRefused self.old self.new bytes.now) }
    {
        if let Err(failed) = self.plan.call() {
            let part = &bytes[..bytes.len().min(self.torn)];
            let _ = self.bytes.extend_from_slice(part);
            return Err(failed);
        }
        if self.bytes.extend_from_slice(bytes).is_err() {
            self.plan.fault();
            return Err(Failed);
        }
        Ok(())
    }

    fn faults(&self) -> u64 {
        self.plan.faults()
    }
}
