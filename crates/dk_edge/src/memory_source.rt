//! A source over bytes in memory, which fails where a test says so.
ghost use Rattle.std.specs.Prelude.{◌≡◌, ◌<◌, ◌≤◌, ◌^◌, ◌-◌, ◌↔◌, ℕ, List, Option, Some, length, take, OnOk, OnErr, IfOk, IsErr, IsTrue};
ghost use Rattle.dk_types.specs.Faults.{HasRisen, COUNT_END};
ghost use Rattle.dk_edge.specs.Streams.{Takes};

use crate::source::Source;
use dk_types::{Failed, FaultPlan};
use std::marker::Model;

/// Gives the bytes of a list in order. It fails exactly at the calls whose numbers, counted from 1,
/// were named, and takes no memory.
#[derive(Drop)]
pub struct MemorySource {
    bytes: Vec<u8>,
    at: usize,
    piece: usize,
    plan: FaultPlan,
}

impl Model for MemorySource {
    ghost use Rattle.std.specs.Prelude.{◌<◌, ◌≤◌, length, drop};
    ghost use Rattle.dk_edge.specs.MemorySource.{Feed};

    ghost Value = { Feed };

    ghost view = { λ s. record { left = drop s.at s.bytes.items; piece = s.piece; plan = s.plan } };

    ghost invariant = { λ s. (s.at ≤ length s.bytes.items) × (0 < s.piece) };
}

impl MemorySource {
    /// A source that gives as many bytes at a call as there is room for.
    pub fn new(bytes: Vec<u8>, failing: Vec<u64>) -> MemorySource
        ensures { result ≡ record { left = bytes.items; piece = 2 ^ 64 - 1; plan = record { failing = failing.items; calls = 0; faults = 0 } } }
    {
        MemorySource::in_pieces(bytes, failing, usize::MAX)
    }

    /// A source that gives at most `piece` bytes at a call.
    pub fn in_pieces(bytes: Vec<u8>, failing: Vec<u64>, piece: usize) -> MemorySource
        requires { 0 < piece }
        ensures { result ≡ record { left = bytes.items; piece = piece; plan = record { failing = failing.items; calls = 0; faults = 0 } } }
    {
        MemorySource {
            bytes,
            at: 0,
            piece,
            plan: FaultPlan::new(failing),
        }
    }

    /// The bytes that are left.
    pub fn left(&self) -> &[u8]
        ensures { result.now ≡ self.now.left }
    {
        &self.bytes[self.at..]
    }

    /// How many calls of `take` were made.
    pub fn calls(&self) -> u64
        ensures { result ≡ self.now.plan.calls }
    {
        self.plan.calls()
    }
}

impl Source for MemorySource {
    ghost use Rattle.dk_types.specs.FaultPlan.{fails_next};
    ghost use Rattle.dk_edge.specs.MemorySource.{given_count, after_take};

    ghost remaining = { λ s. Some s.left };

    ghost counted = { λ s. s.plan.faults };

    fn take(&mut self, into: &mut [u8]) -> Result<usize, Failed>
        requires { 0 < length into.old }
        ensures bytes { Takes (Some self.old.left) (Some self.new.left) into.new result }
        ensures steady { OnOk result (self.new.plan.faults ≡ self.old.plan.faults) }
        ensures cause { OnErr result (HasRisen self.old.plan.faults self.new.plan.faults) }
        ensures most { self.new.plan.faults ≤ COUNT_END }

        // What it does beyond what each source does.
        ensures fails { IsErr result ↔ IsTrue (fails_next self.old.plan) }
        ensures count { IfOk result (λ n. n ≡ given_count self.old (length into.old)) }
        ensures state { IfOk result (λ n. self.new ≡ after_take self.old n) }
        ensures kept { OnErr result (self.new ≡ after_take self.old 0) }
    {
        self.plan.call()?;
        let rest = &self.bytes[self.at..];
        let count = rest.len().min(self.piece).min(into.len());
        into[..count].copy_from_slice(&rest[..count]);
        self.at += count;
        Ok(count)
    }

    fn faults(&self) -> u64 {
        self.plan.faults()
    }
}
