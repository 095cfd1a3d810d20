//! Which calls on an object fail, where it is one that fails on purpose, and how many did.
ghost use Rattle.std.specs.Prelude.{◌≡◌, ◌≤◌, ◌↔◌, IsErr, IsTrue, OnOk, OnErr};
ghost use Rattle.dk_types.specs.Faults.{HasRisen, COUNT_END};

use crate::fault::Failed;
use std::marker::Model;

/// A count of faults, which rises at each. It stays at 2^64 - 1.
#[derive(Drop)]
pub struct FaultCount {
    pub count: u64,
    ghost most: { count ≤ COUNT_END },
}

impl FaultCount {
    ghost use Rattle.dk_types.specs.FaultPlan.{counted_up};

    /// No faults yet. Takes no memory.
    pub fn new() -> FaultCount
        ensures { result.count ≡ 0 }
    {
        FaultCount { count: 0 }
    }

    /// Counts one more fault.
    pub fn rise(&mut self)
        ensures next { self.new.count ≡ counted_up self.old.count }
        ensures cause { HasRisen self.old.count self.new.count }
    {
        self.count = self.count.saturating_add(1);
    }
}

/// The numbers of the calls that fail, counted from 1, with the calls and the faults so far.
#[derive(Drop)]
pub struct FaultPlan {
    failing: Vec<u64>,
    calls: u64,
    faults: FaultCount,
}

impl Model for FaultPlan {
    ghost use Rattle.dk_types.specs.FaultPlan.{Plan};

    ghost Value = { Plan };

    ghost view = { λ p. record { failing = p.failing.items; calls = p.calls; faults = p.faults.count } };
}

impl FaultPlan {
    ghost use Rattle.dk_types.specs.FaultPlan.{fails_next, after_call, after_fault};

    /// A plan by which the calls of these numbers, counted from 1, fail.
    pub fn new(failing: Vec<u64>) -> FaultPlan
        ensures { result ≡ record { failing = failing.items; calls = 0; faults = 0 } }
    {
        FaultPlan {
            failing,
            calls: 0,
            faults: FaultCount::new(),
        }
    }

    /// Counts one more call, and fails where it is one of those that do.
    pub fn call(&mut self) -> Result<(), Failed>
        ensures plan { self.new ≡ after_call self.old }
        ensures later { self.old.calls ≤ self.new.calls }
        ensures fails { IsErr result ↔ IsTrue (fails_next self.old) }
        ensures steady { OnOk result (self.new.faults ≡ self.old.faults) }
        ensures cause { OnErr result (HasRisen self.old.faults self.new.faults) }
        ensures most { self.new.faults ≤ COUNT_END }
    {
        self.calls = self.calls.saturating_add(1);
        if self.failing.contains(&self.calls) {
            self.faults.rise();
            return Err(Failed);
        }
        Ok(())
    }

    /// Counts a fault that no number asked for.
    pub fn fault(&mut self)
        ensures plan { self.new ≡ after_fault self.old }
        ensures cause { HasRisen self.old.faults self.new.faults }
        ensures most { self.new.faults ≤ COUNT_END }
    {
        self.faults.rise();
    }

    /// Counts a fault where a call without a number failed.
    pub fn counted(&mut self, outcome: Result<(), Failed>) -> Result<(), Failed>
        ensures outcome { result ≡ outcome }
        ensures kept { (self.new.failing ≡ self.old.failing) × (self.new.calls ≡ self.old.calls) }
        ensures steady { OnOk result (self.new.faults ≡ self.old.faults) }
        ensures cause { OnErr result (HasRisen self.old.faults self.new.faults) }
        ensures most { self.new.faults ≤ COUNT_END }
    {
        if outcome.is_err() {
            self.faults.rise();
        }
        outcome
    }

    /// How many calls were numbered.
    pub fn calls(&self) -> u64
        ensures { result ≡ self.now.calls }
    {
        self.calls
    }

    /// How many faults were counted.
    pub fn faults(&self) -> u64
        ensures { result ≡ self.now.faults }
    {
        self.faults.count
    }
}
