//! A home in memory whose sync another thread can hold.
ghost use Rattle.std.specs.Prelude.{◌≡◌, ◌⊎◌, ◌+◌, ◌≤◌, ◌↔◌, ℕ, List, length, take, drop, true, false, IsErr, IsTrue, IfOk, OnOk, OnErr};
ghost use Rattle.dk_types.specs.Faults.{HasRisen, COUNT_END};
ghost use Rattle.dk_types.specs.FaultPlan.{fails_next};
ghost use Rattle.dk_disk.specs.Disk.{IsImage, after_write, after_failed_write, after_cut, after_failed_cut, after_sync};
ghost use Rattle.dk_disk.specs.Opening.{NotCalled, Refused, Opened, IsOpen};
ghost use Rattle.dk_disk.specs.Record.{Write, Cut, Sync};
ghost use Rattle.dk_disk.specs.DiskHistories.{now, Elapses, Stays, Becomes, MayBecome};
ghost use Rattle.dk_disk.specs.Memory.{past_of, looked, Changes, Opens};

use crate::home::Home;
use crate::memory_home::MemoryHome;
use dk_types::{Failed, Side};
use std::alloc::Global;
use std::sync::Arc;
use std::sync::atomic::{AtomicU64, Ordering};

/// What the shared word says: the next sync is to be held.
const HOLD: u64 = 1;

/// What the shared word says: a sync is held.
const HELD: u64 = 2;

/// Passes every call on to a home in memory. A sync looks at the shared word first: where it is 1, it
/// sets it to 2 and loads it until it is not 2, at most `turns` times. Only tests need it.
#[derive(Drop)]
pub struct HoldingHome {
    inner: MemoryHome,
    hold: Arc<AtomicU64, Global>,
    turns: u64,
    has_spent: bool,
}

impl HoldingHome {
    /// A home over this one, whose sync the word `hold` can hold for so many turns.
    pub fn new(inner: MemoryHome, hold: Arc<AtomicU64, Global>, turns: u64) -> HoldingHome
        ensures inner { result.inner ≡ inner }
        ensures turns { result.turns ≡ turns }
        ensures spent { result.has_spent ≡ false }
    {
        HoldingHome {
            inner,
            hold,
            turns,
            has_spent: false,
        }
    }

    /// Whether a sync used up its turns.
    pub fn spent(&self) -> bool
        ensures { result ≡ self.now.has_spent }
    {
        self.has_spent
    }

    /// The home that the calls are passed on to.
    pub fn inner(&self) -> &MemoryHome
        ensures { result.now ≡ self.now.inner }
    {
        &self.inner
    }
}

/// Waits until the word is not that of a held sync. Answers whether that came within so many turns.
fn is_let_go(hold: &AtomicU64, turns: u64) -> bool {
    for _ in 0..turns {
        if hold.load(Ordering::SeqCst) != HELD {
            return true;
        }
    }
    false
}

impl Home for HoldingHome {
    ghost tells = { true };

    ghost opening = { λ h. h.inner.opening };

    ghost past = { λ h. past_of h.inner };

    ghost counted = { λ h. h.inner.plan.faults };

    fn open(&mut self, dir: &str) -> Result<(), Failed>
        requires { self.old.inner.opening ≡ NotCalled }
        ensures opened { OnOk result (self.new.inner.opening ≡ Opened dir.now) }
        ensures refused { OnErr result ((self.new.inner.opening ≡ NotCalled) ⊎ (self.new.inner.opening ≡ Refused dir.now)) }
        ensures files { IsTrue true → Stays (past_of self.old.inner) (past_of self.new.inner) }
        ensures time { IsTrue true → Elapses (past_of self.old.inner) (past_of self.new.inner) }
        ensures steady { OnOk result (self.new.inner.plan.faults ≡ self.old.inner.plan.faults) }
        ensures cause { OnErr result (HasRisen self.old.inner.plan.faults self.new.inner.plan.faults) }
        ensures most { self.new.inner.plan.faults ≤ COUNT_END }

        // The call is passed on once.
        ensures opens { Opens self.old.inner self.new.inner dir.now result }
        ensures own { self.new ≡ record self.old { inner = self.new.inner } }
    {
        self.inner.open(dir)
    }

    fn len(&mut self, side: Side) -> Result<u64, Failed>
        requires { IsOpen self.old.inner.opening }
        ensures length { IsTrue true → IfOk result (λ n. n ≡ length (now (past_of self.old.inner) side).reads) }
        ensures files { IsTrue true → Stays (past_of self.old.inner) (past_of self.new.inner) }
        ensures time { IsTrue true → Elapses (past_of self.old.inner) (past_of self.new.inner) }
        ensures opening { self.new.inner.opening ≡ self.old.inner.opening }
        ensures steady { OnOk result (self.new.inner.plan.faults ≡ self.old.inner.plan.faults) }
        ensures cause { OnErr result (HasRisen self.old.inner.plan.faults self.new.inner.plan.faults) }
        ensures most { self.new.inner.plan.faults ≤ COUNT_END }

        // The call is passed on once.
        ensures looked { self.new.inner ≡ looked self.old.inner }
        ensures fails { IsErr result ↔ IsTrue (fails_next self.old.inner.plan) }
        ensures own { self.new ≡ record self.old { inner = self.new.inner } }
    {
        self.inner.len(side)
    }

    fn read(&mut self, side: Side, at: u64, into: &mut [u8]) -> Result<(), Failed>
        requires is_open { IsOpen self.old.inner.opening }
        requires within { IsTrue true → at + length into.old ≤ length (now (past_of self.old.inner) side).reads }
        ensures bytes { IsTrue true → OnOk result (into.new ≡ take (length into.old) (drop at (now (past_of self.old.inner) side).reads)) }
        ensures files { IsTrue true → Stays (past_of self.old.inner) (past_of self.new.inner) }
        ensures time { IsTrue true → Elapses (past_of self.old.inner) (past_of self.new.inner) }
        ensures opening { self.new.inner.opening ≡ self.old.inner.opening }
        ensures steady { OnOk result (self.new.inner.plan.faults ≡ self.old.inner.plan.faults) }
        ensures cause { OnErr result (HasRisen self.old.inner.plan.faults self.new.inner.plan.faults) }
        ensures most { self.new.inner.plan.faults ≤ COUNT_END }

        // The call is passed on once.
        ensures looked { self.new.inner ≡ looked self.old.inner }
        ensures fails { IsErr result ↔ IsTrue (fails_next self.old.inner.plan) }
        ensures kept { OnErr result (into.new ≡ into.old) }
        ensures own { self.new ≡ record self.old { inner = self.new.inner } }
    {
        self.inner.read(side, at, into)
    }

    fn write_at(&mut self, side: Side, at: u64, bytes: &[u8]) -> Result<(), Failed>
        requires is_open { IsOpen self.old.inner.opening }
        requires no_gap { IsTrue true → at ≤ length (now (past_of self.old.inner) side).reads }
        ensures written { IsTrue true → OnOk result (Becomes side (after_write at bytes.now (now (past_of self.old.inner) side)) (past_of self.old.inner) (past_of self.new.inner)) }
        ensures failed { IsTrue true → OnErr result (MayBecome side (after_failed_write at (length bytes.now) (now (past_of self.old.inner) side)) (after_write at bytes.now (now (past_of self.old.inner) side)) (past_of self.old.inner) (past_of self.new.inner)) }
        ensures time { IsTrue true → Elapses (past_of self.old.inner) (past_of self.new.inner) }
        ensures opening { self.new.inner.opening ≡ self.old.inner.opening }
        ensures steady { OnOk result (self.new.inner.plan.faults ≡ self.old.inner.plan.faults) }
        ensures cause { OnErr result (HasRisen self.old.inner.plan.faults self.new.inner.plan.faults) }
        ensures most { self.new.inner.plan.faults ≤ COUNT_END }

        // The call is passed on once.
        ensures changes { Changes self.old.inner self.new.inner side (Write at bytes.now) (length bytes.now) result }
        ensures own { self.new ≡ record self.old { inner = self.new.inner } }
    {
        self.inner.write_at(side, at, bytes)
    }

    fn cut(&mut self, side: Side, to: u64) -> Result<(), Failed>
        requires is_open { IsOpen self.old.inner.opening }
        requires no_longer { IsTrue true → to ≤ length (now (past_of self.old.inner) side).reads }
        ensures cut { IsTrue true → OnOk result (Becomes side (after_cut to (now (past_of self.old.inner) side)) (past_of self.old.inner) (past_of self.new.inner)) }
        ensures failed { IsTrue true → OnErr result (MayBecome side (after_failed_cut to (now (past_of self.old.inner) side)) (after_cut to (now (past_of self.old.inner) side)) (past_of self.old.inner) (past_of self.new.inner)) }
        ensures time { IsTrue true → Elapses (past_of self.old.inner) (past_of self.new.inner) }
        ensures opening { self.new.inner.opening ≡ self.old.inner.opening }
        ensures steady { OnOk result (self.new.inner.plan.faults ≡ self.old.inner.plan.faults) }
        ensures cause { OnErr result (HasRisen self.old.inner.plan.faults self.new.inner.plan.faults) }
        ensures most { self.new.inner.plan.faults ≤ COUNT_END }

        // The call is passed on once.
        ensures changes { Changes self.old.inner self.new.inner side (Cut to) 0 result }
        ensures own { self.new ≡ record self.old { inner = self.new.inner } }
    {
        self.inner.cut(side, to)
    }

    fn sync(&mut self, side: Side) -> Result<(), Failed>
        requires { IsOpen self.old.inner.opening }
        ensures synced { IsTrue true → OnOk result (Becomes side (after_sync (now (past_of self.old.inner) side)) (past_of self.old.inner) (past_of self.new.inner)) }
        ensures only { IsTrue true → OnOk result ((image : List ℕ) → IsImage (now (past_of self.new.inner) side) image → image ≡ (now (past_of self.old.inner) side).reads) }
        ensures failed { IsTrue true → OnErr result (Stays (past_of self.old.inner) (past_of self.new.inner)) }
        ensures time { IsTrue true → Elapses (past_of self.old.inner) (past_of self.new.inner) }
        ensures opening { self.new.inner.opening ≡ self.old.inner.opening }
        ensures steady { OnOk result (self.new.inner.plan.faults ≡ self.old.inner.plan.faults) }
        ensures cause { OnErr result (HasRisen self.old.inner.plan.faults self.new.inner.plan.faults) }
        ensures most { self.new.inner.plan.faults ≤ COUNT_END }

        // The call is passed on once.
        ensures changes { Changes self.old.inner self.new.inner side Sync 0 result }
        ensures own { self.new ≡ record self.old { inner = self.new.inner; has_spent = self.new.has_spent } }
        ensures spent { IsTrue self.old.has_spent → IsTrue self.new.has_spent }
    {
        if self.hold.load(Ordering::SeqCst) == HOLD {
            self.hold.store(HELD, Ordering::SeqCst);
            if !is_let_go(&self.hold, self.turns) {
                self.has_spent = true;
            }
        }
        self.inner.sync(side)
    }

    fn faults(&self) -> u64 {
        self.inner.faults()
    }
}
