//! A home in memory, which fails where a test says so and gives the images of a crash.
ghost use Rattle.std.specs.Prelude.{◌≡◌, ◌⊎◌, ◌+◌, ◌<◌, ◌≤◌, ◌^◌, ◌↔◌, ℕ, List, length, take, drop, true, not, if◌then◌else◌, [], IsErr, IsErrOf, IsTrue, IfOk, IfErr, OnOk, OnErr};
ghost use Rattle.dk_types.specs.Faults.{HasRisen, COUNT_END};
ghost use Rattle.dk_disk.specs.Disk.{IsImage, after_write, after_failed_write, after_cut, after_failed_cut, after_sync};
ghost use Rattle.dk_disk.specs.Opening.{NotCalled, Refused, Opened, IsOpen};
ghost use Rattle.dk_types.specs.declared.side.Side.{Side as Which};
ghost use Rattle.dk_types.specs.FaultPlan.{after_call, fails_next, counted_up};
ghost use Rattle.dk_disk.specs.Step.{change_of, step_size, reads_after, IsWithin};
ghost use Rattle.dk_disk.specs.Record.{Write, Cut, Sync, made, failed};
ghost use Rattle.dk_disk.specs.DiskHistories.{now, other_side, Elapses, Stays, Becomes, MayBecome, MayLeave};
ghost use Rattle.dk_disk.specs.Memory.{past_of, looked, Changes, IsReady, IsRoomy, Opens};
ghost use Rattle.dk_disk.specs.Torn.{IsTorn, AreTorn};
ghost use Rattle.dk_disk.specs.declared.torn.CrashRefused.TheVariants.{NoSuchCall, NoMemory as WantOfMemory};
ghost use Rattle.dk_disk.specs.MemoryFiles.{AreReserved, Takes, file_of, size_of};
ghost use Rattle.dk_disk.specs.UndoRecord.{IsSpared, IsPushed, HasSpare, undo_for};

use crate::call_record::Recorded;
use crate::drives::Drives;
use crate::home::Home;
use crate::home_opening::HomeOpening;
use crate::step::Step;
use crate::torn::{CrashRefused, Torn};
use crate::undo_record::UndoRecord;
use crate::unwinding::Unwinding;
use dk_types::{Failed, FaultPlan, NoMemory, Side};
use std::alloc::Global;
use std::marker::Model;

/// Two files in memory, with a record of what takes the calls on them back. It fails exactly at the calls
/// whose numbers were named, and where there is no room for a call's record or bytes. Calls are numbered
/// from 1 over both files; `open` has no number.
#[derive(Drop)]
pub struct MemoryHome {
    alloc: Global,
    drives: Drives,
    undos: UndoRecord,
    plan: FaultPlan,
    entrance: HomeOpening,
}

impl Model for MemoryHome {
    ghost use Rattle.dk_disk.specs.Memory.{Memory, memory_of, IsConsistent};

    ghost Value = { Memory };

    ghost view = { λ m. memory_of m.drives m.undos m.plan m.entrance };

    ghost invariant = { λ m. IsConsistent (memory_of m.drives m.undos m.plan m.entrance) m.drives };
}

impl MemoryHome {
    /// A home whose files hold these bytes, with nothing pending.
    pub fn new(
        alloc: Global,
        zero: Vec<u8>,
        one: Vec<u8>,
        failing: Vec<u64>,
        open_fails: bool,
    ) -> MemoryHome
        ensures { result ≡ record { zero = zero.items; one = one.items; calls = []; plan = record { failing = failing.items; calls = 0; faults = 0 }; opening = NotCalled; open_fails = open_fails; room = result.room } }
    {
        MemoryHome {
            alloc,
            drives: Drives::new(zero, one),
            undos: UndoRecord::new(alloc),
            plan: FaultPlan::new(failing),
            entrance: HomeOpening::new(alloc, open_fails),
        }
    }

    /// Makes room for so many calls and bytes, those of the folder's name among them. The system has given
    /// the files' room by then, so that no later call within it waits for a page of a file. A refused call
    /// changes nothing but the room.
    pub fn reserve(&mut self, calls: u64, bytes: u64) -> Result<(), NoMemory>
        ensures room { OnOk result ((calls ≤ self.new.room.calls) × (bytes ≤ self.new.room.bytes)) }
        ensures kept { IsRoomy self.old self.new }
    {
        make_all_room(
            &mut self.drives,
            &mut self.undos,
            &mut self.entrance,
            calls as usize,
            bytes as usize,
        )
    }

    /// What a read of the whole file gives.
    pub fn contents(&self, side: Side) -> &[u8]
        ensures { result.now ≡ (now (past_of self.now) side).reads }
    {
        self.drives.bytes(side)
    }

    /// How many calls were numbered.
    pub fn calls(&self) -> u64
        ensures { result ≡ self.now.plan.calls }
    {
        self.plan.calls()
    }

    /// An image of each file, as a stop may leave them now.
    pub fn crash(&self, torn: Torn) -> Result<(Vec<u8>, Vec<u8>), NoMemory>
        ensures images { IfOk result (λ pair. MayLeave (past_of self.now) (past_of self.now).clock pair.0.items pair.1.items) }
        ensures torn { IfOk result (λ pair. AreTorn torn (past_of self.now) (past_of self.now).clock pair.0.items pair.1.items) }
    {
        self.images(self.plan.calls(), torn)
    }

    /// An image of each file, as a stop may have left them right after the call of this number. 0 is the
    /// moment before the first.
    pub fn crash_at(&self, moment: u64, torn: Torn) -> Result<(Vec<u8>, Vec<u8>), CrashRefused>
        ensures images { IfOk result (λ pair. MayLeave (past_of self.now) moment pair.0.items pair.1.items) }
        ensures torn { IfOk result (λ pair. AreTorn torn (past_of self.now) moment pair.0.items pair.1.items) }
        ensures no_such_call { (past_of self.now).clock < moment → IsErrOf result (NoSuchCall (past_of self.now).clock) }
        ensures no_memory { moment ≤ (past_of self.now).clock → IfErr result (λ e. e ≡ WantOfMemory) }
    {
        let made = self.plan.calls();
        if moment > made {
            return Err(CrashRefused::NoSuchCall { made });
        }
        Ok(self.images(moment, torn)?)
    }

    fn images(&self, moment: u64, torn: Torn) -> Result<(Vec<u8>, Vec<u8>), NoMemory>
        ensures images { IfOk result (λ pair. MayLeave (past_of self.now) moment pair.0.items pair.1.items) }
        ensures torn { IfOk result (λ pair. AreTorn torn (past_of self.now) moment pair.0.items pair.1.items) }
    {
        let zero = self.drives.bytes(Side::Zero);
        let one = self.drives.bytes(Side::One);
        let past = Unwinding::of(self.alloc, zero, one, &self.undos)?;
        let zero = past.image(Side::Zero, moment, torn)?;
        let one = past.image(Side::One, moment, torn)?;
        Ok((zero, one))
    }

    /// Numbers a call that only looks.
    fn look(&mut self) -> Result<(), Failed>
        ensures looked { self.new ≡ looked self.old }
        ensures fails { IsErr result ↔ IsTrue (fails_next self.old.plan) }
        ensures files { Stays (past_of self.old) (past_of self.new) }
        ensures time { Elapses (past_of self.old) (past_of self.new) }
        ensures steady { OnOk result (self.new.plan.faults ≡ self.old.plan.faults) }
        ensures cause { OnErr result (HasRisen self.old.plan.faults self.new.plan.faults) }
        ensures most { self.new.plan.faults ≤ COUNT_END }
    {
        self.plan.call()
    }

    /// Numbers a call that changes a file or syncs it, records it, and does it where it is not to fail.
    fn make(&mut self, side: Side, step: &Step<'_>) -> Result<(), Failed>
        requires { IsWithin step.now (now (past_of self.old) side).reads }
        ensures changes { Changes self.old self.new side (change_of step.now) (step_size step.now) result }
        ensures done { OnOk result (Becomes side (made (change_of step.now) (now (past_of self.old) side)) (past_of self.old) (past_of self.new)) }
        ensures failed { OnErr result (Stays (past_of self.old) (past_of self.new) ⊎ Becomes side (failed (change_of step.now) (now (past_of self.old) side)) (past_of self.old) (past_of self.new)) }
        ensures time { Elapses (past_of self.old) (past_of self.new) }
        ensures steady { OnOk result (self.new.plan.faults ≡ self.old.plan.faults) }
        ensures cause { OnErr result (HasRisen self.old.plan.faults self.new.plan.faults) }
        ensures most { self.new.plan.faults ≤ COUNT_END }
        ensures opening { self.new.opening ≡ self.old.opening }
    {
        if make_room(
            &mut self.drives,
            &mut self.undos,
            &self.plan,
            side,
            step.size(),
        )
        .is_err()
        {
            self.plan.fault();
            return Err(Failed);
        }
        carry_out(
            &mut self.drives,
            &mut self.undos,
            &mut self.plan,
            side,
            step,
        )
    }
}

impl Home for MemoryHome {
    ghost tells = { true };

    ghost opening = { λ m. m.opening };

    ghost past = { λ m. past_of m };

    ghost counted = { λ m. m.plan.faults };

    fn open(&mut self, dir: &str) -> Result<(), Failed>
        requires { self.old.opening ≡ NotCalled }
        ensures opened { OnOk result (self.new.opening ≡ Opened dir.now) }
        ensures refused { OnErr result ((self.new.opening ≡ NotCalled) ⊎ (self.new.opening ≡ Refused dir.now)) }
        ensures files { IsTrue true → Stays (past_of self.old) (past_of self.new) }
        ensures time { IsTrue true → Elapses (past_of self.old) (past_of self.new) }
        ensures steady { OnOk result (self.new.plan.faults ≡ self.old.plan.faults) }
        ensures cause { OnErr result (HasRisen self.old.plan.faults self.new.plan.faults) }
        ensures most { self.new.plan.faults ≤ COUNT_END }

        // What it does beyond what each home does.
        ensures opens { Opens self.old self.new dir.now result }
    {
        let outcome = self.entrance.enter(dir);
        self.plan.counted(outcome)
    }

    fn len(&mut self, side: Side) -> Result<u64, Failed>
        requires { IsOpen self.old.opening }
        ensures length { IsTrue true → IfOk result (λ n. n ≡ length (now (past_of self.old) side).reads) }
        ensures files { IsTrue true → Stays (past_of self.old) (past_of self.new) }
        ensures time { IsTrue true → Elapses (past_of self.old) (past_of self.new) }
        ensures opening { self.new.opening ≡ self.old.opening }
        ensures steady { OnOk result (self.new.plan.faults ≡ self.old.plan.faults) }
        ensures cause { OnErr result (HasRisen self.old.plan.faults self.new.plan.faults) }
        ensures most { self.new.plan.faults ≤ COUNT_END }

        // What it does beyond what each home does.
        ensures looked { self.new ≡ looked self.old }
        ensures fails { IsErr result ↔ IsTrue (fails_next self.old.plan) }
    {
        self.look()?;
        Ok(self.contents(side).len() as u64)
    }

    fn read(&mut self, side: Side, at: u64, into: &mut [u8]) -> Result<(), Failed>
        requires is_open { IsOpen self.old.opening }
        requires within { IsTrue true → at + length into.old ≤ length (now (past_of self.old) side).reads }
        ensures bytes { IsTrue true → OnOk result (into.new ≡ take (length into.old) (drop at (now (past_of self.old) side).reads)) }
        ensures files { IsTrue true → Stays (past_of self.old) (past_of self.new) }
        ensures time { IsTrue true → Elapses (past_of self.old) (past_of self.new) }
        ensures opening { self.new.opening ≡ self.old.opening }
        ensures steady { OnOk result (self.new.plan.faults ≡ self.old.plan.faults) }
        ensures cause { OnErr result (HasRisen self.old.plan.faults self.new.plan.faults) }
        ensures most { self.new.plan.faults ≤ COUNT_END }

        // What it does beyond what each home does.
        ensures looked { self.new ≡ looked self.old }
        ensures fails { IsErr result ↔ IsTrue (fails_next self.old.plan) }
        ensures kept { OnErr result (into.new ≡ into.old) }
    {
        self.look()?;
        let rest = &self.contents(side)[at as usize..];
        into.copy_from_slice(&rest[..into.len()]);
        Ok(())
    }

    fn write_at(&mut self, side: Side, at: u64, bytes: &[u8]) -> Result<(), Failed>
        requires is_open { IsOpen self.old.opening }
        requires no_gap { IsTrue true → at ≤ length (now (past_of self.old) side).reads }
        ensures written { IsTrue true → OnOk result (Becomes side (after_write at bytes.now (now (past_of self.old) side)) (past_of self.old) (past_of self.new)) }
        ensures failed { IsTrue true → OnErr result (MayBecome side (after_failed_write at (length bytes.now) (now (past_of self.old) side)) (after_write at bytes.now (now (past_of self.old) side)) (past_of self.old) (past_of self.new)) }
        ensures time { IsTrue true → Elapses (past_of self.old) (past_of self.new) }
        ensures opening { self.new.opening ≡ self.old.opening }
        ensures steady { OnOk result (self.new.plan.faults ≡ self.old.plan.faults) }
        ensures cause { OnErr result (HasRisen self.old.plan.faults self.new.plan.faults) }
        ensures most { self.new.plan.faults ≤ COUNT_END }

        // What it does beyond what each home does.
        ensures changes { Changes self.old self.new side (Write at bytes.now) (length bytes.now) result }
    {
        let at = at as usize;
        self.make(side, &Step::Write { at, bytes })
    }

    fn cut(&mut self, side: Side, to: u64) -> Result<(), Failed>
        requires is_open { IsOpen self.old.opening }
        requires no_longer { IsTrue true → to ≤ length (now (past_of self.old) side).reads }
        ensures cut { IsTrue true → OnOk result (Becomes side (after_cut to (now (past_of self.old) side)) (past_of self.old) (past_of self.new)) }
        ensures failed { IsTrue true → OnErr result (MayBecome side (after_failed_cut to (now (past_of self.old) side)) (after_cut to (now (past_of self.old) side)) (past_of self.old) (past_of self.new)) }
        ensures time { IsTrue true → Elapses (past_of self.old) (past_of self.new) }
        ensures opening { self.new.opening ≡ self.old.opening }
        ensures steady { OnOk result (self.new.plan.faults ≡ self.old.plan.faults) }
        ensures cause { OnErr result (HasRisen self.old.plan.faults self.new.plan.faults) }
        ensures most { self.new.plan.faults ≤ COUNT_END }

        // What it does beyond what each home does.
        ensures changes { Changes self.old self.new side (Cut to) 0 result }
    {
        self.make(side, &Step::Cut { to: to as usize })
    }

    fn sync(&mut self, side: Side) -> Result<(), Failed>
        requires { IsOpen self.old.opening }
        ensures synced { IsTrue true → OnOk result (Becomes side (after_sync (now (past_of self.old) side)) (past_of self.old) (past_of self.new)) }
        ensures only { IsTrue true → OnOk result ((image : List ℕ) → IsImage (now (past_of self.new) side) image → image ≡ (now (past_of self.old) side).reads) }
        ensures failed { IsTrue true → OnErr result (Stays (past_of self.old) (past_of self.new)) }
        ensures time { IsTrue true → Elapses (past_of self.old) (past_of self.new) }
        ensures opening { self.new.opening ≡ self.old.opening }
        ensures steady { OnOk result (self.new.plan.faults ≡ self.old.plan.faults) }
        ensures cause { OnErr result (HasRisen self.old.plan.faults self.new.plan.faults) }
        ensures most { self.new.plan.faults ≤ COUNT_END }

        // What it does beyond what each home does.
        ensures changes { Changes self.old self.new side Sync 0 result }
    {
        self.make(side, &Step::Sync)
    }

    fn faults(&self) -> u64 {
        self.plan.faults()
    }
}

/// Numbers a call and records it, and does it where it is not to fail. There is room for it.
fn carry_out(
    drives: &mut Drives,
    undos: &mut UndoRecord,
    plan: &mut FaultPlan,
    side: Side,
    step: &Step<'_>,
) -> Result<(), Failed>
    requires ready { IsReady drives.old undos.old plan.old side (step_size step.now) }
    requires within { IsWithin step.now (file_of drives.old side).reads }
    requires small { (length (file_of drives.old side).reads < 2 ^ 63) × (step_size step.now < 2 ^ 63) }
    ensures plan { plan.new ≡ after_call plan.old }
    ensures number { plan.old.calls < COUNT_END }
    ensures steady { OnOk result (plan.new.faults ≡ plan.old.faults) }
    ensures cause { OnErr result (HasRisen plan.old.faults plan.new.faults) }
    ensures most { plan.new.faults ≤ COUNT_END }
    ensures fails { IsErr result ↔ IsTrue (fails_next plan.old) }
    ensures recorded { IsPushed undos.old undos.new (undo_for (counted_up plan.old.calls) side step.now (not (fails_next plan.old)) (file_of drives.old side).reads) }
    ensures takes { (s : Which) → Takes (file_of drives.old s) (file_of drives.new s) (step_size step.now) }
    ensures this { (file_of drives.new side).reads ≡ (if fails_next plan.old then (file_of drives.old side).reads else reads_after step.now (file_of drives.old side).reads) }
    ensures other { file_of drives.new (other_side side) ≡ file_of drives.old (other_side side) }
{
    let outcome = plan.call();
    let call = Recorded {
        number: plan.calls(),
        side,
        step: *step,
        is_made: outcome.is_ok(),
    };
    undos.push(&call, drives.bytes(side));
    if call.is_made {
        drives.change(side, step);
    }
    outcome
}

/// Makes room for one more call with so many bytes, if there is a number for it.
fn make_room(
    drives: &mut Drives,
    undos: &mut UndoRecord,
    plan: &FaultPlan,
    side: Side,
    bytes: usize,
) -> Result<(), NoMemory>
    ensures ok { OnOk result (IsReady drives.new undos.new plan.now side bytes) }
    ensures err { OnErr result (IsReady drives.old undos.old plan.now side bytes → ⊥) }
    ensures kept { AreReserved drives.old drives.new }
    ensures spared { IsSpared undos.old undos.new }
    ensures small { OnOk result (length (file_of drives.new side).reads < 2 ^ 63) }
{
    if plan.calls() == u64::MAX {
        return Err(NoMemory);
    }
    drives.reserve(side, bytes)?;
    undos.reserve(1, drives.size() + bytes)
}

/// Makes room for so many calls, and for so many bytes of each kind.
fn make_all_room(
    drives: &mut Drives,
    undos: &mut UndoRecord,
    entrance: &mut HomeOpening,
    more_calls: usize,
    bytes: usize,
) -> Result<(), NoMemory>
    ensures ok { OnOk result ((bytes ≤ drives.new.zero.room) × (bytes ≤ drives.new.one.room) × HasSpare undos.new more_calls (size_of drives.new + bytes) × (bytes ≤ entrance.new.room)) }
    ensures kept { AreReserved drives.old drives.new }
    ensures spared { IsSpared undos.old undos.new }
    ensures opening { (entrance.new.opening ≡ entrance.old.opening) × (entrance.new.fails ≡ entrance.old.fails) × (entrance.old.room ≤ entrance.new.room) }
{
    drives.prepare_both(bytes)?;
    undos.reserve(more_calls, drives.size() + bytes)?;
    entrance.reserve(bytes)
}
