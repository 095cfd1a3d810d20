//! What takes the calls on a home in memory back, in the order of the calls.
//!
//! A write that succeeded keeps the bytes that it wrote over, and a cut the bytes that it cut off. What
//! they left is in the file. A write that failed keeps its own bytes.
ghost use Rattle.std.specs.Prelude.{◌≡◌, ◌+◌, ◌-◌, ◌<◌, ◌≤◌, ◌++◌, [], length, vec_len, Some, slice_get, OnOk, OnErr};
ghost use Rattle.std.specs.Vec.{vec_capacity};
ghost use Rattle.dk_disk.specs.Step.{IsAddressable, IsWithin};
ghost use Rattle.dk_disk.specs.UndoRecord.{as_undo, undo_of, traced, kept_of, undo_for, IsTraced};

use crate::call_record::Recorded;
use crate::step::Step;
use dk_types::{NoMemory, Side};
use std::alloc::Global;
use std::marker::Model;

/// What a call was to do, but for its bytes.
#[derive(Clone, Copy)]
pub(crate) enum Trace {
    Write { at: usize, count: usize },
    Cut { to: usize },
    Sync,
}

/// What takes a call back: its number, its file, what it was to do, the bytes that it kept, and whether it
/// succeeded.
#[derive(Clone, Copy)]
pub(crate) struct Undoing<'a> {
    pub(crate) number: u64,
    pub(crate) side: Side,
    pub(crate) trace: Trace,
    pub(crate) bytes: &'a [u8],
    pub(crate) is_made: bool,
}

/// The bytes of an entry stand in the record's list of bytes.
#[derive(Clone, Copy)]
pub(crate) struct UndoEntry {
    number: u64,
    side: Side,
    trace: Trace,
    start: usize,
    size: usize,
    is_made: bool,
}

/// What takes the calls so far back that change a file or sync it.
#[derive(Drop)]
pub(crate) struct UndoRecord {
    entries: Vec<UndoEntry>,
    bytes: Vec<u8>,
}

impl Model for UndoRecord {
    ghost use Rattle.std.specs.Prelude.{◌-◌, map, length, vec_len};
    ghost use Rattle.std.specs.Vec.{vec_capacity};
    ghost use Rattle.dk_disk.specs.UndoRecord.{Undos, undo_of, AreTraced};

    ghost Value = { Undos };

    ghost view = { λ r. record { undos = map (λ e. undo_of r.bytes.items e) r.entries.items; spare_calls = vec_capacity r.entries - vec_len r.entries; spare_bytes = vec_capacity r.bytes - vec_len r.bytes } };

    ghost invariant = { λ r. AreTraced (length r.bytes.items) r.entries.items };
}

impl UndoRecord {
    ghost use Rattle.dk_disk.specs.UndoRecord.{HasSpare, IsSpared, IsPushed};

    pub(crate) fn new(alloc: Global) -> UndoRecord
        ensures { result.undos ≡ [] }
    {
        UndoRecord {
            entries: Vec::new(alloc),
            bytes: Vec::new(alloc),
        }
    }

    /// Makes room for so many calls and bytes. A refused call changes nothing but the room.
    pub(crate) fn reserve(&mut self, calls: usize, bytes: usize) -> Result<(), NoMemory>
        ensures ok { OnOk result (HasSpare self.new calls bytes) }
        ensures err { OnErr result (HasSpare self.old calls bytes → ⊥) }
        ensures kept { IsSpared self.old self.new }
    {
        self.entries.reserve(calls)?;
        self.bytes.reserve(bytes)?;
        Ok(())
    }

    /// Puts what takes one more call back last, where there is room. The file is as it was before the call.
    pub(crate) fn push(&mut self, call: &Recorded<'_>, file: &[u8])
        requires room { HasSpare self.old 1 (length (kept_of call.now.step call.now.is_made file.now)) }
        requires within { IsWithin call.now.step file.now }
        requires range { IsAddressable call.now.step }
        ensures { IsPushed self.old self.new (undo_for call.now.number call.now.side call.now.step call.now.is_made file.now) }
    {
        let entry = keep(&mut self.bytes, call, file);
        self.entries.push_reserved(entry);
    }

    pub(crate) fn count(&self) -> usize
        ensures { result ≡ length self.now.undos }
    {
        self.entries.len()
    }

    /// What takes the call at this place back, from 0.
    pub(crate) fn undo(&self, at: usize) -> Undoing<'_>
        requires { at < length self.now.undos }
        ensures undo { slice_get self.now.undos at ≡ Some (as_undo result) }
        ensures range { IsTraced result.trace (length result.bytes.now) }
    {
        let entry = &self.entries[at];
        Undoing {
            number: entry.number,
            side: entry.side,
            trace: entry.trace,
            bytes: &self.bytes[entry.start..entry.start + entry.size],
            is_made: entry.is_made,
        }
    }
}

/// Puts the bytes last that a call is to keep, where there is room.
fn keep(bytes: &mut Vec<u8>, call: &Recorded<'_>, file: &[u8]) -> UndoEntry
    requires room { length (kept_of call.now.step call.now.is_made file.now) ≤ vec_capacity bytes.old - vec_len bytes.old }
    requires within { IsWithin call.now.step file.now }
    requires range { IsAddressable call.now.step }
    ensures put { bytes.new.items ≡ bytes.old.items ++ kept_of call.now.step call.now.is_made file.now }
    ensures undo { undo_of bytes.new.items result ≡ undo_for call.now.number call.now.side call.now.step call.now.is_made file.now }
    ensures within { (result.start + result.size ≤ length bytes.new.items) × IsTraced result.trace result.size }
    ensures room { vec_capacity bytes.old - vec_len bytes.old ≤ vec_capacity bytes.new - vec_len bytes.new + length (kept_of call.now.step call.now.is_made file.now) }
{
    let start = bytes.len();
    put_kept(bytes, &call.step, call.is_made, file);
    UndoEntry {
        number: call.number,
        side: call.side,
        trace: trace_of(&call.step),
        start,
        size: bytes.len() - start,
        is_made: call.is_made,
    }
}

fn put_kept(bytes: &mut Vec<u8>, step: &Step<'_>, is_made: bool, file: &[u8])
    requires room { length (kept_of step.now is_made file.now) ≤ vec_capacity bytes.old - vec_len bytes.old }
    requires within { IsWithin step.now file.now }
    ensures put { bytes.new.items ≡ bytes.old.items ++ kept_of step.now is_made file.now }
    ensures room { vec_capacity bytes.old - vec_len bytes.old ≤ vec_capacity bytes.new - vec_len bytes.new + length (kept_of step.now is_made file.now) }
{
    match step {
        Step::Write { at, bytes: new } => {
            if is_made {
                let rest = &file[*at..];
                put(bytes, &rest[..new.len().min(rest.len())]);
            } else {
                put(bytes, new);
            }
        }
        Step::Cut { to } => {
            if is_made {
                put(bytes, &file[(*to).min(file.len())..]);
            }
        }
        Step::Sync => {}
    }
}

/// Puts these bytes last, where there is room.
fn put(bytes: &mut Vec<u8>, more: &[u8])
    requires { length more.now ≤ vec_capacity bytes.old - vec_len bytes.old }
    ensures put { bytes.new.items ≡ bytes.old.items ++ more.now }
    ensures room { vec_capacity bytes.old - vec_len bytes.old ≤ vec_capacity bytes.new - vec_len bytes.new + length more.now }
{
    if bytes.extend_from_slice(more).is_err() {
        unreachable!()
    }
}

fn trace_of(step: &Step<'_>) -> Trace
    ensures { result ≡ traced step.now }
{
    match step {
        Step::Write { at, bytes } => Trace::Write {
            at: *at,
            count: bytes.len(),
        },
        Step::Cut { to } => Trace::Cut { to: *to },
        Step::Sync => Trace::Sync,
    }
}
