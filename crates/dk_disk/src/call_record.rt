//! A list of calls on a home in memory, made from the last call to the first.
ghost use Rattle.std.specs.Prelude.{◌≡◌, ◌+◌, ◌-◌, ◌<◌, ◌≤◌, ◌∷◌, ◌++◌, [], length, vec_len, Some, slice_get, OnOk};
ghost use Rattle.std.specs.Vec.{vec_capacity};
ghost use Rattle.dk_disk.specs.Step.{change_of, step_size, bytes_of, IsAddressable};
ghost use Rattle.dk_disk.specs.CallRecord.{change_at, IsWithinRecord};

use crate::step::Step;
use dk_types::{NoMemory, Side};
use std::alloc::Global;
use std::marker::Model;

/// A call by its number, its file, what it is to do, and whether it succeeded.
#[derive(Clone, Copy)]
pub(crate) struct Recorded<'a> {
    pub(crate) number: u64,
    pub(crate) side: Side,
    pub(crate) step: Step<'a>,
    pub(crate) is_made: bool,
}

/// What a call was to do. A write's bytes stand in the record's list of bytes.
#[derive(Clone, Copy)]
pub(crate) enum Kept {
    Write {
        at: usize,
        start: usize,
        count: usize,
    },
    Cut {
        to: usize,
    },
    Sync,
}

#[derive(Clone, Copy)]
pub(crate) struct Entry {
    number: u64,
    side: Side,
    kept: Kept,
    is_made: bool,
}

/// Calls that change a file or sync it, in their order. The entries stand the other way round, so that a
/// call is put before the others at their end.
#[derive(Drop)]
pub(crate) struct CallRecord {
    entries: Vec<Entry>,
    bytes: Vec<u8>,
}

impl Model for CallRecord {
    ghost use Rattle.std.specs.Prelude.{List, map, reverse, length};
    ghost use Rattle.dk_disk.specs.Record.{Call};
    ghost use Rattle.dk_disk.specs.CallRecord.{call_of, AreWithin};

    ghost Value = { List Call };

    ghost view = { λ r. reverse (map (λ e. call_of r.bytes.items e) r.entries.items) };

    ghost invariant = { λ r. AreWithin (length r.bytes.items) r.entries.items };
}

impl CallRecord {
    ghost use Rattle.dk_disk.specs.CallRecord.{as_call};

    pub(crate) fn new(alloc: Global) -> CallRecord
        ensures { result ≡ [] }
    {
        CallRecord {
            entries: Vec::new(alloc),
            bytes: Vec::new(alloc),
        }
    }

    /// Puts a call before the others.
    pub(crate) fn put_first(&mut self, call: &Recorded<'_>) -> Result<(), NoMemory>
        requires { IsAddressable call.now.step }
        ensures { OnOk result (self.new ≡ as_call call.now ∷ self.old) }
    {
        self.entries.reserve(1)?;
        self.bytes.reserve(call.step.size())?;
        let kept = keep(&mut self.bytes, &call.step);
        self.entries.push_reserved(Entry {
            number: call.number,
            side: call.side,
            kept,
            is_made: call.is_made,
        });
        Ok(())
    }

    pub(crate) fn count(&self) -> usize
        ensures { result ≡ length self.now }
    {
        self.entries.len()
    }

    /// The call at this place, from 0.
    pub(crate) fn call(&self, at: usize) -> Recorded<'_>
        requires { at < length self.now }
        ensures call { slice_get self.now at ≡ Some (as_call result) }
        ensures range { IsAddressable result.step }
    {
        let entry = &self.entries[self.entries.len() - 1 - at];
        Recorded {
            number: entry.number,
            side: entry.side,
            step: step_of(&self.bytes, &entry.kept),
            is_made: entry.is_made,
        }
    }
}

/// Puts the bytes of a step last, where there is room.
fn keep(bytes: &mut Vec<u8>, step: &Step<'_>) -> Kept
    requires room { step_size step.now ≤ vec_capacity bytes.old - vec_len bytes.old }
    requires range { IsAddressable step.now }
    ensures put { bytes.new.items ≡ bytes.old.items ++ bytes_of step.now }
    ensures kept { change_at bytes.new.items result ≡ change_of step.now }
    ensures within { IsWithinRecord (length bytes.new.items) result }
{
    match step {
        Step::Write { at, bytes: new } => {
            let start = bytes.len();
            if bytes.extend_from_slice(new).is_err() {
                unreachable!()
            }
            Kept::Write {
                at: *at,
                start,
                count: new.len(),
            }
        }
        Step::Cut { to } => Kept::Cut { to: *to },
        Step::Sync => Kept::Sync,
    }
}

fn step_of<'a>(bytes: &'a [u8], kept: &Kept) -> Step<'a>
    requires { IsWithinRecord (length bytes.now) kept.now }
    ensures step { change_of result ≡ change_at bytes.now kept.now }
    ensures range { IsAddressable result }
{
    match kept {
        Kept::Write { at, start, count } => Step::Write {
            at: *at,
            bytes: &bytes[*start..*start + *count],
        },
        Kept::Cut { to } => Step::Cut { to: *to },
        Kept::Sync => Step::Sync,
    }
}
