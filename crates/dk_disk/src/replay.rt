//! What a file was at some moment, from what it held at first and the calls.
ghost use Rattle.std.specs.Prelude.{◌≡◌, ◌+◌, ◌<◌, ◌≤◌, ◌^◌, length, IfOk, OnOk};
ghost use Rattle.dk_disk.specs.Disk.{settled};
ghost use Rattle.dk_disk.specs.Record.{Write, Cut, Sync, changed, after_one, replayed};
ghost use Rattle.dk_disk.specs.CallRecord.{as_call};
ghost use Rattle.dk_disk.specs.Step.{change_of, IsAddressable};
ghost use Rattle.dk_disk.specs.Torn.{IsTorn, IsFilledOver, IsPainted};

use crate::call_record::{CallRecord, Recorded};
use crate::memory_file::write_over;
use crate::step::Step;
use crate::torn::Torn;
use dk_types::{NoMemory, Side};
use std::alloc::Global;
use std::marker::Model;

/// A file, with what a stop may leave of it.
#[derive(Drop)]
pub(crate) struct Replay {
    alloc: Global,
    reads: Vec<u8>,
    synced: Vec<u8>,
    least: usize,
    greatest: usize,
    touched: Vec<(usize, usize)>,
}

impl Model for Replay {
    ghost use Rattle.dk_disk.specs.Disk.{Disk};

    ghost Value = { Disk };

    ghost view = { λ r. record { reads = r.reads.items; synced = r.synced.items; least = r.least; greatest = r.greatest; touched = r.touched.items } };
}

impl Replay {
    /// The file before the first call.
    fn begin(alloc: Global, first: &[u8]) -> Result<Replay, NoMemory>
        ensures { IfOk result (λ replay. replay ≡ settled first.now) }
    {
        Ok(Replay {
            alloc,
            reads: first.to_vec(alloc)?,
            synced: first.to_vec(alloc)?,
            least: first.len(),
            greatest: first.len(),
            touched: Vec::new(alloc),
        })
    }

    /// The file at a moment.
    pub(crate) fn at_moment(
        alloc: Global,
        first: &[u8],
        calls: &CallRecord,
        side: Side,
        moment: u64,
    ) -> Result<Replay, NoMemory>
        ensures { IfOk result (λ replay. replay ≡ replayed moment side calls.now (settled first.now)) }
    {
        let mut replay = Replay::begin(alloc, first)?;
        'calls: for at in 0..calls.count() {
            replay.apply(&calls.call(at), side, moment)?;
        }
        Ok(replay)
    }

    /// Goes on with a call, where it is one on this file that had come by then.
    fn apply(&mut self, call: &Recorded<'_>, side: Side, moment: u64) -> Result<(), NoMemory>
        requires { IsAddressable call.now.step }
        ensures { OnOk result (self.new ≡ after_one moment side (as_call call.now) self.old) }
    {
        if call.number <= moment && call.side == side {
            self.step(&call.step, call.is_made)?;
        }
        Ok(())
    }

    /// Does what a call did.
    fn step(&mut self, step: &Step<'_>, is_made: bool) -> Result<(), NoMemory>
        requires { IsAddressable step.now }
        ensures { OnOk result (self.new ≡ changed (change_of step.now) is_made self.old) }
    {
        match step {
            Step::Write { at, bytes } => self.write(*at, bytes, is_made),
            Step::Cut { to } => {
                self.cut(*to, is_made);
                Ok(())
            }
            Step::Sync => self.sync(is_made),
        }
    }

    fn write(&mut self, at: usize, bytes: &[u8], is_made: bool) -> Result<(), NoMemory>
        requires { at + length bytes.now < 2 ^ 64 }
        ensures { OnOk result (self.new ≡ changed (Write at bytes.now) is_made self.old) }
    {
        if is_made {
            if at > self.reads.len() {
                return Ok(());
            }
            self.reads.reserve(bytes.len())?;
            write_over(&mut self.reads, at, bytes);
        }
        self.greatest = self.greatest.max(at + bytes.len());
        self.touched.push((at, bytes.len()))?;
        Ok(())
    }

    fn cut(&mut self, to: usize, is_made: bool)
        ensures { self.new ≡ changed (Cut to) is_made self.old }
    {
        if is_made {
            self.reads.truncate(to);
        }
        self.least = self.least.min(to);
    }

    fn sync(&mut self, is_made: bool) -> Result<(), NoMemory>
        ensures { OnOk result (self.new ≡ changed Sync is_made self.old) }
    {
        if is_made {
            self.synced = self.reads.to_vec(self.alloc)?;
            self.least = self.reads.len();
            self.greatest = self.reads.len();
            self.touched = Vec::new(self.alloc);
        }
        Ok(())
    }

    /// The image that was asked for.
    pub(crate) fn image(self, torn: Torn) -> Result<Vec<u8>, NoMemory>
        ensures { IfOk result (λ image. IsTorn torn self image.items) }
    {
        match torn {
            Torn::Old => Ok(self.synced),
            Torn::New => Ok(self.reads),
            Torn::Zeros => filled(self.synced, &self.touched, self.least, 0),
            Torn::Ones => filled(self.synced, &self.touched, self.greatest, 255),
        }
    }
}

/// These bytes at this length, with `fill` in each range and past their end.
fn filled(
    synced: Vec<u8>,
    touched: &[(usize, usize)],
    size: usize,
    fill: u8,
) -> Result<Vec<u8>, NoMemory>
    ensures { IfOk result (λ image. IsFilledOver fill size synced.items touched.now image.items) }
{
    let mut image = synced;
    image.resize(size, fill)?;
    'ranges: for range in touched.iter() {
        let start = range.0.min(size);
        let end = range.0.saturating_add(range.1).min(size);
        fill_range(&mut image, start, end, fill);
    }
    Ok(image)
}

/// Puts `fill` at the places from `start` to before `end`.
fn fill_range(image: &mut Vec<u8>, start: usize, end: usize, fill: u8)
    requires { end ≤ length image.old.items }
    ensures { IsPainted start end fill image.old.items image.new.items }
{
    'places: for at in start..end {
        image[at] = fill;
    }
}
