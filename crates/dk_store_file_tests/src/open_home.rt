//! A home in memory that is opened and tells nothing, so that a test may call on it as it likes.
ghost use Rattle.std.specs.Prelude.{false, IfSome};
ghost use Rattle.dk_disk.specs.Memory.{past_of};
ghost use Rattle.dk_disk.specs.Opening.{IsOpen};

use dk_disk::{Home, MemoryHome, Torn};
use dk_types::{Failed, Side};
use std::alloc::Global;

/// Passes on each call that lies within the files.
#[derive(Drop)]
pub struct OpenHome {
    pub(crate) inner: MemoryHome,
}

impl OpenHome {
    /// The home with these two files, in which one call fails or, at 0, none.
    pub fn of(alloc: Global, zero: &[u8], one: &[u8], failing: u64) -> Option<OpenHome>
        ensures { IfSome result (λ home. IsOpen home.inner.opening) }
    {
        let zero = Vec::from_slice(alloc, zero).ok()?;
        let one = Vec::from_slice(alloc, one).ok()?;
        let failing = [failing].to_vec(alloc).ok()?;
        let mut inner = MemoryHome::new(alloc, zero, one, failing, false);
        inner.reserve(128, 8192).ok()?;
        match inner.open("") {
            Ok(()) => Some(OpenHome { inner }),
            Err(_) => None,
        }
    }

    /// How many calls were made.
    pub fn calls(&self) -> u64 {
        self.inner.calls()
    }

    /// What a read of the whole file gives.
    pub fn contents(&self, side: Side) -> &[u8] {
        self.inner.contents(side)
    }

    /// What a stop right after the call of this number may leave of both files: what was not synced as it was before, as it was written,
    /// and as other bytes.
    pub fn images_at(&self, alloc: Global, moment: u64) -> Option<Vec<(Vec<u8>, Vec<u8>)>> {
        let mut images = Vec::new(alloc);
        for torn in [Torn::Old, Torn::New, Torn::Zeros, Torn::Ones] {
            images.push(self.inner.crash_at(moment, torn).ok()?).ok()?;
        }
        Some(images)
    }
}

impl Home for OpenHome {
    ghost tells = { false };

    ghost opening = { λ h. h.inner.opening };

    ghost past = { λ h. past_of h.inner };

    ghost counted = { λ h. h.inner.plan.faults };

    fn open(&mut self, dir: &str) -> Result<(), Failed> {
        self.inner.open(dir)
    }

    fn len(&mut self, side: Side) -> Result<u64, Failed> {
        self.inner.len(side)
    }

    fn read(&mut self, side: Side, at: u64, into: &mut [u8]) -> Result<(), Failed> {
        let end = self.inner.contents(side).len() as u64;
        if at > end || into.len() as u64 > end - at {
            return self.inner.sync(side);
        }
        self.inner.read(side, at, into)
    }

    fn write_at(&mut self, side: Side, at: u64, bytes: &[u8]) -> Result<(), Failed> {
        let end = self.inner.contents(side).len() as u64;
        self.inner.write_at(side, at.min(end), bytes)
    }

    fn cut(&mut self, side: Side, to: u64) -> Result<(), Failed> {
        let end = self.inner.contents(side).len() as u64;
        self.inner.cut(side, to.min(end))
    }

    fn sync(&mut self, side: Side) -> Result<(), Failed> {
        self.inner.sync(side)
    }

    fn faults(&self) -> u64 {
        self.inner.faults()
    }
}
