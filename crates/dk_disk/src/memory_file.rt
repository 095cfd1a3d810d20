//! A file in memory.
ghost use Rattle.std.specs.Prelude.{◌≡◌, ◌+◌, ◌-◌, ◌<◌, ◌≤◌, ◌^◌, length, vec_len, OnOk, OnErr};
ghost use Rattle.std.specs.Vec.{vec_capacity};
ghost use Rattle.dk_disk.specs.Disk.{overwritten};

use crate::step::Step;
use dk_types::NoMemory;
use std::marker::Model;

/// The bytes of a file.
#[derive(Drop)]
pub(crate) struct MemoryFile {
    bytes: Vec<u8>,
}

impl Model for MemoryFile {
    ghost use Rattle.std.specs.Prelude.{◌-◌, vec_len};
    ghost use Rattle.std.specs.Vec.{vec_capacity};
    ghost use Rattle.dk_disk.specs.MemoryFiles.{File};

    ghost Value = { File };

    ghost view = { λ d. record { reads = d.bytes.items; room = vec_capacity d.bytes - vec_len d.bytes } };
}

impl MemoryFile {
    ghost use Rattle.dk_disk.specs.MemoryFiles.{IsReserved, IsChanged};
    ghost use Rattle.dk_disk.specs.Step.{IsWithin, step_size, reads_after};

    pub(crate) fn new(bytes: Vec<u8>) -> MemoryFile
        ensures { result.reads ≡ bytes.items }
    {
        MemoryFile { bytes }
    }

    /// Makes room for a change with so many bytes. A refused call changes nothing but the room.
    pub(crate) fn reserve(&mut self, bytes: usize) -> Result<(), NoMemory>
        ensures ok { OnOk result (bytes ≤ self.new.room) }
        ensures err { OnErr result (self.old.room < bytes) }
        ensures kept { IsReserved self.old self.new }
        ensures small { OnOk result (length self.new.reads + bytes < 2 ^ 63) }
    {
        self.bytes.reserve(bytes)?;
        Ok(())
    }

    /// The same. The system has given the room by then, so that no later call within it waits for a page.
    pub(crate) fn prepare(&mut self, bytes: usize) -> Result<(), NoMemory>
        ensures ok { OnOk result (bytes ≤ self.new.room) }
        ensures kept { IsReserved self.old self.new }
        ensures small { OnOk result (length self.new.reads + bytes < 2 ^ 63) }
    {
        self.bytes.reserve(bytes)?;
        let size = self.bytes.len();
        self.bytes.resize(size + bytes, 0)?;
        self.bytes.truncate(size);
        Ok(())
    }

    pub(crate) fn bytes(&self) -> &[u8]
        ensures { result.now ≡ self.now.reads }
    {
        &self.bytes
    }

    /// Does what a call is to do.
    pub(crate) fn change(&mut self, step: &Step<'_>)
        requires within { IsWithin step.now self.old.reads }
        requires place { step_size step.now ≤ self.old.room }
        ensures { IsChanged self.old self.new (reads_after step.now self.old.reads) (step_size step.now) }
    {
        match step {
            Step::Write { at, bytes } => write_over(&mut self.bytes, *at, bytes),
            Step::Cut { to } => self.bytes.truncate(*to),
            Step::Sync => {}
        }
    }
}

/// Writes over what is there and past the end, where there is room.
pub(crate) fn write_over(file: &mut Vec<u8>, at: usize, bytes: &[u8])
    requires no_gap { at ≤ length file.old.items }
    requires room { length bytes.now ≤ vec_capacity file.old - vec_len file.old }
    ensures written { file.new.items ≡ overwritten at bytes.now file.old.items }
    ensures left { vec_capacity file.old - vec_len file.old ≤ vec_capacity file.new - vec_len file.new + length bytes.now }
{
    let over = bytes.len().min(file.len() - at);
    file[at..at + over].copy_from_slice(&bytes[..over]);
    if file.extend_from_slice(&bytes[over..]).is_err() {
        unreachable!()
    }
}
