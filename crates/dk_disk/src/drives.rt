//! The two files of a home in memory.
ghost use Rattle.std.specs.Prelude.{◌≡◌, ◌+◌, ◌<◌, ◌≤◌, ◌^◌, length, OnOk, OnErr};
ghost use Rattle.dk_types.specs.declared.side.Side.{Side as Which};
ghost use Rattle.dk_disk.specs.DiskHistories.{other_side};
ghost use Rattle.dk_disk.specs.MemoryFiles.{file_of, size_of, AreReserved, IsReserved, IsChanged};
ghost use Rattle.dk_disk.specs.Step.{step_size, IsWithin, reads_after};

use crate::memory_file::MemoryFile;
use crate::step::Step;
use dk_types::{NoMemory, Side};
use std::marker::Model;

/// Both files.
#[derive(Drop)]
pub(crate) struct Drives {
    zero: MemoryFile,
    one: MemoryFile,
}

impl Model for Drives {
    ghost use Rattle.dk_disk.specs.MemoryFiles.{Files};

    ghost Value = { Files };

    ghost view = { λ d. record { zero = d.zero; one = d.one } };
}

impl Drives {
    pub(crate) fn new(zero: Vec<u8>, one: Vec<u8>) -> Drives
        ensures zero { result.zero.reads ≡ zero.items }
        ensures one { result.one.reads ≡ one.items }
    {
        Drives {
            zero: MemoryFile::new(zero),
            one: MemoryFile::new(one),
        }
    }

    /// Makes room for a change of one file with so many bytes. A refused call changes nothing but the room.
    pub(crate) fn reserve(&mut self, side: Side, bytes: usize) -> Result<(), NoMemory>
        ensures ok { OnOk result (bytes ≤ (file_of self.new side).room) }
        ensures err { OnErr result ((file_of self.old side).room < bytes) }
        ensures kept { (s : Which) → IsReserved (file_of self.old s) (file_of self.new s) }
        ensures small { OnOk result (length (file_of self.new side).reads + bytes < 2 ^ 63) }
    {
        match side {
            Side::Zero => self.zero.reserve(bytes),
            Side::One => self.one.reserve(bytes),
        }
    }

    /// Makes room for a change of either file with so many bytes, which the system has given by then.
    pub(crate) fn prepare_both(&mut self, bytes: usize) -> Result<(), NoMemory>
        ensures ok { OnOk result ((bytes ≤ self.new.zero.room) × (bytes ≤ self.new.one.room)) }
        ensures kept { AreReserved self.old self.new }
        ensures small { OnOk result (size_of self.new + bytes < 2 ^ 64) }
    {
        self.zero.prepare(bytes)?;
        self.one.prepare(bytes)
    }

    pub(crate) fn bytes(&self, side: Side) -> &[u8]
        ensures { result.now ≡ (file_of self.now side).reads }
    {
        match side {
            Side::Zero => self.zero.bytes(),
            Side::One => self.one.bytes(),
        }
    }

    /// How many bytes both files hold.
    pub(crate) fn size(&self) -> usize
        ensures size { result ≡ size_of self.now }
        ensures small { (s : Which) → length (file_of self.now s).reads < 2 ^ 63 }
    {
        self.zero.bytes().len() + self.one.bytes().len()
    }

    /// Does what a call is to do.
    pub(crate) fn change(&mut self, side: Side, step: &Step<'_>)
        requires within { IsWithin step.now (file_of self.old side).reads }
        requires place { step_size step.now ≤ (file_of self.old side).room }
        ensures this { IsChanged (file_of self.old side) (file_of self.new side) (reads_after step.now (file_of self.old side).reads) (step_size step.now) }
        ensures other { file_of self.new (other_side side) ≡ file_of self.old (other_side side) }
    {
        match side {
            Side::Zero => self.zero.change(step),
            Side::One => self.one.change(step),
        }
    }
}
