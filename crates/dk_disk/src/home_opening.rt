//! The opening of a home in memory.
ghost use Rattle.std.specs.Prelude.{◌≡◌, ◌⊎◌, ◌+◌, ◌<◌, ◌≤◌, length, true, false, OnOk, OnErr};
ghost use Rattle.dk_disk.specs.Opening.{NotCalled, Refused, Opened};

use dk_types::{Failed, NoMemory};
use std::alloc::Global;
use std::marker::Model;

/// Keeps the folder that `open` was called with.
#[derive(Drop)]
pub(crate) struct HomeOpening {
    dir: String,
    was_called: bool,
    is_open: bool,
    fails: bool,
}

impl Model for HomeOpening {
    ghost use Rattle.std.specs.Prelude.{◌-◌, string_bytes};
    ghost use Rattle.std.specs.String.{string_len, string_capacity};
    ghost use Rattle.dk_disk.specs.Opening.{HomeOpening as Seen, opening_of};

    ghost Value = { Seen };

    ghost view = { λ e. record { opening = opening_of e.was_called e.is_open (string_bytes e.dir); fails = e.fails; room = string_capacity e.dir - string_len e.dir } };
}

impl HomeOpening {
    pub(crate) fn new(alloc: Global, fails: bool) -> HomeOpening
        ensures opening { result.opening ≡ NotCalled }
        ensures fails { result.fails ≡ fails }
    {
        HomeOpening {
            dir: String::new(alloc),
            was_called: false,
            is_open: false,
            fails,
        }
    }

    /// Makes room for a folder's name. A refused call changes nothing but the room.
    pub(crate) fn reserve(&mut self, bytes: usize) -> Result<(), NoMemory>
        ensures ok { OnOk result (bytes ≤ self.new.room) }
        ensures err { OnErr result (self.old.room < bytes) }
        ensures opening { self.new.opening ≡ self.old.opening }
        ensures fails { self.new.fails ≡ self.old.fails }
        ensures room { self.old.room ≤ self.new.room }
    {
        self.dir.reserve(bytes)?;
        Ok(())
    }

    /// Opens, unless it is to fail or there is no room for the folder's name.
    pub(crate) fn enter(&mut self, dir: &str) -> Result<(), Failed>
        requires { self.old.opening ≡ NotCalled }
        ensures opened { OnOk result ((self.new.opening ≡ Opened dir.now) × (self.old.fails ≡ false)) }
        ensures refused { OnErr result (((self.new.opening ≡ Refused dir.now) × (self.old.fails ≡ true)) ⊎ ((self.new.opening ≡ NotCalled) × (self.old.room < length dir.now) × (self.old.room ≤ self.new.room))) }
        ensures fails { self.new.fails ≡ self.old.fails }
        ensures room { self.old.room ≤ self.new.room + length dir.now }
    {
        self.dir.clear();
        if self.dir.push_str(dir).is_err() {
            return Err(Failed);
        }
        self.was_called = true;
        self.is_open = !self.fails;
        if self.fails {
            return Err(Failed);
        }
        Ok(())
    }
}
