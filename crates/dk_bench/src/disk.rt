//! Calls on the two kinds of home.
ghost use Rattle.std.specs.Prelude.{◌≡◌};
ghost use Rattle.dk_disk.specs.Opening.{IsOpen};

use dk_disk::{FolderHome, Home, MemoryHome};
use dk_types::Side;
use std::alloc::Global;
use std::fs::File;
use std::rt::Files;

/// The bytes of each append.
const RECORD_BYTES: usize = 91;

/// So many appends on the folder `appends`, each with two syncs. The length of the file.
pub fn folder_appends<R: Files<File = File> + Drop>(
    alloc: Global,
    system: R,
    times: u32,
) -> Option<u64> {
    let mut home = FolderHome::new(alloc, system);
    home.open("appends").ok()?;
    append_all(&mut home, times)
}

/// So many writes and syncs on a home in memory. The length of the file.
pub fn memory_calls(alloc: Global, times: u32) -> Option<u64> {
    let none = Vec::new(alloc);
    let mut home = MemoryHome::new(alloc, Vec::new(alloc), Vec::new(alloc), none, false);
    home.open("memory").ok()?;
    append_all(&mut home, times)
}

/// So many appends: the bytes, a sync, one byte over the first of them, a sync.
fn append_all<M: Home>(home: &mut M, times: u32) -> Option<u64>
    requires { IsOpen (M.opening home.old) }
{
    'appends: for _ in 0..times {
        append(home)?;
    }
    home.len(Side::Zero).ok()
}

fn append<M: Home>(home: &mut M) -> Option<()>
    requires { IsOpen (M.opening home.old) }
    ensures { M.opening home.new ≡ M.opening home.old }
{
    let end = home.len(Side::Zero).ok()?;
    home.write_at(Side::Zero, end, &[1; RECORD_BYTES]).ok()?;
    home.sync(Side::Zero).ok()?;
    write_gate(home, end)?;
    home.sync(Side::Zero).ok()
}

/// Writes one byte, where the file is that long.
fn write_gate<M: Home>(home: &mut M, at: u64) -> Option<()>
    requires { IsOpen (M.opening home.old) }
    ensures { M.opening home.new ≡ M.opening home.old }
{
    if at > home.len(Side::Zero).ok()? {
        return None;
    }
    home.write_at(Side::Zero, at, &[2]).ok()
}
