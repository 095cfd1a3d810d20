//! The same calls on a home in memory and on a folder, and what a folder refuses.
ghost use Rattle.std.specs.Prelude.{◌≡◌, false};
ghost use Rattle.dk_disk.specs.Opening.{IsOpen};

use crate::texts::{push_letters, text};
use dk_disk::{FolderHome, Home, MemoryHome};
use dk_rows::Words;
use dk_types::{Failed, Side};
use std::alloc::Global;
use std::fs::{self, File};
use std::rt::Files;

/// `folder memory`, `folder calls DIR`, `folder keeps DIR`, `folder grows DIR`, `folder syncs DIR`, `folder twice DIR`, `folder file PATH`, `folder remove DIR`.
pub fn answer<R: Files<File = File> + AllocGlobal + Clone + Drop>(
    alloc: Global,
    rt: &R,
    call: &mut Words<'_>,
) -> Option<String> {
    match call.word()? {
        "memory" => in_memory(alloc),
        "calls" => in_folder(alloc, rt.clone().ok()?, call.word()?),
        "keeps" => kept(alloc, rt.clone().ok()?, call.rest()),
        "grows" => grown(alloc, rt, call.word()?),
        "syncs" => synced(alloc, rt.clone().ok()?, call.word()?),
        "twice" => twice(alloc, rt, call.word()?),
        "file" => file(alloc, rt, call.word()?),
        "remove" => {
            let _ = fs::remove_dir_all(rt, call.word()?);
            text(alloc, "")
        }
        _ => None,
    }
}

/// The bytes of a file as letters.
fn file<R: Files<File = File> + AllocGlobal>(alloc: Global, rt: &R, path: &str) -> Option<String> {
    let mut letters = String::new(alloc);
    push_letters(&mut letters, fs::read(rt, path).ok()?.as_slice()).ok()?;
    Some(letters)
}

/// Appends to a file.
fn append<M: Home>(home: &mut M, side: Side, bytes: &[u8]) -> Result<(), Failed>
    requires { IsOpen (M.opening home.old) }
    ensures { M.opening home.new ≡ M.opening home.old }
{
    let end = home.len(side)?;
    home.write_at(side, end, bytes)
}

/// Takes so many bytes off a file's end.
fn shorten<M: Home>(home: &mut M, side: Side, by: u64) -> Result<(), Failed>
    requires { IsOpen (M.opening home.old) }
    ensures { M.opening home.new ≡ M.opening home.old }
{
    let end = home.len(side)?;
    home.cut(side, end.saturating_sub(by))
}

/// Puts last all the bytes of a file, and a stroke.
fn push_all<M: Home>(alloc: Global, home: &mut M, side: Side, seen: &mut String) -> Option<()>
    requires { IsOpen (M.opening home.old) }
    ensures { M.opening home.new ≡ M.opening home.old }
{
    let length = home.len(side).ok()?;
    let mut bytes = vec![in alloc; 0u8; length as usize].ok()?;
    home.read(side, 0, &mut bytes).ok()?;
    push_letters(seen, bytes.as_slice()).ok()?;
    seen.push('|').ok()
}

/// The same calls on any home that is open: what both files read like after each of them.
fn run_calls<M: Home>(alloc: Global, home: &mut M) -> Option<String>
    requires { IsOpen (M.opening home.old) }
{
    let mut seen = String::new(alloc);
    append(home, Side::Zero, b"abcd").ok()?;
    push_all(alloc, home, Side::Zero, &mut seen)?;
    home.sync(Side::Zero).ok()?;
    append(home, Side::One, b"12").ok()?;
    push_all(alloc, home, Side::One, &mut seen)?;
    home.write_at(Side::Zero, 0, b"AB").ok()?;
    shorten(home, Side::Zero, 1).ok()?;
    home.sync(Side::Zero).ok()?;
    push_all(alloc, home, Side::Zero, &mut seen)?;
    append(home, Side::Zero, b"xyz").ok()?;
    shorten(home, Side::One, 2).ok()?;
    home.sync(Side::One).ok()?;
    push_all(alloc, home, Side::Zero, &mut seen)?;
    push_all(alloc, home, Side::One, &mut seen)?;
    Some(seen)
}

fn in_memory(alloc: Global) -> Option<String> {
    let none = Vec::new(alloc);
    let mut home = MemoryHome::new(alloc, Vec::new(alloc), Vec::new(alloc), none, false);
    if home.open("anywhere").is_err() {
        return text(alloc, "not opened");
    }
    run_calls(alloc, &mut home)
}

fn in_folder<R: Files<File = File> + Drop>(alloc: Global, system: R, dir: &str) -> Option<String> {
    let mut home = FolderHome::new(alloc, system);
    if home.open(dir).is_err() {
        return text(alloc, "not opened");
    }
    run_calls(alloc, &mut home)
}

/// Three calls that a home which does not tell its content refuses: how many answered Ok.
fn misuse<M: Home>(home: &mut M) -> u64
    requires is_open { IsOpen (M.opening home.old) }
    requires tells { M.tells ≡ false }
{
    let mut into = [0u8; 4];
    let reads = u64::from(home.read(Side::One, 0, &mut into).is_ok());
    let writes = u64::from(home.write_at(Side::One, 4, b"d").is_ok());
    let cuts = u64::from(home.cut(Side::One, 4).is_ok());
    reads.saturating_add(writes).saturating_add(cuts)
}

/// Opens, writes three bytes where there are none, and misuses the home: its faults, how many of the wrong calls answered Ok, and
/// the length. Of a folder that can not be opened the faults alone.
fn kept<R: Files<File = File> + Drop>(alloc: Global, system: R, dir: &str) -> Option<String> {
    let mut home = FolderHome::new(alloc, system);
    if home.open(dir).is_err() {
        return format!(in alloc; "not opened, {} faults", home.faults()).ok();
    }
    if home.len(Side::One) == Ok(0) {
        let _ = append(&mut home, Side::One, b"abc");
        let _ = home.sync(Side::One);
    }
    let length = home.len(Side::One).unwrap_or(0);
    let wrong = misuse(&mut home);
    format!(in alloc;
        "{} faults, {wrong} wrong calls, {length} bytes",
        home.faults()
    )
    .ok()
}

/// Writes three bytes, behind which another writer puts three more: whether a read of all six is answered, whether a second one
/// is, and the faults.
fn grown<R: Files<File = File> + AllocGlobal + Clone + Drop>(
    alloc: Global,
    rt: &R,
    dir: &str,
) -> Option<String> {
    let mut home = FolderHome::new(alloc, rt.clone().ok()?);
    if home.open(dir).is_err() {
        return text(alloc, "not opened");
    }
    append(&mut home, Side::Zero, b"abc").ok()?;
    let path = format!(in alloc; "{dir}/store.0").ok()?;
    fs::write(rt, path.as_str(), b"abcdef").ok()?;
    let mut into = [0u8; 6];
    let first = home.read(Side::Zero, 0, &mut into).is_ok();
    let second = home.read(Side::Zero, 0, &mut into).is_ok();
    format!(in alloc; "{first} then {second}, {} faults", home.faults()).ok()
}

/// Writes and syncs a file, the other one and the first again: whether each sync was answered Ok, and the faults.
fn synced<R: Files<File = File> + Drop>(alloc: Global, system: R, dir: &str) -> Option<String> {
    let mut home = FolderHome::new(alloc, system);
    if home.open(dir).is_err() {
        return text(alloc, "not opened");
    }
    append(&mut home, Side::Zero, b"abc").ok()?;
    let first = home.sync(Side::Zero).is_ok();
    let other = home.sync(Side::One).is_ok();
    let again = home.sync(Side::Zero).is_ok();
    format!(in alloc; "{first}, {other} and {again}, {} faults", home.faults()).ok()
}

/// Opens a folder by one home, by a second one beside it, and by a third once the first is gone: which of them opened it.
fn twice<R: Files<File = File> + AllocGlobal + Clone + Drop>(
    alloc: Global,
    rt: &R,
    dir: &str,
) -> Option<String> {
    let (first, second) = beside(alloc, rt, dir)?;
    let mut home = FolderHome::new(alloc, rt.clone().ok()?);
    let third = home.open(dir).is_ok();
    format!(in alloc; "{first}, {second} and {third}").ok()
}

/// Whether a home opens a folder, and whether another does so meanwhile.
fn beside<R: Files<File = File> + AllocGlobal + Clone + Drop>(
    alloc: Global,
    rt: &R,
    dir: &str,
) -> Option<(bool, bool)> {
    let mut first = FolderHome::new(alloc, rt.clone().ok()?);
    let mut second = FolderHome::new(alloc, rt.clone().ok()?);
    let is_first = first.open(dir).is_ok();
    Some((is_first, second.open(dir).is_ok()))
}
