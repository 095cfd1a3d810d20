//! A home in a folder: the files `store.0` and `store.1`.
//!
//! It makes one call of the system for each call, and asks for the length of a file once. It tells nothing of
//! content: what a system call gives or keeps is trusted.
ghost use Rattle.std.specs.Prelude.{◌≡◌, ◌≤◌, [], None, string_bytes, is_some, is_ok, false, IsErr, IsTrue, OnOk, OnErr};
ghost use Rattle.dk_types.specs.Faults.{HasRisen, COUNT_END};
ghost use Rattle.dk_disk.specs.Disk.{settled};
ghost use Rattle.dk_disk.specs.Folder.{known_of};
ghost use Rattle.dk_disk.specs.Opening.{NotCalled, IsOpen, opening_of};

use crate::home::Home;
use dk_types::{Failed, FaultCount, Side};
use std::alloc::Global;
use std::fs::{self, File, OpenOptions};
use std::io;
use std::os::unix::fs::FileExt;
use std::path::Path;
use std::rt::Files;

/// Both files of a store, opened.
#[derive(Drop)]
struct Pair {
    zero: File,
    one: File,
}

impl Pair {
    fn file(&self, side: Side) -> &File {
        match side {
            Side::Zero => &self.zero,
            Side::One => &self.one,
        }
    }
}

/// The length of each file in bytes, where it is known. Nobody else writes the files, so that the system is
/// asked once, and again after a call that failed.
#[derive(Default, Drop)]
struct Lengths {
    zero: Option<u64>,
    one: Option<u64>,
}

impl Lengths {
    fn known(&self, side: Side) -> Option<u64>
        ensures { result ≡ known_of self.now side }
    {
        match side {
            Side::Zero => self.zero,
            Side::One => self.one,
        }
    }

    fn set(&mut self, side: Side, length: Option<u64>)
        ensures { known_of self.new side ≡ length }
    {
        match side {
            Side::Zero => self.zero = length,
            Side::One => self.one = length,
        }
    }

    /// The length of an opened file.
    fn of(&mut self, pair: &Pair, side: Side) -> io::Result<u64> {
        if let Some(length) = self.known(side) {
            return Ok(length);
        }
        let length = pair.file(side).metadata()?.len();
        self.set(side, Some(length));
        Ok(length)
    }
}

/// A home over a runtime's file system. `open` makes the folder, its parents and both files where they
/// are absent, and puts them on the disk; it fails where another home, of this program or another, has the
/// store open. After a sync that failed each later sync fails too, since the
/// system may have dropped what was written: open the store anew.
#[derive(Drop)]
pub struct FolderHome<R: Files<File = File> + Drop> {
    system: R,
    alloc: Global,
    dir: String,
    was_called: bool,
    pair: Option<Pair>,
    lengths: Lengths,
    has_lost: bool,
    faults: FaultCount,
}

impl<R: Files<File = File> + Drop> FolderHome<R> {
    /// A home that is not opened yet, over this system's files.
    pub fn new(alloc: Global, system: R) -> FolderHome<R>
        ensures opening { opening_of result.was_called (is_some result.pair) (string_bytes result.dir) ≡ NotCalled }
        ensures faults { result.faults.count ≡ 0 }
    {
        FolderHome {
            system,
            alloc,
            dir: String::new(alloc),
            was_called: false,
            pair: None,
            lengths: Lengths::default(),
            has_lost: false,
            faults: FaultCount::new(),
        }
    }

    fn settle(&self, side: Side) -> io::Result<()>
        ensures { IsTrue self.now.has_lost → IsErr result }
    {
        if self.has_lost {
            return Err(io::ErrorKind::InvalidData.into());
        }
        opened(&self.pair)?.file(side).sync_data()
    }
}

fn opened(pair: &Option<Pair>) -> io::Result<&Pair> {
    pair.as_ref().ok_or(io::ErrorKind::NotFound.into())
}

fn fill(
    pair: &Pair,
    lengths: &mut Lengths,
    side: Side,
    at: u64,
    into: &mut [u8],
) -> io::Result<()> {
    let length = lengths.of(pair, side)?;
    if at > length || into.len() as u64 > length - at {
        return Err(io::ErrorKind::UnexpectedEof.into());
    }
    pair.file(side).read_exact_at(into, at)
}

fn put(pair: &Pair, lengths: &mut Lengths, side: Side, at: u64, bytes: &[u8]) -> io::Result<()> {
    let length = lengths.of(pair, side)?;
    if at > length {
        return Err(io::ErrorKind::InvalidInput.into());
    }
    lengths.set(side, None);
    pair.file(side).write_all_at(bytes, at)?;
    let end = at.checked_add(bytes.len() as u64);
    lengths.set(side, end.map(|end| end.max(length)));
    Ok(())
}

fn shorten(pair: &Pair, lengths: &mut Lengths, side: Side, to: u64) -> io::Result<()> {
    if to > lengths.of(pair, side)? {
        return Err(io::ErrorKind::InvalidInput.into());
    }
    lengths.set(side, None);
    pair.file(side).set_len(to)?;
    lengths.set(side, Some(to));
    Ok(())
}

/// Makes what is absent of the folder, its parents and its two files, and puts it on the disk. Of two programs that open the
/// same store, and write it both, neither would keep what it told: so `store.0` is locked, as long as it is open.
fn open_pair<R: Files<File = File>>(system: &R, alloc: Global, dir: &str) -> io::Result<Pair> {
    if dir.is_empty() {
        return Err(io::ErrorKind::InvalidInput.into());
    }
    let absent = absent_folders(system, dir);
    fs::create_dir_all(system, dir)?;
    let zero = open_file(system, format!(in alloc; "{dir}/store.0")?.as_str())?;
    zero.try_lock()?;
    let one = open_file(system, format!(in alloc; "{dir}/store.1")?.as_str())?;
    zero.sync_all()?;
    one.sync_all()?;
    sync_folders(system, dir, absent)?;
    Ok(Pair { zero, one })
}

/// How many of the folder and its parents are absent.
fn absent_folders<R: Files<File = File>>(system: &R, dir: &str) -> usize {
    let mut absent = 0usize;
    for folder in Path::new(dir).ancestors() {
        if fs::metadata(system, folder).is_ok() {
            break;
        }
        absent = absent.saturating_add(1);
    }
    absent
}

/// Puts the entries of the folder on the disk, and those of each folder above one that was made.
fn sync_folders<R: Files<File = File>>(system: &R, dir: &str, made: usize) -> io::Result<()> {
    for (above, folder) in Path::new(dir).ancestors().enumerate() {
        if above > made {
            break;
        }
        let name = folder.as_str();
        File::open(system, if name.is_empty() { "." } else { name })?.sync_all()?;
    }
    Ok(())
}

fn open_file<R: Files<File = File>>(system: &R, path: &str) -> io::Result<File> {
    OpenOptions::new()
        .read(true)
        .write(true)
        .create(true)
        .open(system, path)
}

/// Counts a fault where the system refused a call on a file, and forgets its length then.
fn told<T>(
    count: &mut FaultCount,
    lengths: &mut Lengths,
    side: Side,
    outcome: io::Result<T>,
) -> Result<T, Failed>
    ensures forgets { OnErr result (known_of lengths.new side ≡ None) }
    ensures steady { OnOk result (count.new.count ≡ count.old.count) }
    ensures cause { OnErr result (HasRisen count.old.count count.new.count) }
    ensures most { count.new.count ≤ COUNT_END }
    ensures same { is_ok result ≡ is_ok outcome }
{
    if outcome.is_err() {
        lengths.set(side, None);
    }
    counted(count, outcome)
}

/// Counts a fault where the system refused.
fn counted<T>(count: &mut FaultCount, outcome: io::Result<T>) -> Result<T, Failed>
    ensures steady { OnOk result (count.new.count ≡ count.old.count) }
    ensures cause { OnErr result (HasRisen count.old.count count.new.count) }
    ensures most { count.new.count ≤ COUNT_END }
    ensures same { is_ok result ≡ is_ok outcome }
{
    match outcome {
        Ok(answer) => Ok(answer),
        Err(_) => {
            count.rise();
            Err(Failed)
        }
    }
}

impl<R: Files<File = File> + Drop> Home for FolderHome<R> {
    ghost tells = { false };

    ghost opening = { λ s. opening_of s.was_called (is_some s.pair) (string_bytes s.dir) };

    ghost past = { λ s. record { clock = 0; disks = λ t side. settled [] } };

    ghost counted = { λ s. s.faults.count };

    fn open(&mut self, dir: &str) -> Result<(), Failed> {
        match String::from_str(self.alloc, dir) {
            Ok(copy) => self.dir = copy,
            Err(_) => {
                self.faults.rise();
                return Err(Failed);
            }
        }
        self.was_called = true;
        self.pair = None;
        self.lengths = Lengths::default();
        let outcome = open_pair(&self.system, self.alloc, dir);
        self.pair = Some(counted(&mut self.faults, outcome)?);
        Ok(())
    }

    fn len(&mut self, side: Side) -> Result<u64, Failed>
        requires { IsOpen (opening_of self.old.was_called (is_some self.old.pair) (string_bytes self.old.dir)) }
        ensures opening { opening_of self.new.was_called (is_some self.new.pair) (string_bytes self.new.dir) ≡ opening_of self.old.was_called (is_some self.old.pair) (string_bytes self.old.dir) }
        ensures steady { OnOk result (self.new.faults.count ≡ self.old.faults.count) }
        ensures cause { OnErr result (HasRisen self.old.faults.count self.new.faults.count) }
        ensures most { self.new.faults.count ≤ COUNT_END }

        // What it does beyond what each home does.
        ensures forgets { OnErr result (known_of self.new.lengths side ≡ None) }
        ensures lost { self.new.has_lost ≡ self.old.has_lost }
    {
        let lengths = &mut self.lengths;
        let outcome = opened(&self.pair).and_then(|pair| lengths.of(pair, side));
        told(&mut self.faults, &mut self.lengths, side, outcome)
    }

    fn read(&mut self, side: Side, at: u64, into: &mut [u8]) -> Result<(), Failed>
        requires { IsOpen (opening_of self.old.was_called (is_some self.old.pair) (string_bytes self.old.dir)) }
        ensures opening { opening_of self.new.was_called (is_some self.new.pair) (string_bytes self.new.dir) ≡ opening_of self.old.was_called (is_some self.old.pair) (string_bytes self.old.dir) }
        ensures steady { OnOk result (self.new.faults.count ≡ self.old.faults.count) }
        ensures cause { OnErr result (HasRisen self.old.faults.count self.new.faults.count) }
        ensures most { self.new.faults.count ≤ COUNT_END }

        // What it does beyond what each home does.
        ensures forgets { OnErr result (known_of self.new.lengths side ≡ None) }
        ensures lost { self.new.has_lost ≡ self.old.has_lost }
    {
        let lengths = &mut self.lengths;
        let outcome = opened(&self.pair).and_then(|pair| fill(pair, lengths, side, at, into));
        told(&mut self.faults, &mut self.lengths, side, outcome)
    }

    fn write_at(&mut self, side: Side, at: u64, bytes: &[u8]) -> Result<(), Failed>
        requires { IsOpen (opening_of self.old.was_called (is_some self.old.pair) (string_bytes self.old.dir)) }
        ensures opening { opening_of self.new.was_called (is_some self.new.pair) (string_bytes self.new.dir) ≡ opening_of self.old.was_called (is_some self.old.pair) (string_bytes self.old.dir) }
        ensures steady { OnOk result (self.new.faults.count ≡ self.old.faults.count) }
        ensures cause { OnErr result (HasRisen self.old.faults.count self.new.faults.count) }
        ensures most { self.new.faults.count ≤ COUNT_END }

        // What it does beyond what each home does.
        ensures forgets { OnErr result (known_of self.new.lengths side ≡ None) }
        ensures lost { self.new.has_lost ≡ self.old.has_lost }
    {
        let lengths = &mut self.lengths;
        let outcome = opened(&self.pair).and_then(|pair| put(pair, lengths, side, at, bytes));
        told(&mut self.faults, &mut self.lengths, side, outcome)
    }

    fn cut(&mut self, side: Side, to: u64) -> Result<(), Failed>
        requires { IsOpen (opening_of self.old.was_called (is_some self.old.pair) (string_bytes self.old.dir)) }
        ensures opening { opening_of self.new.was_called (is_some self.new.pair) (string_bytes self.new.dir) ≡ opening_of self.old.was_called (is_some self.old.pair) (string_bytes self.old.dir) }
        ensures steady { OnOk result (self.new.faults.count ≡ self.old.faults.count) }
        ensures cause { OnErr result (HasRisen self.old.faults.count self.new.faults.count) }
        ensures most { self.new.faults.count ≤ COUNT_END }

        // What it does beyond what each home does.
        ensures forgets { OnErr result (known_of self.new.lengths side ≡ None) }
        ensures lost { self.new.has_lost ≡ self.old.has_lost }
    {
        let lengths = &mut self.lengths;
        let outcome = opened(&self.pair).and_then(|pair| shorten(pair, lengths, side, to));
        told(&mut self.faults, &mut self.lengths, side, outcome)
    }

    fn sync(&mut self, side: Side) -> Result<(), Failed>
        requires { IsOpen (opening_of self.old.was_called (is_some self.old.pair) (string_bytes self.old.dir)) }
        ensures opening { opening_of self.new.was_called (is_some self.new.pair) (string_bytes self.new.dir) ≡ opening_of self.old.was_called (is_some self.old.pair) (string_bytes self.old.dir) }
        ensures steady { OnOk result (self.new.faults.count ≡ self.old.faults.count) }
        ensures cause { OnErr result (HasRisen self.old.faults.count self.new.faults.count) }
        ensures most { self.new.faults.count ≤ COUNT_END }

        // What it does beyond what each home does.
        ensures forgets { OnErr result (known_of self.new.lengths side ≡ None) }
        ensures lost { OnErr result (IsTrue self.new.has_lost) }
        ensures again { IsTrue self.old.has_lost → IsErr result × IsTrue self.new.has_lost }
    {
        let outcome = self.settle(side);
        self.has_lost = self.has_lost || outcome.is_err();
        told(&mut self.faults, &mut self.lengths, side, outcome)
    }

    fn faults(&self) -> u64 {
        self.faults.count
    }
}
