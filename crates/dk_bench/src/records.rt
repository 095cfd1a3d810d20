//! The store of commits in the folder `store`: records that are appended and recovered, and payloads that are decoded.
ghost use Rattle.std.specs.Prelude.{◌≡◌, false};
ghost use Rattle.dk_disk.specs.Opening.{IsOpen};

use crate::stores::nanoseconds;
use dk_disk::{FolderHome, Home};
use dk_entry::{decode_entries, encode_entries};
use dk_journal::{Journal, create};
use dk_recover::recover;
use dk_types::{Blob, Effects, Entry, GameId, Listed, Object, ObjectId, RunNo, Side};
use std::alloc::Global;
use std::fs::File;
use std::rt::Files;
use std::time::{Clock, Instant};

/// The folder of the store.
const FOLDER: &str = "store";

/// The bytes of a record's payload. The record has five more.
const PAYLOAD_BYTES: usize = 86;

/// So many objects are written in turn.
const OBJECTS: u64 = 1_000;

/// So many entries are decoded, however many stand in a payload.
const ENTRIES: u32 = 200_000;

/// So often they are.
const DECODINGS: u32 = 5;

/// What is done with records.
#[derive(Clone, Copy)]
pub enum RecordWork {
    /// So many records of 91 bytes are appended to a new store, with two syncs each. The file's length is told.
    Append,
    /// A store of so many records is recovered. The nanoseconds are told.
    Recover,
    /// Payloads of so many entries are decoded, 200,000 entries in all, and that five times. The nanoseconds of the fastest time are told.
    Decode,
}

/// The work of this word.
pub fn named(word: &str) -> Option<RecordWork> {
    match word {
        "store-appends" => Some(RecordWork::Append),
        "store-recover" => Some(RecordWork::Recover),
        "store-decode" => Some(RecordWork::Decode),
        _ => None,
    }
}

/// What is told, or nothing where the disk, memory or the clock is wanting.
pub fn on_records<R: AllocGlobal + Clock + Files<File = File> + Clone + Drop>(
    rt: &R,
    work: RecordWork,
    number: u32,
) -> Option<u64> {
    match work {
        RecordWork::Append => append(rt.alloc(), rt.clone().ok()?, number),
        RecordWork::Recover => recover_all(rt, rt.clone().ok()?, number),
        RecordWork::Decode => decode(rt, number),
    }
}

fn game() -> Option<GameId> {
    GameId::new(b"records").ok()
}

/// The commit of this number, from 1. It writes one object.
fn entry(alloc: Global, number: u64) -> Option<Entry> {
    let before = number.saturating_sub(1);
    let id = ObjectId {
        run: RunNo(before % OBJECTS),
        k: 0,
    };
    let mut bytes = Vec::from_slice(alloc, &number.to_be_bytes()).ok()?;
    bytes.extend_from_slice(b"shiny sword.").ok()?;
    let object = Object {
        kind: 1,
        bytes: Blob::from_vec(bytes),
    };
    let effects = Effects {
        written: Listed::from_vec(vec![in alloc; (id, object)].ok()?),
        removed: Listed::from_vec(Vec::new(alloc)),
        bound: Listed::from_vec(Vec::new(alloc)),
        unbound: Listed::from_vec(Vec::new(alloc)),
        added: Listed::from_vec(Vec::new(alloc)),
        dropped: Listed::from_vec(Vec::new(alloc)),
        requeued: Listed::from_vec(Vec::new(alloc)),
    };
    Some(Entry {
        seq: number,
        run: RunNo(before),
        effects,
    })
}

/// The payload of so many commits from this number on.
fn payload(alloc: Global, first: u64, count: u32) -> Option<Blob> {
    let mut entries = Vec::new(alloc);
    for behind in 0..count {
        entries
            .push(entry(alloc, first.saturating_add(behind as u64))?)
            .ok()?;
    }
    encode_entries(alloc, entries.as_slice()).ok()
}

/// Appends so many records of one commit each. The length of the file.
fn append_all<M: Home>(
    alloc: Global,
    home: &mut M,
    mut journal: Journal,
    records: u32,
) -> Option<u64>
    requires silent { M.tells ≡ false }
    requires is_open { IsOpen (M.opening home.old) }
    requires format { journal.format ≡ 2 }
{
    'records: for before in 0..records {
        let record = payload(alloc, (before as u64).saturating_add(1), 1)?;
        if record.as_slice().len() != PAYLOAD_BYTES {
            return None;
        }
        match journal.append(home, &record) {
            Ok(()) => {}
            Err(_) => return None,
        }
    }
    Some(journal.length())
}

fn append<R: Files<File = File> + Drop>(alloc: Global, system: R, records: u32) -> Option<u64> {
    let mut home = FolderHome::new(alloc, system);
    home.open(FOLDER).ok()?;
    let game = game()?;
    let Ok(journal) = create(alloc, &mut home, Side::Zero, &game, 0) else {
        return None;
    };
    append_all(alloc, &mut home, journal, records)
}

fn recover_all<R: AllocGlobal + Clock, S: Files<File = File> + Drop>(
    rt: &R,
    system: S,
    records: u32,
) -> Option<u64> {
    let mut home = FolderHome::new(rt.alloc(), system);
    home.open(FOLDER).ok()?;
    let game = game()?;
    let start = Instant::now(rt).ok()?;
    let found = recover(rt.alloc(), &mut home, &game).ok()?;
    let spent = nanoseconds(rt, &start);
    if found.durable.commits != records as u64 {
        return None;
    }
    spent
}

/// The payload decoded again and again, until so many entries are. The nanoseconds.
fn decode_all<R: AllocGlobal + Clock>(rt: &R, payload: &Blob, entries: u32) -> Option<u64> {
    let mut spent: u64 = 0;
    for _ in 0..ENTRIES.checked_div(entries)? {
        let start = Instant::now(rt).ok()?;
        let decoded = decode_entries(rt.alloc(), payload, 2).ok()?;
        spent = spent.saturating_add(nanoseconds(rt, &start)?);
        if decoded.as_slice().len() != entries as usize {
            return None;
        }
    }
    Some(spent)
}

/// The least of some times, of which the first takes the memory that the others find.
fn decode<R: AllocGlobal + Clock>(rt: &R, entries: u32) -> Option<u64> {
    let payload = payload(rt.alloc(), 1, entries)?;
    let mut least = u64::MAX;
    for _ in 0..DECODINGS {
        least = least.min(decode_all(rt, &payload, entries)?);
    }
    Some(least)
}
