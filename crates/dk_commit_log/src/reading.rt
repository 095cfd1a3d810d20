//! Reading the commits of a store's file.
ghost use Rattle.std.specs.Prelude.{◌≡◌, ◌+◌, ◌-◌, ◌<◌, ◌≤◌, ℕ, List, [], ◌∷◌, ◌++◌, length, Ok, None, IfOk, OnOk, IfErr, IsErrOf, IsTrue};
ghost use Rattle.dk_types.specs.Faults.{HasRisen};
ghost use Rattle.dk_types.specs.Fields.{IsU64, u64_spelling};
ghost use Rattle.dk_types.specs.declared.limits.TheConstants.{NUMBERS_END};
ghost use Rattle.dk_types.specs.declared.durable.Entry.{Entry as CommitEntry};
ghost use Rattle.dk_disk.specs.Disk.{settled};
ghost use Rattle.dk_disk.specs.Opening.{IsOpen};
ghost use Rattle.dk_disk.specs.DiskHistories.{now};
ghost use Rattle.dk_model.specs.DurableWorlds.{DurableWorld};
ghost use Rattle.dk_model.specs.Entries.{IsFormat, SpellsEntries};
ghost use Rattle.dk_model.specs.Stores.{StoreHeader, Reads};
ghost use Rattle.dk_journal.specs.Moments.{Looks};
ghost use Rattle.dk_journal.specs.Opened.{IsOpened};
ghost use Rattle.dk_journal.specs.Scanning.{IsScanned};
ghost use Rattle.dk_commit_log.specs.Logs.{BeginsWith, IsBehind, IsStoreFile, IsLogOf};
ghost use Rattle.dk_commit_log.specs.Ranges.{AreNumbered, between};
ghost use Rattle.dk_commit_log.specs.Refusals.{refusal_of, IsOfRecord};
ghost use Rattle.dk_commit_log.specs.declared.refused.LogRefused.TheVariants.{DiskFault, Damaged as DamagedAt};

use crate::range::Found;
use crate::refused::LogRefused;
use dk_disk::Home;
use dk_entry::{EntryRefused, decode_entries};
use dk_journal::{Header, JournalRefused, Scan, open};
use dk_types::limits::NUMBERS_END;
use dk_types::{Blob, Entry, Side};
use dk_wire::Reader;
use std::alloc::Global;

// What a refusal of the journal is to who reads the commits.
fn refused_by(refused: JournalRefused) -> LogRefused
    ensures { result ≡ refusal_of refused }
{
    match refused {
        JournalRefused::NotAStore { at } => LogRefused::Damaged { at },
        JournalRefused::Damaged { at } => LogRefused::Damaged { at },
        JournalRefused::NoMemory => LogRefused::NoMemory,
        _ => LogRefused::DiskFault,
    }
}

// The next payload, of which there is to be one.
fn payload_at<M: Home>(alloc: Global, home: &mut M, scan: &mut Scan) -> Result<Blob, LogRefused>
    requires is_open { IsOpen (M.opening home.old) }
    requires whole { IsTrue M.tells → scan.old.end ≡ length (now (M.past home.old) scan.old.side).reads }
    ensures next { IsTrue M.tells → IfOk result (λ payload. (header : List ℕ) (done : List (List ℕ)) → IsScanned (now (M.past home.old) scan.old.side).reads header done scan.old.at scan.old.end → IsScanned (now (M.past home.old) scan.old.side).reads header (done ++ payload ∷ []) scan.new.at scan.new.end) }
    ensures further { OnOk result (scan.old.at < scan.new.at) }
    ensures same { (scan.new.side ≡ scan.old.side) × (scan.new.end ≡ scan.old.end) × (scan.new.format ≡ scan.old.format) }
    ensures damaged { IsTrue M.tells → (at : ℕ) → IsErrOf result (DamagedAt at) → (header : List ℕ) (done : List (List ℕ)) (payload : List ℕ) (more : List (List ℕ)) → IsScanned (now (M.past home.old) scan.old.side).reads header done scan.old.at scan.old.end → Reads (now (M.past home.old) scan.old.side).reads header (done ++ payload ∷ more) → ⊥ }
    ensures cause { IsErrOf result DiskFault → HasRisen (M.counted home.old) (M.counted home.new) }
    ensures steady { (IsErrOf result DiskFault → ⊥) → M.counted home.new ≡ M.counted home.old }
    ensures looks { IsTrue M.tells → Looks (M.past home.old) (M.past home.new) }
    ensures opening { M.opening home.new ≡ M.opening home.old }
{
    let at = scan.at();
    match scan.next(alloc, home) {
        Ok(Some(payload)) => Ok(payload),
        Ok(None) => Err(LogRefused::Damaged { at }),
        Err(refused) => Err(refused_by(refused)),
    }
}

// The header of a file that is to be a store's, and a scan at its first gate.
fn open_store<M: Home>(home: &mut M, side: Side) -> Result<(Header, Scan), LogRefused>
    requires is_open { IsOpen (M.opening home.old) }
    ensures opened { IsTrue M.tells → IfOk result (λ both. IsOpened (now (M.past home.old) side).reads side both.0 both.1) }
    ensures damaged { IsTrue M.tells → (at : ℕ) → IsErrOf result (DamagedAt at) → (header : StoreHeader) (payloads : List (List ℕ)) → IsStoreFile (now (M.past home.old) side).reads header payloads → ⊥ }
    ensures reads { IsTrue M.tells → OnOk result ((now (M.past home.new) side).reads ≡ (now (M.past home.old) side).reads) }
    ensures looks { IsTrue M.tells → now (M.past home.old) side ≡ settled (now (M.past home.old) side).reads → Looks (M.past home.old) (M.past home.new) }
    ensures cause { IsErrOf result DiskFault → HasRisen (M.counted home.old) (M.counted home.new) }
    ensures steady { (IsErrOf result DiskFault → ⊥) → M.counted home.new ≡ M.counted home.old }
    ensures opening { M.opening home.new ≡ M.opening home.old }
{
    match open(home, side) {
        Ok(Some(found)) => Ok(found),
        Ok(None) => Err(LogRefused::Damaged { at: 0 }),
        Err(refused) => Err(refused_by(refused)),
    }
}

// A scan that has come behind the image of a file, if it has one.
fn behind_image<M: Home>(alloc: Global, home: &mut M, side: Side) -> Result<Scan, LogRefused>
    requires is_open { IsOpen (M.opening home.old) }
    ensures begins { IsTrue M.tells → IfOk result (λ scan. (header : StoreHeader) (payloads : List (List ℕ)) (first : DurableWorld) (others : List (List ℕ)) → IsStoreFile (now (M.past home.old) side).reads header payloads → BeginsWith header payloads first others → IsBehind (now (M.past home.old) side).reads header payloads others scan) }
    ensures scan { IsTrue M.tells → IfOk result (λ scan. (scan.side ≡ side) × (scan.end ≡ length (now (M.past home.old) side).reads)) }
    ensures damaged { IsTrue M.tells → (at : ℕ) → IsErrOf result (DamagedAt at) → (header : StoreHeader) (payloads : List (List ℕ)) (first : DurableWorld) (others : List (List ℕ)) → IsStoreFile (now (M.past home.old) side).reads header payloads → BeginsWith header payloads first others → ⊥ }
    ensures reads { IsTrue M.tells → OnOk result ((now (M.past home.new) side).reads ≡ (now (M.past home.old) side).reads) }
    ensures looks { IsTrue M.tells → now (M.past home.old) side ≡ settled (now (M.past home.old) side).reads → Looks (M.past home.old) (M.past home.new) }
    ensures cause { IsErrOf result DiskFault → HasRisen (M.counted home.old) (M.counted home.new) }
    ensures steady { (IsErrOf result DiskFault → ⊥) → M.counted home.new ≡ M.counted home.old }
    ensures opening { M.opening home.new ≡ M.opening home.old }
{
    let (header, mut scan) = open_store(home, side)?;
    if header.epoch > 0 {
        payload_at(alloc, home, &mut scan)?;
    }
    Ok(scan)
}

// The number that the payload at this place begins with, which numbers commits.
fn number_of(payload: &Blob, at: u64) -> Result<u64, LogRefused>
    ensures number { IfOk result (λ n. (m : ℕ) (rest : List ℕ) → IsU64 m → payload.now ≡ u64_spelling m ++ rest → n ≡ m) }
    ensures most { IfOk result (λ n. n ≤ NUMBERS_END) }
    ensures damaged { (place : ℕ) → IsErrOf result (DamagedAt place) → (m : ℕ) (rest : List ℕ) → m ≤ NUMBERS_END → payload.now ≡ u64_spelling m ++ rest → ⊥ }
    ensures only { IfErr result IsOfRecord }
{
    match Reader::new(payload.as_slice()).take_u64() {
        Ok(number) => {
            if number <= NUMBERS_END {
                Ok(number)
            } else {
                Err(LogRefused::Damaged { at })
            }
        }
        Err(_) => Err(LogRefused::Damaged { at }),
    }
}

/// How many commits a file begins with: those of its image, or none in the first epoch. Both files stay as they are.
pub fn commits_before<M: Home>(alloc: Global, home: &mut M, side: Side) -> Result<u64, LogRefused>
    requires is_open { IsOpen (M.opening home.old) }
    ensures begins { IsTrue M.tells → IfOk result (λ n. (header : StoreHeader) (payloads : List (List ℕ)) (first : DurableWorld) (others : List (List ℕ)) → IsStoreFile (now (M.past home.old) side).reads header payloads → BeginsWith header payloads first others → n ≡ first.commits) }
    ensures most { IfOk result (λ n. n ≤ NUMBERS_END) }
    ensures undamaged { IsTrue M.tells → (at : ℕ) → IsErrOf result (DamagedAt at) → (header : StoreHeader) (payloads : List (List ℕ)) (first : DurableWorld) (others : List (List ℕ)) → IsStoreFile (now (M.past home.old) side).reads header payloads → BeginsWith header payloads first others → ⊥ }
    ensures looks { IsTrue M.tells → now (M.past home.old) side ≡ settled (now (M.past home.old) side).reads → Looks (M.past home.old) (M.past home.new) }
    ensures cause { IsErrOf result DiskFault → HasRisen (M.counted home.old) (M.counted home.new) }
    ensures steady { (IsErrOf result DiskFault → ⊥) → M.counted home.new ≡ M.counted home.old }
    ensures opening { M.opening home.new ≡ M.opening home.old }
{
    let (header, mut scan) = open_store(home, side)?;
    if header.epoch == 0 {
        return Ok(0);
    }
    let at = scan.at();
    let image = payload_at(alloc, home, &mut scan)?;
    number_of(&image, at)
}

// Takes the entries of a record at this place.
fn take_record(
    alloc: Global,
    found: &mut Found,
    payload: &Blob,
    format: u16,
    at: u64,
) -> Result<(), LogRefused>
    requires { IsFormat format }
    ensures range { (found.new.after ≡ found.old.after) × (found.new.last ≡ found.old.last) }
    ensures taken { OnOk result ((entries : List CommitEntry) × SpellsEntries format entries payload.now × AreNumbered (found.old.seen + 1) entries × (found.new.seen ≡ found.old.seen + length entries) × (found.new.entries.items ≡ found.old.entries.items ++ between found.old.after found.old.last entries)) }
    ensures damaged { (place : ℕ) → IsErrOf result (DamagedAt place) → (entries : List CommitEntry) → SpellsEntries format entries payload.now → AreNumbered (found.old.seen + 1) entries → ⊥ }
    ensures only { IfErr result IsOfRecord }
{
    match decode_entries(alloc, payload, format) {
        Ok(entries) => found.take(entries, at),
        Err(EntryRefused::NotInGrammar { at: _ }) => Err(LogRefused::Damaged { at }),
        Err(EntryRefused::NoMemory) => Err(LogRefused::NoMemory),
    }
}

/// The entries of the commits behind the one of the number `after`, up to the one of the number `last`, in order. The
/// file's image has `before` commits. Both files stay as they are.
pub fn read_commits<M: Home>(
    alloc: Global,
    home: &mut M,
    side: Side,
    before: u64,
    after: u64,
    last: u64,
) -> Result<Vec<Entry>, LogRefused>
    requires is_open { IsOpen (M.opening home.old) }
    requires behind { before ≤ after }
    ensures numbered { IfOk result (λ entries. AreNumbered (after + 1) entries.items × (length entries.items ≡ last - after)) }

    // They are those of the file, where it has them.
    ensures read { IsTrue M.tells → (header : StoreHeader) (payloads : List (List ℕ)) (d first : DurableWorld) (all : List CommitEntry) → IsLogOf (now (M.past home.old) side).reads header payloads d first all before last → IfOk result (λ entries. entries.items ≡ between after last all) }
    ensures undamaged { IsTrue M.tells → (header : StoreHeader) (payloads : List (List ℕ)) (d first : DurableWorld) (all : List CommitEntry) → IsLogOf (now (M.past home.old) side).reads header payloads d first all before last → (at : ℕ) → IsErrOf result (DamagedAt at) → ⊥ }

    ensures looks { IsTrue M.tells → now (M.past home.old) side ≡ settled (now (M.past home.old) side).reads → Looks (M.past home.old) (M.past home.new) }
    ensures cause { IsErrOf result DiskFault → HasRisen (M.counted home.old) (M.counted home.new) }
    ensures steady { (IsErrOf result DiskFault → ⊥) → M.counted home.new ≡ M.counted home.old }
    ensures opening { M.opening home.new ≡ M.opening home.old }
{
    let mut found = Found::new(alloc, before, after, last);
    if last <= after {
        return Ok(found.entries);
    }
    let mut scan = behind_image(alloc, home, side)?;
    'records: while found.seen < last {
        let at = scan.at();
        let format = scan.format();
        let payload = payload_at(alloc, home, &mut scan)?;
        take_record(alloc, &mut found, &payload, format, at)?;
    }
    Ok(found.entries)
}
