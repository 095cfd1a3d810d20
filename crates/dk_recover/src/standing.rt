//! Which of a home's two files stands.
ghost use Rattle.std.specs.Prelude.{◌≡◌, ℕ, List, length, IfOk, IfErr, OnOk, OnErr, IsErrOf, IsTrue};
ghost use Rattle.dk_types.specs.Faults.{HasRisen};
ghost use Rattle.dk_types.specs.declared.side.Side.TheVariants.{Zero as First, One as Second};
ghost use Rattle.dk_disk.specs.Disk.{settled};
ghost use Rattle.dk_disk.specs.Opening.{IsOpen};
ghost use Rattle.dk_disk.specs.DiskHistories.{now};
ghost use Rattle.dk_journal.specs.Moments.{Runs, IsAsRead};
ghost use Rattle.dk_model.specs.Stores.{look, Blank as IsBlank};
ghost use Rattle.dk_recover.specs.Scanned.{IsSeen};
ghost use Rattle.dk_journal.specs.Opened.{IsOpened};
ghost use Rattle.dk_recover.specs.Stood.{IsStood, IsStandingFault};
ghost use Rattle.dk_recover.specs.Placed.{IsPlaced};
ghost use Rattle.dk_recover.specs.declared.fault.OpenFault.TheVariants.{DiskFault as FaultOfDisk};
ghost use Rattle.dk_recover.specs.Files.{OnlyReads, Settles};

use crate::fault::OpenFault;
use dk_disk::Home;
use dk_journal::{Header, JournalRefused, Scan, open};
use dk_types::{Failed, Side};

/// The most bytes of a first file of which nothing counts, where there is no store yet.
const BLANK_MOST_BYTES: u64 = 65;

/// Where a header has its epoch.
const EPOCH_PLACE: u64 = 11;

/// How a file is seen.
#[derive(Drop)]
pub(crate) enum FileLook {
    Blank,
    Live(Header, Scan),
    Faulty(u64),
}

// Syncs a file, and looks at it.
fn see<M: Home>(home: &mut M, side: Side) -> Result<FileLook, Failed>
    requires { IsOpen (M.opening home.old) }
    ensures run { IsTrue M.tells → Runs side (IsAsRead (now (M.past home.old) side)) (M.past home.old) (M.past home.new) }
    ensures settled { IsTrue M.tells → OnOk result (now (M.past home.new) side ≡ settled (now (M.past home.old) side).reads) }
    ensures seen { IsTrue M.tells → IfOk result (IsSeen (now (M.past home.old) side).reads side) }
    ensures steady { OnOk result (M.counted home.new ≡ M.counted home.old) }
    ensures cause { OnErr result (HasRisen (M.counted home.old) (M.counted home.new)) }
    ensures opening { M.opening home.new ≡ M.opening home.old }
{
    match open(home, side) {
        Ok(None) => Ok(FileLook::Blank),
        Ok(Some((header, scan))) => Ok(FileLook::Live(header, scan)),
        Err(JournalRefused::NotAStore { at }) => Ok(FileLook::Faulty(at)),
        Err(_) => Err(Failed),
    }
}

/// The file that stands, by its header and a scan at its first gate; `None` where there is no store yet.
pub type Standing = Option<(Header, Scan)>;

/// Where what is no store.
#[derive(Clone, Copy, Debug, Drop, PartialEq, Eq)]
struct NotAStoreAt {
    side: Side,
    at: u64,
}

// Of two live files.
fn the_greater(zero: (Header, Scan), one: (Header, Scan)) -> Result<Standing, NotAStoreAt>
    ensures { (z o : List ℕ) → IsOpened z First zero.0 zero.1 → IsOpened o Second one.0 one.1 → IsPlaced z o result }
{
    if zero.0.epoch > one.0.epoch {
        Ok(Some(zero))
    } else if one.0.epoch > zero.0.epoch {
        Ok(Some(one))
    } else {
        Err(NotAStoreAt {
            side: Side::One,
            at: EPOCH_PLACE,
        })
    }
}

// Where the first file is blank, and has so many bytes.
fn beside_blank(one: FileLook, zero_len: u64) -> Result<Standing, NotAStoreAt>
    ensures { (z o : List ℕ) → look z ≡ IsBlank → IsSeen o Second one → zero_len ≡ length z → IsPlaced z o result }
{
    match one {
        FileLook::Faulty(at) => Err(NotAStoreAt {
            side: Side::One,
            at,
        }),
        FileLook::Live(header, scan) => Ok(Some((header, scan))),
        FileLook::Blank => {
            if zero_len <= BLANK_MOST_BYTES {
                Ok(None)
            } else {
                Err(NotAStoreAt {
                    side: Side::Zero,
                    at: 0,
                })
            }
        }
    }
}

// Where the first file is live.
fn beside_live(zero: (Header, Scan), one: FileLook) -> Result<Standing, NotAStoreAt>
    ensures { (z o : List ℕ) → IsOpened z First zero.0 zero.1 → IsSeen o Second one → IsPlaced z o result }
{
    match one {
        FileLook::Faulty(at) => Err(NotAStoreAt {
            side: Side::One,
            at,
        }),
        FileLook::Live(header, scan) => the_greater(zero, (header, scan)),
        FileLook::Blank => Ok(Some(zero)),
    }
}

// The table: which of two files stands, the first of which has so many bytes.
fn stand(zero: FileLook, one: FileLook, zero_len: u64) -> Result<Standing, NotAStoreAt>
    ensures { (z o : List ℕ) → IsSeen z First zero → IsSeen o Second one → zero_len ≡ length z → IsPlaced z o result }
{
    match zero {
        FileLook::Faulty(at) => Err(NotAStoreAt {
            side: Side::Zero,
            at,
        }),
        FileLook::Live(header, scan) => beside_live((header, scan), one),
        FileLook::Blank => beside_blank(one, zero_len),
    }
}

// Syncs both files and looks at them, and tells the first file's length.
fn see_both<M: Home>(home: &mut M) -> Result<(FileLook, FileLook, u64), Failed>
    requires { IsOpen (M.opening home.old) }
    ensures reads { IsTrue M.tells → OnlyReads (M.past home.old) (M.past home.new) }
    ensures settles { IsTrue M.tells → OnOk result (Settles (M.past home.old) (M.past home.new)) }
    ensures seen { IsTrue M.tells → IfOk result (λ seen. IsSeen (now (M.past home.old) First).reads First seen.0 × IsSeen (now (M.past home.old) Second).reads Second seen.1 × (seen.2 ≡ length (now (M.past home.old) First).reads)) }
    ensures steady { OnOk result (M.counted home.new ≡ M.counted home.old) }
    ensures cause { OnErr result (HasRisen (M.counted home.old) (M.counted home.new)) }
    ensures opening { M.opening home.new ≡ M.opening home.old }
{
    let zero = see(home, Side::Zero)?;
    let one = see(home, Side::One)?;
    let zero_len = home.len(Side::Zero)?;
    Ok((zero, one, zero_len))
}

/// Syncs both files, and finds the one that stands.
pub fn find_standing<M: Home>(home: &mut M) -> Result<Standing, OpenFault>
    requires { IsOpen (M.opening home.old) }
    ensures reads { IsTrue M.tells → OnlyReads (M.past home.old) (M.past home.new) }
    ensures settles { IsTrue M.tells → (IsErrOf result FaultOfDisk → ⊥) → Settles (M.past home.old) (M.past home.new) }
    ensures stood { IsTrue M.tells → IsStood (now (M.past home.old) First).reads (now (M.past home.old) Second).reads result }
    ensures steady { (IsErrOf result FaultOfDisk → ⊥) → M.counted home.new ≡ M.counted home.old }
    ensures cause { IsErrOf result FaultOfDisk → HasRisen (M.counted home.old) (M.counted home.new) }
    ensures only { IfErr result IsStandingFault }
    ensures opening { M.opening home.new ≡ M.opening home.old }
{
    let (zero, one, zero_len) = see_both(home)?;
    match stand(zero, one, zero_len) {
        Ok(found) => Ok(found),
        Err(NotAStoreAt { side, at }) => Err(OpenFault::NotAStore { side, at }),
    }
}
