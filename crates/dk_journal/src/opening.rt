//! Opening a file that may be a journal.
ghost use Rattle.std.specs.Prelude.{◌≡◌, ℕ, None, Ok, length, IfOk, IfErr, IfSome, OnOk, OnErr, IsErrOf, IsTrue};
ghost use Rattle.dk_types.specs.Faults.{HasRisen};
ghost use Rattle.dk_disk.specs.Disk.{settled};
ghost use Rattle.dk_disk.specs.Opening.{IsOpen};
ghost use Rattle.dk_disk.specs.DiskHistories.{now, Stays};
ghost use Rattle.dk_model.specs.Stores.{look, Blank, Faulty};
ghost use Rattle.dk_journal.specs.Moments.{Runs, Looks, IsAsRead};
ghost use Rattle.dk_journal.specs.Opened.{IsOpened};
ghost use Rattle.dk_journal.specs.Refusals.{IsOpenFault};
ghost use Rattle.dk_journal.specs.declared.refused.JournalRefused.TheVariants.{DiskFault, NotAStore};

use crate::header::{Header, header_of};
use crate::refused::JournalRefused;
use crate::scan::{Scan, byte_at, read};
use dk_disk::Home;
use dk_types::{Failed, Side};

// Syncs a file, and gives its length.
fn settle<M: Home>(home: &mut M, side: Side) -> Result<u64, Failed>
    requires { IsOpen (M.opening home.old) }
    ensures run { IsTrue M.tells → Runs side (IsAsRead (now (M.past home.old) side)) (M.past home.old) (M.past home.new) }
    ensures done { IsTrue M.tells → IfOk result (λ n. (now (M.past home.new) side ≡ settled (now (M.past home.old) side).reads) × (n ≡ length (now (M.past home.old) side).reads)) }
    ensures opening { M.opening home.new ≡ M.opening home.old }
    ensures steady { OnOk result (M.counted home.new ≡ M.counted home.old) }
    ensures cause { OnErr result (HasRisen (M.counted home.old) (M.counted home.new)) }
{
    home.sync(side)?;
    home.len(side)
}

// What a file of this length is.
fn look_at<M: Home>(
    home: &mut M,
    side: Side,
    end: u64,
) -> Result<Option<(Header, Scan)>, JournalRefused>
    requires is_open { IsOpen (M.opening home.old) }
    requires whole { IsTrue M.tells → end ≡ length (now (M.past home.old) side).reads }
    ensures blank { IsTrue M.tells → result ≡ Ok None → look (now (M.past home.old) side).reads ≡ Blank }
    ensures live { IsTrue M.tells → IfOk result (λ found. IfSome found (λ both. IsOpened (now (M.past home.old) side).reads side both.0 both.1)) }
    ensures fault { IsTrue M.tells → (at : ℕ) → IsErrOf result (NotAStore at) → look (now (M.past home.old) side).reads ≡ Faulty at }
    ensures looks { IsTrue M.tells → Looks (M.past home.old) (M.past home.new) }
    ensures cause { IsErrOf result DiskFault → HasRisen (M.counted home.old) (M.counted home.new) }
    ensures steady { (IsErrOf result DiskFault → ⊥) → M.counted home.new ≡ M.counted home.old }
    ensures only { IfErr result IsOpenFault }
    ensures opening { M.opening home.new ≡ M.opening home.old }
{
    if end <= 1 {
        return Ok(None);
    }
    let gate = byte_at(home, side, 0)?;
    if gate != 1 {
        return Ok(None);
    }
    if end < 65 {
        return Err(JournalRefused::NotAStore { at: 0 });
    }
    let mut bytes = [0u8; 64];
    read(home, side, 0, &mut bytes)?;
    match header_of(&bytes) {
        Ok(header) => {
            let scan = Scan::first(side, end, header.epoch, header.format);
            Ok(Some((header, scan)))
        }
        Err(at) => Err(JournalRefused::NotAStore { at }),
    }
}

/// Syncs a file, and looks whether it is a journal: its header, and a scan at its first gate. `None` where it is blank.
pub fn open<M: Home>(home: &mut M, side: Side) -> Result<Option<(Header, Scan)>, JournalRefused>
    requires { IsOpen (M.opening home.old) }
    ensures run { IsTrue M.tells → Runs side (IsAsRead (now (M.past home.old) side)) (M.past home.old) (M.past home.new) }
    ensures settled { IsTrue M.tells → (IsErrOf result DiskFault → ⊥) → now (M.past home.new) side ≡ settled (now (M.past home.old) side).reads }

    // Which answer it is, the bytes alone decide.
    ensures blank { IsTrue M.tells → result ≡ Ok None → look (now (M.past home.old) side).reads ≡ Blank }
    ensures live { IsTrue M.tells → IfOk result (λ found. IfSome found (λ both. IsOpened (now (M.past home.old) side).reads side both.0 both.1)) }
    ensures fault { IsTrue M.tells → (at : ℕ) → IsErrOf result (NotAStore at) → look (now (M.past home.old) side).reads ≡ Faulty at }

    ensures cause { IsErrOf result DiskFault → HasRisen (M.counted home.old) (M.counted home.new) }
    ensures steady { (IsErrOf result DiskFault → ⊥) → M.counted home.new ≡ M.counted home.old }
    ensures only { IfErr result IsOpenFault }
    ensures opening { M.opening home.new ≡ M.opening home.old }
{
    let end = settle(home, side)?;
    look_at(home, side, end)
}
