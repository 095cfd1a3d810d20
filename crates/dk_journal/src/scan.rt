//! Reading a journal's payloads back.
ghost use Rattle.std.specs.Prelude.{◌≡◌, ◌+◌, ◌<◌, ◌≤◌, ◌^◌, ℕ, List, [], ◌∷◌, ◌++◌, length, take, drop, Ok, None, IfOk, OnOk, OnErr, IfErr, IsErrOf, IfSome, IsTrue, true, false};
ghost use Rattle.dk_types.specs.Faults.{HasRisen};
ghost use Rattle.dk_disk.specs.Opening.{IsOpen};
ghost use Rattle.dk_disk.specs.DiskHistories.{now, Stays};
ghost use Rattle.dk_types.specs.Fields.{u32_spelling};
ghost use Rattle.dk_model.specs.Entries.{IsFormat};
ghost use Rattle.dk_model.specs.Stores.{Reads};
ghost use Rattle.dk_journal.specs.Moments.{Looks};
ghost use Rattle.dk_journal.specs.Scanning.{IsScanned, IsCutOff};
ghost use Rattle.dk_journal.specs.Windows.{IsWindowOf, HasPayload, payload_of};
ghost use Rattle.dk_journal.specs.Refusals.{IsScanFault};
ghost use Rattle.dk_journal.specs.declared.refused.JournalRefused.TheVariants.{DiskFault, Damaged};

use crate::journal::Journal;
use crate::refused::JournalRefused;
use crate::window::Window;
use byteorder::{BigEndian, ByteOrder};
use dk_disk::Home;
use dk_types::{Blob, Failed, Side};
use std::alloc::Global;

/// How far a file was read: the place of the next gate, and the file's length.
#[derive(Debug, Drop)]
pub struct Scan {
    side: Side,
    at: u64,
    end: u64,
    epoch: u64,
    format: u16,
    ghost known: { (1 ≤ format) × (format ≤ 2) },
    ghost first: { 64 ≤ at },
    ghost inside: { at < end },
}

impl From<Failed> for JournalRefused {
    ghost from_gives = { λ failed refused. refused ≡ DiskFault };

    fn from(_: Failed) -> Self {
        JournalRefused::DiskFault
    }
}

// Fills `into` from this place on.
pub(crate) fn read<M: Home>(
    home: &mut M,
    side: Side,
    at: u64,
    into: &mut [u8],
) -> Result<(), Failed>
    requires is_open { IsOpen (M.opening home.old) }
    requires within { IsTrue M.tells → at + length into.old ≤ length (now (M.past home.old) side).reads }
    ensures bytes { IsTrue M.tells → OnOk result (into.new ≡ take (length into.old) (drop at (now (M.past home.old) side).reads)) }
    ensures files { IsTrue M.tells → Stays (M.past home.old) (M.past home.new) }
    ensures looks { IsTrue M.tells → Looks (M.past home.old) (M.past home.new) }
    ensures opening { M.opening home.new ≡ M.opening home.old }
    ensures steady { OnOk result (M.counted home.new ≡ M.counted home.old) }
    ensures cause { OnErr result (HasRisen (M.counted home.old) (M.counted home.new)) }
{
    home.read(side, at, into)
}

// The byte at this place.
pub(crate) fn byte_at<M: Home>(home: &mut M, side: Side, at: u64) -> Result<u8, Failed>
    requires is_open { IsOpen (M.opening home.old) }
    requires within { IsTrue M.tells → at < length (now (M.past home.old) side).reads }
    ensures byte { IsTrue M.tells → IfOk result (λ b. b ∷ [] ≡ take 1 (drop at (now (M.past home.old) side).reads)) }
    ensures files { IsTrue M.tells → Stays (M.past home.old) (M.past home.new) }
    ensures looks { IsTrue M.tells → Looks (M.past home.old) (M.past home.new) }
    ensures opening { M.opening home.new ≡ M.opening home.old }
    ensures steady { OnOk result (M.counted home.new ≡ M.counted home.old) }
    ensures cause { OnErr result (HasRisen (M.counted home.old) (M.counted home.new)) }
{
    let mut byte = [0u8; 1];
    read(home, side, at, &mut byte)?;
    Ok(byte[0])
}

// The number that these four bytes spell.
fn number_of(field: &[u8]) -> u32
    requires { length field.now ≡ 4 }
    ensures { u32_spelling result ≡ field.now }
{
    BigEndian::read_u32(field)
}

// The number of four bytes at this place.
fn size_at<M: Home>(home: &mut M, side: Side, at: u64) -> Result<u32, Failed>
    requires is_open { IsOpen (M.opening home.old) }
    requires within { IsTrue M.tells → at + 4 ≤ length (now (M.past home.old) side).reads }
    ensures size { IsTrue M.tells → IfOk result (λ n. u32_spelling n ≡ take 4 (drop at (now (M.past home.old) side).reads)) }
    ensures files { IsTrue M.tells → Stays (M.past home.old) (M.past home.new) }
    ensures looks { IsTrue M.tells → Looks (M.past home.old) (M.past home.new) }
    ensures opening { M.opening home.new ≡ M.opening home.old }
    ensures steady { OnOk result (M.counted home.new ≡ M.counted home.old) }
    ensures cause { OnErr result (HasRisen (M.counted home.old) (M.counted home.new)) }
{
    let mut field = [0u8; 4];
    read(home, side, at, &mut field)?;
    Ok(number_of(&field))
}

// So many bytes from this place on, into memory that there is.
fn bytes_at<M: Home>(mut bytes: Vec<u8>, home: &mut M, side: Side, at: u64) -> Result<Blob, Failed>
    requires is_open { IsOpen (M.opening home.old) }
    requires within { IsTrue M.tells → at + length bytes.items ≤ length (now (M.past home.old) side).reads }
    ensures bytes { IsTrue M.tells → IfOk result (λ b. b ≡ take (length bytes.items) (drop at (now (M.past home.old) side).reads)) }
    ensures files { IsTrue M.tells → Stays (M.past home.old) (M.past home.new) }
    ensures looks { IsTrue M.tells → Looks (M.past home.old) (M.past home.new) }
    ensures opening { M.opening home.new ≡ M.opening home.old }
    ensures steady { OnOk result (M.counted home.new ≡ M.counted home.old) }
    ensures cause { OnErr result (HasRisen (M.counted home.old) (M.counted home.new)) }
{
    read(home, side, at, &mut bytes)?;
    Ok(Blob::from_vec(bytes))
}

impl Scan {
    // At the first gate of a file of this length, behind a header of this epoch and format.
    pub(crate) fn first(side: Side, end: u64, epoch: u64, format: u16) -> Scan
        requires behind { 64 < end }
        requires known { (1 ≤ format) × (format ≤ 2) }
        ensures place { (result.at ≡ 64) × (result.end ≡ end) }
        ensures header { (result.side ≡ side) × (result.epoch ≡ epoch) × (result.format ≡ format) }
    {
        Scan {
            side,
            at: 64,
            end,
            epoch,
            format,
        }
    }

    /// The place of the next gate.
    pub fn at(&self) -> u64
        ensures { result ≡ self.now.at }
    {
        self.at
    }

    /// The file that is read.
    pub fn side(&self) -> Side
        ensures { result ≡ self.now.side }
    {
        self.side
    }

    /// The format of the payloads, one that is read.
    pub fn format(&self) -> u16
        ensures value { result ≡ self.now.format }
        ensures known { IsFormat result }
    {
        self.format
    }

    /// The next payload, or `None` at the gate that ends the journal. It is called while the file is as it was at
    /// `open`. A refusal leaves the scan.
    pub fn next<M: Home>(
        &mut self,
        alloc: Global,
        home: &mut M,
    ) -> Result<Option<Blob>, JournalRefused>
        requires is_open { IsOpen (M.opening home.old) }
        requires whole { IsTrue M.tells → self.old.end ≡ length (now (M.past home.old) self.old.side).reads }
        ensures some { IsTrue M.tells → IfOk result (λ next. IfSome next (λ payload. (header : List ℕ) (done : List (List ℕ)) → IsScanned (now (M.past home.old) self.old.side).reads header done self.old.at self.old.end → IsScanned (now (M.past home.old) self.old.side).reads header (done ++ payload ∷ []) self.new.at self.new.end)) }
        ensures none { IsTrue M.tells → result ≡ Ok None → (header : List ℕ) (done : List (List ℕ)) → IsScanned (now (M.past home.old) self.old.side).reads header done self.old.at self.old.end → Reads (now (M.past home.old) self.old.side).reads header done }
        ensures ended { result ≡ Ok None → self.new ≡ self.old }
        ensures further { IfOk result (λ next. IfSome next (λ payload. self.old.at < self.new.at)) }
        ensures same { (self.new.side ≡ self.old.side) × (self.new.end ≡ self.old.end) × (self.new.epoch ≡ self.old.epoch) × (self.new.format ≡ self.old.format) }

        // An error has a cause, and leaves the scan.
        ensures damaged { IsTrue M.tells → (at : ℕ) → IsErrOf result (Damaged at) → (at ≡ self.old.at) × IsCutOff (now (M.past home.old) self.old.side).reads at }
        ensures cause { IsErrOf result DiskFault → HasRisen (M.counted home.old) (M.counted home.new) }
        ensures steady { (IsErrOf result DiskFault → ⊥) → M.counted home.new ≡ M.counted home.old }
        ensures only { IfErr result IsScanFault }
        ensures refused { OnErr result (self.new ≡ self.old) }
        ensures looks { IsTrue M.tells → Looks (M.past home.old) (M.past home.new) }
        ensures opening { M.opening home.new ≡ M.opening home.old }
    {
        let gate = byte_at(home, self.side, self.at)?;
        if gate != 1 {
            return Ok(None);
        }
        if self.end - self.at < 6 {
            return Err(JournalRefused::Damaged { at: self.at });
        }
        let size = size_at(home, self.side, self.at + 1)?;
        if self.end - self.at - 6 < u64::from(size) {
            return Err(JournalRefused::Damaged { at: self.at });
        }
        let Ok(bytes) = Vec::from_elem(alloc, 0u8, size as usize) else {
            return Err(JournalRefused::NoMemory);
        };
        let payload = bytes_at(bytes, home, self.side, self.at + 5)?;
        self.at += 5 + u64::from(size);
        Ok(Some(payload))
    }

    /// Reads the next payload into a window, or answers `false` at the gate that ends the journal. It is called while the
    /// file is as it was at `open`, with a window of that file. A refusal leaves the scan.
    pub fn next_in<M: Home>(
        &mut self,
        home: &mut M,
        window: &mut Window,
    ) -> Result<bool, JournalRefused>
        requires is_open { IsOpen (M.opening home.old) }
        requires whole { IsTrue M.tells → self.old.end ≡ length (now (M.past home.old) self.old.side).reads }
        requires window { IsTrue M.tells → IsWindowOf window.old (now (M.past home.old) self.old.side).reads }
        ensures some { IsTrue M.tells → result ≡ Ok true → (header : List ℕ) (done : List (List ℕ)) → IsScanned (now (M.past home.old) self.old.side).reads header done self.old.at self.old.end → IsScanned (now (M.past home.old) self.old.side).reads header (done ++ payload_of window.new ∷ []) self.new.at self.new.end }
        ensures none { IsTrue M.tells → result ≡ Ok false → (header : List ℕ) (done : List (List ℕ)) → IsScanned (now (M.past home.old) self.old.side).reads header done self.old.at self.old.end → Reads (now (M.past home.old) self.old.side).reads header done }
        ensures ended { result ≡ Ok false → self.new ≡ self.old }
        ensures further { result ≡ Ok true → self.old.at < self.new.at }
        ensures same { (self.new.side ≡ self.old.side) × (self.new.end ≡ self.old.end) × (self.new.epoch ≡ self.old.epoch) × (self.new.format ≡ self.old.format) }
        ensures there { result ≡ Ok true → HasPayload window.new }
        ensures window { IsTrue M.tells → IsWindowOf window.new (now (M.past home.old) self.old.side).reads }

        // An error has a cause, and leaves the scan.
        ensures damaged { IsTrue M.tells → (at : ℕ) → IsErrOf result (Damaged at) → (at ≡ self.old.at) × IsCutOff (now (M.past home.old) self.old.side).reads at }
        ensures cause { IsErrOf result DiskFault → HasRisen (M.counted home.old) (M.counted home.new) }
        ensures steady { (IsErrOf result DiskFault → ⊥) → M.counted home.new ≡ M.counted home.old }
        ensures only { IfErr result IsScanFault }
        ensures refused { OnErr result (self.new ≡ self.old) }
        ensures looks { IsTrue M.tells → Looks (M.past home.old) (M.past home.new) }
        ensures opening { M.opening home.new ≡ M.opening home.old }
    {
        window.hold(home, self.side, self.at, self.end, 1)?;
        if window.part(self.at, 1)[0] != 1 {
            return Ok(false);
        }
        if self.end - self.at < 6 {
            return Err(JournalRefused::Damaged { at: self.at });
        }
        window.hold(home, self.side, self.at + 1, self.end, 4)?;
        let size = number_of(window.part(self.at + 1, 4));
        if self.end - self.at - 6 < u64::from(size) {
            return Err(JournalRefused::Damaged { at: self.at });
        }
        window.hold(home, self.side, self.at + 5, self.end, size as usize)?;
        window.mark(self.at + 5, size as usize);
        self.at += 5 + u64::from(size);
        Ok(true)
    }

    /// The journal that the scan has come to the end of: for a scan that answered `None` or `false`.
    pub fn journal(self) -> Journal
        ensures length { result.length ≡ self.at + 1 }
        ensures header { (result.side ≡ self.side) × (result.epoch ≡ self.epoch) × (result.format ≡ self.format) }
    {
        let Scan {
            side,
            at,
            end: _,
            epoch,
            format,
        } = self;
        Journal::found(side, epoch, format, at + 1)
    }
}
