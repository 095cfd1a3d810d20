//! The journal that stands on one file of a home.
ghost use Rattle.std.specs.Prelude.{◌≡◌, ◌+◌, ◌<◌, ◌≤◌, ◌^◌, ◌↔◌, ℕ, min, List, [], ◌∷◌, ◌++◌, length, OnOk, OnErr, IfErr, IsErrOf, IsTrue};
ghost use Rattle.dk_types.specs.Faults.{HasRisen, COUNT_END};
ghost use Rattle.dk_types.specs.declared.limits.TheConstants.{NUMBERS_END};
ghost use Rattle.dk_disk.specs.Opening.{IsOpen};
ghost use Rattle.dk_journal.specs.Moments.{Runs, HasOrNot, NeverFalls};
ghost use Rattle.dk_journal.specs.Standing.{Stands, IsAtRest};
ghost use Rattle.dk_journal.specs.Refusals.{IsAppendFault};
ghost use Rattle.dk_journal.specs.declared.refused.JournalRefused.TheVariants.{DiskFault, Full};

use crate::header::FORMAT;
use crate::refused::JournalRefused;
use crate::writing::put_record;
use dk_disk::Home;
use dk_types::limits::JOURNAL_MOST_BYTES;
use dk_types::{Blob, Side};

/// A journal by its side, its header's epoch and format, and its length: the place right behind its closed gate.
#[derive(Debug, Drop)]
pub struct Journal {
    side: Side,
    epoch: u64,
    format: u16,
    length: u64,
    ghost least: { 65 ≤ length },
}

impl Journal {
    /// The journal of a file that was just written, in the format that is written.
    pub fn standing(side: Side, epoch: u64, length: u64) -> Journal
        requires length { (65 ≤ length) × (length ≤ 2 ^ 40) }
        requires epoch { epoch < NUMBERS_END }
        ensures side { result.side ≡ side }
        ensures header { (result.epoch ≡ epoch) × (result.format ≡ 2) }
        ensures length { result.length ≡ length }
    {
        Journal {
            side,
            epoch,
            format: FORMAT,
            length,
        }
    }

    // The journal that was read in a file.
    pub(crate) fn found(side: Side, epoch: u64, format: u16, length: u64) -> Journal
        requires { 65 ≤ length }
        ensures side { result.side ≡ side }
        ensures header { (result.epoch ≡ epoch) × (result.format ≡ format) }
        ensures length { result.length ≡ length }
    {
        Journal {
            side,
            epoch,
            format,
            length,
        }
    }

    /// The place right behind the closed gate.
    pub fn length(&self) -> u64
        ensures { result ≡ self.now.length }
    {
        self.length
    }

    /// How often the store was written anew.
    pub fn epoch(&self) -> u64
        ensures { result ≡ self.now.epoch }
    {
        self.epoch
    }

    /// The format of the payloads.
    pub fn format(&self) -> u16
        ensures { result ≡ self.now.format }
    {
        self.format
    }

    /// Puts a payload last, without memory. At `Ok` it is acknowledged: from then on each stop leaves it. After
    /// `DiskFault` the file is to be opened again.
    pub fn append<M: Home>(&mut self, home: &mut M, payload: &Blob) -> Result<(), JournalRefused>
        requires is_open { IsOpen (M.opening home.old) }
        requires size { length payload.now < 2 ^ 32 }
        requires format { self.old.format ≡ 2 }
        requires at_rest { IsTrue M.tells → IsAtRest self.old.side self.old.length (M.past home.old) }

        // At each moment of the call each image has the payloads from before it, with the new one or without, and what the images hold does not fall.
        ensures run { IsTrue M.tells → (header : List ℕ) (payloads : List (List ℕ)) → Stands self.old.side self.old.length (M.past home.old) header payloads → Runs self.old.side (HasOrNot header payloads payload.now) (M.past home.old) (M.past home.new) }
        ensures falls { IsTrue M.tells → (header : List ℕ) (payloads : List (List ℕ)) → Stands self.old.side self.old.length (M.past home.old) header payloads → NeverFalls header self.old.side (M.past home.old).clock (M.past home.new) }

        ensures acknowledged { IsTrue M.tells → OnOk result ((header : List ℕ) (payloads : List (List ℕ)) → Stands self.old.side self.old.length (M.past home.old) header payloads → Stands self.new.side self.new.length (M.past home.new) header (payloads ++ payload.now ∷ [])) }
        ensures rests { IsTrue M.tells → OnOk result (IsAtRest self.new.side self.new.length (M.past home.new)) }
        ensures length { OnOk result (self.new.length ≡ self.old.length + 5 + length payload.now) }
        ensures header { (self.new.side ≡ self.old.side) × (self.new.epoch ≡ self.old.epoch) × (self.new.format ≡ self.old.format) }

        // An error has a cause, and leaves the journal.
        ensures full { (n : ℕ) → IsErrOf result (Full n) ↔ ((n ≡ min (self.old.length + (5 + length payload.now)) COUNT_END) × (2 ^ 40 < n)) }
        ensures untouched { (n : ℕ) → IsErrOf result (Full n) → home.new ≡ home.old }
        ensures cause { IsErrOf result DiskFault → HasRisen (M.counted home.old) (M.counted home.new) }
        ensures steady { OnOk result (M.counted home.new ≡ M.counted home.old) }
        ensures only { IfErr result IsAppendFault }
        ensures refused { OnErr result (self.new ≡ self.old) }
        ensures opening { M.opening home.new ≡ M.opening home.old }
    {
        let bytes = payload.as_slice();
        let length = self.length.saturating_add(5 + bytes.len() as u64);
        if length > JOURNAL_MOST_BYTES {
            return Err(JournalRefused::Full { length });
        }
        match put_record(home, self.side, self.length, bytes) {
            Ok(()) => {
                self.length = length;
                Ok(())
            }
            Err(_) => Err(JournalRefused::DiskFault),
        }
    }
}
