//! The entries of some numbers, found among all that come by.
ghost use Rattle.std.specs.Prelude.{◌≡◌, ◌+◌, ℕ, [], ◌∷◌, ◌++◌, length, OnOk, IfErr, IsErrOf};
ghost use Rattle.dk_commit_log.specs.Ranges.{AreNumbered, between};
ghost use Rattle.dk_commit_log.specs.Refusals.{IsOfRecord};
ghost use Rattle.dk_commit_log.specs.declared.refused.LogRefused.TheVariants.{Damaged as DamagedAt};

use crate::refused::LogRefused;
use dk_types::{Entry, Listed};
use std::alloc::Global;

/// The entries of the commits after the one of a number, up to the last, among those that came by.
#[derive(Drop)]
pub(crate) struct Found {
    // The number of the commit that came by last.
    pub(crate) seen: u64,
    pub(crate) after: u64,
    pub(crate) last: u64,
    pub(crate) entries: Vec<Entry>,
}

impl Found {
    // Nothing came by but what is before.
    pub(crate) fn new(alloc: Global, before: u64, after: u64, last: u64) -> Found
        ensures range { (result.seen ≡ before) × (result.after ≡ after) × (result.last ≡ last) }
        ensures none { result.entries.items ≡ [] }
    {
        Found {
            seen: before,
            after,
            last,
            entries: Vec::new(alloc),
        }
    }

    // The next entry, of a record at this place.
    fn take_one(&mut self, entry: Entry, at: u64) -> Result<(), LogRefused>
        ensures range { (self.new.after ≡ self.old.after) × (self.new.last ≡ self.old.last) }
        ensures next { OnOk result ((entry.seq ≡ self.old.seen + 1) × (self.new.seen ≡ entry.seq)) }
        ensures kept { OnOk result (self.new.entries.items ≡ self.old.entries.items ++ between self.old.after self.old.last (entry ∷ [])) }
        ensures damaged { (place : ℕ) → IsErrOf result (DamagedAt place) → entry.seq ≡ self.old.seen + 1 → ⊥ }
        ensures only { IfErr result IsOfRecord }
    {
        if entry.seq == 0 || entry.seq - 1 != self.seen {
            return Err(LogRefused::Damaged { at });
        }
        self.seen = entry.seq;
        if self.after < entry.seq && entry.seq <= self.last && self.entries.push(entry).is_err() {
            return Err(LogRefused::NoMemory);
        }
        Ok(())
    }

    // The entries of the next record, which lies at this place.
    pub(crate) fn take(&mut self, entries: Listed<Entry>, at: u64) -> Result<(), LogRefused>
        ensures range { (self.new.after ≡ self.old.after) × (self.new.last ≡ self.old.last) }
        ensures next { OnOk result (AreNumbered (self.old.seen + 1) entries × (self.new.seen ≡ self.old.seen + length entries)) }
        ensures kept { OnOk result (self.new.entries.items ≡ self.old.entries.items ++ between self.old.after self.old.last entries) }
        ensures damaged { (place : ℕ) → IsErrOf result (DamagedAt place) → AreNumbered (self.old.seen + 1) entries → ⊥ }
        ensures only { IfErr result IsOfRecord }
    {
        'each: for entry in entries.into_vec() {
            self.take_one(entry, at)?;
        }
        Ok(())
    }
}
