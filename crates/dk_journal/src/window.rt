//! Bytes of a file that are held in memory.
ghost use Rattle.std.specs.Prelude.{◌≡◌, ◌+◌, ◌≤◌, ℕ, List, length, take, drop, IfErr, OnOk, IsErrOf, IsTrue};
ghost use Rattle.dk_types.specs.Faults.{HasRisen};
ghost use Rattle.dk_disk.specs.Opening.{IsOpen};
ghost use Rattle.dk_disk.specs.DiskHistories.{now};
ghost use Rattle.dk_journal.specs.Moments.{Looks};
ghost use Rattle.dk_journal.specs.Windows.{IsWindowOf, Reaches, HasPayload, payload_of};
ghost use Rattle.dk_journal.specs.Refusals.{IsWindowFault};
ghost use Rattle.dk_journal.specs.declared.refused.JournalRefused.TheVariants.{DiskFault};

use crate::refused::JournalRefused;
use crate::scan::read;
use dk_disk::Home;
use dk_types::Side;
use std::alloc::Global;

/// So many bytes are read at once, where the file has them and no more are needed.
const WINDOW_BYTES: u64 = 65_536;

/// Bytes of one file from some place on, and where the payload that was read last lies among them. One call of the home
/// fills it for many records. It is of use while the file is as it was at `open`.
#[derive(Debug, Drop)]
pub struct Window {
    from: u64,
    bytes: Vec<u8>,
    start: usize,
    end: usize,
}

impl Window {
    /// A window with no bytes, which is one of any file. It takes no memory.
    pub fn new(alloc: Global) -> Window
        ensures { (file : List ℕ) → IsWindowOf result file }
    {
        Window {
            from: 0,
            bytes: Vec::new(alloc),
            start: 0,
            end: 0,
        }
    }

    /// The payload that was read last.
    pub fn payload(&self) -> &[u8]
        requires { HasPayload self.now }
        ensures { result.now ≡ payload_of self.now }
    {
        &self.bytes[self.start..self.end]
    }

    // Whether so many bytes from this place on are here.
    fn reaches(&self, at: u64, count: usize) -> bool
        ensures { IsTrue result → Reaches self.now at count }
    {
        let length = self.bytes.len() as u64;
        self.from <= at && at - self.from <= length && count as u64 <= length - (at - self.from)
    }

    // Reads so many bytes from this place on.
    fn fill<M: Home>(
        &mut self,
        home: &mut M,
        side: Side,
        at: u64,
        count: usize,
    ) -> Result<(), JournalRefused>
        requires is_open { IsOpen (M.opening home.old) }
        requires within { IsTrue M.tells → at + count ≤ length (now (M.past home.old) side).reads }
        requires window { IsTrue M.tells → IsWindowOf self.old (now (M.past home.old) side).reads }
        ensures reaches { OnOk result (Reaches self.new at count) }
        ensures window { IsTrue M.tells → IsWindowOf self.new (now (M.past home.old) side).reads }
        ensures cause { IsErrOf result DiskFault → HasRisen (M.counted home.old) (M.counted home.new) }
        ensures steady { (IsErrOf result DiskFault → ⊥) → M.counted home.new ≡ M.counted home.old }
        ensures only { IfErr result IsWindowFault }
        ensures looks { IsTrue M.tells → Looks (M.past home.old) (M.past home.new) }
        ensures opening { M.opening home.new ≡ M.opening home.old }
    {
        if self.bytes.resize(count, 0).is_err() {
            return Err(JournalRefused::NoMemory);
        }
        match read(home, side, at, &mut self.bytes) {
            Ok(()) => {
                self.from = at;
                Ok(())
            }
            Err(_) => {
                self.bytes.clear();
                Err(JournalRefused::DiskFault)
            }
        }
    }

    // Sees to it that so many bytes from this place on are here, of a file that ends at `end`.
    pub(crate) fn hold<M: Home>(
        &mut self,
        home: &mut M,
        side: Side,
        at: u64,
        end: u64,
        count: usize,
    ) -> Result<(), JournalRefused>
        requires is_open { IsOpen (M.opening home.old) }
        requires inside { at + count ≤ end }
        requires whole { IsTrue M.tells → end ≡ length (now (M.past home.old) side).reads }
        requires window { IsTrue M.tells → IsWindowOf self.old (now (M.past home.old) side).reads }
        ensures reaches { OnOk result (Reaches self.new at count) }
        ensures window { IsTrue M.tells → IsWindowOf self.new (now (M.past home.old) side).reads }
        ensures cause { IsErrOf result DiskFault → HasRisen (M.counted home.old) (M.counted home.new) }
        ensures steady { (IsErrOf result DiskFault → ⊥) → M.counted home.new ≡ M.counted home.old }
        ensures only { IfErr result IsWindowFault }
        ensures looks { IsTrue M.tells → Looks (M.past home.old) (M.past home.new) }
        ensures opening { M.opening home.new ≡ M.opening home.old }
    {
        if self.reaches(at, count) {
            return Ok(());
        }
        let most = (end - at).min(WINDOW_BYTES);
        self.fill(home, side, at, count.max(most as usize))
    }

    // So many bytes from this place on, which are here.
    pub(crate) fn part(&self, at: u64, count: usize) -> &[u8]
        requires { Reaches self.now at count }
        ensures bytes { (file : List ℕ) → IsWindowOf self.now file → result.now ≡ take count (drop at file) }
        ensures count { length result.now ≡ count }
    {
        let start = (at - self.from) as usize;
        &self.bytes[start..start + count]
    }

    // Has so many bytes from this place on, which are here, as the payload.
    pub(crate) fn mark(&mut self, at: u64, count: usize)
        requires { Reaches self.old at count }
        ensures window { (file : List ℕ) → IsWindowOf self.old file → IsWindowOf self.new file }
        ensures payload { (file : List ℕ) → IsWindowOf self.old file → payload_of self.new ≡ take count (drop at file) }
        ensures there { HasPayload self.new }
    {
        self.start = (at - self.from) as usize;
        self.end = self.start + count;
    }
}
