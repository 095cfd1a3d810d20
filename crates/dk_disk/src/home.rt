//! The two files of a store, as the layers above see them.
ghost use Rattle.std.specs.Prelude.{◌≡◌, ◌⊎◌, ◌+◌, ◌≤◌, ℕ, Bool, List, length, take, drop, IfOk, OnOk, OnErr, IsTrue};
ghost use Rattle.dk_types.specs.Faults.{HasRisen, COUNT_END};
ghost use Rattle.dk_disk.specs.Disk.{IsImage, after_write, after_failed_write, after_cut, after_failed_cut, after_sync};
ghost use Rattle.dk_disk.specs.Opening.{Opening, NotCalled, Refused, Opened, IsOpen};
ghost use Rattle.dk_disk.specs.DiskHistories.{DiskHistory, now, Elapses, Stays, Becomes, MayBecome};

use dk_types::{Failed, Side};

/// A device with two files. A call that answers `Failed` raised the count of faults, and the call that
/// failed counts as made or not until that file is synced.
pub trait Home {
    /// The home tells its content, so that what it does to its files can be cited.
    ghost tells: { Bool };

    /// Whether `open` was called, what came of it, and the folder.
    ghost opening: { Self → Opening };

    /// The moment, and what a read gives and a stop may leave at every moment so far.
    ghost past: { Self → DiskHistory };

    /// The count of faults. It never falls, and stays at 2^64 - 1.
    ghost counted: { Self → ℕ };

    /// Makes the files ready that lie in this folder. Called once.
    fn open(&mut self, dir: &str) -> Result<(), Failed>
        requires { opening self.old ≡ NotCalled }
        ensures opened { OnOk result (opening self.new ≡ Opened dir.now) }
        ensures refused { OnErr result ((opening self.new ≡ NotCalled) ⊎ (opening self.new ≡ Refused dir.now)) }
        ensures files { IsTrue tells → Stays (past self.old) (past self.new) }
        ensures time { IsTrue tells → Elapses (past self.old) (past self.new) }
        ensures steady { OnOk result (counted self.new ≡ counted self.old) }
        ensures cause { OnErr result (HasRisen (counted self.old) (counted self.new)) }
        ensures most { counted self.new ≤ COUNT_END };

    /// The length of a file, in bytes.
    fn len(&mut self, side: Side) -> Result<u64, Failed>
        requires { IsOpen (opening self.old) }
        ensures length { IsTrue tells → IfOk result (λ n. n ≡ length (now (past self.old) side).reads) }
        ensures files { IsTrue tells → Stays (past self.old) (past self.new) }
        ensures time { IsTrue tells → Elapses (past self.old) (past self.new) }
        ensures opening { opening self.new ≡ opening self.old }
        ensures steady { OnOk result (counted self.new ≡ counted self.old) }
        ensures cause { OnErr result (HasRisen (counted self.old) (counted self.new)) }
        ensures most { counted self.new ≤ COUNT_END };

    /// Fills `into` with the bytes from this place on. They lie within the file.
    fn read(&mut self, side: Side, at: u64, into: &mut [u8]) -> Result<(), Failed>
        requires is_open { IsOpen (opening self.old) }
        requires within { IsTrue tells → at + length into.old ≤ length (now (past self.old) side).reads }
        ensures bytes { IsTrue tells → OnOk result (into.new ≡ take (length into.old) (drop at (now (past self.old) side).reads)) }
        ensures files { IsTrue tells → Stays (past self.old) (past self.new) }
        ensures time { IsTrue tells → Elapses (past self.old) (past self.new) }
        ensures opening { opening self.new ≡ opening self.old }
        ensures steady { OnOk result (counted self.new ≡ counted self.old) }
        ensures cause { OnErr result (HasRisen (counted self.old) (counted self.new)) }
        ensures most { counted self.new ≤ COUNT_END };

    /// Writes the bytes from this place on, over what is there and past the end. The place leaves no gap.
    fn write_at(&mut self, side: Side, at: u64, bytes: &[u8]) -> Result<(), Failed>
        requires is_open { IsOpen (opening self.old) }
        requires no_gap { IsTrue tells → at ≤ length (now (past self.old) side).reads }
        ensures written { IsTrue tells → OnOk result (Becomes side (after_write at bytes.now (now (past self.old) side)) (past self.old) (past self.new)) }
        ensures failed { IsTrue tells → OnErr result (MayBecome side (after_failed_write at (length bytes.now) (now (past self.old) side)) (after_write at bytes.now (now (past self.old) side)) (past self.old) (past self.new)) }
        ensures time { IsTrue tells → Elapses (past self.old) (past self.new) }
        ensures opening { opening self.new ≡ opening self.old }
        ensures steady { OnOk result (counted self.new ≡ counted self.old) }
        ensures cause { OnErr result (HasRisen (counted self.old) (counted self.new)) }
        ensures most { counted self.new ≤ COUNT_END };

    /// Cuts the file to this length, which is at most its own.
    fn cut(&mut self, side: Side, to: u64) -> Result<(), Failed>
        requires is_open { IsOpen (opening self.old) }
        requires no_longer { IsTrue tells → to ≤ length (now (past self.old) side).reads }
        ensures cut { IsTrue tells → OnOk result (Becomes side (after_cut to (now (past self.old) side)) (past self.old) (past self.new)) }
        ensures failed { IsTrue tells → OnErr result (MayBecome side (after_failed_cut to (now (past self.old) side)) (after_cut to (now (past self.old) side)) (past self.old) (past self.new)) }
        ensures time { IsTrue tells → Elapses (past self.old) (past self.new) }
        ensures opening { opening self.new ≡ opening self.old }
        ensures steady { OnOk result (counted self.new ≡ counted self.old) }
        ensures cause { OnErr result (HasRisen (counted self.old) (counted self.new)) }
        ensures most { counted self.new ≤ COUNT_END };

    /// After it, a stop leaves of this file what a read gives.
    fn sync(&mut self, side: Side) -> Result<(), Failed>
        requires { IsOpen (opening self.old) }
        ensures synced { IsTrue tells → OnOk result (Becomes side (after_sync (now (past self.old) side)) (past self.old) (past self.new)) }
        ensures only { IsTrue tells → OnOk result ((image : List ℕ) → IsImage (now (past self.new) side) image → image ≡ (now (past self.old) side).reads) }
        ensures failed { IsTrue tells → OnErr result (Stays (past self.old) (past self.new)) }
        ensures time { IsTrue tells → Elapses (past self.old) (past self.new) }
        ensures opening { opening self.new ≡ opening self.old }
        ensures steady { OnOk result (counted self.new ≡ counted self.old) }
        ensures cause { OnErr result (HasRisen (counted self.old) (counted self.new)) }
        ensures most { counted self.new ≤ COUNT_END };

    /// How often the home has failed.
    fn faults(&self) -> u64
        ensures { result ≡ counted self.now };
}
