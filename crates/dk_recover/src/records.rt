//! Reading the records of a file, one at a time.
ghost use Rattle.std.specs.Prelude.{◌≡◌, ◌<◌, ℕ, List, [], length, IfOk, IsErrOf, IsTrue, true, false};
ghost use Rattle.dk_types.specs.Faults.{HasRisen};
ghost use Rattle.dk_disk.specs.Opening.{IsOpen};
ghost use Rattle.dk_disk.specs.DiskHistories.{now};
ghost use Rattle.dk_model.specs.Entries.{IsFormat};
ghost use Rattle.dk_model.specs.Recovered.{HasWorld};
ghost use Rattle.dk_model.specs.Stores.{StoreHeader, header_spelling};
ghost use Rattle.dk_model.specs.Validity.{IsValid};
ghost use Rattle.dk_journal.specs.Moments.{Looks};
ghost use Rattle.dk_journal.specs.Scanning.{IsScanned};
ghost use Rattle.dk_journal.specs.Windows.{IsWindowOf};
ghost use Rattle.dk_recover.specs.Records.{IsStep, IsFirst, IsWhole, IsFaultOf};
ghost use Rattle.dk_recover.specs.declared.fault.OpenFault.TheVariants.{DiskFault as FaultOfDisk, Damaged as DamagedAt};

use crate::fault::OpenFault;
use crate::reading::{after_payload, world_of_image};
use crate::world::{Unfit, World};
use dk_disk::Home;
use dk_journal::{Journal, JournalRefused, Scan, Window};
use dk_types::Side;
use std::alloc::Global;

// What a scan's refusal is to one who opens the store.
fn fault_of(refused: JournalRefused, side: Side) -> OpenFault
    ensures { IsFaultOf refused side result }
{
    match refused {
        JournalRefused::Damaged { at } => OpenFault::Damaged { side, at },
        JournalRefused::NoMemory => OpenFault::NoMemory,
        _ => OpenFault::DiskFault,
    }
}

/// The world after the next record, which is read into a window of the file, and whether there was none. It is called
/// while the file is as it was at `open`, with the world of the records that the scan has read.
pub fn next_world<M: Home>(
    alloc: Global,
    home: &mut M,
    world: World,
    scan: &mut Scan,
    window: &mut Window,
    format: u16,
) -> Result<(World, bool), OpenFault>
    requires is_open { IsOpen (M.opening home.old) }
    requires whole { IsTrue M.tells → scan.old.end ≡ length (now (M.past home.old) scan.old.side).reads }
    requires window { IsTrue M.tells → IsWindowOf window.old (now (M.past home.old) scan.old.side).reads }
    requires valid { IsValid world }
    requires format { IsFormat format }
    ensures step { IsTrue M.tells → (header : StoreHeader) (done : List (List ℕ)) → header.format ≡ format → IsScanned (now (M.past home.old) scan.old.side).reads (header_spelling header) done scan.old.at scan.old.end → HasWorld header done world → IsStep (now (M.past home.old) scan.old.side).reads header done scan.new.at scan.new.end result }
    ensures valid { IfOk result (λ r. IsValid r.0) }
    ensures further { IfOk result (λ r. r.1 ≡ false → scan.old.at < scan.new.at) }
    ensures ended { IfOk result (λ r. r.1 ≡ true → scan.new ≡ scan.old) }
    ensures same { (scan.new.side ≡ scan.old.side) × (scan.new.end ≡ scan.old.end) × (scan.new.epoch ≡ scan.old.epoch) × (scan.new.format ≡ scan.old.format) }
    ensures window { IsTrue M.tells → IsWindowOf window.new (now (M.past home.old) scan.old.side).reads }
    ensures side { (side : Side) (at : ℕ) → IsErrOf result (DamagedAt side at) → side ≡ scan.old.side }
    ensures steady { (IsErrOf result FaultOfDisk → ⊥) → M.counted home.new ≡ M.counted home.old }
    ensures cause { IsErrOf result FaultOfDisk → HasRisen (M.counted home.old) (M.counted home.new) }
    ensures looks { IsTrue M.tells → Looks (M.past home.old) (M.past home.new) }
    ensures opening { M.opening home.new ≡ M.opening home.old }
{
    let at = scan.at();
    let side = scan.side();
    match scan.next_in(home, window) {
        Ok(false) => Ok((world, true)),
        Ok(true) => match after_payload(alloc, world, window.payload(), format) {
            Ok(next) => Ok((next, false)),
            Err(Unfit::DoesNotFit) => Err(OpenFault::Damaged { side, at }),
            Err(Unfit::NoMemory) => Err(OpenFault::NoMemory),
        },
        Err(refused) => Err(fault_of(refused, side)),
    }
}

/// The world of all records from here on, and the journal that they end with. It is called while the file is as it was at
/// `open`, with the world of the records that the scan has read.
pub fn read_records<M: Home>(
    alloc: Global,
    home: &mut M,
    mut world: World,
    mut scan: Scan,
    format: u16,
) -> Result<(World, Journal), OpenFault>
    requires is_open { IsOpen (M.opening home.old) }
    requires whole { IsTrue M.tells → scan.end ≡ length (now (M.past home.old) scan.side).reads }
    requires valid { IsValid world }
    requires format { IsFormat format }
    ensures read { IsTrue M.tells → (header : StoreHeader) (done : List (List ℕ)) → header.format ≡ format → IsScanned (now (M.past home.old) scan.side).reads (header_spelling header) done scan.at scan.end → HasWorld header done world → IsWhole (now (M.past home.old) scan.side).reads header result }
    ensures valid { IfOk result (λ r. IsValid r.0) }
    ensures journal { IfOk result (λ r. (r.1.side ≡ scan.side) × (r.1.epoch ≡ scan.epoch) × (r.1.format ≡ scan.format)) }
    ensures side { (side : Side) (at : ℕ) → IsErrOf result (DamagedAt side at) → side ≡ scan.side }
    ensures looks { IsTrue M.tells → Looks (M.past home.old) (M.past home.new) }
    ensures steady { (IsErrOf result FaultOfDisk → ⊥) → M.counted home.new ≡ M.counted home.old }
    ensures cause { IsErrOf result FaultOfDisk → HasRisen (M.counted home.old) (M.counted home.new) }
    ensures opening { M.opening home.new ≡ M.opening home.old }
{
    let mut window = Window::new(alloc);
    'records: loop {
        let (next, is_last) = next_world(alloc, home, world, &mut scan, &mut window, format)?;
        world = next;
        if is_last {
            return Ok((world, scan.journal()));
        }
    }
}

/// The world of the image that a file of a greater epoch than 0 begins with. It is called while the file is as it was at
/// `open`, with the scan at its first gate.
pub fn first_world<M: Home>(
    alloc: Global,
    home: &mut M,
    scan: &mut Scan,
) -> Result<World, OpenFault>
    requires is_open { IsOpen (M.opening home.old) }
    requires whole { IsTrue M.tells → scan.old.end ≡ length (now (M.past home.old) scan.old.side).reads }
    ensures first { IsTrue M.tells → (header : StoreHeader) → header.format ≡ scan.old.format → 0 < header.epoch → IsScanned (now (M.past home.old) scan.old.side).reads (header_spelling header) [] scan.old.at scan.old.end → IsFirst (now (M.past home.old) scan.old.side).reads header scan.new.at scan.new.end result }
    ensures valid { IfOk result IsValid }
    ensures same { (scan.new.side ≡ scan.old.side) × (scan.new.end ≡ scan.old.end) × (scan.new.epoch ≡ scan.old.epoch) × (scan.new.format ≡ scan.old.format) }
    ensures side { (side : Side) (at : ℕ) → IsErrOf result (DamagedAt side at) → side ≡ scan.old.side }
    ensures looks { IsTrue M.tells → Looks (M.past home.old) (M.past home.new) }
    ensures steady { (IsErrOf result FaultOfDisk → ⊥) → M.counted home.new ≡ M.counted home.old }
    ensures cause { IsErrOf result FaultOfDisk → HasRisen (M.counted home.old) (M.counted home.new) }
    ensures opening { M.opening home.new ≡ M.opening home.old }
{
    let at = scan.at();
    let side = scan.side();
    let format = scan.format();
    match scan.next(alloc, home) {
        Ok(None) => Err(OpenFault::Damaged { side, at }),
        Ok(Some(payload)) => match world_of_image(alloc, &payload, format) {
            Ok(first) => Ok(first),
            Err(Unfit::DoesNotFit) => Err(OpenFault::Damaged { side, at }),
            Err(Unfit::NoMemory) => Err(OpenFault::NoMemory),
        },
        Err(refused) => Err(fault_of(refused, side)),
    }
}

/// The world of a file's records, and the journal that they end with: at epoch 0 the first commit is made on the empty
/// world, and later on the world of the image. It is called while the file is as it was at `open`, with the scan at its
/// first gate.
pub fn read_store<M: Home>(
    alloc: Global,
    home: &mut M,
    epoch: u64,
    mut scan: Scan,
) -> Result<(World, Journal), OpenFault>
    requires is_open { IsOpen (M.opening home.old) }
    requires whole { IsTrue M.tells → scan.end ≡ length (now (M.past home.old) scan.side).reads }
    ensures read { IsTrue M.tells → (header : StoreHeader) → header.epoch ≡ epoch → header.format ≡ scan.format → IsScanned (now (M.past home.old) scan.side).reads (header_spelling header) [] scan.at scan.end → IsWhole (now (M.past home.old) scan.side).reads header result }
    ensures valid { IfOk result (λ r. IsValid r.0) }
    ensures journal { IfOk result (λ r. (r.1.side ≡ scan.side) × (r.1.epoch ≡ scan.epoch) × (r.1.format ≡ scan.format)) }
    ensures side { (side : Side) (at : ℕ) → IsErrOf result (DamagedAt side at) → side ≡ scan.side }
    ensures looks { IsTrue M.tells → Looks (M.past home.old) (M.past home.new) }
    ensures steady { (IsErrOf result FaultOfDisk → ⊥) → M.counted home.new ≡ M.counted home.old }
    ensures cause { IsErrOf result FaultOfDisk → HasRisen (M.counted home.old) (M.counted home.new) }
    ensures opening { M.opening home.new ≡ M.opening home.old }
{
    let format = scan.format();
    if epoch == 0 {
        return read_records(alloc, home, World::empty(alloc), scan, format);
    }
    let first = first_world(alloc, home, &mut scan)?;
    read_records(alloc, home, first, scan, format)
}
