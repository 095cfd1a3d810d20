//! From a host that was closed to the text.
ghost use Rattle.std.specs.Prelude.{◌≡◌, ◌≢◌, ◌↔◌, ◌∷◌, [], None, true, false, IsTrue};
ghost use Rattle.std.specs.FinMap as map;
ghost use Rattle.dk_types.specs.Faults.{HasRisen};
ghost use Rattle.dk_model.specs.Legal.{world_after};
ghost use Rattle.dk_workers.specs.Played.{IsCounted, IsDiskFault, IsSettled, IsTextOf};

use super::fault::PlayFault;
use super::saving::{Saved, shows};
use super::text::text_of;
use dk_disk::Home;
use dk_host::{Closed, Hosting};
use dk_model::Line;
use dk_types::{Blob, Listed};
use std::alloc::Global;

/// What a play has to show once all phases are played: their marks, and what became of the store.
#[derive(Drop)]
pub(crate) struct Staged {
    pub(crate) marks: Vec<u64>,
    pub(crate) saved: Saved,
}

// Whether a count of faults rose.
fn has_risen(before: u64, after: u64) -> bool
    ensures { IsTrue result ↔ HasRisen before after }
{
    before < after || before == u64::MAX && after == u64::MAX
}

// A fault of the disk, where its count rose.
fn disk_fault(before: u64, after: u64) -> PlayFault
    ensures { IsDiskFault before after result }
{
    if has_risen(before, after) {
        PlayFault::DiskFault
    } else {
        PlayFault::NoMemory
    }
}

// Whether the store of a single worker was stopped: then that worker's commit failed, or the main pass's did.
fn is_stopped_alone(workers: u32, faults: Option<u64>) -> bool
    ensures so { result ≡ true → workers ≡ 1 }
    ensures not_so { result ≡ false → workers ≡ 1 → faults ≢ None → ⊥ }
{
    match faults {
        None => false,
        Some(_) => workers == 1,
    }
}

// The fault as it is told.
fn counted(fault: PlayFault, before: u64, after: u64) -> PlayFault
    ensures { IsCounted before after fault result }
{
    match fault {
        PlayFault::DiskFault => disk_fault(before, after),
        PlayFault::NoMemory => PlayFault::NoMemory,
        PlayFault::Budget { granted } => PlayFault::Budget { granted },
        PlayFault::JournalFull { length } => PlayFault::JournalFull { length },
        PlayFault::Exhausted { next } => PlayFault::Exhausted { next },
    }
}

/// The text of what was staged on this host, or why there is none. A store that was stopped is a fault of its disk. `before`
/// is the count of faults of before the play.
pub(crate) fn reported<W: Hosting, M: Home>(
    alloc: Global,
    closed: &Closed<M>,
    staged: Result<Staged, PlayFault>,
    workers: u32,
    asked: bool,
    script: &[Listed<Line>],
    before: u64,
) -> Result<Blob, PlayFault>
    requires settled { IsSettled asked W.opened workers ([] ∷ script.now) (λ s. s.marks.items) (λ s. s.saved) closed.now.history staged }
    requires kept { closed.now.events.items ≡ closed.now.history }
    requires commits { closed.now.commits ≡ (world_after W.opened closed.now.history).durable.commits }
    requires tasks { closed.now.tasks ≡ map.len (world_after W.opened closed.now.history).durable.tasks }
    ensures { IsTextOf W.opened workers asked script.now closed.now.history closed.now.faults closed.now.first closed.now.epoch before (M.counted closed.now.home) result }
{
    let _ = asked;
    let _ = script;
    let after = closed.home.faults();
    if is_stopped_alone(workers, closed.faults) {
        return Err(disk_fault(before, after));
    }
    let staged = match staged {
        Ok(staged) => staged,
        Err(fault) => return Err(counted(fault, before, after)),
    };
    match closed.faults {
        None => {}
        Some(_) => return Err(disk_fault(before, after)),
    }
    if !shows(staged.saved, closed.first, closed.epoch) {
        return Err(PlayFault::NoMemory);
    }
    text_of(
        alloc,
        closed.events.as_slice(),
        staged.marks.as_slice(),
        closed.commits,
        closed.tasks,
    )
}
