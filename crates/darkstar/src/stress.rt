//! The command `stress`: a game of counters and tasks, as large as is asked for, run on a shared host in memory until nothing
//! is left to run.
//!
//! Its store is a home in memory, which fails for want of room alone: such a fault, and a store that it stopped, are want of
//! memory. So are a journal at its end and numbers at theirs, to which so few tasks do not come.
ghost use Rattle.std.specs.Prelude.{◌≡◌, ◌≢◌, ◌<◌, ◌≤◌, IfOk, string_bytes};
ghost use Rattle.std.specs.Io.KnownBytes.{Appends};
ghost use Rattle.dk_types.specs.Faults.{HasRisen};
ghost use Rattle.dk_types.specs.declared.limits.TheConstants.{PASSES_MOST_COUNT, TASKS_MOST_COUNT};
ghost use Rattle.dk_edge.specs.Streams.{AppendsPrefix};
ghost use Rattle.dk_model.specs.DurableWorlds.{empty_world};
ghost use Rattle.dk_core.specs.Listings.{world_of};
ghost use Rattle.darkstar.specs.Statuses.{IsOkOrNoMemory, IsWrittenOrNoMemory};
ghost use Rattle.darkstar.specs.StressText.{stress_text};

mod lines;
mod resting;
mod tallies;
#[cfg(test)]
mod tests;

use dk_demos::Counters;
use dk_disk::{Home, MemoryHome};
use dk_edge::Sink;
use dk_game::Game;
use dk_host::{OpenedStore, open_store};
use dk_status::Status;
use dk_streams::put_all;
use dk_types::{GameId, NoMemory};
use dk_workers::Gate;
use lines::lines_text;
use resting::run_store;
use std::alloc::Global;
use std::sync::Wait;
use std::thread::Threads;

/// The folder's name of the store in memory.
const FOLDER: &str = "stress";

/// A store of the game in memory, in which nothing has happened.
fn fresh_store(alloc: Global, game: &GameId) -> Result<OpenedStore<MemoryHome>, NoMemory>
    ensures { IfOk result (λ store. world_of store.durable ≡ empty_world) }
{
    let mut home = MemoryHome::new(
        alloc,
        Vec::new(alloc),
        Vec::new(alloc),
        Vec::new(alloc),
        false,
    );
    if home.open(FOLDER).is_err() {
        return Err(NoMemory);
    }
    match open_store(alloc, home, game) {
        Ok(store) => Ok(store),
        Err(_) => Err(NoMemory),
    }
}

/// The text of the game with this seed and so many tasks, run by so many workers.
fn run_text<T: Gate + Sync, R: Threads + Wait + Sync>(
    rt: &R,
    alloc: Global,
    seed: u64,
    tasks: u32,
    workers: u32,
    gate: &T,
) -> Result<String, NoMemory>
    requires workers { workers < PASSES_MOST_COUNT }
    requires few { tasks ≤ TASKS_MOST_COUNT }
    ensures { IfOk result (λ text. string_bytes text ≡ stress_text seed tasks) }
{
    let game = Counters::new(seed, tasks);
    let store = fresh_store(alloc, &game.id())?;
    let totals = run_store(rt, alloc, &game, store, workers, gate)?;
    lines_text(alloc, totals.commits, totals.counts.as_slice())
}

/// Runs the game with this seed and so many tasks by so many workers, and writes how many commits it had and how often each
/// counter was raised.
pub(crate) fn stress<K: Sink, T: Gate + Sync, R: Threads + Wait + Sync>(
    rt: &R,
    alloc: Global,
    seed: u64,
    tasks: u32,
    workers: u32,
    out: &mut K,
    gate: &T,
) -> Status
    requires workers { workers < PASSES_MOST_COUNT }
    requires few { tasks ≤ TASKS_MOST_COUNT }
    ensures done { result ≡ Status.Ok → Appends (K.contents out.old) (K.contents out.new) (stress_text seed tasks) }
    ensures torn { result ≡ Status.WriteFault → AppendsPrefix (K.contents out.old) (K.contents out.new) (stress_text seed tasks) }
    ensures unwritten { result ≢ Status.Ok → result ≢ Status.WriteFault → out.new ≡ out.old }
    ensures only { IsWrittenOrNoMemory result }
    ensures complete { ¬ HasRisen (K.counted out.old) (K.counted out.new) → IsOkOrNoMemory result }
    ensures sink_cause { result ≡ Status.WriteFault → HasRisen (K.counted out.old) (K.counted out.new) }
    ensures sink_steady { result ≢ Status.WriteFault → K.counted out.new ≡ K.counted out.old }
{
    let Ok(text) = run_text(rt, alloc, seed, tasks, workers, gate) else {
        return Status::NoMemory;
    };
    match put_all(out, text.as_bytes()) {
        Ok(()) => Status::Ok,
        Err(_) => Status::WriteFault,
    }
}
