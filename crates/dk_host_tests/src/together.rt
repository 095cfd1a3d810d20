//! Two workers at once, and a gate that holds a run until another was committed.
ghost use Rattle.std.specs.Prelude.{◌≡◌};

use crate::stage::{Stage, TURNS_COUNT};
use dk_disk::Home;
use dk_game::Game;
use dk_host::{Hosting, WorldBook};
use dk_turn::{Naming, Pass};
use dk_types::RunNo;
use dk_workers::{Gate, Recipients, work_all};
use std::alloc::Global;
use std::sync::Wait;
use std::sync::atomic::{AtomicU64, Ordering};
use std::thread::{Threads, yield_now};

/// Holds the first run that comes, before its commit, until another run was committed.
#[derive(Drop)]
struct HoldingGate {
    // The run that is held, plus one.
    held: AtomicU64,
    // The runs that were committed, plus one, the first and the last of them.
    first: AtomicU64,
    last: AtomicU64,
    tries: AtomicU64,
    // A bit for each worker that came.
    workers: AtomicU64,
}

impl HoldingGate {
    fn new() -> HoldingGate {
        HoldingGate {
            held: AtomicU64::new(0),
            first: AtomicU64::new(0),
            last: AtomicU64::new(0),
            tries: AtomicU64::new(0),
            workers: AtomicU64::new(0),
        }
    }

    fn told(&self, alloc: Global) -> Option<String> {
        let held = self.held.load(Ordering::SeqCst);
        let first = self.first.load(Ordering::SeqCst);
        let last = self.last.load(Ordering::SeqCst);
        let is_last = held == last && first != held && first != 0;
        let tries = self.tries.load(Ordering::SeqCst);
        let workers = self.workers.load(Ordering::SeqCst).count_ones();
        format!(in alloc; "held one last {is_last}, {tries} tries by {workers} workers").ok()
    }
}

fn mark(run: RunNo) -> u64 {
    run.0.saturating_add(1)
}

impl Gate for HoldingGate {
    fn before_commit(&self, worker: u32, run: RunNo) {
        self.tries.fetch_add(1, Ordering::SeqCst);
        self.workers
            .fetch_or(1u64.wrapping_shl(worker), Ordering::SeqCst);
        let held = self
            .held
            .compare_exchange(0, mark(run), Ordering::SeqCst, Ordering::SeqCst);
        if held.is_err() {
            return;
        }
        for _ in 0..TURNS_COUNT {
            if self.first.load(Ordering::SeqCst) != 0 {
                return;
            }
            yield_now();
        }
    }

    fn after_commit(&self, _worker: u32, run: RunNo, _recipients: &Recipients) {
        let _ = self
            .first
            .compare_exchange(0, mark(run), Ordering::SeqCst, Ordering::SeqCst);
        self.last.store(mark(run), Ordering::SeqCst);
    }
}

impl<
    G: Game + Sync,
    W: Hosting + Send + Sync,
    J: Naming + Send + Sync,
    M: Home + Send,
    R: Threads + Wait + Sync,
> Stage<'_, G, W, J, M, R> {
    /// `together`: a worker for each pass, at once.
    pub(crate) fn work_together(&self, passes: &mut [Pass<WorldBook<W>, J>]) -> Option<String>
        requires rules { W.opened.rules ≡ G.rules self.now.game.now }
    {
        let gate = HoldingGate::new();
        let worked = work_all(self.rt, self.alloc, self.host, passes, self.game, &gate);
        let told = gate.told(self.alloc)?;
        format!(in self.alloc; "{worked:?}, {told}").ok()
    }
}
