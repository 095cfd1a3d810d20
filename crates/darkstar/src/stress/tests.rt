//! The command over a sink in memory, with gates that look on.

use super::stress;
use dk_edge::MemorySink;
use dk_status::Status;
use dk_types::RunNo;
use dk_workers::{Gate, OpenGate, Recipients};
use std::alloc::{AllocError, Global};
use std::sync::atomic::{AtomicU64, Ordering};
use std::test::Fail;

/// The text of six tasks from seed 7: their counters are 7, 8, 8, 9, 9 and 10.
const SIX: &str = "commits 7\ncounters 0 0 0 0 0 0 0 1 2 2 1 0 0 0 0 0\n";

/// How many commits a gate heard of, and which of the first runs they were of, as a bit each.
#[derive(Drop)]
struct CountingGate {
    commits: AtomicU64,
    runs: AtomicU64,
}

impl Gate for CountingGate {
    fn before_commit(&self, _worker: u32, _run: RunNo) {}

    fn after_commit(&self, _worker: u32, run: RunNo, _recipients: &Recipients) {
        self.commits.fetch_add(1, Ordering::SeqCst);
        if run.0 < 64 {
            self.runs.fetch_or(1 << run.0, Ordering::SeqCst);
        }
    }
}

#[test]
fn each_task_is_committed_once(rt: HostRuntime) -> Result<(), Fail> {
    let mut out = MemorySink::new(rt.alloc(), Vec::new(rt.alloc()));
    let gate = CountingGate {
        commits: AtomicU64::new(0),
        runs: AtomicU64::new(0),
    };
    let status = stress(&rt, rt.alloc(), 7, 6, 2, &mut out, &gate);
    assert_eq!(rt; status, Status::Ok);
    assert_eq!(rt; out.contents(), SIX.as_bytes());
    assert_eq!(rt; gate.commits.load(Ordering::SeqCst), 7);
    assert_eq!(rt; gate.runs.load(Ordering::SeqCst), 0b111_1111);
    Ok(())
}

// The text of so many tasks from seed 7, by a count of the generated list.
fn counted(alloc: Global, tasks: u32) -> Result<String, AllocError> {
    let mut counts = [0_u32; 16];
    for before in 0..tasks {
        let counter = (7 + (before + 1) / 2) % 16;
        counts[counter as usize] = counts[counter as usize].saturating_add(1);
    }
    let mut text = format!(in alloc; "commits {}\ncounters", u64::from(tasks) + 1)?;
    for count in counts {
        write!(text, " {count}")?;
    }
    text.push_str("\n")?;
    Ok(text)
}

#[test]
fn the_workers_do_not_change_the_totals(rt: HostRuntime) -> Result<(), Fail> {
    let wanted = counted(rt.alloc(), 10_000)?;
    for workers in [1, 4] {
        let mut out = MemorySink::new(rt.alloc(), Vec::new(rt.alloc()));
        let status = stress(&rt, rt.alloc(), 7, 10_000, workers, &mut out, &OpenGate);
        assert_eq!(rt; status, Status::Ok);
        assert_eq!(rt; out.contents(), wanted.as_bytes());
    }
    Ok(())
}
