//! Two workers that meet: a play by the top call whose gate holds a run before its commit until another run is committed.

use super::{Files, SOUND, command};
use crate::serve::ServerGate;
use dk_edge::{FixedClock, MemoryListener};
use dk_status::Status;
use dk_types::RunNo;
use dk_workers::{Gate, Recipients};
use std::alloc::AllocGlobal;
use std::sync::atomic::{AtomicBool, Ordering};
use std::test::Fail;
use std::thread;

/// The run that is held, and the one that it waits for.
const HELD: RunNo = RunNo(3);

const OTHER: RunNo = RunNo(4);

/// How often the held run's worker looks whether the other run is committed.
const TURNS_COUNT: u32 = 100_000_000;

const SCRIPT: &[u8] = b"login alice\nlogin bob\n";

/// What is written where the other run is committed first. A program that runs all on one thread commits the held run first.
const MET: &str = "phase 0
claim 0 at 0 initialize
commit 1 run 0 ok
phase 1
open 1 alice
open 2 bob
claim 3 at 0 login alice
claim 4 at 0 login bob
commit 2 run 4 ok
commit 3 run 3 ok
to 1 alice accepted
to 2 bob accepted
done commits 3 tasks 0
";

/// Whether the other run is committed.
#[derive(Drop)]
struct MeetingGate {
    is_met: AtomicBool,
}

impl Gate for MeetingGate {
    fn before_commit(&self, _worker: u32, run: RunNo) {
        if run != HELD {
            return;
        }
        for _ in 0..TURNS_COUNT {
            if self.is_met.load(Ordering::SeqCst) {
                return;
            }
            thread::yield_now();
        }
    }

    fn after_commit(&self, _worker: u32, run: RunNo, _recipients: &Recipients) {
        if run == OTHER {
            self.is_met.store(true, Ordering::SeqCst);
        }
    }
}

impl ServerGate for MeetingGate {}

#[test]
fn workers_meet(rt: HostRuntime) -> Result<(), Fail> {
    let alloc = rt.alloc();
    let none = Files::none(alloc);
    let gate = MeetingGate {
        is_met: AtomicBool::new(false),
    };
    let mut net = MemoryListener::new(alloc, Vec::new(alloc), Vec::new(alloc));
    let words = "play D --workers 2";
    let clock = FixedClock::new(0);
    let done = command(&rt, words, SCRIPT, &none, SOUND, &mut net, &clock, &gate)?;
    assert_eq!(rt; done.status, Status::Ok);
    assert_eq!(rt; done.written.as_slice(), MET.as_bytes());
    Ok(())
}
