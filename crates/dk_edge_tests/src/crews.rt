//! Crews.
ghost use Rattle.std.specs.Prelude.{◌≡◌};

use dk_edge::{Activity, NoSpawner, Spawner, ThreadSpawner};
use std::alloc::Global;
use std::sync::atomic::{AtomicBool, Ordering};
use std::test::*;
use std::thread;

// How often an activity looks for the others.
const TURNS: u32 = 20_000_000;

// Makes its mark, and waits until all marks are made. It tells its number, and whether it saw them all.
#[derive(Drop)]
struct Meeting<'a> {
    number: u8,
    mine: &'a AtomicBool,
    marks: &'a [AtomicBool],
}

impl<'a> Activity for Meeting<'a> {
    type Done = (u8, bool);

    ghost may_give = { λ m done. done.0 ≡ m.number };

    fn go(self) -> (u8, bool) {
        self.mine.store(true, Ordering::SeqCst);
        for _ in 0..TURNS {
            if are_made(self.marks) {
                return (self.number, true);
            }
            thread::yield_now();
        }
        (self.number, false)
    }
}

fn are_made(marks: &[AtomicBool]) -> bool {
    for mark in marks {
        if !mark.load(Ordering::SeqCst) {
            return false;
        }
    }
    true
}

// Two members and an activity of one's own, which meet.
fn meetings<'a>(
    alloc: Global,
    marks: &'a [AtomicBool; 3],
) -> Result<(Vec<Meeting<'a>>, Meeting<'a>), Fail> {
    let [one, two, own] = marks;
    let members = vec![in alloc; one_meeting(1, one, marks), one_meeting(2, two, marks)]?;
    Ok((members, one_meeting(3, own, marks)))
}

fn one_meeting<'a>(number: u8, mine: &'a AtomicBool, marks: &'a [AtomicBool; 3]) -> Meeting<'a> {
    Meeting {
        number,
        mine,
        marks,
    }
}

fn no_marks() -> [AtomicBool; 3] {
    [
        AtomicBool::new(false),
        AtomicBool::new(false),
        AtomicBool::new(false),
    ]
}

#[test]
fn a_crew_meets(rt: HostRuntime) -> Result<(), Fail> {
    let marks = no_marks();
    let (members, own) = meetings(rt.alloc(), &marks)?;
    assert_eq!(rt; members.len(), 2);
    let mut spawner = ThreadSpawner::new(&rt);
    let crew = spawner.crew(members, own)?;
    assert_eq!(rt; crew.members.as_slice(), [(1, true), (2, true)].as_slice());
    assert_eq!(rt; crew.own, (3, true));
    assert_eq!(rt; spawner.faults(), 0);
    Ok(())
}

#[test]
fn without_threads_no_activity_begins(rt: HostRuntime) -> Result<(), Fail> {
    let marks = no_marks();
    let (members, own) = meetings(rt.alloc(), &marks)?;
    assert_eq!(rt; members.len(), 2);
    let mut spawner = NoSpawner::<HostRuntime>::new();
    assert!(rt; spawner.crew(members, own).is_err());
    assert_eq!(rt; spawner.faults(), 1);
    for mark in &marks {
        assert!(rt; !mark.load(Ordering::SeqCst));
    }
    Ok(())
}
