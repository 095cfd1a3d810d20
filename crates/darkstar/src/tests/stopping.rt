//! A stop after each call of the disk, and a failure of each, under plays by the top call.

use super::{DiskPlan, Files, Image, SOUND, TORN, Told, played};
use dk_disk::Torn;
use dk_status::Status;
use std::alloc::{AllocError, AllocGlobal};
use std::random::RandomSource;
use std::sync::Wait;
use std::test::Fail;
use std::thread::Threads;

/// A command, its script, and how many commits it makes.
#[derive(Clone, Copy, Debug)]
struct Step<'a> {
    words: &'a str,
    script: &'a [u8],
    commits: u64,
}

/// Plays one behind another, from a folder without a store: a session, its end, and two that write the store anew.
const STEPS: [Step<'static>; 4] = [
    Step {
        words: "play D",
        script: b"login alice\nsend alice look\n",
        commits: 3,
    },
    Step {
        words: "play D",
        script: b"",
        commits: 1,
    },
    Step {
        words: "play D --checkpoint",
        script: b"",
        commits: 0,
    },
    Step {
        words: "play D --checkpoint",
        script: b"login bob\n",
        commits: 1,
    },
];

// The world that these files hold, as `inspect` tells it; no text where it tells none.
fn world<T: Threads + Wait + RandomSource + AllocGlobal + Sync>(
    rt: &T,
    files: &Files,
) -> Result<Vec<u8>, AllocError> {
    let told = played(rt, "inspect D", b"", files, SOUND)?;
    Ok(told.written)
}

// What a step comes to on these files where the call of this number fails, or none.
fn watched<T: Threads + Wait + RandomSource + AllocGlobal + Sync>(
    rt: &T,
    step: Step<'_>,
    files: &Files,
    failing: u64,
) -> Result<Told, AllocError> {
    let plan = DiskPlan {
        failing,
        is_watched: true,
    };
    played(rt, step.words, step.script, files, plan)
}

/// A step where nothing fails: the world after each of its commits, and how many calls had been made when it was told.
#[derive(Drop)]
struct Course {
    worlds: Vec<Vec<u8>>,
    marks: Vec<u64>,
}

impl Course {
    // The course of a step on these files. A budget ends it behind each of its commits.
    fn of<T: Threads + Wait + RandomSource + AllocGlobal + Sync>(
        rt: &T,
        step: Step<'_>,
        files: &Files,
    ) -> Result<Course, AllocError> {
        let alloc = rt.alloc();
        let mut worlds = Vec::new(alloc);
        let mut marks = Vec::new(alloc);
        worlds.push(world(rt, files)?)?;
        for commits in 1..=step.commits {
            let words = format!(in alloc; "{} --budget {commits}", step.words)?;
            let told = played(rt, words.as_str(), step.script, files, SOUND)?;
            marks.push(told.calls)?;
            worlds.push(world(rt, &told.files)?)?;
        }
        Ok(Course { worlds, marks })
    }

    // How many commits were told by this moment, and before the call that fails.
    fn told(&self, moment: u64, failing: u64) -> usize {
        self.marks
            .iter()
            .filter(|mark| **mark <= moment && (failing == 0 || **mark < failing))
            .count()
    }

    // How many commits made the world of these files, if it is one of the course's.
    fn held<T: Threads + Wait + RandomSource + AllocGlobal + Sync>(
        &self,
        rt: &T,
        files: &Files,
    ) -> Result<Option<usize>, AllocError> {
        let found = world(rt, files)?;
        Ok(self.worlds.iter().position(|known| *known == found))
    }

    // Whether each of these images of one kind holds the world after some commits, all that were told by then among them, and none
    // fewer than the image before it.
    fn is_kept<T: Threads + Wait + RandomSource + AllocGlobal + Sync>(
        &self,
        rt: &T,
        images: &[Image],
        torn: Torn,
        failing: u64,
    ) -> Result<bool, AllocError> {
        let mut least = 0;
        for image in images {
            if image.torn == torn {
                let told = self.told(image.calls, failing);
                match self.held(rt, &image.files)? {
                    Some(commits) if commits >= least.max(told) => least = commits,
                    _ => return Ok(false),
                }
            }
        }
        Ok(true)
    }

    // Whether a step whose call of this number fails, or none, ends as it has to, and whether every stop from that call on keeps
    // what was told.
    fn keeps<T: Threads + Wait + RandomSource + AllocGlobal + Sync>(
        &self,
        rt: &T,
        step: Step<'_>,
        files: &Files,
        failing: u64,
    ) -> Result<bool, AllocError> {
        let told = watched(rt, step, files, failing)?;
        let wanted = if failing == 0 {
            Status::Ok
        } else {
            Status::DiskFault
        };
        if told.status != wanted || told.images.is_empty() {
            return Ok(false);
        }
        for torn in TORN {
            if !self.is_kept(rt, told.images.as_slice(), torn, failing)? {
                return Ok(false);
            }
        }
        Ok(true)
    }
}

#[test]
fn stops_keep_what_was_told(rt: HostRuntime) -> Result<(), Fail> {
    let mut files = Files::none(rt.alloc());
    for step in STEPS {
        let course = Course::of(&rt, step, &files)?;
        let whole = played(&rt, step.words, step.script, &files, SOUND)?;
        assert!(rt; whole.calls > 0, "{}", step.words);
        for failing in 0..=whole.calls {
            let kept = course.keeps(&rt, step, &files, failing)?;
            assert!(rt; kept, "{} {failing}", step.words);
        }
        files = whole.files;
    }
    Ok(())
}
