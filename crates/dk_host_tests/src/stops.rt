//! A play again, with each call of its disk failing in turn, and what a stop at each moment leaves.

use crate::plays::{Files, Played, TORN, play};
use dk_disk::Torn;
use dk_host::OpenFault;
use std::alloc::Global;
use std::sync::Wait;
use std::thread::Threads;

/// What is played, and what may be left of it.
#[derive(Drop)]
pub struct Trial<'a, R> {
    pub rt: &'a R,
    pub alloc: Global,
    pub files: &'a Files,
    pub rows: &'a [String],
    /// The worlds after so many commits.
    pub worlds: &'a [String],
    /// How many commits the files hold.
    pub before: u64,
}

/// How many calls of the home were made when so many commits were acknowledged.
#[derive(Clone, Copy)]
struct Mark {
    calls: u64,
    commits: u64,
}

/// An answer as rows write it.
fn shown(answer: &str) -> &str {
    let shown = answer.trim_end();
    if shown.is_empty() { "none" } else { shown }
}

/// What the answers have told of the disk.
#[derive(Clone, Copy)]
struct Faults {
    has_failed: bool,
    is_stopped: bool,
}

impl Faults {
    /// Whether a row is answered as it says, but for one disk fault of a call of the store. Behind that of a commit or a checkpoint
    /// these calls tell that the host is stopped, and what is handed is a beginning.
    fn is_told(&mut self, row: &str, answer: &str) -> bool {
        let (ask, told) = row.split_once(" = ").unwrap_or((row, "none"));
        let word = ask.split_once(" ").unwrap_or((ask, "")).0;
        let is_writing = matches!(word, "run" | "checkpoint");
        let is_of_store = is_writing || word == "entries";
        if self.is_stopped && is_of_store {
            return answer.contains("Stopped { faults: 1 }");
        }
        if is_of_store && !self.has_failed && shown(answer) != told {
            self.has_failed = true;
            self.is_stopped = is_writing;
            return answer.contains("DiskFault");
        }
        let is_beginning = word == "hand" && told.starts_with(answer.trim_end());
        shown(answer) == told || self.is_stopped && is_beginning
    }
}

/// Whether a host was opened and answered the rows as they say, up to the call that fails, or was not opened for its sake.
fn are_told(rows: &[String], played: &Played, is_failing: bool) -> bool {
    if let Some(fault) = &played.fault {
        return is_failing && *fault == OpenFault::DiskFault;
    }
    let mut faults = Faults {
        has_failed: false,
        is_stopped: false,
    };
    for (row, answer) in rows.iter().zip(&played.answers) {
        if !faults.is_told(row.as_str(), answer.as_str()) {
            return false;
        }
    }
    faults.has_failed == is_failing && played.answers.len() == rows.len()
}

/// The greatest commit that was answered.
fn commits_told(answers: &[String]) -> u64 {
    let mut commits = 0;
    for answer in answers {
        if let Some(commit) = answer.as_str().strip_prefix("commit ") {
            commits = commit.parse::<u64>().unwrap_or(0);
        }
    }
    commits
}

impl<R: Threads + Wait + Sync> Trial<'_, R> {
    fn play(&self, failing: u64) -> Option<Played> {
        play(self.rt, self.alloc, self.files, failing, self.rows)
    }

    /// By which call what was acknowledged, row by row.
    fn marks(&self) -> Option<Vec<Mark>> {
        let mut marks = Vec::new(self.alloc);
        for count in 0..=self.rows.len() {
            let rows = self.rows.get(..count)?;
            let played = play(self.rt, self.alloc, self.files, 0, rows)?;
            let commits = commits_told(&played.answers).max(self.before);
            let calls = played.calls();
            marks.push(Mark { calls, commits }).ok()?;
        }
        Some(marks)
    }

    /// How many commits a stop at this moment leaves, if they are these or one more, with their world.
    fn held(&self, played: &Played, moment: u64, torn: Torn, known: u64) -> Option<u64> {
        let (commits, world) = played.left(moment, torn)?.world(self.alloc)?;
        let number = usize::try_from(commits).ok()?;
        let is_one = commits == known || commits == known.saturating_add(1);
        if is_one && self.worlds.get(number)? == &world {
            Some(commits)
        } else {
            None
        }
    }

    /// Whether each image from the moment before the failing call on has what was acknowledged by then, or one commit more, and no
    /// fewer than the one before it.
    fn is_kept(&self, played: &Played, marks: &[Mark], failing: u64, torn: Torn) -> bool {
        let mut least = 0;
        for moment in failing.saturating_sub(1)..=played.calls() {
            let known = known_by(marks, moment, failing).max(self.before);
            match self.held(played, moment, torn, known) {
                Some(commits) if commits >= least => least = commits,
                _ => return false,
            }
        }
        true
    }

    /// Whether all is as it should be where this call fails, or none at 0.
    fn is_safe(&self, marks: &[Mark], failing: u64) -> Option<bool> {
        let played = self.play(failing)?;
        for torn in TORN {
            if !self.is_kept(&played, marks, failing, torn) {
                return Some(false);
            }
        }
        Some(are_told(self.rows, &played, failing != 0))
    }

    /// `stops BEFORE`: with which failing calls, or none at 0, an answer or an image is another one.
    pub fn stops(&self) -> Option<String> {
        let marks = self.marks()?;
        let calls = self.play(0)?.calls();
        let mut text = String::new(self.alloc);
        for failing in 0..=calls {
            if !self.is_safe(&marks, failing)? {
                write!(text, "lost at {failing} ").ok()?;
            }
        }
        if text.is_empty() {
            text.push_str("kept").ok()?;
        }
        Some(text)
    }
}

/// What was acknowledged by this moment, before the failing call.
fn known_by(marks: &[Mark], moment: u64, failing: u64) -> u64 {
    let mut commits = 0;
    for mark in marks {
        if mark.calls <= moment && (failing == 0 || mark.calls < failing) {
            commits = mark.commits;
        }
    }
    commits
}
