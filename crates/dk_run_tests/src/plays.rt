//! Whole jobs of a game that tells a bystander of each.
ghost use Rattle.std.specs.Prelude.{◌≡◌, true};
ghost use Rattle.dk_txn.specs.Knowing.{HasTaskLimits};

use crate::crier::Crier;
use crate::ends::{job, outcome, told};
use crate::said;
use crate::view::Counting;
use dk_game::{Halt, run_over};
use dk_overlay::ReadWriteSet;
use dk_rows::{Subject, Words};
use dk_txn::{Finished, Refusal};
use dk_types::limits::{MOMENT_MOST_MS, PERIOD_MOST_MS};
use dk_types::{ConnNo, Job, RunNo};
use std::alloc::Global;

/// The view of a world, a moment, and what the last job came to.
#[derive(Drop)]
pub struct Plays<'a> {
    view: &'a mut Counting,
    at: u64,
    finished: Option<Finished>,
}

impl<'a> Plays<'a> {
    /// A game's jobs over this view, at this moment in ms.
    pub fn new(view: &'a mut Counting, at: u64) -> Plays<'a> {
        Plays {
            view,
            at,
            finished: None,
        }
    }

    /// Runs a job as run 9, and tells the outcome. Connection 8 is the bystander.
    fn play(&mut self, alloc: Global, gives_up: bool, call: &mut Words<'_>) -> Option<String> {
        let job = job(alloc, call)?;
        let crier = Crier {
            gives_up,
            bystander: ConnNo(8),
        };
        let at = self.at.min(MOMENT_MOST_MS);
        if !fits(&job) {
            return None;
        }
        let finished = run_over(alloc, &crier, &job, self.view, RunNo(9), at).ok()?;
        let text = outcome(alloc, &finished);
        self.finished = Some(finished);
        text
    }
}

/// Whether the moments of a task are within their limits.
fn fits(job: &Job) -> bool
    ensures { result ≡ true → HasTaskLimits job.now }
{
    match job {
        Job::Task { due, period, .. } => { *due <= MOMENT_MOST_MS && *period <= PERIOD_MOST_MS }
        _ => true,
    }
}

impl Subject for Plays<'_> {
    fn answer(&mut self, alloc: Global, call: &mut Words<'_>) -> Option<String> {
        match call.word()? {
            "play" => self.play(alloc, false, call),
            "give-up" => self.play(alloc, true, call),
            "halt" => halted(alloc, call),
            "moves" => moved(alloc, call),
            "tells" => {
                let word = call.word()?;
                told(alloc, self.finished.as_ref()?, word, call)
            }
            _ => None,
        }
    }
}

/// Why a game stops that gives up over a refusal.
fn halted(alloc: Global, call: &mut Words<'_>) -> Option<String> {
    let refusal = match call.word()? {
        "NameNotBound" => Refusal::NameNotBound,
        "ObjectNotFound" => Refusal::ObjectNotFound,
        "WrongKind" => Refusal::WrongKind { found: 7 },
        "TooLong" => Refusal::TooLong { len: 1_048_577 },
        "BadDelay" => Refusal::BadDelay,
        "Reserved" => Refusal::Reserved,
        "NoMemory" => Refusal::NoMemory,
        "TooMany" => Refusal::TooMany,
        "NameExists" => Refusal::NameExists,
        "BadBytes" => Refusal::BadBytes,
        _ => return None,
    };
    let halt = Halt::from(refusal);
    format!(in alloc; "{halt:?}").ok()
}

/// `moves 2.0 10 20 10`: a task that was due at 10 ms is put to 20 ms, and then to 10 ms. When the run leaves it due, if another time.
fn moved(alloc: Global, call: &mut Words<'_>) -> Option<String> {
    let key = said::key(call)?;
    let mut set = ReadWriteSet::new(alloc, RunNo(9), 0);
    let before = call.number()?;
    for _ in 0..2 {
        set.move_task(key, before, call.number()?).ok()?;
    }
    let (effects, _) = set.into_effects().ok()?;
    match effects.requeued.as_slice() {
        [(_, due)] => format!(in alloc; "{due}").ok(),
        _ => Some(String::new(alloc)),
    }
}
