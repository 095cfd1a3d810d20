//! A play: rows that are asked of a host on a home in memory, and what is left of it.
ghost use Rattle.std.specs.Prelude.{◌≡◌, IfSome};
ghost use Rattle.dk_disk.specs.Opening.{NotCalled};

use crate::hosting::host;
use crate::texts::{game, of_world};
use dk_disk::{HoldingHome, Home, MemoryHome, Torn};
use dk_host::{OpenFault, open_store};
use dk_recover::recover;
use dk_rows::{Subject, Words};
use dk_types::Side;
use std::alloc::Global;
use std::sync::atomic::AtomicU64;
use std::sync::{Arc, Wait};
use std::thread::Threads;
use sword_world::SwordWorld;

/// How often a sync that is held looks whether it is to go on.
const TURNS_COUNT: u64 = 100_000_000;

/// What a stop may leave of writes that no sync has reached.
pub const TORN: [Torn; 4] = [Torn::Old, Torn::New, Torn::Zeros, Torn::Ones];

/// What a store's two files hold.
#[derive(Drop)]
pub struct Files {
    pub zero: Vec<u8>,
    pub one: Vec<u8>,
}

impl Files {
    /// Copies of these bytes.
    pub fn of(alloc: Global, zero: &[u8], one: &[u8]) -> Option<Files> {
        Some(Files {
            zero: Vec::from_slice(alloc, zero).ok()?,
            one: Vec::from_slice(alloc, one).ok()?,
        })
    }

    /// A home with these files, not open yet, whose call of this number fails. Calls have numbers from 1 on.
    fn home(&self, alloc: Global, failing: u64) -> Option<MemoryHome>
        ensures { IfSome result (λ home. home.opening ≡ NotCalled) }
    {
        let zero = Vec::from_slice(alloc, &self.zero).ok()?;
        let one = Vec::from_slice(alloc, &self.one).ok()?;
        let failing = [failing].to_vec(alloc).ok()?;
        let mut home = MemoryHome::new(alloc, zero, one, failing, false);
        home.reserve(256, 65_536).ok()?;
        Some(home)
    }

    /// How many commits these files hold, and their world. No store yet has the empty world.
    pub fn world(&self, alloc: Global) -> Option<(u64, String)> {
        let mut home = self.home(alloc, 0)?;
        if home.open("store").is_err() {
            return None;
        }
        let found = recover(alloc, &mut home, &game()?).ok()?;
        Some((found.durable.commits, of_world(alloc, &found.durable)?))
    }
}

/// What a host answered to the rows, or why there was none, and what is left of its home.
#[derive(Drop)]
pub struct Played {
    pub answers: Vec<String>,
    /// Why the store was not opened, if it was not.
    pub fault: Option<OpenFault>,
    /// The epochs of the store as the host was opened and as it was closed.
    pub epochs: (u64, u64),
    pub home: HoldingHome,
}

impl Played {
    /// What a stop right after the call of this number leaves of both files.
    pub fn left(&self, moment: u64, torn: Torn) -> Option<Files> {
        let (zero, one) = self.home.inner().crash_at(moment, torn).ok()?;
        Some(Files { zero, one })
    }

    /// How many calls the home was asked.
    pub fn calls(&self) -> u64 {
        self.home.inner().calls()
    }
}

/// Plays the rows on these files, with this call of the home failing. None where memory was refused.
pub fn play<R: Threads + Wait + Sync>(
    rt: &R,
    alloc: Global,
    files: &Files,
    failing: u64,
    rows: &[String],
) -> Option<Played> {
    let word = Arc::new(alloc, AtomicU64::new(0)).ok()?;
    let inner = files.home(alloc, failing)?;
    let mut home = HoldingHome::new(inner, Arc::try_clone(&word).ok()?, TURNS_COUNT);
    if home.open("store").is_err() {
        return None;
    }
    let store = match open_store(alloc, home, &game()?) {
        Ok(store) => store,
        Err(refused) => {
            return Some(Played {
                answers: Vec::new(alloc),
                fault: Some(refused.fault),
                epochs: (0, 0),
                home: refused.home,
            });
        }
    };
    let ended = host(rt, alloc, &SwordWorld, &word, store, rows)?;
    let closed = ended.closed;
    Some(Played {
        answers: ended.answers,
        fault: None,
        epochs: (closed.first, closed.epoch),
        home: closed.home,
    })
}

/// Answers that are given one after another.
#[derive(Drop)]
pub struct Answers<'a> {
    answers: &'a [String],
    next: usize,
}

impl<'a> Answers<'a> {
    pub fn new(answers: &'a [String]) -> Answers<'a> {
        Answers { answers, next: 0 }
    }
}

impl Subject for Answers<'_> {
    fn answer(&mut self, alloc: Global, _call: &mut Words<'_>) -> Option<String> {
        let answer = self.answers.get(self.next)?;
        self.next = self.next.saturating_add(1);
        String::from_str(alloc, answer.as_str()).ok()
    }
}
