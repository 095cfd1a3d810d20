//! What is done and timed on a shared host.
ghost use Rattle.std.specs.Prelude.{◌≡◌};
ghost use Rattle.dk_host.specs.Calls.{IsClaimOf};

use crate::stores::nanoseconds;
use dk_core::Claimed;
use dk_disk::Home;
use dk_game::Game;
use dk_host::{Host, Hosting, WorldBook};
use dk_turn::{Naming, Pass};
use dk_types::{Item, Name, Seen};
use dk_workers::{OpenGate, Worked, run_claimed, work};
use std::alloc::Global;
use std::sync::Wait;
use std::sync::atomic::{AtomicBool, AtomicU64, Ordering};
use std::thread;
use std::time::{Clock, Instant};

/// So many commits are timed together.
const COMMITS: u64 = 20_000;

/// What the word of a home says: no sync is held.
const FREE: u64 = 0;

/// The next sync is to be held.
pub(crate) const HOLD: u64 = 1;

/// A sync is held.
const HELD: u64 = 2;

/// A host, and the game that is run on it.
#[derive(Drop)]
pub(crate) struct Desk<'a, G: Game, W: Hosting, J: Naming, M: Home, R: Clock + Wait> {
    pub(crate) rt: &'a R,
    pub(crate) alloc: Global,
    pub(crate) host: &'a Host<W, J, M>,
    pub(crate) game: &'a G,
}

impl<G: Game, W: Hosting, J: Naming, M: Home, R: Clock + Wait> Desk<'_, G, W, J, M, R> {
    /// Runs the job that comes next, and tells the nanoseconds of its commit. Nothing where there is none.
    pub(crate) fn commit_next(&self, pass: &mut Pass<WorldBook<W>, J>) -> Option<u64>
        requires rules { W.opened.rules ≡ G.rules self.now.game.now }
    {
        match self.host.claim(self.rt, pass) {
            Ok(Some(claimed)) => self.commit_claimed(pass, claimed),
            Ok(None) => None,
            Err(_) => None,
        }
    }

    fn commit_claimed(&self, pass: &mut Pass<WorldBook<W>, J>, claimed: Claimed) -> Option<u64>
        requires claim { IsClaimOf W.opened pass.old claimed }
        requires rules { W.opened.rules ≡ G.rules self.now.game.now }
    {
        let ran = run_claimed(self.rt, self.alloc, self.game, self.host, pass, &claimed);
        let Ok(finished) = ran else {
            return None;
        };
        let start = Instant::now(self.rt).ok()?;
        self.host.commit(self.rt, pass, claimed, finished).ok()?;
        nanoseconds(self.rt, &start)
    }

    /// Works until nothing can be run.
    fn rest(&self, pass: &mut Pass<WorldBook<W>, J>) -> Option<()>
        requires rules { W.opened.rules ≡ G.rules self.now.game.now }
    {
        match work(
            self.rt, self.alloc, self.host, pass, self.game, &OpenGate, 0,
        ) {
            Worked::Idle => Some(()),
            _ => None,
        }
    }

    /// Runs the first job and so many logins.
    pub(crate) fn fill(&self, pass: &mut Pass<WorldBook<W>, J>, logins: u32) -> Option<()>
        requires rules { W.opened.rules ≡ G.rules self.now.game.now }
    {
        for number in 0..logins {
            let text = format!(in self.alloc; "s{number}").ok()?;
            let name = Name::new(self.alloc, text.as_bytes()).ok()?;
            self.host.connect(self.rt, pass, &name).ok()?;
        }
        self.rest(pass)
    }

    /// The commits of a task that comes each millisecond, behind so many logins.
    pub(crate) fn commits(&self, pass: &mut Pass<WorldBook<W>, J>, logins: u32) -> Option<u64>
        requires rules { W.opened.rules ≡ G.rules self.now.game.now }
    {
        self.fill(pass, logins)?;
        let mut spent = 0u64;
        for moment in 0..COMMITS {
            self.host
                .tick(self.rt, pass, moment.saturating_add(1))
                .ok()?;
            spent = spent.saturating_add(self.commit_next(pass)?);
        }
        Some(spent)
    }

    /// So many reads of a name that is there.
    fn reads(&self, pass: &mut Pass<WorldBook<W>, J>, reads: u32) -> Option<u64> {
        let item = Item::Bound(Name::new(self.alloc, b"c.00").ok()?);
        let start = Instant::now(self.rt).ok()?;
        for _ in 0..reads {
            if self.host.read(self.rt, pass, &item).ok()?.seen == Seen::Absent {
                return None;
            }
        }
        nanoseconds(self.rt, &start)
    }

    /// So many reads behind the first run.
    pub(crate) fn reads_alone(&self, pass: &mut Pass<WorldBook<W>, J>, reads: u32) -> Option<u64>
        requires rules { W.opened.rules ≡ G.rules self.now.game.now }
    {
        self.commit_next(pass)?;
        self.reads(pass, reads)
    }

    /// So many reads once a sync is held, if it is held to their end.
    fn reads_beside(
        &self,
        pass: &mut Pass<WorldBook<W>, J>,
        hold: &AtomicU64,
        reads: u32,
    ) -> Option<u64> {
        for _ in 0..u32::MAX {
            if hold.load(Ordering::SeqCst) == HELD {
                let told = self.reads(pass, reads)?;
                if hold.load(Ordering::SeqCst) != HELD {
                    return None;
                }
                return Some(told);
            }
            thread::yield_now();
        }
        None
    }

    /// The same, and then lets the sync go.
    pub(crate) fn reads_then_free(
        &self,
        pass: &mut Pass<WorldBook<W>, J>,
        hold: &AtomicU64,
        reads: u32,
    ) -> Option<u64> {
        let told = self.reads_beside(pass, hold, reads);
        hold.store(FREE, Ordering::SeqCst);
        told
    }

    /// A copy of the world.
    pub(crate) fn copied(&self, pass: &mut Pass<WorldBook<W>, J>) -> Option<u64> {
        let start = Instant::now(self.rt).ok()?;
        let durable = self.host.durable(self.rt, pass).ok()?;
        let spent = nanoseconds(self.rt, &start);
        if durable.objects.as_slice().is_empty() {
            return None;
        }
        spent
    }

    /// The same of the store that is written anew.
    pub(crate) fn written_anew(&self, pass: &mut Pass<WorldBook<W>, J>) -> Option<u64> {
        let start = Instant::now(self.rt).ok()?;
        self.host.checkpoint(self.rt, pass).ok()?;
        nanoseconds(self.rt, &start)
    }

    /// The longest of the reads until something is done.
    pub(crate) fn longest_read(
        &self,
        pass: &mut Pass<WorldBook<W>, J>,
        is_done: &AtomicBool,
    ) -> Option<u64> {
        let mut longest = 0;
        for _ in 0..u64::MAX {
            longest = longest.max(self.reads(pass, 1)?);
            if is_done.load(Ordering::SeqCst) {
                return Some(longest);
            }
        }
        None
    }
}
