//! What threads do on a shared host beside one another, each with a pass.
ghost use Rattle.std.specs.Prelude.{◌≡◌};
ghost use Rattle.std.specs.Thread.{IsSend, IsSync};

use crate::desk::{Desk, HOLD};
use crate::stores::nanoseconds;
use dk_disk::Home;
use dk_game::Game;
use dk_host::{Hosting, WorldBook};
use dk_turn::{Naming, Pass};
use dk_workers::{OpenGate, Worked, work_all};
use std::sync::Wait;
use std::sync::atomic::{AtomicBool, AtomicU64, Ordering};
use std::thread::{Threads, join_mut};
use std::time::{Clock, Instant};

/// So often each sheet is rewritten while it is timed, by as many tasks, which are due one millisecond after another.
pub(crate) const TIMED_REWRITES: u64 = 32;

/// So often each is rewritten in all: once before it is timed.
pub(crate) const REWRITES: u64 = TIMED_REWRITES + 1;

/// What each of two threads does with its pass, and the nanoseconds of it.
trait Pair<X> {
    // What they ask for.
    ghost ready: { Self → Type 0 };

    fn one(&self, pass: &mut X) -> Option<u64>
        requires { ready self.now };

    fn other(&self, pass: &mut X) -> Option<u64>
        requires { ready self.now };
}

/// Both at once.
fn both<X: Send, P: Pair<X> + Sync, R: Threads + Sync>(
    rt: &R,
    pair: &P,
    one: &mut X,
    other: &mut X,
) -> Option<(u64, u64)>
    requires ready { P.ready pair.now }
{
    let mut of_one = || -> Option<u64>
        requires { IsSync P.row × IsSend X.row × P.ready pair.now }
    { pair.one(one) };
    let mut of_other = || -> Option<u64>
        requires { IsSync P.row × IsSend X.row × P.ready pair.now }
    { pair.other(other) };
    let (one, other) = join_mut(rt, &mut of_one, &mut of_other);
    Some((one?, other?))
}

/// A commit whose sync is held, and so many reads.
#[derive(Drop)]
struct HoldAndReads<'a, G: Game, W: Hosting, J: Naming, M: Home, R: Clock + Wait> {
    desk: &'a Desk<'a, G, W, J, M, R>,
    hold: &'a AtomicU64,
    reads: u32,
}

impl<G: Game, W: Hosting, J: Naming, M: Home, R: Clock + Wait> Pair<Pass<WorldBook<W>, J>>
    for HoldAndReads<'_, G, W, J, M, R> {
    ghost use Rattle.std.specs.Prelude.{◌≡◌};

    ghost ready = { λ pair. W.opened.rules ≡ G.rules pair.desk.now.game.now };

    fn one(&self, pass: &mut Pass<WorldBook<W>, J>) -> Option<u64> {
        self.desk.commit_next(pass)
    }

    fn other(&self, pass: &mut Pass<WorldBook<W>, J>) -> Option<u64> {
        self.desk.reads_then_free(pass, self.hold, self.reads)
    }
}

/// A copy of the world, or the store that is written anew, and reads until it is done.
#[derive(Drop)]
struct CopyAndReads<'a, G: Game, W: Hosting, J: Naming, M: Home, R: Clock + Wait> {
    desk: &'a Desk<'a, G, W, J, M, R>,
    is_done: &'a AtomicBool,
    writes: bool,
}

impl<G: Game, W: Hosting, J: Naming, M: Home, R: Clock + Wait> Pair<Pass<WorldBook<W>, J>>
    for CopyAndReads<'_, G, W, J, M, R> {
    ghost use Rattle.std.specs.Prelude.{◌≡◌};

    ghost ready = { λ pair. W.opened.rules ≡ G.rules pair.desk.now.game.now };

    fn one(&self, pass: &mut Pass<WorldBook<W>, J>) -> Option<u64> {
        let told = if self.writes {
            self.desk.written_anew(pass)
        } else {
            self.desk.copied(pass)
        };
        self.is_done.store(true, Ordering::SeqCst);
        told
    }

    fn other(&self, pass: &mut Pass<WorldBook<W>, J>) -> Option<u64> {
        self.desk.longest_read(pass, self.is_done)
    }
}

impl<
    G: Game + Sync,
    W: Hosting + Send + Sync,
    J: Naming + Send + Sync,
    M: Home + Send,
    R: Clock + Threads + Wait + Sync,
> Desk<'_, G, W, J, M, R> {
    /// All jobs behind the first run, by a worker for each pass.
    pub(crate) fn tasks(&self, passes: &mut [Pass<WorldBook<W>, J>]) -> Option<u64>
        requires rules { W.opened.rules ≡ G.rules self.now.game.now }
    {
        self.commit_next(passes.first_mut()?)?;
        let start = Instant::now(self.rt).ok()?;
        self.work_due(passes)?;
        nanoseconds(self.rt, &start)
    }

    /// All jobs that are due, by a worker for each pass.
    fn work_due(&self, passes: &mut [Pass<WorldBook<W>, J>]) -> Option<()>
        requires rules { W.opened.rules ≡ G.rules self.now.game.now }
    {
        match work_all(self.rt, self.alloc, self.host, passes, self.game, &OpenGate) {
            Worked::Idle => Some(()),
            _ => None,
        }
    }

    /// All jobs that are due some milliseconds later, by a worker for each pass, behind those that are due at once.
    pub(crate) fn timed_rewrites(&self, passes: &mut [Pass<WorldBook<W>, J>]) -> Option<u64>
        requires rules { W.opened.rules ≡ G.rules self.now.game.now }
    {
        self.commit_next(passes.first_mut()?)?;
        self.work_due(passes)?;
        let start = Instant::now(self.rt).ok()?;
        self.host
            .tick(self.rt, passes.first_mut()?, TIMED_REWRITES)
            .ok()?;
        self.work_due(passes)?;
        nanoseconds(self.rt, &start)
    }

    /// So many reads by the other pass behind the first run, while the sync of a commit is held.
    pub(crate) fn reads_beside_hold(
        &self,
        one: &mut Pass<WorldBook<W>, J>,
        other: &mut Pass<WorldBook<W>, J>,
        hold: &AtomicU64,
        reads: u32,
    ) -> Option<u64>
        requires rules { W.opened.rules ≡ G.rules self.now.game.now }
    {
        self.commit_next(one)?;
        hold.store(HOLD, Ordering::SeqCst);
        let pair = HoldAndReads {
            desk: self,
            hold,
            reads,
        };
        let (_, told) = both(self.rt, &pair, one, other)?;
        Some(told)
    }

    /// The nanoseconds of a copy of the world, or of the store that is written anew, and those of the longest read by the
    /// other pass beside it.
    fn copy_and_reads(
        &self,
        one: &mut Pass<WorldBook<W>, J>,
        other: &mut Pass<WorldBook<W>, J>,
        writes: bool,
    ) -> Option<(u64, u64)>
        requires rules { W.opened.rules ≡ G.rules self.now.game.now }
    {
        let is_done = AtomicBool::new(false);
        let pair = CopyAndReads {
            desk: self,
            is_done: &is_done,
            writes,
        };
        both(self.rt, &pair, one, other)
    }

    /// The longest of the reads by the other pass while the store is written anew, behind so many logins, in thousandths of
    /// the second copy of the world, beside which that pass reads too.
    pub(crate) fn checkpoint_read(
        &self,
        one: &mut Pass<WorldBook<W>, J>,
        other: &mut Pass<WorldBook<W>, J>,
        logins: u32,
    ) -> Option<u64>
        requires rules { W.opened.rules ≡ G.rules self.now.game.now }
    {
        self.fill(one, logins)?;
        self.copied(one)?;
        let (copy, _) = self.copy_and_reads(one, other, false)?;
        let (_, longest) = self.copy_and_reads(one, other, true)?;
        longest.saturating_mul(1_000).checked_div(copy.max(1))
    }
}
