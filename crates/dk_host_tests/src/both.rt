//! Two threads on one host, and the word by which one of them holds the other's disk.
ghost use Rattle.std.specs.Prelude.{◌≡◌};
ghost use Rattle.std.specs.Thread.{IsSend, IsSync};

use crate::stage::{Stage, TURNS_COUNT};
use dk_disk::Home;
use dk_game::Game;
use dk_host::{Hosting, WorldBook};
use dk_turn::{Naming, Pass};
use std::sync::Wait;
use std::sync::atomic::Ordering;
use std::thread::{Threads, join_mut, yield_now};

/// What the word says: no sync is held, the next is to be, and one is held.
const FREE: u64 = 0;

const HOLD: u64 = 1;

const HELD: u64 = 2;

/// What each of two threads does with its pass.
trait Pair<X> {
    // What they ask for.
    ghost ready: { Self → Type 0 };

    fn answer(&self, asks: &str, pass: &mut X) -> Option<String>
        requires { ready self.now };
}

impl<G: Game, W: Hosting, J: Naming, M: Home, R: Wait> Pair<Pass<WorldBook<W>, J>>
    for Stage<'_, G, W, J, M, R> {
    ghost use Rattle.std.specs.Prelude.{◌≡◌};

    ghost ready = { λ stage. W.opened.rules ≡ G.rules stage.game.now };

    fn answer(&self, asks: &str, pass: &mut Pass<WorldBook<W>, J>) -> Option<String> {
        self.answer_each(pass, asks)
    }
}

// Both at once.
fn answer_both<X: Send, P: Pair<X> + Sync, R: Threads + Sync>(
    rt: &R,
    pair: &P,
    one: &mut X,
    first: &str,
    other: &mut X,
    second: &str,
) -> (Option<String>, Option<String>)
    requires ready { P.ready pair.now }
{
    let mut of_one = || -> Option<String>
        requires { IsSync P.row × IsSend X.row × P.ready pair.now }
    { pair.answer(first, one) };
    let mut of_other = || -> Option<String>
        requires { IsSync P.row × IsSend X.row × P.ready pair.now }
    { pair.answer(second, other) };
    join_mut(rt, &mut of_one, &mut of_other)
}

impl<G: Game, W: Hosting, J: Naming, M: Home, R: Wait> Stage<'_, G, W, J, M, R> {
    /// `hold` lets the next sync be held, `held` waits until it is, and `free` lets all go on.
    pub(crate) fn turn_word(&self, ask: &str) -> Option<String> {
        match ask {
            "hold" => self.word.store(HOLD, Ordering::SeqCst),
            "free" => self.word.store(FREE, Ordering::SeqCst),
            "held" => self.wait_until_held()?,
            _ => return None,
        }
        String::from_str(self.alloc, ask).ok()
    }

    fn wait_until_held(&self) -> Option<()> {
        for _ in 0..TURNS_COUNT {
            if self.word.load(Ordering::SeqCst) == HELD {
                return Some(());
            }
            yield_now();
        }
        None
    }
}

impl<
    G: Game + Sync,
    W: Hosting + Send + Sync,
    J: Naming + Send + Sync,
    M: Home + Send,
    R: Threads + Wait + Sync,
> Stage<'_, G, W, J, M, R> {
    /// `ASK, ASK | ASK, ASK`: what is asked by one thread, and by another at once.
    pub(crate) fn answer_both(
        &self,
        one: &mut Pass<WorldBook<W>, J>,
        first: &str,
        other: &mut Pass<WorldBook<W>, J>,
        second: &str,
    ) -> Option<String>
        requires rules { W.opened.rules ≡ G.rules self.now.game.now }
    {
        let (one, other) = answer_both(self.rt, self, one, first, other, second);
        format!(in self.alloc; "{} | {}", one?, other?).ok()
    }
}
