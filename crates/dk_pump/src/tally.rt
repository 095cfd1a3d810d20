//! How many sessions have ended.
ghost use Rattle.std.specs.Prelude.{◌≡◌, ◌+◌, ◌^◌, ◌<◌, ◌≤◌};

use crate::done::SessionDone;
use dk_edge::Link;
use dk_host::{Hosting, WorldBook};
use dk_turn::{Naming, Pass};
use std::marker::{Model, PhantomData};

/// A number of sessions that have ended on links of one kind. Nothing but `add` and `join` raises it, so it counts such
/// sessions alone. Takes no memory.
#[derive(Drop)]
pub struct Tally<K> {
    number: u64,
    of: PhantomData<K>,
}

impl<K> Model for Tally<K> {
    ghost use Rattle.std.specs.Prelude.{ℕ};

    ghost Value = { ℕ };

    ghost view = { λ t. t.number };
}

impl<K> Tally<K> {
    /// None.
    pub fn new() -> Tally<K>
        ensures { result ≡ 0 }
    {
        Tally {
            number: 0,
            of: PhantomData,
        }
    }

    /// How many.
    pub fn number(&self) -> u64
        ensures { result ≡ self.now }
    {
        self.number
    }

    /// The sessions of both.
    pub fn join(self, other: Tally<K>) -> Tally<K>
        requires { self + other ≤ 2 ^ 62 }
        ensures { result ≡ self + other }
    {
        Tally {
            number: self.number + other.number,
            of: PhantomData,
        }
    }
}

impl<K: Link + Drop> Tally<K> {
    /// One more session. Its pass comes back, and its link is dropped.
    pub fn add<W: Hosting, J: Naming>(
        &mut self,
        done: SessionDone<W, J, K>,
    ) -> Pass<WorldBook<W>, J>
        requires { self.old < 2 ^ 62 }
        ensures number { self.new ≡ self.old + 1 }
        ensures pass { result ≡ done.pass }
    {
        let (_, _, pass, _) = done.into_parts();
        self.number += 1;
        pass
    }
}
