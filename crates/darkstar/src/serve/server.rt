//! What the members of a server's crew share.
ghost use Rattle.std.specs.Prelude.{◌≡◌, IfErr};
ghost use Rattle.darkstar.specs.Served.{HasWorkCause};

use super::counting::MemberDone;
use super::gate::ServerGate;
use super::helping::Helping;
use super::verdict::Verdict;
use dk_disk::Home;
use dk_edge::{Clock, Link, Listener};
use dk_game::Game;
use dk_host::{Host, Hosting, WorldBook};
use dk_pump::{Door, Doorway, Help, Place, PlaceEnd, keep_time};
use dk_turn::{Naming, Pass, Waking};
use dk_workers::{Worked, serve_jobs, work_next};
use std::alloc::{AllocGlobal, Global};
use std::marker::Model;
use std::mem;
use std::random::RandomSource;
use std::sync::Wait;

/// How often the thread of a session asks for a job at most before it looks at its link again.
const HELPED_JOBS_COUNT: u32 = 16;

/// A host and the door of its server, with the game, the clock and the gate.
#[derive(Drop)]
pub(crate) struct Server<
    'a,
    'n,
    W: Hosting,
    J: Naming,
    M: Home,
    L: Listener,
    D: Doorway,
    C: Clock,
    G: Game,
    T: ServerGate,
    R: Wait,
> {
    pub(crate) rt: &'a R,
    pub(crate) alloc: Global,
    pub(crate) host: &'a Host<W, J, M>,
    pub(crate) door: Door<'n, L, D>,
    pub(crate) clock: &'a C,
    pub(crate) game: &'a G,
    pub(crate) gate: &'a T,
    pub(crate) helping: Helping,
}

impl<
    'a,
    'n,
    W: Hosting,
    J: Naming,
    M: Home,
    L: Listener,
    D: Doorway,
    C: Clock,
    G: Game,
    T: ServerGate,
    R: Wait,
> Model for Server<'a, 'n, W, J, M, L, D, C, G, T, R> {
    ghost use Rattle.std.specs.Prelude.{◌≡◌};

    ghost Value = { Unit {0} };

    ghost view = { λ _. tt };

    ghost invariant = { λ s. W.opened.rules ≡ G.rules s.game.now };
}

impl<
    'a,
    'n,
    W: Hosting,
    J: Naming,
    M: Home,
    L: Listener,
    D: Doorway,
    C: Clock,
    G: Game,
    T: ServerGate,
    R: Wait,
> Server<'a, 'n, W, J, M, L, D, C, G, T, R> {
    /// Ticks until the server is ending.
    pub(crate) fn tick(&self, mut pass: Pass<WorldBook<W>, J>) -> MemberDone<D, L::Whole> {
        let ticked = keep_time(
            self.rt,
            self.host,
            &mut pass,
            self.clock,
            self.door.ending(),
        );
        let verdict = match ticked {
            Ok(()) => Verdict::good(),
            Err(_) => {
                self.door.end();
                Verdict::no_memory()
            }
        };
        self.tell(&verdict);
        MemberDone {
            verdict,
            count: None,
        }
    }

    /// Works until the server is ending.
    pub(crate) fn work(
        &self,
        number: u32,
        mut pass: Pass<WorldBook<W>, J>,
    ) -> MemberDone<D, L::Whole> {
        let worked = serve_jobs(
            self.rt,
            self.alloc,
            self.host,
            &mut pass,
            self.game,
            self.gate,
            number,
            self.door.ending(),
        );
        let verdict = Verdict::of_worker(worked);
        self.tell(&verdict);
        MemberDone {
            verdict,
            count: None,
        }
    }

    // Tells the gate of a fault that ends the workers.
    fn tell(&self, verdict: &Verdict) {
        if let Some(fault) = verdict.fault() {
            self.gate.give_up(fault);
        }
    }
}

impl<
    'a,
    'n,
    W: Hosting,
    J: Naming,
    M: Home,
    K: Link + Drop,
    L: Listener<Whole = K>,
    D: Doorway,
    C: Clock,
    G: Game,
    T: ServerGate,
    R: Wait + RandomSource + AllocGlobal,
> Server<'a, 'n, W, J, M, L, D, C, G, T, R> {
    /// Serves sessions, as long as there are links for them, and runs jobs between, by a pass of their own.
    pub(crate) fn serve(
        &self,
        place: Place<W, J, D, K>,
        pass: Pass<WorldBook<W>, J>,
    ) -> MemberDone<D, K> {
        let mut helper = Helper {
            server: self,
            pass,
            verdict: Verdict::good(),
        };
        let served = place.serve(self.rt, self.alloc, self.host, &self.door, &mut helper);
        let Helper {
            server: _,
            pass: _,
            verdict,
        } = helper;
        match served {
            Some(done) => {
                let end = Verdict::of_place(done.end);
                if let PlaceEnd::Exhausted { .. } = done.end {
                    self.tell(&end);
                }
                let (_, count) = done.place.into_parts();
                MemberDone {
                    verdict: verdict.or(end),
                    count: Some(count),
                }
            }
            None => MemberDone {
                verdict: verdict.or(Verdict::no_memory()),
                count: None,
            },
        }
    }
}

/// The thread of a place as a worker, with a pass of its own.
#[derive(Drop)]
struct Helper<
    's,
    'a,
    'n,
    W: Hosting,
    J: Naming,
    M: Home,
    L: Listener,
    D: Doorway,
    C: Clock,
    G: Game,
    T: ServerGate,
    R: Wait,
> {
    server: &'s Server<'a, 'n, W, J, M, L, D, C, G, T, R>,
    pass: Pass<WorldBook<W>, J>,
    // What its jobs came to.
    verdict: Verdict,
}

impl<
    's,
    'a,
    'n,
    W: Hosting,
    J: Naming,
    M: Home,
    L: Listener,
    D: Doorway,
    C: Clock,
    G: Game,
    T: ServerGate,
    R: Wait,
> Helper<'s, 'a, 'n, W, J, M, L, D, C, G, T, R> {
    // Claims a job and runs it until it is committed. Where it is the last for which its thread asks, a worker is woken for the rest.
    fn run_next(&mut self, is_last: bool) -> Result<(), Worked>
        ensures { IfErr result HasWorkCause }
    {
        let server = self.server;
        let waking = if is_last { Waking::One } else { Waking::Nobody };
        self.pass.set_waking(waking);
        work_next(
            server.rt,
            server.alloc,
            server.host,
            &mut self.pass,
            server.game,
            server.gate,
            0,
        )
    }
}

impl<
    's,
    'a,
    'n,
    W: Hosting,
    J: Naming,
    M: Home,
    L: Listener,
    D: Doorway,
    C: Clock,
    G: Game,
    T: ServerGate,
    R: Wait,
> Help for Helper<'s, 'a, 'n, W, J, M, L, D, C, G, T, R> {
    /// Runs some jobs, as long as there are any. Where another thread is at it, that goes on with what this one would run.
    /// Another answer ends the server, and the first is kept.
    fn help(&mut self) {
        let server = self.server;
        for left in (0..HELPED_JOBS_COUNT).rev() {
            if !server.helping.enter() {
                return;
            }
            let is_last = left == 0;
            // Behind its last asking this thread does not look for what others left to it, so they can enter from here on.
            if is_last {
                server.helping.leave();
            }
            let worked = self.run_next(is_last);
            if !is_last {
                server.helping.leave();
            }
            match worked {
                Ok(()) => {}
                Err(Worked::Idle) => {
                    // Whose step came before this one left could not enter.
                    if !server.host.has_news(&self.pass) {
                        return;
                    }
                }
                Err(end) => {
                    server.door.end();
                    let verdict = Verdict::of_worker(end);
                    server.tell(&verdict);
                    let first = mem::replace(&mut self.verdict, Verdict::good());
                    self.verdict = first.or(verdict);
                    return;
                }
            }
        }
    }
}
