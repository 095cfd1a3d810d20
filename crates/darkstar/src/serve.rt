//! A server on a store: sessions over a listener's links, workers and a ticker, beside one another.
//!
//! It runs what can be run at the clock's moment, and binds its port. Then a crew does the rest: a ticker tells the host the
//! time, workers run jobs, and each place takes a link at the door and serves its session, one after another; between two
//! looks at its link, the thread of a place runs jobs too, one thread of these at a time. What they know together is the one
//! history of the host; how many links were given and how many sessions have ended, a ledger ties.
ghost use Rattle.std.specs.Prelude.{◌≡◌, ◌⊎◌, ◌+◌, ◌*◌, ◌≤◌, false};
ghost use Rattle.dk_edge.specs.Listening.{IsUncalled};
ghost use Rattle.dk_notice.specs.Notices.{nothing_told, said_on};
ghost use Rattle.darkstar.specs.Served.{IsServedOn, IsUnserved, links_of, served_on};

mod closing;
mod counting;
mod crew;
mod gate;
mod helping;
mod running;
mod server;
mod verdict;

use closing::serve_on_turn;
use dk_disk::Home;
use dk_edge::{Clock, Link, Listener, Sink, Source, Spawner};
use dk_game::Game;
use dk_host::{Hosting, OpenedStore};
use dk_notice::NoticeBoard;
use dk_pump::Tally;
use dk_turn::TurnBuilder;
pub use gate::ServerGate;
use std::alloc::{AllocGlobal, Global};
use std::marker::Brand;
use std::random::RandomSource;
use std::sync::{Wait, ledger};
use std::thread::Threads;
pub use verdict::ServeFault;

/// With what a server is run.
#[derive(Clone, Copy)]
pub struct ServeTerms {
    /// At which port of the local host it listens.
    pub port: u16,
    /// How many workers run jobs, at most 64.
    pub workers: u8,
    /// How many sessions there are at one time, at most 256.
    pub clients: u16,
    /// How many links are to be served, if there is an end.
    pub sessions: Option<u64>,
    pub(crate) ghost few: { (workers ≤ 64) × (clients ≤ 256) },
}

impl ServeTerms {
    /// How many links are to be served, or 0 where there is no end.
    pub(crate) fn most(self) -> u64
        ensures { result ≡ links_of self.sessions }
    {
        match self.sessions {
            Some(most) => most,
            None => 0,
        }
    }

    /// How many passes the host has: of the workers, two of each place, the ticker's and the caller's.
    fn passes(self) -> u32
        ensures { result ≡ self.workers + 2 * self.clients + 2 }
    {
        u32::from(self.workers) + 2 * u32::from(self.clients) + 2
    }
}

/// What a server leaves: the home of its store, whether it did all that it was to do, and how many sessions have ended.
#[derive(Drop)]
pub struct Served<M, K> {
    pub home: M,
    pub outcome: Result<(), ServeFault>,
    pub served: Tally<K>,
}

// The same, where the host's ledgers have their names.
fn serve_on_ledgers<
    W: Hosting + Send + Sync,
    M: Home + Send,
    K: Link + Send + Drop,
    I: Source + Send,
    O: Sink + Send,
    L: Listener<In = I, Out = O, Whole = K> + Send,
    C: Clock + Sync,
    P: Spawner,
    G: Game + Sync,
    T: ServerGate + Sync,
    R: Threads + Wait + RandomSource + AllocGlobal + Sync,
>(
    rt: &R,
    alloc: Global,
    commits: ledger::Blank,
    places: ledger::Blank,
    board: NoticeBoard,
    game: &G,
    store: OpenedStore<M>,
    before: u64,
    net: &mut L,
    clock: &C,
    spawner: &mut P,
    gate: &T,
    terms: ServeTerms,
) -> Served<M, K>
    requires unbound { IsUncalled (L.listening net.old) }
    requires commits { (commits.name ≡ W.commits) × (commits.parts ≡ 1) }
    requires places { (places.name ≡ W.places) × (places.parts ≡ 1) }
    requires board { board ≡ said_on W.board nothing_told }
    requires opened { W.opened ≡ served_on (G.rules game.now) store.durable }
    requires began { M.past store.home ≡ W.began }
    requires first { store.journal.epoch ≡ W.first }
    requires opening { M.opening store.home ≡ W.opening }
    requires counted { M.counted store.home ≡ W.counted }
    requires before { before ≡ W.counted }
    requires keeps { W.keeps ≡ false }
    ensures serves { IsUnserved store.home result.home result.served result.outcome ⊎ IsServedOn W.opened M.tells W.began (M.past result.home) before (M.counted result.home) (L.counted net.old) (L.counted net.new) (P.counted spawner.old) (P.counted spawner.new) terms.port (links_of terms.sessions) (L.listening net.old) (L.listening net.new) result.served result.outcome }
    ensures opening { M.opening result.home ≡ W.opening }
{
    match TurnBuilder::new(alloc, terms.passes()) {
        Ok(blank) => serve_on_turn::<W, Brand, M, K, _, _, L, C, P, G, T, R>(
            rt, alloc, blank, commits, places, board, game, store, before, net, clock, spawner,
            gate, terms,
        ),
        Err(_) => Served {
            home: store.into_home(),
            outcome: Err(ServeFault::NoMemory),
            served: Tally::new(),
        },
    }
}

/// Serves on a store. `before` is the home's count of faults of before.
pub fn serve_store<
    M: Home + Send,
    K: Link + Send + Drop,
    I: Source + Send,
    O: Sink + Send,
    L: Listener<In = I, Out = O, Whole = K> + Send,
    C: Clock + Sync,
    P: Spawner,
    G: Game + Sync,
    T: ServerGate + Sync,
    R: Threads + Wait + RandomSource + AllocGlobal + Sync,
>(
    rt: &R,
    alloc: Global,
    game: &G,
    store: OpenedStore<M>,
    before: u64,
    net: &mut L,
    clock: &C,
    spawner: &mut P,
    gate: &T,
    terms: ServeTerms,
) -> Served<M, K>
    requires unbound { IsUncalled (L.listening net.old) }
    requires counted { M.counted store.home ≡ before }
    ensures serves { IsUnserved store.home result.home result.served result.outcome ⊎ IsServedOn (served_on (G.rules game.now) store.durable) M.tells (M.past store.home) (M.past result.home) before (M.counted result.home) (L.counted net.old) (L.counted net.new) (P.counted spawner.old) (P.counted spawner.new) terms.port (links_of terms.sessions) (L.listening net.old) (L.listening net.new) result.served result.outcome }
    ensures opening { M.opening result.home ≡ M.opening store.home }
{
    let commits = ledger::Blank::new(1);
    let places = ledger::Blank::new(1);
    let Ok(board) = NoticeBoard::new(alloc) else {
        return Served {
            home: store.into_home(),
            outcome: Err(ServeFault::NoMemory),
            served: Tally::new(),
        };
    };
    serve_on_ledgers::<Brand, M, K, _, _, L, C, P, G, T, R>(
        rt, alloc, commits, places, board, game, store, before, net, clock, spawner, gate, terms,
    )
}
