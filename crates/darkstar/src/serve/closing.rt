//! A server on a host that is opened for it, and closed behind it.
ghost use Rattle.std.specs.Prelude.{◌≡◌, ◌⊎◌, ◌+◌, ◌*◌, None, false};
ghost use Rattle.dk_edge.specs.Listening.{IsUncalled};
ghost use Rattle.dk_notice.specs.Notices.{nothing_told, said_on};
ghost use Rattle.dk_core.specs.Listings.{world_of};
ghost use Rattle.darkstar.specs.Served.{IsOutcome, IsServedOn, IsSound, IsUnserved, links_of};

use super::gate::ServerGate;
use super::running::run_server;
use super::verdict::{Counts, ServeFault, reported};
use super::{ServeTerms, Served};
use dk_disk::Home;
use dk_edge::{Clock, Link, Listener, Sink, Source, Spawner};
use dk_game::Game;
use dk_host::{Host, Hosting, OpenedStore, WorldBook};
use dk_notice::NoticeBoard;
use dk_pump::Tally;
use dk_turn::{Naming, TurnBuilder};
use std::alloc::{AllocGlobal, Global};
use std::random::RandomSource;
use std::sync::{Wait, ledger};
use std::thread::Threads;

/// What the fault, or none, is to who asked for the server. A store that was stopped is a fault of its disk.
fn outcome_of(
    fault: Option<ServeFault>,
    stopped: Option<u64>,
    disk: Counts,
    listener: Counts,
    spawner: Counts,
) -> Result<(), ServeFault>
    requires sound { IsSound fault }
    ensures { IsOutcome fault stopped disk.before disk.after listener.before listener.after spawner.before spawner.after result }
{
    match (fault, stopped) {
        (Some(fault), _) => Err(reported(fault, disk, listener, spawner)),
        (None, Some(_)) => Err(reported(ServeFault::DiskFault, disk, listener, spawner)),
        (None, None) => Ok(()),
    }
}

/// Opens the host, serves, and closes it.
pub(crate) fn serve_on_turn<
    W: Hosting + Send + Sync,
    J: Naming + Send + Sync,
    M: Home + Send,
    K: Link + Send + Drop,
    I: Source + Send,
    O: Sink + Send,
    L: Listener<In = I, Out = O, Whole = K> + Send,
    C: Clock + Sync,
    P: Spawner,
    G: Game + Sync,
    T: ServerGate + Sync,
    R: Threads + Wait + RandomSource + AllocGlobal + Sync,
>(
    rt: &R,
    alloc: Global,
    blank: TurnBuilder<WorldBook<W>>,
    commits: ledger::Blank,
    places: ledger::Blank,
    board: NoticeBoard,
    game: &G,
    store: OpenedStore<M>,
    before: u64,
    net: &mut L,
    clock: &C,
    spawner: &mut P,
    gate: &T,
    terms: ServeTerms,
) -> Served<M, K>
    requires name { blank ≡ J.name }
    requires passes { J.name.passes ≡ terms.workers + 2 * terms.clients + 2 }
    requires unbound { IsUncalled (L.listening net.old) }
    requires commits { (commits.name ≡ W.commits) × (commits.parts ≡ 1) }
    requires places { (places.name ≡ W.places) × (places.parts ≡ 1) }
    requires board { board ≡ said_on W.board nothing_told }
    requires rules { W.opened.rules ≡ G.rules game.now }
    requires durable { world_of store.durable ≡ W.opened.durable }
    requires budget { W.opened.budget ≡ None }
    requires began { M.past store.home ≡ W.began }
    requires first { store.journal.epoch ≡ W.first }
    requires opening { M.opening store.home ≡ W.opening }
    requires counted { M.counted store.home ≡ W.counted }
    requires before { before ≡ W.counted }
    requires keeps { W.keeps ≡ false }
    ensures serves { IsUnserved store.home result.home result.served result.outcome ⊎ IsServedOn W.opened M.tells W.began (M.past result.home) before (M.counted result.home) (L.counted net.old) (L.counted net.new) (P.counted spawner.old) (P.counted spawner.new) terms.port (links_of terms.sessions) (L.listening net.old) (L.listening net.new) result.served result.outcome }
    ensures opening { M.opening result.home ≡ W.opening }
{
    let opened = Host::<W, J, M>::open(alloc, blank, commits, places, board, store, None, false);
    let (host, passes) = match opened {
        Ok(opened) => opened,
        Err(refused) => {
            return Served {
                home: refused.home,
                outcome: Err(ServeFault::NoMemory),
                served: Tally::new(),
            };
        }
    };
    let listened = net.faults();
    let spawned = spawner.faults();
    let ran = run_server(
        rt, alloc, &host, passes, game, net, clock, spawner, gate, terms,
    );
    let closed = host.close(Vec::new(alloc));
    let disk = Counts {
        before,
        after: closed.home.faults(),
    };
    let listener = Counts {
        before: listened,
        after: net.faults(),
    };
    let crews = Counts {
        before: spawned,
        after: spawner.faults(),
    };
    let outcome = outcome_of(ran.verdict.fault(), closed.faults, disk, listener, crews);
    Served {
        home: closed.home,
        outcome,
        served: ran.served,
    }
}
