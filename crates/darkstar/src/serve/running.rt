//! A server on an open host: what can be run at once is run, the port is bound, and the crew does the rest.
ghost use Rattle.std.specs.Prelude.{◌≡◌, ◌+◌, ◌*◌, ◌≤◌, None, length};
ghost use Rattle.dk_edge.specs.Listening.{IsUncalled};
ghost use Rattle.dk_edge.specs.declared.listener.Binding.TheVariants.{Bound};
ghost use Rattle.darkstar.specs.Served.{IsAllServed, IsBoundAt, links_of};

use super::ServeTerms;
use super::counting::{Counted, MemberDone, gather, settle};
use super::crew::{Member, Waiting, roles};
use super::gate::ServerGate;
use super::helping::Helping;
use super::server::Server;
use super::verdict::Verdict;
use dk_disk::Home;
use dk_edge::{Clock, Crew, Link, Listener, Sink, Source, Spawner};
use dk_game::Game;
use dk_host::{Host, Hosting, WorldBook};
use dk_pump::{Arrivals, Door, Doorway, LinkCount, Tally};
use dk_turn::{Naming, Pass};
use dk_workers::drain;
use std::alloc::{AllocGlobal, Global};
use std::marker::Brand;
use std::random::RandomSource;
use std::sync::ledger::Share;
use std::sync::{Wait, ledger};
use std::thread::Threads;

/// What a server came to: its verdict, and how many sessions have ended.
#[derive(Drop)]
pub(crate) struct ServerEnd<K> {
    pub(crate) verdict: Verdict,
    pub(crate) served: Tally<K>,
}

impl<K> ServerEnd<K> {
    /// It ended before the crew began.
    fn early(verdict: Verdict) -> ServerEnd<K>
        ensures verdict { result.verdict.fault ≡ verdict.fault }
        ensures served { result.served ≡ 0 }
    {
        ServerEnd {
            verdict,
            served: Tally::new(),
        }
    }
}

/// Runs the crew of a server.
fn run_members<
    W: Hosting + Send + Sync,
    J: Naming + Send + Sync,
    M: Home + Send,
    K: Link + Send + Drop,
    I: Source + Send,
    O: Sink + Send,
    L: Listener<In = I, Out = O, Whole = K> + Send,
    D: Doorway + Send + Sync,
    C: Clock + Sync,
    P: Spawner,
    G: Game + Sync,
    T: ServerGate + Sync,
    R: Threads + Wait + RandomSource + AllocGlobal + Sync,
>(
    server: &Server<'_, '_, W, J, M, L, D, C, G, T, R>,
    passes: Vec<Pass<WorldBook<W>, J>>,
    share: &mut Share<D>,
    terms: ServeTerms,
    spawner: &mut P,
) -> Result<Vec<MemberDone<D, K>>, Verdict>
    requires share { (terms.clients ≤ share.old.parts) × (share.old.amount ≡ 0) }
{
    let Ok(roles) = roles(server.alloc, passes, share, terms) else {
        return Err(Verdict::no_memory());
    };
    let mut members = Vec::new(server.alloc);
    for role in roles {
        if members.push(Member { server, role }).is_err() {
            return Err(Verdict::no_memory());
        }
    }
    match spawner.crew(members, Waiting) {
        Ok(crew) => {
            let Crew { members, own: _ } = crew;
            Ok(members)
        }
        Err(_) => Err(Verdict::net_fault()),
    }
}

/// A server whose listener is bound. The listener comes back.
fn serve_at_door<
    'n,
    W: Hosting + Send + Sync,
    J: Naming + Send + Sync,
    M: Home + Send,
    K: Link + Send + Drop,
    I: Source + Send,
    O: Sink + Send,
    L: Listener<In = I, Out = O, Whole = K> + Send,
    D: Doorway + Send + Sync,
    C: Clock + Sync,
    P: Spawner,
    G: Game + Sync,
    T: ServerGate + Sync,
    R: Threads + Wait + RandomSource + AllocGlobal + Sync,
>(
    rt: &R,
    alloc: Global,
    host: &Host<W, J, M>,
    passes: Vec<Pass<WorldBook<W>, J>>,
    game: &G,
    net: &'n mut L,
    links: ledger::Blank,
    clock: &C,
    spawner: &mut P,
    gate: &T,
    terms: ServeTerms,
) -> Counted<'n, L>
    requires rules { W.opened.rules ≡ G.rules game.now }
    requires lent { net.ghost_name ≡ D.lent }
    requires bound { (L.listening net.old).binding ≡ Bound D.port }
    requires first { (L.listening net.old).given ≡ D.first }
    requires counted { L.counted net.old ≡ D.counted }
    requires most { links_of terms.sessions ≡ D.most }
    requires links { (links.name ≡ D.name) × (links.parts ≡ D.parts) × (D.parts ≡ terms.clients) }
    ensures same { result.net.ghost_name ≡ net.entry.ghost_name }
    ensures bound { (L.listening result.net.now).binding ≡ Bound D.port }
    ensures all { result.verdict.fault ≡ None → IsAllServed D.first D.most result.served (L.listening result.net.now) }
{
    let (book, mut share) = links.open::<D>();
    let places = u64::from(terms.clients);
    let arrivals = Arrivals::new(net, book, terms.most());
    let server = Server {
        rt,
        alloc,
        host,
        door: Door::new(arrivals, places),
        clock,
        game,
        gate,
        helping: Helping::new(),
    };
    let dones = run_members(&server, passes, &mut share, terms, spawner);
    let Server {
        rt: _,
        alloc: _,
        host: _,
        door,
        clock: _,
        game: _,
        gate: _,
        helping: _,
    } = server;
    let mut arrivals = door.into_arrivals();
    let (verdict, count) = match dones {
        Ok(dones) => gather(&mut arrivals, &mut share, dones),
        Err(verdict) => (verdict, LinkCount::empty(&mut share)),
    };
    settle(arrivals, verdict, count, places)
}

// What ties a reference that came back, for the borrow checker, to the one that was lent.
fn take_back<X>(lent: &mut X)
    ensures { lent.new ≡ lent.old }
{
    let _ = lent;
}

/// Runs what can be run at the clock's moment.
fn drain_now<
    W: Hosting + Send + Sync,
    J: Naming + Send + Sync,
    M: Home + Send,
    C: Clock,
    G: Game + Sync,
    T: ServerGate + Sync,
    R: Threads + Wait + Sync,
>(
    rt: &R,
    alloc: Global,
    host: &Host<W, J, M>,
    main: &mut Pass<WorldBook<W>, J>,
    workers: &mut [Pass<WorldBook<W>, J>],
    game: &G,
    clock: &C,
    gate: &T,
) -> Verdict
    requires rules { W.opened.rules ≡ G.rules game.now }
{
    if host.tick(rt, main, clock.now()).is_err() {
        return Verdict::no_memory();
    }
    Verdict::of_drain(drain(rt, alloc, host, main, workers, game, gate))
}

/// A server on a host of so many passes: what can be run is run, the port is bound, and the crew serves.
pub(crate) fn run_server<
    W: Hosting + Send + Sync,
    J: Naming + Send + Sync,
    M: Home + Send,
    K: Link + Send + Drop,
    I: Source + Send,
    O: Sink + Send,
    L: Listener<In = I, Out = O, Whole = K> + Send,
    C: Clock + Sync,
    P: Spawner,
    G: Game + Sync,
    T: ServerGate + Sync,
    R: Threads + Wait + RandomSource + AllocGlobal + Sync,
>(
    rt: &R,
    alloc: Global,
    host: &Host<W, J, M>,
    mut passes: Vec<Pass<WorldBook<W>, J>>,
    game: &G,
    net: &mut L,
    clock: &C,
    spawner: &mut P,
    gate: &T,
    terms: ServeTerms,
) -> ServerEnd<K>
    requires rules { W.opened.rules ≡ G.rules game.now }
    requires unbound { IsUncalled (L.listening net.old) }
    requires passes { length passes.items ≡ terms.workers + 2 * terms.clients + 2 }
    ensures bound { result.verdict.fault ≡ None → IsBoundAt terms.port (L.listening net.new) }
    ensures all { result.verdict.fault ≡ None → IsAllServed (L.listening net.old).given (links_of terms.sessions) result.served (L.listening net.new) }
{
    let Some(mut main) = passes.pop() else {
        unreachable!();
    };
    let count = usize::from(terms.workers);
    let workers = &mut passes.as_mut_slice()[..count];
    let drained = drain_now(rt, alloc, host, &mut main, workers, game, clock, gate);
    if drained.fault().is_some() {
        return ServerEnd::early(drained);
    }
    if net.bind(terms.port).is_err() {
        return ServerEnd::early(Verdict::net_fault());
    }
    let links = ledger::Blank::new(u64::from(terms.clients));
    let Counted {
        net,
        verdict,
        served,
    } = serve_at_door::<W, J, M, K, _, _, L, Brand, C, P, G, T, R>(
        rt, alloc, host, passes, game, net, links, clock, spawner, gate, terms,
    );
    take_back(net);
    ServerEnd { verdict, served }
}
