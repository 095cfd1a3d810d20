//! The game run on a shared host until nothing is left to run, and its counters read.
ghost use Rattle.std.specs.Prelude.{◌≡◌, ◌+◌, ◌<◌, ◌≤◌, [], None, false, length, IfOk};
ghost use Rattle.dk_types.specs.declared.limits.TheConstants.{PASSES_MOST_COUNT, TASKS_MOST_COUNT};
ghost use Rattle.dk_model.specs.DurableWorlds.{empty_world};
ghost use Rattle.dk_notice.specs.Notices.{nothing_told, said_on};
ghost use Rattle.dk_play_laws.specs.Seen.{AreBehind, AreNumbered};
ghost use Rattle.dk_core.specs.Listings.{world_of};
ghost use Rattle.dk_demos.specs.CountersTotals.{AreOfCounters};
ghost use Rattle.darkstar.specs.StressText.{plain_counts};
ghost use Rattle.darkstar.specs.Tallies.{counters_on, IsTallied};

use super::tallies::read_counters;
use dk_demos::Counters;
use dk_disk::Home;
use dk_host::{Host, Hosting, OpenedStore, WorldBook};
use dk_notice::NoticeBoard;
use dk_turn::{Naming, Pass, TurnBuilder};
use dk_types::NoMemory;
use dk_workers::{Gate, drain};
use std::alloc::Global;
use std::marker::Brand;
use std::sync::{Wait, ledger};
use std::thread::Threads;

/// What the tasks came to: how many commits there are, and the counts of the counters, in order.
#[derive(Drop)]
pub(crate) struct Totals {
    pub(crate) commits: u64,
    pub(crate) counts: Vec<u64>,
}

// The workers and then the main pass work until nothing is left to run, and the main pass reads the counters. A fault of the
// home, which is one in memory, is want of room.
fn drain_and_read<
    W: Hosting + Send + Sync,
    J: Naming + Send + Sync,
    M: Home + Send,
    T: Gate + Sync,
    R: Threads + Wait + Sync,
>(
    rt: &R,
    alloc: Global,
    host: &Host<W, J, M>,
    main: &mut Pass<WorldBook<W>, J>,
    workers: &mut [Pass<WorldBook<W>, J>],
    game: &Counters,
    gate: &T,
) -> Result<Vec<u64>, NoMemory>
    requires counters { AreOfCounters game.now.seed game.now.tasks W.opened }
    requires count { J.name.passes ≡ length workers.old + 1 }
    requires numbered { AreNumbered 0 workers.old }
    requires number { main.old.number ≡ length workers.old }
    requires behind { AreBehind workers.old main.old.front }
    requires fresh { main.old.front ≡ [] }
    ensures tallied { IfOk result (λ counts. IsTallied W.opened workers.new main.new counts.items) }
    ensures size { length workers.new ≡ length workers.old }
{
    match drain(rt, alloc, host, main, workers, game, gate) {
        Ok(()) => read_counters(rt, alloc, host, main),
        Err(_) => Err(NoMemory),
    }
}

// Opens a host on the store, runs the game on it, and closes it.
fn run_on_turn<
    W: Hosting + Send + Sync,
    J: Naming + Send + Sync,
    M: Home + Drop + Send,
    T: Gate + Sync,
    R: Threads + Wait + Sync,
>(
    rt: &R,
    alloc: Global,
    blank: TurnBuilder<WorldBook<W>>,
    commits: ledger::Blank,
    places: ledger::Blank,
    board: NoticeBoard,
    game: &Counters,
    store: OpenedStore<M>,
    gate: &T,
) -> Result<Totals, NoMemory>
    requires name { blank ≡ J.name }
    requires passes { 0 < J.name.passes }
    requires commits { (commits.name ≡ W.commits) × (commits.parts ≡ 1) }
    requires places { (places.name ≡ W.places) × (places.parts ≡ 1) }
    requires board { board ≡ said_on W.board nothing_told }
    requires counters { AreOfCounters game.now.seed game.now.tasks W.opened }
    requires durable { world_of store.durable ≡ W.opened.durable }
    requires budget { W.opened.budget ≡ None }
    requires began { M.past store.home ≡ W.began }
    requires first { store.journal.epoch ≡ W.first }
    requires opening { M.opening store.home ≡ W.opening }
    requires counted { M.counted store.home ≡ W.counted }
    requires keeps { W.keeps ≡ false }
    ensures commits { IfOk result (λ totals. totals.commits ≡ game.now.tasks + 1) }
    ensures counts { IfOk result (λ totals. totals.counts.items ≡ plain_counts game.now.seed game.now.tasks) }
{
    let opened = Host::<W, J, M>::open(alloc, blank, commits, places, board, store, None, false);
    let (host, mut passes) = match opened {
        Ok(opened) => opened,
        Err(_) => return Err(NoMemory),
    };
    let Some(mut main) = passes.pop() else {
        unreachable!();
    };
    let read = drain_and_read(
        rt,
        alloc,
        &host,
        &mut main,
        passes.as_mut_slice(),
        game,
        gate,
    );
    passes.push_reserved(main);
    let closed = host.close(passes);
    let counts = read?;
    Ok(Totals {
        commits: closed.commits,
        counts,
    })
}

// The same, where the host's ledgers have their names.
fn run_on_ledgers<
    W: Hosting + Send + Sync,
    M: Home + Drop + Send,
    T: Gate + Sync,
    R: Threads + Wait + Sync,
>(
    rt: &R,
    alloc: Global,
    commits: ledger::Blank,
    places: ledger::Blank,
    board: NoticeBoard,
    game: &Counters,
    store: OpenedStore<M>,
    workers: u32,
    gate: &T,
) -> Result<Totals, NoMemory>
    requires workers { workers < PASSES_MOST_COUNT }
    requires few { game.now.tasks ≤ TASKS_MOST_COUNT }
    requires empty { world_of store.durable ≡ empty_world }
    requires commits { (commits.name ≡ W.commits) × (commits.parts ≡ 1) }
    requires places { (places.name ≡ W.places) × (places.parts ≡ 1) }
    requires board { board ≡ said_on W.board nothing_told }
    requires opened { W.opened ≡ counters_on game.now.seed game.now.tasks store.durable }
    requires began { M.past store.home ≡ W.began }
    requires first { store.journal.epoch ≡ W.first }
    requires opening { M.opening store.home ≡ W.opening }
    requires counted { M.counted store.home ≡ W.counted }
    requires keeps { W.keeps ≡ false }
    ensures commits { IfOk result (λ totals. totals.commits ≡ game.now.tasks + 1) }
    ensures counts { IfOk result (λ totals. totals.counts.items ≡ plain_counts game.now.seed game.now.tasks) }
{
    let Ok(blank) = TurnBuilder::new(alloc, workers + 1) else {
        return Err(NoMemory);
    };
    run_on_turn::<W, Brand, M, T, R>(rt, alloc, blank, commits, places, board, game, store, gate)
}

/// Runs the game on a store of the empty world, with so many workers, until nothing is left to run.
pub(crate) fn run_store<M: Home + Drop + Send, T: Gate + Sync, R: Threads + Wait + Sync>(
    rt: &R,
    alloc: Global,
    game: &Counters,
    store: OpenedStore<M>,
    workers: u32,
    gate: &T,
) -> Result<Totals, NoMemory>
    requires workers { workers < PASSES_MOST_COUNT }
    requires few { game.now.tasks ≤ TASKS_MOST_COUNT }
    requires empty { world_of store.durable ≡ empty_world }
    ensures commits { IfOk result (λ totals. totals.commits ≡ game.now.tasks + 1) }
    ensures counts { IfOk result (λ totals. totals.counts.items ≡ plain_counts game.now.seed game.now.tasks) }
{
    let commits = ledger::Blank::new(1);
    let places = ledger::Blank::new(1);
    let Ok(board) = NoticeBoard::new(alloc) else {
        return Err(NoMemory);
    };
    run_on_ledgers::<Brand, M, T, R>(
        rt, alloc, commits, places, board, game, store, workers, gate,
    )
}
