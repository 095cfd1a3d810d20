//! Work on a shared host, which is opened for it on a new store.
ghost use Rattle.std.specs.Prelude.{◌≡◌, ◌<◌, false};
ghost use Rattle.dk_disk.specs.Opening.{NotCalled};
ghost use Rattle.dk_notice.specs.Notices.{nothing_told, said_on};
ghost use Rattle.dk_bench.specs.Hosts.{opened_for};

use crate::beside::REWRITES;
use crate::desk::Desk;
use crate::filler::Filler;
use crate::sheets::Sheets;
use dk_demos::Counters;
use dk_disk::{HoldingHome, Home, MemoryHome};
use dk_game::Game;
use dk_host::{Host, Hosting, OpenedStore, WorldBook, open_store};
use dk_notice::NoticeBoard;
use dk_turn::{Naming, Pass, TurnBuilder};
use std::alloc::Global;
use std::marker::Brand;
use std::sync::atomic::AtomicU64;
use std::sync::{Arc, Wait, ledger};
use std::thread::Threads;
use std::time::Clock;

/// So many objects stand in the world of a login at most.
const LOGIN_OBJECTS: u32 = 1_000;

/// So many logins share the objects over which commits are made, so that worlds of more or fewer objects have as many sessions,
/// names and tasks.
const COMMIT_LOGINS: u32 = 1_000;

/// So many bytes of a journal are enough for a sheet as it is made, and for each time that it is rewritten.
const ROOM_BYTES: u64 = 20_000;

/// A held sync looks so often whether it is let go.
const HELD_TURNS: u64 = 1 << 34;

/// What is timed on a host. The nanoseconds are told, where nothing else is said.
#[derive(Clone, Copy)]
pub enum HostWork {
    /// So many tasks of the counter game by one worker, the store in memory.
    Tasks,
    /// The same, the store in the folder `host`.
    FolderTasks,
    /// 20,000 commits over so many objects, which 1,000 logins share, or as many as there are objects.
    Commits,
    /// So many reads with nothing else at work.
    Reads,
    /// So many reads while the sync of a commit is held.
    HeldReads,
    /// The longest of the reads while a world of so many objects is written anew, in thousandths of a copy of that world.
    CheckpointRead,
    /// So many tasks by one worker, each of which rewrites an object of 16 kB of its own.
    RewritesByOne,
    /// The same by four workers beside one another.
    RewritesByFour,
}

/// The work of this word.
pub fn named(word: &str) -> Option<HostWork> {
    match word {
        "host-tasks" => Some(HostWork::Tasks),
        "host-folder-tasks" => Some(HostWork::FolderTasks),
        "host-commits" => Some(HostWork::Commits),
        "host-reads" => Some(HostWork::Reads),
        "host-held-reads" => Some(HostWork::HeldReads),
        "host-checkpoint-read" => Some(HostWork::CheckpointRead),
        "host-rewrites-by-one" => Some(HostWork::RewritesByOne),
        "host-rewrites-by-four" => Some(HostWork::RewritesByFour),
        _ => None,
    }
}

/// Some work, its number, and the word that can hold the sync of a home in memory.
#[derive(Clone, Copy)]
struct Order<'a> {
    work: HostWork,
    number: u32,
    hold: &'a AtomicU64,
}

/// What is told, or nothing where the disk, memory or the clock is wanting. `folder` is a home in which a folder can be
/// opened.
pub fn on_host<M: Home + Send + Drop, R: AllocGlobal + Clock + Threads + Wait + Sync>(
    rt: &R,
    folder: M,
    work: HostWork,
    number: u32,
) -> Option<u64>
    requires { M.opening folder ≡ NotCalled }
{
    let hold = Arc::new(rt.alloc(), AtomicU64::new(0)).ok()?;
    let order = Order {
        work,
        number,
        hold: &hold,
    };
    match work {
        HostWork::FolderTasks => in_home(rt, &Counters::new(7, number), folder, &order),
        HostWork::Tasks => in_memory(rt, &Counters::new(7, number), &hold, &order),
        HostWork::Reads | HostWork::HeldReads => {
            in_memory(rt, &Counters::new(7, 1), &hold, &order)
        }
        HostWork::Commits => {
            let objects = number / commit_logins(number);
            in_memory(rt, &Filler { objects }, &hold, &order)
        }
        HostWork::CheckpointRead => {
            let objects = number.min(LOGIN_OBJECTS);
            in_memory(rt, &Filler { objects }, &hold, &order)
        }
        HostWork::RewritesByOne | HostWork::RewritesByFour => {
            let game = Sheets {
                sheets: number,
                times: REWRITES,
            };
            in_memory(rt, &game, &hold, &order)
        }
    }
}

fn in_memory<G: Game + Sync, R: AllocGlobal + Clock + Threads + Wait + Sync>(
    rt: &R,
    game: &G,
    hold: &Arc<AtomicU64, Global>,
    order: &Order<'_>,
) -> Option<u64> {
    let alloc = rt.alloc();
    let none = Vec::new(alloc);
    let mut inner = MemoryHome::new(alloc, Vec::new(alloc), Vec::new(alloc), none, false);
    let (calls, bytes) = room_for(order);
    inner.reserve(calls, bytes).ok()?;
    let hold = Arc::try_clone(hold).ok()?;
    in_home(rt, game, HoldingHome::new(inner, hold, HELD_TURNS), order)
}

/// The calls and the bytes for which a home in memory has room before the work begins. Who rewrites sheets is not to wait for
/// the system to give pages; other work makes its room as it goes.
fn room_for(order: &Order<'_>) -> (u64, u64) {
    match order.work {
        HostWork::RewritesByOne | HostWork::RewritesByFour => {
            let records = rewrites(order).saturating_add(order.number as u64);
            (
                records.saturating_mul(8),
                records.saturating_mul(ROOM_BYTES),
            )
        }
        _ => (0, 0),
    }
}

/// Makes a store in a home that is not opened yet, and works on a host of it.
fn in_home<G: Game + Sync, M: Home + Send + Drop, R: AllocGlobal + Clock + Threads + Wait + Sync>(
    rt: &R,
    game: &G,
    mut home: M,
    order: &Order<'_>,
) -> Option<u64>
    requires { M.opening home ≡ NotCalled }
{
    home.open("host").ok()?;
    let store = open_store(rt.alloc(), home, &game.id()).ok()?;
    let commits = ledger::Blank::new(1);
    let places = ledger::Blank::new(1);
    let board = NoticeBoard::new(rt.alloc()).ok()?;
    on_ledgers::<G, Brand, M, R>(rt, game, commits, places, board, store, order)
}

fn on_ledgers<
    G: Game + Sync,
    W: Hosting + Send + Sync,
    M: Home + Send + Drop,
    R: AllocGlobal + Clock + Threads + Wait + Sync,
>(
    rt: &R,
    game: &G,
    commits: ledger::Blank,
    places: ledger::Blank,
    board: NoticeBoard,
    store: OpenedStore<M>,
    order: &Order<'_>,
) -> Option<u64>
    requires commits { (commits.name ≡ W.commits) × (commits.parts ≡ 1) }
    requires places { (places.name ≡ W.places) × (places.parts ≡ 1) }
    requires board { board ≡ said_on W.board nothing_told }
    requires opened { W.opened ≡ opened_for (G.rules game.now) store.durable }
    requires began { M.past store.home ≡ W.began }
    requires first { store.journal.epoch ≡ W.first }
    requires opening { M.opening store.home ≡ W.opening }
    requires counted { M.counted store.home ≡ W.counted }
    requires keeps { W.keeps ≡ false }
{
    let blank = TurnBuilder::new(rt.alloc(), passes_for(order.work)).ok()?;
    on_turn::<G, W, Brand, M, R>(rt, game, blank, commits, places, board, store, order)
}

fn on_turn<
    G: Game + Sync,
    W: Hosting + Send + Sync,
    J: Naming + Send + Sync,
    M: Home + Send + Drop,
    R: AllocGlobal + Clock + Threads + Wait + Sync,
>(
    rt: &R,
    game: &G,
    blank: TurnBuilder<WorldBook<W>>,
    commits: ledger::Blank,
    places: ledger::Blank,
    board: NoticeBoard,
    store: OpenedStore<M>,
    order: &Order<'_>,
) -> Option<u64>
    requires name { blank ≡ J.name }
    requires commits { (commits.name ≡ W.commits) × (commits.parts ≡ 1) }
    requires places { (places.name ≡ W.places) × (places.parts ≡ 1) }
    requires board { board ≡ said_on W.board nothing_told }
    requires opened { W.opened ≡ opened_for (G.rules game.now) store.durable }
    requires began { M.past store.home ≡ W.began }
    requires first { store.journal.epoch ≡ W.first }
    requires opening { M.opening store.home ≡ W.opening }
    requires counted { M.counted store.home ≡ W.counted }
    requires keeps { W.keeps ≡ false }
{
    let alloc = rt.alloc();
    let opened = Host::<W, J, M>::open(alloc, blank, commits, places, board, store, None, false);
    let Ok((host, mut passes)) = opened else {
        return None;
    };
    let desk = Desk {
        rt,
        alloc,
        host: &host,
        game,
    };
    let told = done(&desk, passes.as_mut_slice(), order);
    if host.close(passes).commits < least_commits(order) {
        return None;
    }
    told
}

/// What the work tells.
fn done<
    G: Game + Sync,
    W: Hosting + Send + Sync,
    J: Naming + Send + Sync,
    M: Home + Send + Drop,
    R: Clock + Threads + Wait + Sync,
>(
    desk: &Desk<'_, G, W, J, M, R>,
    passes: &mut [Pass<WorldBook<W>, J>],
    order: &Order<'_>,
) -> Option<u64>
    requires rules { W.opened.rules ≡ G.rules desk.now.game.now }
{
    let number = order.number;
    match order.work {
        HostWork::Tasks | HostWork::FolderTasks => desk.tasks(passes),
        HostWork::RewritesByOne | HostWork::RewritesByFour => desk.timed_rewrites(passes),
        HostWork::Reads => desk.reads_alone(passes.first_mut()?, number),
        HostWork::Commits => desk.commits(passes.first_mut()?, commit_logins(number)),
        HostWork::HeldReads => {
            let (front, back) = passes.split_at_mut(passes.len() / 2);
            desk.reads_beside_hold(front.first_mut()?, back.first_mut()?, order.hold, number)
        }
        HostWork::CheckpointRead => {
            let logins = (number / LOGIN_OBJECTS).max(1);
            let (front, back) = passes.split_at_mut(passes.len() / 2);
            desk.checkpoint_read(front.first_mut()?, back.first_mut()?, logins)
        }
    }
}

/// How many passes there are for the work: one for each thread.
fn passes_for(work: HostWork) -> u32 {
    match work {
        HostWork::Tasks | HostWork::FolderTasks | HostWork::RewritesByOne => 1,
        HostWork::Commits | HostWork::Reads => 1,
        HostWork::HeldReads | HostWork::CheckpointRead => 2,
        HostWork::RewritesByFour => 4,
    }
}

/// How many logins share so many objects where commits are timed.
fn commit_logins(objects: u32) -> u32
    ensures { 0 < result }
{
    objects.clamp(1, COMMIT_LOGINS)
}

/// So many commits are made at least.
fn least_commits(order: &Order<'_>) -> u64 {
    match order.work {
        HostWork::Tasks | HostWork::FolderTasks => (order.number as u64).saturating_add(1),
        HostWork::RewritesByOne | HostWork::RewritesByFour => rewrites(order).saturating_add(1),
        _ => 1,
    }
}

/// How often sheets are rewritten in all.
fn rewrites(order: &Order<'_>) -> u64 {
    (order.number as u64).saturating_mul(REWRITES)
}
