//! A host of a play: it is opened on a store, asked, and closed.
ghost use Rattle.std.specs.Prelude.{◌≡◌, false};
ghost use Rattle.dk_notice.specs.Notices.{nothing_told, said_on};
ghost use Rattle.dk_host_tests.specs.Hosts.{opened_on};

use crate::stage::Stage;
use dk_disk::Home;
use dk_game::Game;
use dk_host::{Closed, Host, Hosting, OpenedStore, WorldBook};
use dk_notice::NoticeBoard;
use dk_turn::{Naming, TurnBuilder};
use std::alloc::Global;
use std::marker::Brand;
use std::sync::atomic::AtomicU64;
use std::sync::{Wait, ledger};
use std::thread::Threads;

/// What a host answered, and what is left of it.
#[derive(Drop)]
pub struct Ended<M> {
    pub answers: Vec<String>,
    pub closed: Closed<M>,
}

/// Opens a host of a game on a store, asks it the rows and closes it. None where memory was refused.
pub fn host<G: Game + Sync, M: Home + Send + Drop, R: Threads + Wait + Sync>(
    rt: &R,
    alloc: Global,
    game: &G,
    word: &AtomicU64,
    store: OpenedStore<M>,
    rows: &[String],
) -> Option<Ended<M>> {
    let commits = ledger::Blank::new(1);
    let places = ledger::Blank::new(1);
    let board = NoticeBoard::new(alloc).ok()?;
    on_ledgers::<G, Brand, M, R>(rt, alloc, game, word, commits, places, board, store, rows)
}

fn on_ledgers<
    G: Game + Sync,
    W: Hosting + Send + Sync,
    M: Home + Send + Drop,
    R: Threads + Wait + Sync,
>(
    rt: &R,
    alloc: Global,
    game: &G,
    word: &AtomicU64,
    commits: ledger::Blank,
    places: ledger::Blank,
    board: NoticeBoard,
    store: OpenedStore<M>,
    rows: &[String],
) -> Option<Ended<M>>
    requires commits { (commits.name ≡ W.commits) × (commits.parts ≡ 1) }
    requires places { (places.name ≡ W.places) × (places.parts ≡ 1) }
    requires board { board ≡ said_on W.board nothing_told }
    requires opened { W.opened ≡ opened_on (G.rules game.now) store.durable }
    requires began { M.past store.home ≡ W.began }
    requires first { store.journal.epoch ≡ W.first }
    requires opening { M.opening store.home ≡ W.opening }
    requires counted { M.counted store.home ≡ W.counted }
    requires keeps { W.keeps ≡ false }
{
    let Ok(blank) = TurnBuilder::new(alloc, 2) else {
        return None;
    };
    on_turn::<G, W, Brand, M, R>(
        rt, alloc, game, word, blank, commits, places, board, store, rows,
    )
}

fn on_turn<
    G: Game + Sync,
    W: Hosting + Send + Sync,
    J: Naming + Send + Sync,
    M: Home + Send + Drop,
    R: Threads + Wait + Sync,
>(
    rt: &R,
    alloc: Global,
    game: &G,
    word: &AtomicU64,
    blank: TurnBuilder<WorldBook<W>>,
    commits: ledger::Blank,
    places: ledger::Blank,
    board: NoticeBoard,
    store: OpenedStore<M>,
    rows: &[String],
) -> Option<Ended<M>>
    requires name { blank ≡ J.name }
    requires commits { (commits.name ≡ W.commits) × (commits.parts ≡ 1) }
    requires places { (places.name ≡ W.places) × (places.parts ≡ 1) }
    requires board { board ≡ said_on W.board nothing_told }
    requires opened { W.opened ≡ opened_on (G.rules game.now) store.durable }
    requires began { M.past store.home ≡ W.began }
    requires first { store.journal.epoch ≡ W.first }
    requires opening { M.opening store.home ≡ W.opening }
    requires counted { M.counted store.home ≡ W.counted }
    requires keeps { W.keeps ≡ false }
{
    let opened = Host::<W, J, M>::open(alloc, blank, commits, places, board, store, None, false);
    let Ok((host, mut passes)) = opened else {
        return None;
    };
    let stage = Stage {
        rt,
        alloc,
        host: &host,
        game,
        word,
    };
    let answers = stage.answers(passes.as_mut_slice(), rows);
    Some(Ended {
        answers,
        closed: host.close(passes),
    })
}
