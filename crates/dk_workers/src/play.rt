//! The play of a script over a shared host, phase by phase: its lines are entered by one pass, workers run jobs until none is
//! left, and each client is handed its messages.
//!
//! No pass sees what the others enter before it meets them. What they know together is the one history of the host, which
//! the transcript tells.
ghost use Rattle.std.specs.Prelude.{◌≡◌, ◌⊎◌, ◌<◌, true};
ghost use Rattle.std.specs.FinSet as sets;
ghost use Rattle.dk_types.specs.declared.limits.TheConstants.{PASSES_MOST_COUNT};
ghost use Rattle.dk_model.specs.Scripts.{AllStand};
ghost use Rattle.dk_notice.specs.Notices.{nothing_told, said_on};
ghost use Rattle.dk_workers.specs.Played.{IsPlayOn, IsUnopened, opened_on};

mod closing;
mod drains;
mod fault;
mod hands;
mod lines;
mod logins;
mod phases;
mod saving;
mod staging;
mod text;

use crate::gate::Gate;
use dk_disk::Home;
use dk_game::Game;
use dk_host::{Hosting, OpenedStore};
use dk_model::Line;
use dk_notice::NoticeBoard;
use dk_script::Script;
use dk_turn::TurnBuilder;
use dk_types::{Blob, Listed};
pub use drains::drain;
pub use fault::PlayFault;
use staging::play_on_turn;
use std::alloc::Global;
use std::marker::Brand;
use std::sync::{Wait, ledger};
use std::thread::Threads;

/// What a play leaves: the home of its store, and the transcript, or why there is none.
#[derive(Drop)]
pub struct Played<M> {
    pub home: M,
    pub text: Result<Blob, PlayFault>,
}

// The same, where the host's ledgers have their names.
fn play_on_ledgers<
    W: Hosting + Send + Sync,
    G: Game + Sync,
    M: Home + Send,
    T: Gate + Sync,
    R: Threads + Wait + Sync,
>(
    rt: &R,
    alloc: Global,
    commits: ledger::Blank,
    places: ledger::Blank,
    board: NoticeBoard,
    game: &G,
    script: &[Listed<Line>],
    store: OpenedStore<M>,
    workers: u32,
    budget: u64,
    asked: bool,
    before: u64,
    gate: &T,
) -> Played<M>
    requires workers { workers < PASSES_MOST_COUNT }
    requires commits { (commits.name ≡ W.commits) × (commits.parts ≡ 1) }
    requires places { (places.name ≡ W.places) × (places.parts ≡ 1) }
    requires board { board ≡ said_on W.board nothing_told }
    requires opened { W.opened ≡ opened_on (G.rules game.now) store.durable budget }
    requires began { M.past store.home ≡ W.began }
    requires first { store.journal.epoch ≡ W.first }
    requires opening { M.opening store.home ≡ W.opening }
    requires counted { M.counted store.home ≡ W.counted }
    requires before { before ≡ W.counted }
    requires keeps { W.keeps ≡ true }
    requires stand { AllStand sets.empty script.now }
    ensures play { IsUnopened store.home result.home result.text ⊎ IsPlayOn W.opened workers asked script.now M.tells W.began (M.past result.home) W.first before (M.counted result.home) result.text }
    ensures opening { M.opening result.home ≡ W.opening }
{
    match TurnBuilder::new(alloc, workers + 1) {
        Ok(blank) => play_on_turn::<W, Brand, G, M, T, R>(
            rt, alloc, blank, commits, places, board, game, script, store, workers, budget, asked,
            before, gate,
        ),
        Err(_) => Played {
            home: store.into_home(),
            text: Err(PlayFault::NoMemory),
        },
    }
}

/// Plays a script on a store, with so many workers and a budget of claims; with `checkpoint` the store is written anew behind
/// the last phase. `before` is the home's count of faults of before.
pub fn play_store<G: Game + Sync, M: Home + Send, T: Gate + Sync, R: Threads + Wait + Sync>(
    rt: &R,
    alloc: Global,
    game: &G,
    script: &Script,
    store: OpenedStore<M>,
    workers: u32,
    budget: u64,
    checkpoint: bool,
    before: u64,
    gate: &T,
) -> Played<M>
    requires workers { workers < PASSES_MOST_COUNT }
    requires stand { AllStand sets.empty script.now.phases }
    requires counted { M.counted store.home ≡ before }
    ensures play { IsUnopened store.home result.home result.text ⊎ IsPlayOn (opened_on (G.rules game.now) store.durable budget) workers checkpoint script.now.phases M.tells (M.past store.home) (M.past result.home) store.journal.epoch before (M.counted result.home) result.text }
    ensures opening { M.opening result.home ≡ M.opening store.home }
{
    let commits = ledger::Blank::new(1);
    let places = ledger::Blank::new(1);
    let Ok(board) = NoticeBoard::new(alloc) else {
        return Played {
            home: store.into_home(),
            text: Err(PlayFault::NoMemory),
        };
    };
    play_on_ledgers::<Brand, G, M, T, R>(
        rt,
        alloc,
        commits,
        places,
        board,
        game,
        script.phases.as_slice(),
        store,
        workers,
        budget,
        checkpoint,
        before,
        gate,
    )
}
