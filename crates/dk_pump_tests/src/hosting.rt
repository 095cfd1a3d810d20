//! A host of a test's own, on which a scene is played.
ghost use Rattle.std.specs.Prelude.{◌≡◌};
ghost use Rattle.dk_disk.specs.Memory.{past_of};
ghost use Rattle.dk_notice.specs.Notices.{nothing_told, said_on};
ghost use Rattle.dk_pump_tests.specs.Hosts.{opened_for};

use dk_disk::{Home, MemoryHome};
use dk_game::Game;
use dk_host::{Host, Hosting, OpenedStore, WorldBook, open_store};
use dk_notice::NoticeBoard;
use dk_turn::{Naming, Pass, TurnBuilder};
use dk_types::GameId;
use dk_workers::{OpenGate, work};
use std::alloc::Global;
use std::marker::Brand;
use std::sync::{Wait, ledger};
use std::test::Fail;

/// How many passes a scene has.
const PASSES_COUNT: u32 = 3;

/// What is done on a host that was opened for it.
pub(crate) trait Scene: Drop {
    /// What came of it.
    type Told;

    fn play<G: Game, W: Hosting, J: Naming, R: Wait>(
        self,
        rt: &R,
        alloc: Global,
        game: &G,
        host: Host<W, J, MemoryHome>,
        passes: Vec<Pass<WorldBook<W>, J>>,
    ) -> Result<Self::Told, Fail>
        requires rules { W.opened.rules ≡ G.rules game.now };
}

/// The three passes of a scene.
pub(crate) fn three<W: Hosting, J: Naming>(
    mut passes: Vec<Pass<WorldBook<W>, J>>,
) -> Option<
    (
        Pass<WorldBook<W>, J>,
        Pass<WorldBook<W>, J>,
        Pass<WorldBook<W>, J>,
    ),
> {
    let (one, two) = (passes.pop()?, passes.pop()?);
    Some((one, two, passes.pop()?))
}

/// A worker runs all that it can.
pub(crate) fn drain<G: Game, W: Hosting, J: Naming, M: Home, R: Wait>(
    rt: &R,
    alloc: Global,
    game: &G,
    host: &Host<W, J, M>,
    worker: &mut Pass<WorldBook<W>, J>,
)
    requires rules { W.opened.rules ≡ G.rules game.now }
{
    work(rt, alloc, host, worker, game, &OpenGate, 0);
}

/// Plays a scene on a host of this game, on a store that has just been made. The host keeps its events, or none.
pub(crate) fn play<S: Scene, G: Game, R: Wait>(
    rt: &R,
    alloc: Global,
    game: &G,
    keep: bool,
    scene: S,
) -> Result<S::Told, Fail> {
    let store = new_store(alloc, &game.id())?;
    let commits = ledger::Blank::new(1);
    let places = ledger::Blank::new(1);
    let Ok(board) = NoticeBoard::new(alloc) else {
        return Err(Fail::from("a board"));
    };
    on_ledgers::<S, G, Brand, R>(rt, alloc, game, commits, places, board, store, keep, scene)
}

// A store that has just been made.
fn new_store(alloc: Global, game: &GameId) -> Result<OpenedStore<MemoryHome>, Fail> {
    let none = Vec::new(alloc);
    let mut home = MemoryHome::new(alloc, Vec::new(alloc), Vec::new(alloc), none, false);
    if home.open("store").is_err() {
        return Err(Fail::from("a home"));
    }
    match open_store(alloc, home, game) {
        Ok(store) => Ok(store),
        Err(_) => Err(Fail::from("a store")),
    }
}

fn on_ledgers<S: Scene, G: Game, W: Hosting, R: Wait>(
    rt: &R,
    alloc: Global,
    game: &G,
    commits: ledger::Blank,
    places: ledger::Blank,
    board: NoticeBoard,
    store: OpenedStore<MemoryHome>,
    keep: bool,
    scene: S,
) -> Result<S::Told, Fail>
    requires commits { (commits.name ≡ W.commits) × (commits.parts ≡ 1) }
    requires places { (places.name ≡ W.places) × (places.parts ≡ 1) }
    requires board { board ≡ said_on W.board nothing_told }
    requires opened { W.opened ≡ opened_for (G.rules game.now) store.durable }
    requires began { past_of store.home ≡ W.began }
    requires keep { W.keeps ≡ keep }
    requires epoch { store.journal.epoch ≡ W.first }
    requires opening { store.home.opening ≡ W.opening }
    requires counted { store.home.plan.faults ≡ W.counted }
{
    let Ok(blank) = TurnBuilder::new(alloc, PASSES_COUNT) else {
        return Err(Fail::from("a turn"));
    };
    on_host::<S, G, W, Brand, R>(
        rt, alloc, game, blank, commits, places, board, store, keep, scene,
    )
}

fn on_host<S: Scene, G: Game, W: Hosting, J: Naming, R: Wait>(
    rt: &R,
    alloc: Global,
    game: &G,
    blank: TurnBuilder<WorldBook<W>>,
    commits: ledger::Blank,
    places: ledger::Blank,
    board: NoticeBoard,
    store: OpenedStore<MemoryHome>,
    keep: bool,
    scene: S,
) -> Result<S::Told, Fail>
    requires name { blank ≡ J.name }
    requires commits { (commits.name ≡ W.commits) × (commits.parts ≡ 1) }
    requires places { (places.name ≡ W.places) × (places.parts ≡ 1) }
    requires board { board ≡ said_on W.board nothing_told }
    requires opened { W.opened ≡ opened_for (G.rules game.now) store.durable }
    requires began { past_of store.home ≡ W.began }
    requires keep { W.keeps ≡ keep }
    requires epoch { store.journal.epoch ≡ W.first }
    requires opening { store.home.opening ≡ W.opening }
    requires counted { store.home.plan.faults ≡ W.counted }
{
    let opened = Host::<W, J, MemoryHome>::open(
        alloc, blank, commits, places, board, store, None, keep,
    );
    let Ok((host, passes)) = opened else {
        return Err(Fail::from("a host"));
    };
    scene.play(rt, alloc, game, host, passes)
}
