//! The host: how it is opened and closed.
ghost use Rattle.std.specs.Prelude.{◌≡◌, ◌<◌, ◌≤◌, false, [], IfOk, IfErr, IsTrue};
ghost use Rattle.std.specs.List.{All};
ghost use Rattle.std.specs.FinMap as map;
ghost use Rattle.dk_model.specs.Lawful.{AreLawful};
ghost use Rattle.dk_notice.specs.Notices.{nothing_told, said_on};
ghost use Rattle.dk_model.specs.Legal.{world_after, pass_of, IsFront, IsLegal};
ghost use Rattle.dk_turn.specs.Fronts.{IsDealt};
ghost use Rattle.dk_core.specs.Listings.{world_of};
ghost use Rattle.dk_host.specs.declared.fault.OpenFault.TheVariants.{NoMemory as WantOfMemory};
ghost use Rattle.dk_host.specs.Stores.{EndsAs, IsSameHome};

use crate::book::WorldBook;
use crate::fault::OpenRefused;
use crate::free::FreeStore;
use crate::history::History;
use crate::hosting::{CommitLedger, Hosting, PlaceLedger};
use crate::opened::OpenedStore;
use crate::right::CommitRight;
use crate::standing::Stood;
use crate::store::CommitStore;
use dk_core::Core;
use dk_disk::Home;
use dk_notice::NoticeBoard;
use dk_turn::{GhostList, Naming, Pass, Turn, TurnBuilder};
use dk_types::Event;
use std::alloc::Global;
use std::sync::{Mutex, ledger};

/// A world that threads share, and the store of its commits behind a lock of its own. Who needs both locks takes that of
/// the store first. `W` tells with what it was opened, `J` which one it is, and `M` where its files are.
#[derive(Drop)]
pub struct Host<W: Hosting, J: Naming, M: Home> {
    pub(crate) world: Turn<WorldBook<W>, J>,
    pub(crate) store: Mutex<FreeStore<W, J, M>>,
    pub(crate) alloc: Global,
}

/// What is left of a host: its home, the events that it kept, how many commits its durable world has, and how many tasks
/// are pending.
#[derive(Drop)]
pub struct Closed<M> {
    pub home: M,
    /// The home's count of faults as it stopped the store, if it did.
    pub faults: Option<u64>,
    /// The one history, for contracts alone.
    pub history: GhostList<Event>,
    /// The same in memory, where the host keeps its events, and else nothing.
    pub events: Vec<Event>,
    pub commits: u64,
    pub tasks: u64,
    /// The epoch of the store as it was opened.
    pub first: u64,
    /// Unless the store was stopped, the epoch of the store as it stands.
    pub epoch: u64,
    /// What was told of faults of the home: it confirms each notice that was given with a refusal.
    pub board: NoticeBoard,
}

impl<W: Hosting, J: Naming, M: Home> Host<W, J, M> {
    /// Opens the durable world of a store, with a budget of claims or without, and deals the passes. With `keep` it keeps
    /// its events. It is refused for want of memory alone, and then nothing was written.
    pub fn open(
        alloc: Global,
        blank: TurnBuilder<WorldBook<W>>,
        commits: ledger::Blank,
        places: ledger::Blank,
        board: NoticeBoard,
        store: OpenedStore<M>,
        budget: Option<u64>,
        keep: bool,
    ) -> Result<(Host<W, J, M>, Vec<Pass<WorldBook<W>, J>>), OpenRefused<M>>
        requires name { blank ≡ J.name }
        requires commits { (commits.name ≡ W.commits) × (commits.parts ≡ 1) }
        requires places { (places.name ≡ W.places) × (places.parts ≡ 1) }
        requires board { board ≡ said_on W.board nothing_told }
        requires lawful { AreLawful W.opened.rules }
        requires durable { world_of store.durable ≡ W.opened.durable }
        requires budget { budget ≡ W.opened.budget }
        requires keep { W.keeps ≡ keep }
        requires began { M.past store.home ≡ W.began }
        requires first { store.journal.epoch ≡ W.first }
        requires opening { M.opening store.home ≡ W.opening }
        requires counted { M.counted store.home ≡ W.counted }
        ensures passes { IfOk result (λ opened. IsDealt J.name.passes opened.1.items) }
        ensures refused { IfErr result (λ refused. (refused.home ≡ store.home) × (refused.fault ≡ WantOfMemory)) }
    {
        let OpenedStore { home, stood, game } = store;
        let Stood {
            journal,
            side,
            durable,
        } = stood;
        let (commits, commit_share) = commits.open::<CommitLedger<W>>();
        let (places, place_share) = places.open::<PlaceLedger<W>>();
        let Ok(core) = Core::open(alloc, durable, budget) else {
            return Err(OpenRefused::no_memory(home));
        };
        let Ok(history) = History::new(alloc, keep) else {
            return Err(OpenRefused::no_memory(home));
        };
        let book = WorldBook {
            core,
            history,
            commits,
            places,
        };
        let Ok((world, passes, watcher)) = Turn::<WorldBook<W>, J>::watched(alloc, blank, book)
        else {
            return Err(OpenRefused::no_memory(home));
        };
        let right = CommitRight::new(commit_share, place_share);
        let store = CommitStore::new(home, game, side, journal, watcher, right, alloc);
        let store = Mutex::new(FreeStore::new(store, board));
        Ok((
            Host {
                world,
                store,
                alloc,
            },
            passes,
        ))
    }

    /// Ends the sharing. The one history begins with the front of each pass that is handed in, and has no event of such
    /// a pass beyond it.
    pub fn close(self, passes: Vec<Pass<WorldBook<W>, J>>) -> Closed<M>
        ensures fronts { All (λ p. IsFront p.number p.front result.history) passes.items }
        ensures named { All (λ e. pass_of e < J.name.passes) result.history }
        ensures legal { IsLegal W.opened result.history }
        ensures kept { IsTrue W.keeps → result.events.items ≡ result.history }
        ensures none_kept { W.keeps ≡ false → result.events.items ≡ [] }
        ensures ended { IsTrue M.tells → EndsAs W.opened W.began (M.past result.home) result.history result.faults result.epoch }
        ensures same_home { IsSameHome W.counted W.opening result.faults (M.counted result.home) (M.opening result.home) }
        ensures told { result.board ≡ said_on W.board record { counted = M.counted result.home; stopped = result.faults } }
        ensures commits { result.commits ≡ (world_after W.opened result.history).durable.commits }
        ensures first { (result.first ≡ W.first) × (W.first ≤ result.epoch) }
        ensures tasks { result.tasks ≡ map.len (world_after W.opened result.history).durable.tasks }
    {
        let Host {
            world,
            store,
            alloc: _,
        } = self;
        let free = store.into_inner();
        let FreeStore { store, board } = free;
        let CommitStore {
            home,
            game: _,
            side: _,
            journal,
            first,
            base: _,
            watcher,
            mut right,
            waiting: _,
            faults,
            alloc: _,
        } = store;
        let WorldBook {
            core,
            history,
            mut commits,
            mut places,
        } = world.close_with(passes, watcher);
        right.audit(&mut commits, &mut places);
        let (history, events) = history.into_parts();
        Closed {
            home,
            faults,
            history,
            events,
            commits: core.commits(),
            tasks: core.pending_len(),
            first,
            epoch: journal.epoch(),
            board,
        }
    }
}
