//! The command `serve`: sessions over a listener's links, on the store in a folder.
ghost use Rattle.std.specs.Prelude.{◌≡◌, ◌≢◌, ◌⊎◌, IsTrue};
ghost use Rattle.dk_types.specs.Faults.{HasRisen};
ghost use Rattle.dk_disk.specs.Opening.{IsOpen, NotCalled};
ghost use Rattle.dk_edge.specs.Listening.{IsUncalled};
ghost use Rattle.dk_model.specs.DurableWorlds.{DurableWorld};
ghost use Rattle.dk_command.specs.Games.{word_of};
ghost use Rattle.dk_reports.specs.Causes.{IsOpenedAt};
ghost use Rattle.darkstar.specs.Asked.{service_for};
ghost use Rattle.darkstar.specs.Games.{rules_of};
ghost use Rattle.darkstar.specs.Runs.{Keeps, MayOpen, passage};
ghost use Rattle.darkstar.specs.Serves.{HasServedAll, IsServeEnd, IsServedOrLimit, status_of_serving};

use crate::play_command::unopened_status;
use crate::program::Ran;
use crate::serve::{ServeFault, ServeTerms, Served, ServerGate, serve_store};
use dk_command::GameName;
use dk_demos::{Channels, Timer};
use dk_disk::Home;
use dk_edge::{Clock, Link, Listener, Sink, Source, Spawner};
use dk_game::Game;
use dk_host::open_store;
use dk_pump::Tally;
use dk_status::Status;
use std::alloc::{AllocGlobal, Global};
use std::random::RandomSource;
use std::sync::Wait;
use std::thread::Threads;
use sword_world::SwordWorld;

/// How a server goes: by which game, and with what it is run.
#[derive(Clone, Copy)]
pub struct Service {
    pub game: GameName,
    pub terms: ServeTerms,
}

impl Service {
    /// Opens the home in the folder and the store that its files hold, and serves there.
    pub fn serve<
        T: Threads + Wait + RandomSource + AllocGlobal + Sync,
        M: Home + Send,
        E: Link + Send + Drop,
        I: Source + Send,
        O: Sink + Send,
        L: Listener<In = I, Out = O, Whole = E> + Send,
        C: Clock + Sync,
        P: Spawner,
        G: ServerGate + Sync,
    >(
        self,
        rt: &T,
        alloc: Global,
        dir: &str,
        home: M,
        net: &mut L,
        clock: &C,
        spawner: &mut P,
        gate: &G,
    ) -> Ran<M, L>
        requires unopened { M.opening home ≡ NotCalled }
        requires unbound { IsUncalled (L.listening net.old) }
        ensures done { result.status ≡ Status.Ok → HasServedAll self.terms.port self.terms.sessions result.served (L.listening net.old) (L.listening net.new) }
        ensures keeps { Keeps (service_for self) (passage M.tells (M.past home) (M.past result.home) (M.counted home) (M.counted result.home)) result.status }
        ensures end { IsServeEnd (service_for self) (passage M.tells (M.past home) (M.past result.home) (M.counted home) (M.counted result.home)) result.status }
        ensures complete { IsTrue M.tells → (d : DurableWorld) → MayOpen (service_for self) (M.past home) d → IsServedOrLimit result.status }
        ensures folder { IsOpenedAt dir.now (M.opening result.home) }
        ensures disk_cause { result.status ≡ Status.DiskFault → HasRisen (M.counted home) (M.counted result.home) }
        ensures net_cause { result.status ≡ Status.NetFault → HasRisen (L.counted net.old) (L.counted net.new) ⊎ HasRisen (P.counted spawner.old) (P.counted spawner.new) }
    {
        let before = home.faults();
        let mut home = home;
        match home.open(dir) {
            Ok(()) => self.serve_game(rt, alloc, home, before, net, clock, spawner, gate),
            Err(_) => Ran {
                status: Status::DiskFault,
                home,
                served: Tally::new(),
            },
        }
    }

    /// Serves by the game of this service.
    fn serve_game<
        T: Threads + Wait + RandomSource + AllocGlobal + Sync,
        M: Home + Send,
        E: Link + Send + Drop,
        I: Source + Send,
        O: Sink + Send,
        L: Listener<In = I, Out = O, Whole = E> + Send,
        C: Clock + Sync,
        P: Spawner,
        G: ServerGate + Sync,
    >(
        self,
        rt: &T,
        alloc: Global,
        home: M,
        before: u64,
        net: &mut L,
        clock: &C,
        spawner: &mut P,
        gate: &G,
    ) -> Ran<M, L>
        requires is_open { IsOpen (M.opening home) }
        requires unbound { IsUncalled (L.listening net.old) }
        requires counted { M.counted home ≡ before }
        ensures done { result.status ≡ Status.Ok → HasServedAll self.terms.port self.terms.sessions result.served (L.listening net.old) (L.listening net.new) }
        ensures keeps { Keeps (service_for self) (passage M.tells (M.past home) (M.past result.home) before (M.counted result.home)) result.status }
        ensures end { IsServeEnd (service_for self) (passage M.tells (M.past home) (M.past result.home) before (M.counted result.home)) result.status }
        ensures complete { IsTrue M.tells → (d : DurableWorld) → MayOpen (service_for self) (M.past home) d → IsServedOrLimit result.status }
        ensures same_opening { M.opening result.home ≡ M.opening home }
        ensures disk_cause { result.status ≡ Status.DiskFault → HasRisen before (M.counted result.home) }
        ensures net_cause { result.status ≡ Status.NetFault → HasRisen (L.counted net.old) (L.counted net.new) ⊎ HasRisen (P.counted spawner.old) (P.counted spawner.new) }
    {
        match self.game {
            GameName::SwordWorld => {
                let game = SwordWorld::new();
                self.serve_on(rt, alloc, &game, home, before, net, clock, spawner, gate)
            }
            GameName::Timer => {
                let game = Timer;
                self.serve_on(rt, alloc, &game, home, before, net, clock, spawner, gate)
            }
            GameName::Channels => {
                let game = Channels;
                self.serve_on(rt, alloc, &game, home, before, net, clock, spawner, gate)
            }
        }
    }

    /// Serves by this game on the store of this home, which is open and had so many faults at the beginning of the command.
    fn serve_on<
        T: Threads + Wait + RandomSource + AllocGlobal + Sync,
        A: Game + Sync,
        M: Home + Send,
        E: Link + Send + Drop,
        I: Source + Send,
        O: Sink + Send,
        L: Listener<In = I, Out = O, Whole = E> + Send,
        C: Clock + Sync,
        P: Spawner,
        G: ServerGate + Sync,
    >(
        self,
        rt: &T,
        alloc: Global,
        game: &A,
        home: M,
        before: u64,
        net: &mut L,
        clock: &C,
        spawner: &mut P,
        gate: &G,
    ) -> Ran<M, L>
        requires is_open { IsOpen (M.opening home) }
        requires unbound { IsUncalled (L.listening net.old) }
        requires counted { M.counted home ≡ before }
        requires id { A.id game.now ≡ word_of self.game }
        requires rules { A.rules game.now ≡ rules_of self.game }
        ensures done { result.status ≡ Status.Ok → HasServedAll self.terms.port self.terms.sessions result.served (L.listening net.old) (L.listening net.new) }
        ensures keeps { Keeps (service_for self) (passage M.tells (M.past home) (M.past result.home) before (M.counted result.home)) result.status }
        ensures end { IsServeEnd (service_for self) (passage M.tells (M.past home) (M.past result.home) before (M.counted result.home)) result.status }
        ensures complete { IsTrue M.tells → (d : DurableWorld) → MayOpen (service_for self) (M.past home) d → IsServedOrLimit result.status }
        ensures same_opening { M.opening result.home ≡ M.opening home }
        ensures disk_cause { result.status ≡ Status.DiskFault → HasRisen before (M.counted result.home) }
        ensures net_cause { result.status ≡ Status.NetFault → HasRisen (L.counted net.old) (L.counted net.new) ⊎ HasRisen (P.counted spawner.old) (P.counted spawner.new) }
    {
        let store = match open_store(alloc, home, &game.id()) {
            Ok(store) => store,
            Err(refused) => {
                return Ran {
                    status: unopened_status(refused.fault),
                    home: refused.home,
                    served: Tally::new(),
                };
            }
        };
        let Served {
            home,
            outcome,
            served,
        } = serve_store(
            rt, alloc, game, store, before, net, clock, spawner, gate, self.terms,
        );
        Ran {
            status: served_status(outcome),
            home,
            served,
        }
    }
}

/// How the program ends after a server.
pub(crate) fn served_status(outcome: Result<(), ServeFault>) -> Status
    ensures { result ≡ status_of_serving outcome }
{
    match outcome {
        Ok(()) => Status::Ok,
        Err(ServeFault::NoMemory) => Status::NoMemory,
        Err(ServeFault::DiskFault) => Status::DiskFault,
        Err(ServeFault::JournalFull { length }) => Status::JournalFull { length },
        Err(ServeFault::NetFault) => Status::NetFault,
        Err(ServeFault::Exhausted { next }) => Status::Exhausted { next },
    }
}
