//! The command `play`: a script is played on the store in a folder.
ghost use Rattle.std.specs.Prelude.{◌≡◌, ◌≢◌, ℕ, IfSome, IsSomeAnd, IsTrue};
ghost use Rattle.std.specs.Io.KnownBytes.{Appends};
ghost use Rattle.std.specs.FinSet as sets;
ghost use Rattle.dk_types.specs.Faults.{HasRisen};
ghost use Rattle.dk_edge.specs.Streams.{AppendsPrefix};
ghost use Rattle.dk_disk.specs.Opening.{IsOpen, NotCalled};
ghost use Rattle.dk_model.specs.DurableWorlds.{DurableWorld};
ghost use Rattle.dk_model.specs.Scripts.{AllStand, IsBadLine};
ghost use Rattle.dk_command.specs.Games.{word_of};
ghost use Rattle.dk_reports.specs.Causes.{IsOpenedAt};
ghost use Rattle.darkstar.specs.Asked.{terms_for};
ghost use Rattle.darkstar.specs.Ends.{status_of_opening, status_of_playing, status_of_put, status_of_reading};
ghost use Rattle.darkstar.specs.Games.{rules_of};
ghost use Rattle.dk_streams.specs.Sources.{IsPlayable, ReadsFew};
ghost use Rattle.darkstar.specs.Runs.{IsPlayEnd, IsReadAndWritten, IsWritten, Keeps, KeepsReadScript, KeepsScript, MayOpen, passage};
ghost use Rattle.darkstar.specs.Statuses.{ComesForBadLine, IfBadScript, IsOfOpened, IsOkOrLimit, IsUnread};

use crate::ended::Ended;
use dk_command::GameName;
use dk_demos::{Channels, Timer};
use dk_disk::Home;
use dk_edge::{Sink, Source};
use dk_game::Game;
use dk_host::{OpenFault, open_store};
use dk_script::Script;
use dk_status::Status;
use dk_streams::{Refused, put_all, read_script};
use dk_types::Failed;
use dk_workers::{Gate, PlayFault, Played, play_store};
use std::alloc::Global;
use std::sync::Wait;
use std::thread::Threads;
use sword_world::SwordWorld;

/// How a play goes: by which game, with how many workers and runs at most, and whether a checkpoint is made at its end.
#[derive(Clone, Copy)]
pub struct Terms {
    pub game: GameName,
    pub workers: u8,
    pub budget: u64,
    pub checkpoint: bool,
}

impl Terms {
    /// Reads the source to its end as a script, opens the home in the folder and the store that its files hold, plays the
    /// script there, and writes the transcript.
    pub fn play<T: Threads + Wait + Sync, S: Source, K: Sink, M: Home + Send, G: Gate + Sync>(
        self,
        rt: &T,
        alloc: Global,
        dir: &str,
        input: &mut S,
        out: &mut K,
        home: M,
        gate: &G,
    ) -> Ended<M>
        requires { M.opening home ≡ NotCalled }
        ensures done { result.status ≡ Status.Ok → IsReadAndWritten Appends (terms_for self) (passage M.tells (M.past home) (M.past result.home) (M.counted home) (M.counted result.home)) result.status (S.remaining input.old) (S.remaining input.new) (K.contents out.old) (K.contents out.new) }
        ensures torn { result.status ≡ Status.WriteFault → IsReadAndWritten AppendsPrefix (terms_for self) (passage M.tells (M.past home) (M.past result.home) (M.counted home) (M.counted result.home)) result.status (S.remaining input.old) (S.remaining input.new) (K.contents out.old) (K.contents out.new) }
        ensures unwritten { result.status ≢ Status.Ok → result.status ≢ Status.WriteFault → out.new ≡ out.old }
        ensures keeps { Keeps (terms_for self) (passage M.tells (M.past home) (M.past result.home) (M.counted home) (M.counted result.home)) result.status }
        ensures begun { KeepsReadScript (terms_for self) (passage M.tells (M.past home) (M.past result.home) (M.counted home) (M.counted result.home)) result.status (S.remaining input.old) (S.remaining input.new) }
        ensures end { IsPlayEnd (terms_for self) (passage M.tells (M.past home) (M.past result.home) (M.counted home) (M.counted result.home)) result.status }
        ensures complete { IsTrue M.tells → IsSomeAnd (S.remaining input.old) IsPlayable → (d : DurableWorld) → MayOpen (terms_for self) (M.past home) d → result.status ≢ Status.ReadFault → IsOkOrLimit result.status }
        ensures few_read { result.status ≡ Status.ReadFault → ReadsFew (S.remaining input.old) (S.remaining input.new) }
        ensures bad_line { IfBadScript result.status (λ line. IfSome (S.remaining input.old) (λ bytes. IsBadLine bytes line)) }
        ensures told_line { (line : ℕ) → IfSome (S.remaining input.old) (λ bytes. IsBadLine bytes line → ComesForBadLine line result.status) }
        ensures folder { IsOpenedAt dir.now (M.opening result.home) }
        ensures unread { IsUnread result.status → result.home ≡ home }
        ensures disk_cause { result.status ≡ Status.DiskFault → HasRisen (M.counted home) (M.counted result.home) }
        ensures source_cause { result.status ≡ Status.ReadFault → HasRisen (S.counted input.old) (S.counted input.new) }
        ensures source_steady { result.status ≢ Status.ReadFault → S.counted input.new ≡ S.counted input.old }
        ensures sink_cause { result.status ≡ Status.WriteFault → HasRisen (K.counted out.old) (K.counted out.new) }
        ensures sink_steady { result.status ≢ Status.WriteFault → K.counted out.new ≡ K.counted out.old }
        ensures no_usage { result.status ≢ Status.Usage }
    {
        let before = home.faults();
        let script = match read_script(alloc, input) {
            Ok(script) => script,
            Err(refused) => {
                return Ended {
                    status: unread_status(refused),
                    home,
                };
            }
        };
        let mut home = home;
        match home.open(dir) {
            Ok(()) => self.play_game(rt, alloc, &script, out, home, before, gate),
            Err(_) => Ended {
                status: Status::DiskFault,
                home,
            },
        }
    }

    /// Plays the script by the game of these terms.
    fn play_game<T: Threads + Wait + Sync, K: Sink, M: Home + Send, G: Gate + Sync>(
        self,
        rt: &T,
        alloc: Global,
        script: &Script,
        out: &mut K,
        home: M,
        before: u64,
        gate: &G,
    ) -> Ended<M>
        requires is_open { IsOpen (M.opening home) }
        requires stand { AllStand sets.empty script.now.phases }
        requires counted { M.counted home ≡ before }
        ensures done { result.status ≡ Status.Ok → IsWritten Appends (terms_for self) (passage M.tells (M.past home) (M.past result.home) before (M.counted result.home)) result.status script.now.phases (K.contents out.old) (K.contents out.new) }
        ensures torn { result.status ≡ Status.WriteFault → IsWritten AppendsPrefix (terms_for self) (passage M.tells (M.past home) (M.past result.home) before (M.counted result.home)) result.status script.now.phases (K.contents out.old) (K.contents out.new) }
        ensures unwritten { result.status ≢ Status.Ok → result.status ≢ Status.WriteFault → out.new ≡ out.old }
        ensures keeps { Keeps (terms_for self) (passage M.tells (M.past home) (M.past result.home) before (M.counted result.home)) result.status }
        ensures begun { KeepsScript (terms_for self) (passage M.tells (M.past home) (M.past result.home) before (M.counted result.home)) result.status script.now.phases }
        ensures end { IsPlayEnd (terms_for self) (passage M.tells (M.past home) (M.past result.home) before (M.counted result.home)) result.status }
        ensures complete { IsTrue M.tells → (d : DurableWorld) → MayOpen (terms_for self) (M.past home) d → IsOkOrLimit result.status }
        ensures same_opening { M.opening result.home ≡ M.opening home }
        ensures disk_cause { result.status ≡ Status.DiskFault → HasRisen before (M.counted result.home) }
        ensures sink_cause { result.status ≡ Status.WriteFault → HasRisen (K.counted out.old) (K.counted out.new) }
        ensures sink_steady { result.status ≢ Status.WriteFault → K.counted out.new ≡ K.counted out.old }
        ensures of_opened { IsOfOpened result.status }
    {
        match self.game {
            GameName::SwordWorld => {
                let game = SwordWorld::new();
                self.play_on(rt, alloc, &game, script, out, home, before, gate)
            }
            GameName::Timer => {
                let game = Timer;
                self.play_on(rt, alloc, &game, script, out, home, before, gate)
            }
            GameName::Channels => {
                let game = Channels;
                self.play_on(rt, alloc, &game, script, out, home, before, gate)
            }
        }
    }

    /// Plays the script by this game on the store of this home, which is open and had so many faults at the beginning of the
    /// command, and writes the transcript.
    fn play_on<T: Threads + Wait + Sync, A: Game + Sync, K: Sink, M: Home + Send, G: Gate + Sync>(
        self,
        rt: &T,
        alloc: Global,
        game: &A,
        script: &Script,
        out: &mut K,
        home: M,
        before: u64,
        gate: &G,
    ) -> Ended<M>
        requires is_open { IsOpen (M.opening home) }
        requires stand { AllStand sets.empty script.now.phases }
        requires counted { M.counted home ≡ before }
        requires id { A.id game.now ≡ word_of self.game }
        requires rules { A.rules game.now ≡ rules_of self.game }
        ensures done { result.status ≡ Status.Ok → IsWritten Appends (terms_for self) (passage M.tells (M.past home) (M.past result.home) before (M.counted result.home)) result.status script.now.phases (K.contents out.old) (K.contents out.new) }
        ensures torn { result.status ≡ Status.WriteFault → IsWritten AppendsPrefix (terms_for self) (passage M.tells (M.past home) (M.past result.home) before (M.counted result.home)) result.status script.now.phases (K.contents out.old) (K.contents out.new) }
        ensures unwritten { result.status ≢ Status.Ok → result.status ≢ Status.WriteFault → out.new ≡ out.old }
        ensures keeps { Keeps (terms_for self) (passage M.tells (M.past home) (M.past result.home) before (M.counted result.home)) result.status }
        ensures begun { KeepsScript (terms_for self) (passage M.tells (M.past home) (M.past result.home) before (M.counted result.home)) result.status script.now.phases }
        ensures end { IsPlayEnd (terms_for self) (passage M.tells (M.past home) (M.past result.home) before (M.counted result.home)) result.status }
        ensures complete { IsTrue M.tells → (d : DurableWorld) → MayOpen (terms_for self) (M.past home) d → IsOkOrLimit result.status }
        ensures same_opening { M.opening result.home ≡ M.opening home }
        ensures disk_cause { result.status ≡ Status.DiskFault → HasRisen before (M.counted result.home) }
        ensures sink_cause { result.status ≡ Status.WriteFault → HasRisen (K.counted out.old) (K.counted out.new) }
        ensures sink_steady { result.status ≢ Status.WriteFault → K.counted out.new ≡ K.counted out.old }
        ensures of_opened { IsOfOpened result.status }
    {
        let store = match open_store(alloc, home, &game.id()) {
            Ok(store) => store,
            Err(refused) => {
                return Ended {
                    status: unopened_status(refused.fault),
                    home: refused.home,
                };
            }
        };
        let workers = u32::from(self.workers);
        let Played { home, text } = play_store(
            rt,
            alloc,
            game,
            script,
            store,
            workers,
            self.budget,
            self.checkpoint,
            before,
            gate,
        );
        match text {
            Ok(text) => {
                let put = put_all(out, text.as_slice());
                Ended {
                    status: put_status(put),
                    home,
                }
            }
            Err(fault) => Ended {
                status: unplayed_status(fault),
                home,
            },
        }
    }
}

/// How the program ends where no script was read.
fn unread_status(refused: Refused) -> Status
    ensures { result ≡ status_of_reading refused }
{
    match refused {
        Refused::NoMemory => Status::NoMemory,
        Refused::ReadFault => Status::ReadFault,
        Refused::BadScript { line } => Status::BadScript { line },
    }
}

/// How the program ends where no store was opened.
pub(crate) fn unopened_status(fault: OpenFault) -> Status
    ensures { result ≡ status_of_opening fault }
{
    match fault {
        OpenFault::NoMemory => Status::NoMemory,
        OpenFault::DiskFault => Status::DiskFault,
        OpenFault::NotAStore { side, at } => Status::NotAStore { side, at },
        OpenFault::WrongGame { found } => Status::WrongGame { found },
        OpenFault::Damaged { side, at } => Status::Damaged { side, at },
        OpenFault::ImageTooLarge { length } => Status::MigrateTooLarge { length },
        OpenFault::EpochEnd { epoch } => Status::MigrateEpochEnd { epoch },
    }
}

/// How the program ends where its script was not played to its end.
fn unplayed_status(fault: PlayFault) -> Status
    ensures { result ≡ status_of_playing fault }
{
    match fault {
        PlayFault::NoMemory => Status::NoMemory,
        PlayFault::DiskFault => Status::DiskFault,
        PlayFault::Budget { granted } => Status::Budget { granted },
        PlayFault::JournalFull { length } => Status::JournalFull { length },
        PlayFault::Exhausted { next } => Status::Exhausted { next },
    }
}

/// How the program ends after its transcript was put into the sink.
fn put_status(put: Result<(), Failed>) -> Status
    ensures { result ≡ status_of_put put }
{
    match put {
        Ok(()) => Status::Ok,
        Err(_) => Status::WriteFault,
    }
}
