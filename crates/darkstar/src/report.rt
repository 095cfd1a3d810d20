//! The commands `check` and `inspect`: one line of what a store holds.
ghost use Rattle.std.specs.Prelude.{◌≡◌, ◌≢◌, IsTrue, string_bytes};
ghost use Rattle.dk_types.specs.Faults.{HasRisen};
ghost use Rattle.dk_disk.specs.Opening.{NotCalled, Opened};
ghost use Rattle.dk_model.specs.DurableWorlds.{DurableWorld};
ghost use Rattle.dk_recover.specs.Files.{OnlyReads};
ghost use Rattle.dk_command.specs.Games.{word_of};
ghost use Rattle.dk_reports.specs.Causes.{IsOpenedAt};
ghost use Rattle.darkstar.specs.Asked.{asked, kind_of};
ghost use Rattle.darkstar.specs.Reports.{AppendsOne, AppendsPart, Holds, IsCauseOf, IsLine, IsOfGame, status_of_fault, status_of_report};
ghost use Rattle.darkstar.specs.Statuses.{IsOkOrOfDevice};

use crate::ended::Ended;
use dk_command::GameName;
use dk_disk::Home;
use dk_edge::Sink;
use dk_reports::{ReportFault, check, inspect};
use dk_status::Status;
use dk_types::GameId;
use std::alloc::Global;

/// What is told of a store.
#[derive(Clone, Copy)]
pub enum Kind {
    /// How many commits it has, and how long its journal is.
    Check,
    /// Its durable world.
    Inspect,
}

/// A report on the store in the folder `dir`, as one of this game.
#[derive(Drop)]
pub struct Report {
    kind: Kind,
    dir: String,
    game: GameName,
}

impl Report {
    /// A report of this kind.
    pub fn new(kind: Kind, dir: String, game: GameName) -> Report
        ensures { asked result ≡ record { kind = kind_of kind; dir = string_bytes dir; game = game } }
    {
        Report { kind, dir, game }
    }

    /// Opens the home in the report's folder, recovers the store that its files hold, and appends one line of it to the sink.
    pub fn write<M: Home, K: Sink>(self, alloc: Global, home: M, out: &mut K) -> Ended<M>
        requires { M.opening home ≡ NotCalled }
        ensures done { IsTrue M.tells → result.status ≡ Status.Ok → AppendsOne (IsLine (asked self) (M.past home)) (K.contents out.old) (K.contents out.new) }
        ensures torn { IsTrue M.tells → result.status ≡ Status.WriteFault → AppendsPart (IsLine (asked self) (M.past home)) (K.contents out.old) (K.contents out.new) }
        ensures unwritten { result.status ≢ Status.Ok → result.status ≢ Status.WriteFault → out.new ≡ out.old }
        ensures cause { IsTrue M.tells → IsCauseOf (asked self) (M.past home) result.status }
        ensures complete { IsTrue M.tells → (d : DurableWorld) → Holds (M.past home) d → IsOfGame (asked self) (M.past home) → IsOkOrOfDevice result.status }
        ensures folder { IsOpenedAt (asked self).dir (M.opening result.home) }
        ensures opened { result.status ≢ Status.DiskFault → M.opening result.home ≡ Opened (asked self).dir }
        ensures reads { IsTrue M.tells → OnlyReads (M.past home) (M.past result.home) }
        ensures disk_cause { result.status ≡ Status.DiskFault → HasRisen (M.counted home) (M.counted result.home) }
        ensures disk_steady { result.status ≢ Status.DiskFault → M.counted result.home ≡ M.counted home }
        ensures sink_cause { result.status ≡ Status.WriteFault → HasRisen (K.counted out.old) (K.counted out.new) }
        ensures sink_steady { result.status ≢ Status.WriteFault → K.counted out.new ≡ K.counted out.old }
        ensures no_usage { result.status ≢ Status.Usage }
        ensures no_read { result.status ≢ Status.ReadFault }
        ensures no_net { result.status ≢ Status.NetFault }
    {
        let mut home = home;
        let game = id_of(self.game);
        match self.kind {
            Kind::Check => {
                let checked = check(alloc, &mut home, self.dir.as_str(), &game, out);
                Ended {
                    status: status_of(checked),
                    home,
                }
            }
            Kind::Inspect => {
                let inspected = inspect(alloc, &mut home, self.dir.as_str(), &game, out);
                Ended {
                    status: status_of(inspected),
                    home,
                }
            }
        }
    }
}

/// The id in the header of a game's store.
fn id_of(game: GameName) -> GameId
    ensures { result ≡ word_of game }
{
    match game {
        GameName::SwordWorld => GameId::new(b"sword-world").unwrap(),
        GameName::Timer => GameId::new(b"timer").unwrap(),
        GameName::Channels => GameId::new(b"channels").unwrap(),
    }
}

/// How the program ends after a report.
fn status_of(report: Result<(), ReportFault>) -> Status
    ensures { result ≡ status_of_report report }
{
    match report {
        Ok(()) => Status::Ok,
        Err(fault) => fault_status(fault),
    }
}

/// How the program ends where no report was written whole.
fn fault_status(fault: ReportFault) -> Status
    ensures { result ≡ status_of_fault fault }
{
    match fault {
        ReportFault::NoMemory => Status::NoMemory,
        ReportFault::DiskFault => Status::DiskFault,
        ReportFault::WriteFault => Status::WriteFault,
        ReportFault::NotAStore { side, at } => Status::NotAStore { side, at },
        ReportFault::WrongGame { found } => Status::WrongGame { found },
        ReportFault::Damaged { side, at } => Status::Damaged { side, at },
    }
}
