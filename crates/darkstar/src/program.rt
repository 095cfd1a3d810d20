//! The top call: a whole command.
ghost use Rattle.std.specs.Prelude.{◌≡◌, ◌≢◌, ◌↔◌, ◌⊎◌, ℕ, IfSome, IsSomeAnd, IsTrue};
ghost use Rattle.std.specs.Io.KnownBytes.{Appends};
ghost use Rattle.dk_types.specs.Faults.{HasRisen};
ghost use Rattle.dk_edge.specs.Listening.{IsUncalled};
ghost use Rattle.dk_edge.specs.Streams.{AppendsPrefix};
ghost use Rattle.dk_disk.specs.Opening.{NotCalled, Opened};
ghost use Rattle.dk_model.specs.DurableWorlds.{DurableWorld};
ghost use Rattle.dk_model.specs.Scripts.{IsBadLine};
ghost use Rattle.dk_recover.specs.Files.{OnlyReads};
ghost use Rattle.dk_reports.specs.Causes.{IsOpenedAt};
ghost use Rattle.dk_streams.specs.Sources.{IsPlayable, ReadsFew};
ghost use Rattle.dk_command.specs.Commands.{IsCommandLine};
ghost use Rattle.dk_command.specs.Requests.{Asks, Serves, Serving};
ghost use Rattle.darkstar.specs.Reports.{AppendsOne, AppendsPart, ForReport, Holds, IsCauseOf, IsLine, IsOfGame};
ghost use Rattle.darkstar.specs.Runs.{ForPlay, HoldsNone, IsPlayEnd, IsReadAndWritten, Keeps, KeepsReadScript, MayOpen, passage, terms_of};
ghost use Rattle.darkstar.specs.Serves.{ForServe, HasServedAll, IsServeEnd, IsServedOrEnd, service_of};
ghost use Rattle.darkstar.specs.Statuses.{ComesForBadLine, IfBadScript, IsOkOrEnd, IsOkOrNoMemory, IsOkOrOfDevice, IsUnread, IsWrittenOrNoMemory};
ghost use Rattle.darkstar.specs.StressText.{ForStress, stress_text};

use crate::asked::Asked;
use crate::serve::ServerGate;
use crate::stress::stress;
use dk_command::{CommandRefused, parse_command};
use dk_disk::Home;
use dk_edge::{Clock, Link, Listener, Sink, Source, Spawner};
use dk_pump::Tally;
use dk_status::Status;
use dk_types::Words;
use std::alloc::{AllocGlobal, Global};
use std::random::RandomSource;
use std::sync::Wait;
use std::thread::Threads;

/// How a command ended, the home that it was given, and how many sessions on the listener's links it served to their end.
#[derive(Drop)]
pub struct Ran<M, L: Listener> {
    pub status: Status,
    pub home: M,
    pub served: Tally<L::Whole>,
}

/// Runs the command of these words, the ones behind the program's name.
///
/// `play DIR` reads the source to its end as a script, opens the home in the folder DIR, plays the script by workers on the
/// store that its files hold, and writes the transcript. `serve DIR` opens the home there, runs what can be run at the clock's
/// moment, has the listener listen at its port, and serves sessions on the links that it gives, by a crew of threads from the
/// spawner. `check DIR` and `inspect DIR` open the home, recover the store, and write one line of it. `stress` runs a game of
/// so many tasks by workers on a store in memory, and writes what they came to. The gate hears of the workers' commits.
pub fn run<
    T: Threads + Wait + RandomSource + AllocGlobal + Sync,
    S: Source,
    K: Sink,
    M: Home + Send,
    E: Link + Send + Drop,
    I: Source + Send,
    O: Sink + Send,
    L: Listener<In = I, Out = O, Whole = E> + Send,
    C: Clock + Sync,
    P: Spawner,
    G: ServerGate + Sync,
>(
    rt: &T,
    alloc: Global,
    words: &Words,
    input: &mut S,
    out: &mut K,
    home: M,
    net: &mut L,
    clock: &C,
    spawner: &mut P,
    gate: &G,
) -> Ran<M, L>
    requires unopened { M.opening home ≡ NotCalled }
    requires unbound { IsUncalled (L.listening net.old) }

    // The words. Those that are no command leave everything as it was.
    ensures usage { result.status ≢ Status.NoMemory → ((result.status ≡ Status.Usage) ↔ (¬ IsCommandLine words.now)) }
    ensures unread { result.status ≡ Status.Usage → input.new ≡ input.old }
    ensures unopened { result.status ≡ Status.Usage → result.home ≡ home }

    // `play`: the transcript of a run on the store that the home's files held was written, or a first part of it.
    ensures play_done { result.status ≡ Status.Ok → ForPlay words.now (λ play. IsReadAndWritten Appends (terms_of play) (passage M.tells (M.past home) (M.past result.home) (M.counted home) (M.counted result.home)) result.status (S.remaining input.old) (S.remaining input.new) (K.contents out.old) (K.contents out.new)) }
    ensures play_torn { result.status ≡ Status.WriteFault → ForPlay words.now (λ play. IsReadAndWritten AppendsPrefix (terms_of play) (passage M.tells (M.past home) (M.past result.home) (M.counted home) (M.counted result.home)) result.status (S.remaining input.old) (S.remaining input.new) (K.contents out.old) (K.contents out.new)) }

    // However it ends, the store's files are only read, or what a stop leaves at each moment is a beginning of one legal history,
    // whose events beside claims, commits and releases are a first part of the script. Files that hold no world stay as they read.
    ensures play_keeps { ForPlay words.now (λ play. Keeps (terms_of play) (passage M.tells (M.past home) (M.past result.home) (M.counted home) (M.counted result.home)) result.status) }
    ensures play_begun { ForPlay words.now (λ play. KeepsReadScript (terms_of play) (passage M.tells (M.past home) (M.past result.home) (M.counted home) (M.counted result.home)) result.status (S.remaining input.old) (S.remaining input.new)) }
    ensures play_spares { IsTrue M.tells → HoldsNone (M.past home) → ForPlay words.now (λ play. OnlyReads (M.past home) (M.past result.home)) }

    // The home is opened at most once, with the play's folder, and not before the script is read.
    ensures play_folder { ForPlay words.now (λ play. IsOpenedAt play.dir (M.opening result.home)) }
    ensures play_unread { IsUnread result.status → ForPlay words.now (λ play. result.home ≡ home) }

    // Why it ends so; and a script that no fault meets, on a store of its game, is played to the end of its budget, its journal or its
    // numbers.
    ensures play_end { ForPlay words.now (λ play. IsPlayEnd (terms_of play) (passage M.tells (M.past home) (M.past result.home) (M.counted home) (M.counted result.home)) result.status) }
    ensures play_bad_line { ForPlay words.now (λ play. IfBadScript result.status (λ line. IfSome (S.remaining input.old) (λ bytes. IsBadLine bytes line))) }
    ensures play_told_line { ForPlay words.now (λ play. (line : ℕ) → IfSome (S.remaining input.old) (λ bytes. IsBadLine bytes line → ComesForBadLine line result.status)) }
    ensures play_few_read { result.status ≡ Status.ReadFault → ReadsFew (S.remaining input.old) (S.remaining input.new) }
    ensures play_complete { IsTrue M.tells → ¬ HasRisen (S.counted input.old) (S.counted input.new) → ¬ HasRisen (M.counted home) (M.counted result.home) → ¬ HasRisen (K.counted out.old) (K.counted out.new) → ForPlay words.now (λ play. IsSomeAnd (S.remaining input.old) IsPlayable → (d : DurableWorld) → MayOpen (terms_of play) (M.past home) d → IsOkOrEnd result.status) }

    // `serve`: the listener listens at the port, each link that it gave was served to its end, and they are as many as there were
    // to be, or it said that no more come. However it ends, the store is kept as by a play.
    ensures serve_done { result.status ≡ Status.Ok → ForServe words.now (λ serve. HasServedAll serve.port serve.sessions result.served (L.listening net.old) (L.listening net.new)) }
    ensures serve_keeps { ForServe words.now (λ serve. Keeps (service_of serve) (passage M.tells (M.past home) (M.past result.home) (M.counted home) (M.counted result.home)) result.status) }
    ensures serve_spares { IsTrue M.tells → HoldsNone (M.past home) → ForServe words.now (λ serve. OnlyReads (M.past home) (M.past result.home)) }
    ensures serve_folder { ForServe words.now (λ serve. IsOpenedAt serve.dir (M.opening result.home)) }

    // Why it ends so; and where it ends on a store of its game and no device failed, it was done, or the journal or the numbers came
    // to their end. It reads and writes no stream.
    ensures serve_end { ForServe words.now (λ serve. IsServeEnd (service_of serve) (passage M.tells (M.past home) (M.past result.home) (M.counted home) (M.counted result.home)) result.status) }
    ensures serve_complete { IsTrue M.tells → ¬ HasRisen (M.counted home) (M.counted result.home) → ¬ HasRisen (L.counted net.old) (L.counted net.new) → ¬ HasRisen (P.counted spawner.old) (P.counted spawner.new) → ForServe words.now (λ serve. (d : DurableWorld) → MayOpen (service_of serve) (M.past home) d → IsServedOrEnd result.status) }
    ensures serve_silent { ForServe words.now (λ serve. (input.new ≡ input.old) × (out.new ≡ out.old)) }

    // No other command has to do with the listener or the spawner.
    ensures only_serve { ((serve : Serving) → Asks words.now (Serves serve) → ⊥) → (net.new ≡ net.old) × (spawner.new ≡ spawner.old) × (result.served ≡ 0) }
    ensures net_cause { result.status ≡ Status.NetFault → HasRisen (L.counted net.old) (L.counted net.new) ⊎ HasRisen (P.counted spawner.old) (P.counted spawner.new) }

    // `check` and `inspect`: the line of what both files hold, or why there is none. A store of this game, and none yet, are told
    // unless a device fails or memory is wanting.
    ensures report_done { IsTrue M.tells → result.status ≡ Status.Ok → ForReport words.now (λ report. AppendsOne (IsLine report (M.past home)) (K.contents out.old) (K.contents out.new)) }
    ensures report_torn { IsTrue M.tells → result.status ≡ Status.WriteFault → ForReport words.now (λ report. AppendsPart (IsLine report (M.past home)) (K.contents out.old) (K.contents out.new)) }
    ensures report_cause { IsTrue M.tells → ForReport words.now (λ report. IsCauseOf report (M.past home) result.status) }
    ensures report_complete { IsTrue M.tells → ForReport words.now (λ report. (d : DurableWorld) → Holds (M.past home) d → IsOfGame report (M.past home) → IsOkOrOfDevice result.status) }

    // They open the home at most once, with their folder, and nothing is written to it; nor is the source read.
    ensures report_folder { ForReport words.now (λ report. IsOpenedAt report.dir (M.opening result.home)) }
    ensures report_opened { result.status ≢ Status.NoMemory → result.status ≢ Status.DiskFault → ForReport words.now (λ report. M.opening result.home ≡ Opened report.dir) }
    ensures report_reads { IsTrue M.tells → ForReport words.now (λ report. OnlyReads (M.past home) (M.past result.home)) }
    ensures report_unread { ForReport words.now (λ report. input.new ≡ input.old) }

    // `stress`: each of the tasks is one commit behind the first run's, and the counters are the plain counts, whoever ran what. It is
    // done unless the sink fails or memory is wanting, and leaves the source and the home as they were.
    ensures stress_done { result.status ≡ Status.Ok → ForStress words.now (λ s. Appends (K.contents out.old) (K.contents out.new) (stress_text s.seed s.tasks)) }
    ensures stress_torn { result.status ≡ Status.WriteFault → ForStress words.now (λ s. AppendsPrefix (K.contents out.old) (K.contents out.new) (stress_text s.seed s.tasks)) }
    ensures stress_only { ForStress words.now (λ s. IsWrittenOrNoMemory result.status) }
    ensures stress_complete { ¬ HasRisen (K.counted out.old) (K.counted out.new) → ForStress words.now (λ s. IsOkOrNoMemory result.status) }
    ensures stress_alone { ForStress words.now (λ s. (input.new ≡ input.old) × (result.home ≡ home)) }

    // Nothing is written but by a command that was done, or whose sink failed.
    ensures unwritten { result.status ≢ Status.Ok → result.status ≢ Status.WriteFault → out.new ≡ out.old }

    // The causes of faults of devices: that device's count rose.
    ensures disk_cause { result.status ≡ Status.DiskFault → HasRisen (M.counted home) (M.counted result.home) }
    ensures report_disk_steady { result.status ≢ Status.DiskFault → ForReport words.now (λ report. M.counted result.home ≡ M.counted home) }
    ensures source_cause { result.status ≡ Status.ReadFault → HasRisen (S.counted input.old) (S.counted input.new) }
    ensures source_steady { result.status ≢ Status.ReadFault → S.counted input.new ≡ S.counted input.old }
    ensures sink_cause { result.status ≡ Status.WriteFault → HasRisen (K.counted out.old) (K.counted out.new) }
    ensures sink_steady { result.status ≢ Status.WriteFault → K.counted out.new ≡ K.counted out.old }
{
    let command = match parse_command(alloc, words) {
        Ok(command) => command,
        Err(CommandRefused::Usage) => {
            return Ran {
                status: Status::Usage,
                home,
                served: Tally::new(),
            };
        }
        Err(CommandRefused::NoMemory) => {
            return Ran {
                status: Status::NoMemory,
                home,
                served: Tally::new(),
            };
        }
    };
    match Asked::of(command) {
        Asked::Play { dir, terms } => {
            let ended = terms.play(rt, alloc, dir.as_str(), input, out, home, gate);
            Ran {
                status: ended.status,
                home: ended.home,
                served: Tally::new(),
            }
        }
        Asked::Serve { dir, service } => {
            service.serve(rt, alloc, dir.as_str(), home, net, clock, spawner, gate)
        }
        Asked::Report(report) => {
            let ended = report.write(alloc, home, out);
            Ran {
                status: ended.status,
                home: ended.home,
                served: Tally::new(),
            }
        }
        Asked::Stress {
            seed,
            tasks,
            workers,
        } => {
            let status = stress(
                rt,
                alloc,
                u64::from(seed),
                tasks,
                u32::from(workers),
                out,
                gate,
            );
            Ran {
                status,
                home,
                served: Tally::new(),
            }
        }
    }
}
