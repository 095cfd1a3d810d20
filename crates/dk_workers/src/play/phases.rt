//! The phases of a script, played one after another.
ghost use Rattle.std.specs.Prelude.{◌≡◌, ◌+◌, [], ◌∷◌, ◌++◌, Some, ℕ, length, IsTrue, OnErr, OnOk};
ghost use Rattle.std.specs.FinSet as sets;
ghost use Rattle.dk_model.specs.Lawful.{AreLawful};
ghost use Rattle.dk_model.specs.Scripts.{AllStand};
ghost use Rattle.dk_play_laws.specs.BegunLaw.{HasBegunPhase, HaveBegun};
ghost use Rattle.dk_play_laws.specs.Seen.{AreBehind, AreNumbered};
ghost use Rattle.dk_workers.specs.Logins.{said_of, MayStandAll};
ghost use Rattle.dk_workers.specs.Phases.{PlaysAll, PlaysOne};

use super::drains::drain;
use super::fault::PlayFault;
use super::hands::hand_all;
use super::lines::enter_all;
use super::logins::Logins;
use crate::gate::Gate;
use dk_disk::Home;
use dk_game::Game;
use dk_host::{Host, Hosting, WorldBook};
use dk_model::Line;
use dk_turn::{Naming, Pass};
use dk_types::{Listed, NoMemory};
use std::alloc::Global;
use std::sync::Wait;
use std::thread::Threads;

// One mark more.
fn put_mark(marks: &mut Vec<u64>, mark: u64) -> Result<(), NoMemory>
    ensures { OnOk result (marks.new.items ≡ marks.old.items ++ mark ∷ []) }
{
    marks.push(mark)?;
    Ok(())
}

/// Plays a phase, whose mark is the number of events before it: its lines are entered before anything is run, and nothing is
/// left to run when messages are handed.
fn play_phase<
    G: Game + Sync,
    W: Hosting + Send + Sync,
    J: Naming + Send + Sync,
    M: Home + Send,
    T: Gate + Sync,
    R: Threads + Wait + Sync,
>(
    rt: &R,
    alloc: Global,
    host: &Host<W, J, M>,
    main: &mut Pass<WorldBook<W>, J>,
    workers: &mut [Pass<WorldBook<W>, J>],
    game: &G,
    gate: &T,
    logins: &mut Logins,
    marks: &mut Vec<u64>,
    lines: &[Line],
) -> Result<(), PlayFault>
    requires rules { W.opened.rules ≡ G.rules game.now }
    requires keeps { IsTrue W.keeps }
    requires stand { MayStandAll (said_of logins.old) lines.now }
    ensures plays { PlaysOne W.opened J.name.passes result lines.now (said_of logins.old) (said_of logins.new) marks.old.items marks.new.items workers.old workers.new main.old main.new }
    ensures begun { OnErr result (HasBegunPhase lines.now (said_of logins.old) workers.old workers.new main.old main.new) }
{
    let mark = host.kept_count(rt, main);
    put_mark(marks, mark)?;
    enter_all(rt, host, main, logins, lines)?;
    drain(rt, alloc, host, main, workers, game, gate)?;
    hand_all(rt, host, main, logins.opened())
}

/// Plays a script from the opening on, of which what can be run at once is a phase of its own. Answers the marks of its
/// phases.
pub(crate) fn play_phases<
    G: Game + Sync,
    W: Hosting + Send + Sync,
    J: Naming + Send + Sync,
    M: Home + Send,
    T: Gate + Sync,
    R: Threads + Wait + Sync,
>(
    rt: &R,
    alloc: Global,
    host: &Host<W, J, M>,
    main: &mut Pass<WorldBook<W>, J>,
    workers: &mut [Pass<WorldBook<W>, J>],
    game: &G,
    gate: &T,
    script: &[Listed<Line>],
) -> Result<Vec<u64>, PlayFault>
    requires rules { W.opened.rules ≡ G.rules game.now }
    requires lawful { AreLawful W.opened.rules }
    requires budget { (most : ℕ) × (W.opened.budget ≡ Some most) }
    requires keeps { IsTrue W.keeps }
    requires count { J.name.passes ≡ length workers.old + 1 }
    requires numbered { AreNumbered 0 workers.old }
    requires number { main.old.number ≡ length workers.old }
    requires behind { AreBehind workers.old main.old.front }
    requires fresh { main.old.front ≡ [] }
    requires stand { AllStand sets.empty script.now }
    ensures plays { PlaysAll W.opened ([] ∷ script.now) (λ marks. marks.items) result workers.new main.new }
    ensures begun { HaveBegun ([] ∷ script.now) workers.new main.new }
{
    let mut logins = Logins::none(alloc);
    let mut marks = Vec::new(alloc);
    play_phase(
        rt,
        alloc,
        host,
        main,
        workers,
        game,
        gate,
        &mut logins,
        &mut marks,
        &[],
    )?;
    for lines in script {
        play_phase(
            rt,
            alloc,
            host,
            main,
            workers,
            game,
            gate,
            &mut logins,
            &mut marks,
            lines.as_slice(),
        )?;
    }
    Ok(marks)
}
