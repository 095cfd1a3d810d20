//! Jobs served on a core. Each figure is the nanoseconds of all timed jobs together.
ghost use Rattle.std.specs.Prelude.{IfOk, IfSome};
ghost use Rattle.dk_workers.specs.Working.{RepresentsSome};

use crate::filler::Filler;
use crate::stores::nanoseconds;
use dk_core::Core;
use dk_demos::Counters;
use dk_game::Game;
use dk_types::{Durable, Listed, Name};
use dk_workers::{Step, work_once};
use std::alloc::Global;
use std::time::{Clock, Instant};

/// So many occurrences of a task are timed over a filled world.
const OCCURRENCES: u64 = 20_000;

/// What is timed.
#[derive(Clone, Copy)]
pub enum CoreWork {
    /// A task over a world of so many objects, and of as many names and pending tasks, but at most 100,000 of these.
    TasksOverWorld,
    /// So many tasks of the counter game.
    CounterTasks,
    /// The logins of so many sessions.
    Sessions,
}

/// The work of this word.
pub fn named(word: &str) -> Option<CoreWork> {
    match word {
        "core-tasks" => Some(CoreWork::TasksOverWorld),
        "core-counters" => Some(CoreWork::CounterTasks),
        "core-sessions" => Some(CoreWork::Sessions),
        _ => None,
    }
}

/// The nanoseconds, or nothing where memory or the clock is wanting.
pub fn on_core<R: AllocGlobal + Clock>(rt: &R, work: CoreWork, number: u32) -> Option<u64> {
    match work {
        CoreWork::TasksOverWorld => tasks_over_world(rt, number),
        CoreWork::CounterTasks => counter_tasks(rt, number),
        CoreWork::Sessions => sessions(rt, number),
    }
}

/// A core on the world before the first run.
fn opened<G: Game>(alloc: Global, game: &G) -> Option<Core>
    ensures { IfSome result (RepresentsSome (G.rules game.now)) }
{
    let durable = Durable {
        commits: 0,
        last: None,
        objects: Listed::from_vec(Vec::new(alloc)),
        names: Listed::from_vec(Vec::new(alloc)),
        tasks: Listed::from_vec(Vec::new(alloc)),
    };
    match Core::open(alloc, durable, None) {
        Ok(core) => Some(core),
        Err(_) => None,
    }
}

/// Serves jobs until none is left, or so many are served. How many were.
fn serve<G: Game>(alloc: Global, game: &G, core: &mut Core, most: u64) -> Option<u64>
    requires { RepresentsSome (G.rules game.now) core.old }
    ensures { IfSome result (λ _. RepresentsSome (G.rules game.now) core.new) }
{
    let mut served = 0u64;
    'jobs: for _ in 0..most {
        match work_once(alloc, game, core, 0) {
            Ok(Step::Ran(_)) => served = served.saturating_add(1),
            Ok(_) => return Some(served),
            Err(_) => return None,
        }
    }
    Some(served)
}

fn session_name(alloc: Global, number: u64) -> Option<Name> {
    let text = format!(in alloc; "s{number}").ok()?;
    Name::new(alloc, text.as_bytes()).ok()
}

/// Connects so many sessions, whose logins wait.
fn connect_all<G: Game>(alloc: Global, game: &G, core: &mut Core, logins: u64) -> Option<()>
    requires { RepresentsSome (G.rules game.now) core.old }
    ensures { IfSome result (λ _. RepresentsSome (G.rules game.now) core.new) }
{
    'sessions: for number in 0..logins {
        let name = session_name(alloc, number)?;
        match core.connect(&name) {
            Ok(_) => {}
            Err(_) => return None,
        }
    }
    Some(())
}

/// The occurrences of a task, one each millisecond.
fn occurrences<G: Game>(alloc: Global, game: &G, core: &mut Core) -> Option<u64>
    requires { RepresentsSome (G.rules game.now) core.old }
{
    let mut served = 0u64;
    'moments: for moment in 0..OCCURRENCES {
        core.tick(moment.saturating_add(1));
        served = served.saturating_add(serve(alloc, game, core, 1)?);
    }
    Some(served)
}

fn tasks_over_world<R: AllocGlobal + Clock>(rt: &R, objects: u32) -> Option<u64> {
    let alloc = rt.alloc();
    let logins = objects.clamp(1, 100_000);
    let filler = Filler {
        objects: (objects / logins).saturating_sub(1),
    };
    let mut core = opened(alloc, &filler)?;
    serve(alloc, &filler, &mut core, 1)?;
    connect_all(alloc, &filler, &mut core, logins as u64)?;
    serve(alloc, &filler, &mut core, u64::MAX)?;
    let start = Instant::now(rt).ok()?;
    if occurrences(alloc, &filler, &mut core)? < OCCURRENCES {
        return None;
    }
    nanoseconds(rt, &start)
}

fn counter_tasks<R: AllocGlobal + Clock>(rt: &R, tasks: u32) -> Option<u64> {
    let alloc = rt.alloc();
    let counters = Counters::new(7, tasks);
    let mut core = opened(alloc, &counters)?;
    serve(alloc, &counters, &mut core, 1)?;
    let start = Instant::now(rt).ok()?;
    if serve(alloc, &counters, &mut core, u64::MAX)? < tasks as u64 {
        return None;
    }
    nanoseconds(rt, &start)
}

fn sessions<R: AllocGlobal + Clock>(rt: &R, sessions: u32) -> Option<u64> {
    let alloc = rt.alloc();
    let counters = Counters::new(7, 0);
    let mut core = opened(alloc, &counters)?;
    serve(alloc, &counters, &mut core, 1)?;
    connect_all(alloc, &counters, &mut core, sessions as u64)?;
    let start = Instant::now(rt).ok()?;
    if serve(alloc, &counters, &mut core, u64::MAX)? < sessions as u64 {
        return None;
    }
    nanoseconds(rt, &start)
}
