//! Calls of a core as rows, which one loop runs.
ghost use Rattle.std.specs.Prelude.{IfOk};
ghost use Rattle.dk_workers.specs.Working.{RepresentsSome};

use crate::driving::{PASS, claim, connect, hand, post_bytes};
use dk_core::{Core, PostRefused};
use dk_game::Game;
use dk_types::{ConnNo, Job, Out, Outcome};
use dk_workers::{Step, work_once};
use std::alloc::Global;
use std::process::Abort;
use std::test::Fail;

/// A call of a core, and what it answers.
#[derive(Clone, Copy, Debug)]
pub(crate) enum Row {
    /// A connection of this name gets this number.
    Connect(&'static str, u64),
    /// A message of so many bytes is posted to a connection.
    Post(u64, usize, Result<(), PostRefused>),
    /// A worker's step comes to this.
    Works(Work),
    /// A claim gets this job, and stays.
    Claims(Claimable),
    /// A hand of at most so many messages gives so many, of which the last is this one, and tells the end or not.
    Hands(u64, u32, usize, Told, bool),
}

/// What a worker's step comes to.
#[derive(Clone, Copy, Debug, PartialEq, Eq)]
pub(crate) enum Work {
    /// A job is claimed as this run, and ends well, as this commit.
    Runs(u64, u64),
    /// The same, but it fails.
    Fails(u64, u64),
    Idle,
    /// So many claims are granted, and no more may be.
    Spent(u64),
    Exhausted,
}

/// A job, by what tells it from the others of a test.
#[derive(Clone, Copy, Debug, PartialEq, Eq)]
pub(crate) enum Claimable {
    First,
    /// The task in this place among those of its run.
    Task(u32),
    Login(u64),
    Message(u64),
    /// The end of a connection's session.
    End(u64),
}

/// A message, by its kind.
#[derive(Clone, Copy, Debug, PartialEq, Eq)]
pub(crate) enum Told {
    Accepted,
    Refused,
    Close,
    Message,
    Other,
}

fn job_of(job: &Job) -> Claimable {
    match job {
        Job::Initialize => Claimable::First,
        Job::Task { key, .. } => Claimable::Task(key.k),
        Job::Login { conn, .. } => Claimable::Login(conn.0),
        Job::Message { conn, .. } | Job::Channel { conn, .. } => Claimable::Message(conn.0),
        Job::Disconnect { conn, .. } => Claimable::End(conn.0),
    }
}

fn kind_of(out: Option<&Out>) -> Told {
    match out {
        Some(Out::Accepted) => Told::Accepted,
        Some(Out::Refused) => Told::Refused,
        Some(Out::Close) => Told::Close,
        Some(Out::Message(_)) => Told::Message,
        _ => Told::Other,
    }
}

fn work_of(step: &Step) -> Work {
    match step {
        Step::Ran(ran) if ran.outcome == Outcome::Ok => Work::Runs(ran.run.0, ran.seq),
        Step::Ran(ran) => Work::Fails(ran.run.0, ran.seq),
        Step::Idle => Work::Idle,
        Step::Spent { granted } => Work::Spent(*granted),
        Step::Exhausted { .. } => Work::Exhausted,
    }
}

/// A worker's step.
fn take_step<G: Game>(alloc: Global, game: &G, core: &mut Core) -> Result<Work, Fail>
    requires { RepresentsSome (G.rules game.now) core.old }
    ensures { IfOk result (λ _. RepresentsSome (G.rules game.now) core.new) }
{
    match work_once(alloc, game, core, PASS) {
        Ok(step) => Ok(work_of(&step)),
        Err(_) => Err(Fail::from("memory")),
    }
}

/// A hand: how many messages, the last of them, and whether the connection is gone.
fn handed<G: Game>(
    game: &G,
    core: &mut Core,
    conn: ConnNo,
    most: u32,
) -> Result<(usize, Told, bool), Fail>
    requires { RepresentsSome (G.rules game.now) core.old }
    ensures { IfOk result (λ _. RepresentsSome (G.rules game.now) core.new) }
{
    let handed = hand(game, core, conn, most)?;
    let outs = handed.outs.as_slice();
    Ok((outs.len(), kind_of(outs.last()), handed.end))
}

/// A claim, which stays: its job.
fn claimed<G: Game>(game: &G, core: &mut Core) -> Result<Claimable, Fail>
    requires { RepresentsSome (G.rules game.now) core.old }
    ensures { IfOk result (λ _. RepresentsSome (G.rules game.now) core.new) }
{
    let claimed = claim(game, core)?;
    Ok(job_of(claimed.job()))
}

/// Whether the call of a row answers what the row says.
fn is_answered<G: Game>(
    rt: &impl Abort,
    alloc: Global,
    game: &G,
    core: &mut Core,
    row: &Row,
) -> Result<bool, Fail>
    requires { RepresentsSome (G.rules game.now) core.old }
    ensures { IfOk result (λ _. RepresentsSome (G.rules game.now) core.new) }
{
    match *row {
        Row::Connect(name, number) => Ok(connect(alloc, game, core, name)?.0 == number),
        Row::Post(conn, len, reply) => {
            Ok(post_bytes(rt, alloc, game, core, ConnNo(conn), len)? == reply)
        }
        Row::Works(wanted) => Ok(take_step(alloc, game, core)? == wanted),
        Row::Claims(wanted) => Ok(claimed(game, core)? == wanted),
        Row::Hands(conn, most, count, last, end) => {
            Ok(handed(game, core, ConnNo(conn), most)? == (count, last, end))
        }
    }
}

/// Each row's call, one after another.
pub(crate) fn play<G: Game>(
    rt: &impl Abort,
    alloc: Global,
    game: &G,
    core: &mut Core,
    rows: &[Row],
) -> Result<(), Fail>
    requires { RepresentsSome (G.rules game.now) core.old }
    ensures { IfOk result (λ _. RepresentsSome (G.rules game.now) core.new) }
{
    for row in rows {
        let holds = is_answered(rt, alloc, game, core, row)?;
        assert!(rt; holds, "{row:?}");
    }
    Ok(())
}
