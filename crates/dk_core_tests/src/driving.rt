//! Calls of a core, each answered as a test wants it. They keep what the calls after them ask for.
ghost use Rattle.std.specs.Prelude.{◌≤◌, IfOk};
ghost use Rattle.dk_model.specs.Lawful.{IsInput};
ghost use Rattle.dk_core.specs.Cores.{IsGranted};
ghost use Rattle.dk_workers.specs.Working.{RepresentsSome};

use dk_core::{Claimed, Conflict, Core, Handed, PostRefused, PrepareRefused};
use dk_game::Game;
use dk_txn::Finished;
use dk_types::{Blob, ConnNo, Durable, Input, Listed, Name, RunNo};
use dk_workers::{Step, work_once};
use std::alloc::Global;
use std::process::Abort;
use std::test::Fail;

/// The pass of every call.
pub(crate) const PASS: u32 = 7;

pub(crate) fn text(alloc: Global, text: &str) -> Result<Name, Fail> {
    Ok(Name::new(alloc, text.as_bytes()).ok().ok_or("a name")?)
}

/// A core on a world in which nothing stands, before the first run or after it.
pub(crate) fn opened<G: Game>(
    alloc: Global,
    game: &G,
    commits: u64,
    budget: Option<u64>,
) -> Result<Core, Fail>
    requires { commits ≤ 1 }
    ensures { IfOk result (RepresentsSome (G.rules game.now)) }
{
    let last = if commits == 0 { None } else { Some(RunNo(0)) };
    let durable = Durable {
        commits,
        last,
        objects: Listed::from_vec(Vec::new(alloc)),
        names: Listed::from_vec(Vec::new(alloc)),
        tasks: Listed::from_vec(Vec::new(alloc)),
    };
    match Core::open(alloc, durable, budget) {
        Ok(core) => Ok(core),
        Err(_) => Err(Fail::from("a core")),
    }
}

/// The job that comes next, run and committed.
pub(crate) fn serve<G: Game>(alloc: Global, game: &G, core: &mut Core) -> Result<(), Fail>
    requires { RepresentsSome (G.rules game.now) core.old }
    ensures { IfOk result (λ _. RepresentsSome (G.rules game.now) core.new) }
{
    let Ok(Step::Ran(_)) = work_once(alloc, game, core, PASS) else {
        return Err(Fail::from("a run"));
    };
    Ok(())
}

/// The same beside a claim, which stays: as which run and which commit.
pub(crate) fn serve_beside<G: Game>(
    alloc: Global,
    game: &G,
    core: &mut Core,
    held: &Claimed,
) -> Result<(RunNo, u64), Fail>
    requires standing { RepresentsSome (G.rules game.now) core.old }
    requires granted { IsGranted core.old held.now }
    ensures standing { IfOk result (λ _. RepresentsSome (G.rules game.now) core.new) }
    ensures granted { IfOk result (λ _. IsGranted core.new held.now) }
{
    let Ok(Step::Ran(ran)) = work_once(alloc, game, core, PASS) else {
        return Err(Fail::from("a run"));
    };
    Ok((ran.run, ran.seq))
}

/// A claim, which is granted.
pub(crate) fn claim<G: Game>(_game: &G, core: &mut Core) -> Result<Claimed, Fail>
    requires { RepresentsSome (G.rules _game.now) core.old }
    ensures standing { IfOk result (λ _. RepresentsSome (G.rules _game.now) core.new) }
    ensures granted { IfOk result (IsGranted core.new) }
{
    match core.claim(PASS) {
        Ok(Some(claimed)) => Ok(claimed),
        Ok(None) | Err(_) => Err(Fail::from("a claim")),
    }
}

fn changed_of(refused: PrepareRefused) -> Result<Conflict, Fail> {
    match refused {
        PrepareRefused::Retry(changed) => Ok(changed),
        PrepareRefused::NoMemory => Err(Fail::from("memory")),
    }
}

/// A commit that is refused, as a read no longer stands. The claim is handed back.
pub(crate) fn commit_stale<G: Game>(
    _game: &G,
    core: &mut Core,
    claimed: Claimed,
    finished: Finished,
) -> Result<(Claimed, Conflict), Fail>
    requires standing { RepresentsSome (G.rules _game.now) core.old }
    requires granted { IsGranted core.old claimed }
    ensures standing { IfOk result (λ _. RepresentsSome (G.rules _game.now) core.new) }
    ensures granted { IfOk result (λ back. IsGranted core.new back.0) }
{
    let Err((back, refused)) = core.commit(claimed, finished) else {
        return Err(Fail::from("a stale read"));
    };
    let changed = changed_of(refused)?;
    Ok((back, changed))
}

pub(crate) fn commit<G: Game>(
    _game: &G,
    core: &mut Core,
    claimed: Claimed,
    finished: Finished,
) -> Result<u64, Fail>
    requires granted { IsGranted core.old claimed }
{
    match core.commit(claimed, finished) {
        Ok(seq) => Ok(seq),
        Err(_) => Err(Fail::from("a commit")),
    }
}

pub(crate) fn connect<G: Game>(
    alloc: Global,
    _game: &G,
    core: &mut Core,
    name: &str,
) -> Result<ConnNo, Fail>
    requires { RepresentsSome (G.rules _game.now) core.old }
    ensures { IfOk result (λ _. RepresentsSome (G.rules _game.now) core.new) }
{
    let name = text(alloc, name)?;
    match core.connect(&name) {
        Ok(conn) => Ok(conn),
        Err(_) => Err(Fail::from("a connection")),
    }
}

pub(crate) fn post<G: Game>(
    _game: &G,
    core: &mut Core,
    conn: ConnNo,
    input: Input,
) -> Result<Result<(), PostRefused>, Fail>
    requires standing { RepresentsSome (G.rules _game.now) core.old }
    requires within { IsInput input }
    ensures { IfOk result (λ _. RepresentsSome (G.rules _game.now) core.new) }
{
    Ok(core.post(conn, input))
}

/// A message of so many bytes.
fn message(rt: &impl Abort, alloc: Global, len: usize) -> Result<Input, Fail>
    ensures { IfOk result IsInput }
{
    assert!(rt; len <= 4096);
    let bytes = vec![in alloc; 0; len]?;
    Ok(Input::Message(Blob::from_vec(bytes)))
}

/// The same of so many bytes.
pub(crate) fn post_bytes<G: Game>(
    rt: &impl Abort,
    alloc: Global,
    game: &G,
    core: &mut Core,
    conn: ConnNo,
    len: usize,
) -> Result<Result<(), PostRefused>, Fail>
    requires { RepresentsSome (G.rules game.now) core.old }
    ensures { IfOk result (λ _. RepresentsSome (G.rules game.now) core.new) }
{
    let input = message(rt, alloc, len)?;
    post(game, core, conn, input)
}

pub(crate) fn hand<G: Game>(
    _game: &G,
    core: &mut Core,
    conn: ConnNo,
    most: u32,
) -> Result<Handed, Fail>
    requires { RepresentsSome (G.rules _game.now) core.old }
    ensures { IfOk result (λ _. RepresentsSome (G.rules _game.now) core.new) }
{
    match core.hand(conn, most) {
        Ok(handed) => Ok(handed),
        Err(_) => Err(Fail::from("a list")),
    }
}
