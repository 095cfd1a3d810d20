//! Sessions that are polled by hand, with a worker between two polls.
ghost use Rattle.std.specs.Prelude.{◌≡◌, IsSome};

use crate::blocking::is_recorded;
use crate::hosting::{Scene, drain, three};
use dk_disk::{Home, MemoryHome};
use dk_edge::MemoryLink;
use dk_game::Game;
use dk_host::{Host, Hosting, WorldBook};
use dk_pump::{SessionDone, SessionEnd, SessionFuture, Tally, WriteEnd};
use dk_turn::{Naming, Pass};
use futures::Future;
use futures::future::join;
use futures::task::Poll;
use futures::test::MockTask;
use std::alloc::Global;
use std::sync::Wait;
use std::test::Fail;

/// More polls than any session here has.
const POLLS_MOST_COUNT: u64 = 1_000;

/// Two sessions over links.
#[derive(Drop)]
pub(crate) struct TwoPolled {
    pub(crate) task: MockTask,
    pub(crate) first: MemoryLink,
    pub(crate) second: MemoryLink,
    /// Whether both are polled by turns, or the second once the first has ended.
    pub(crate) together: bool,
}

/// How a session ended, and what its link was put.
#[derive(Drop)]
pub(crate) struct Ended {
    pub(crate) end: SessionEnd,
    pub(crate) write: WriteEnd,
    pub(crate) put: Vec<u8>,
}

/// How both ended, how often the first was polled, the tally of both, and whether a record of alice's session is left.
#[derive(Drop)]
pub(crate) struct BothEnded {
    pub(crate) first: Ended,
    pub(crate) second: Ended,
    pub(crate) polls: u64,
    pub(crate) tally: u64,
    pub(crate) recorded: bool,
}

impl Scene for TwoPolled {
    type Told = BothEnded;

    fn play<G: Game, W: Hosting, J: Naming, R: Wait>(
        self,
        rt: &R,
        alloc: Global,
        game: &G,
        host: Host<W, J, MemoryHome>,
        passes: Vec<Pass<WorldBook<W>, J>>,
    ) -> Result<BothEnded, Fail> {
        let (mut worker, one, other) = three(passes).ok_or("a pass")?;
        drain(rt, alloc, game, &host, &mut worker);
        let (one, other, polls) = poll_both(rt, alloc, game, &host, &mut worker, one, other, self)?;
        let recorded = is_recorded(rt, alloc, &host, &mut worker)?;
        both_ended(alloc, one, other, polls, recorded)
    }
}

// Two sessions of these passes, polled by turns or one after the other.
fn poll_both<G: Game, W: Hosting, J: Naming, M: Home, R: Wait>(
    rt: &R,
    alloc: Global,
    game: &G,
    host: &Host<W, J, M>,
    worker: &mut Pass<WorldBook<W>, J>,
    one: Pass<WorldBook<W>, J>,
    other: Pass<WorldBook<W>, J>,
    scene: TwoPolled,
) -> Result<
    (
        SessionDone<W, J, MemoryLink>,
        SessionDone<W, J, MemoryLink>,
        u64,
    ),
    Fail,
>
    requires rules { W.opened.rules ≡ G.rules game.now }
{
    let one = SessionFuture::new(rt, alloc, host, one, scene.first);
    let other = SessionFuture::new(rt, alloc, host, other, scene.second);
    if scene.together {
        by_turns(rt, alloc, game, host, worker, &scene.task, one, other)
    } else {
        in_turn(rt, alloc, game, host, worker, &scene.task, one, other)
    }
}

// Polls both by turns, until both have ended.
fn by_turns<G: Game, W: Hosting, J: Naming, M: Home, R: Wait>(
    rt: &R,
    alloc: Global,
    game: &G,
    host: &Host<W, J, M>,
    worker: &mut Pass<WorldBook<W>, J>,
    task: &MockTask,
    one: SessionFuture<'_, W, J, M, R, MemoryLink>,
    other: SessionFuture<'_, W, J, M, R, MemoryLink>,
) -> Result<
    (
        SessionDone<W, J, MemoryLink>,
        SessionDone<W, J, MemoryLink>,
        u64,
    ),
    Fail,
>
    requires rules { W.opened.rules ≡ G.rules game.now }
    requires one { IsSome one.underway }
    requires other { IsSome other.underway }
{
    let (done, polls) = to_end(rt, alloc, game, host, worker, task, join(one, other))?;
    Ok((done.0, done.1, polls))
}

// Polls the one until it has ended, and then the other.
fn in_turn<G: Game, W: Hosting, J: Naming, M: Home, R: Wait>(
    rt: &R,
    alloc: Global,
    game: &G,
    host: &Host<W, J, M>,
    worker: &mut Pass<WorldBook<W>, J>,
    task: &MockTask,
    one: SessionFuture<'_, W, J, M, R, MemoryLink>,
    other: SessionFuture<'_, W, J, M, R, MemoryLink>,
) -> Result<
    (
        SessionDone<W, J, MemoryLink>,
        SessionDone<W, J, MemoryLink>,
        u64,
    ),
    Fail,
>
    requires rules { W.opened.rules ≡ G.rules game.now }
    requires one { IsSome one.underway }
    requires other { IsSome other.underway }
{
    let (one, polls) = to_end(rt, alloc, game, host, worker, task, one)?;
    let (other, _) = to_end(rt, alloc, game, host, worker, task, other)?;
    Ok((one, other, polls))
}

// Polls until there is an answer, which comes with the number of polls. Between two polls a worker runs all that it can.
fn to_end<F: Future, G: Game, W: Hosting, J: Naming, M: Home, R: Wait>(
    rt: &R,
    alloc: Global,
    game: &G,
    host: &Host<W, J, M>,
    worker: &mut Pass<WorldBook<W>, J>,
    task: &MockTask,
    future: F,
) -> Result<(F::Output, u64), Fail>
    requires rules { W.opened.rules ≡ G.rules game.now }
    requires begun { F.can_poll future }
{
    let mut future = future;
    for polls in 1..=POLLS_MOST_COUNT {
        if let Poll::Ready(output) = task.poll(&mut future) {
            return Ok((output, polls));
        }
        drain(rt, alloc, game, host, worker);
    }
    Err(Fail::from("an end"))
}

fn both_ended<W: Hosting, J: Naming>(
    alloc: Global,
    one: SessionDone<W, J, MemoryLink>,
    other: SessionDone<W, J, MemoryLink>,
    polls: u64,
    recorded: bool,
) -> Result<BothEnded, Fail> {
    let (first, one) = counted(alloc, one)?;
    let (second, other) = counted(alloc, other)?;
    Ok(BothEnded {
        first,
        second,
        polls,
        tally: joined(one, other)?,
        recorded,
    })
}

// What a session came to, and a tally of it alone.
fn counted<W: Hosting, J: Naming>(
    alloc: Global,
    done: SessionDone<W, J, MemoryLink>,
) -> Result<(Ended, Tally<MemoryLink>), Fail> {
    let ended = Ended {
        end: done.end(),
        write: done.write(),
        put: Vec::from_slice(alloc, done.link().sink().contents())?,
    };
    let mut tally = Tally::new();
    tally.add(done);
    Ok((ended, tally))
}

// The number of both tallies, which are small.
fn joined(one: Tally<MemoryLink>, other: Tally<MemoryLink>) -> Result<u64, Fail> {
    if one.number() > 1_000 || other.number() > 1_000 {
        return Err(Fail::from("few sessions"));
    }
    Ok(one.join(other).number())
}
