//! Histories of a core as rows.

use crate::driving::opened;
use crate::herald::Herald;
use crate::rows::Claimable::{End, First, Login, Task};
use crate::rows::Row::{Claims, Connect, Hands, Post, Works};
use crate::rows::Told::{Accepted, Close, Message};
use crate::rows::Work::{Idle, Runs, Spent};
use crate::rows::{Row, play};
use crate::twins::Twins;
use dk_core::PostRefused;
use dk_game::Game;
use std::alloc::Global;
use std::process::Abort;
use std::test::Fail;

/// The rows on the world before the first run.
fn play_all<G: Game>(
    rt: &impl Abort,
    alloc: Global,
    game: &G,
    budget: Option<u64>,
    rows: &[Row],
) -> Result<(), Fail> {
    let mut core = opened(alloc, game, 0, budget)?;
    play(rt, alloc, game, &mut core, rows)
}

const FIRST_ALONE: [Row; 3] = [Connect("alice", 0), Claims(First), Works(Idle)];

/// The first run leaves two tasks, and a message waits behind a login that is claimed.
const TURNS: [Row; 9] = [
    Connect("alice", 0),
    Connect("bob", 1),
    Works(Runs(2, 1)),
    Post(0, 1, Ok(())),
    Claims(Task(0)),
    Claims(Login(0)),
    Claims(Task(1)),
    Claims(Login(1)),
    Works(Idle),
];

const SPENT: [Row; 4] = [
    Works(Runs(0, 1)),
    Works(Spent(1)),
    Connect("alice", 1),
    Works(Spent(1)),
];

/// One message more than may wait cuts the connection off, and its session ends.
const CUT_OFF: [Row; 15] = [
    Connect("alice", 0),
    Works(Runs(1, 1)),
    Works(Runs(2, 2)),
    Works(Runs(3, 3)),
    Works(Runs(4, 4)),
    Hands(0, 1, 1, Accepted, false),
    Post(0, 4_096, Ok(())),
    Works(Runs(5, 5)),
    Post(0, 1, Ok(())),
    Post(0, 1, Ok(())),
    Works(Runs(6, 6)),
    Post(0, 1, Err(PostRefused::Closed)),
    Works(Runs(7, 7)),
    Hands(0, 5_000, 4_096, Message, false),
    Claims(End(0)),
];

#[test]
fn what_comes_next_is_claimed(rt: HostRuntime) -> Result<(), Fail> {
    let alloc = rt.alloc();
    play_all(&rt, alloc, &Twins, None, &FIRST_ALONE)?;
    play_all(&rt, alloc, &Twins, None, &TURNS)?;
    play_all(&rt, alloc, &Twins, Some(1), &SPENT)?;
    play_all(&rt, alloc, &Twins, None, &CUT_OFF)
}

/// What each job tells connection 1 waits there behind the accepted login.
const TWO_SESSIONS: [Row; 10] = [
    Works(Runs(0, 1)),
    Connect("alice", 1),
    Connect("bob", 2),
    Post(2, 2, Ok(())),
    Works(Runs(3, 2)),
    Works(Runs(4, 3)),
    Works(Runs(5, 4)),
    Works(Idle),
    Hands(1, 4_096, 4, Message, false),
    Hands(2, 4_096, 1, Accepted, false),
];

/// A second login of a name closes the first, behind which nothing waits but what the game says in that very run.
const TWO_LOGINS: [Row; 12] = [
    Works(Runs(0, 1)),
    Connect("alice", 1),
    Connect("alice", 2),
    Post(2, 2, Ok(())),
    Works(Runs(3, 2)),
    Works(Runs(4, 3)),
    Works(Runs(5, 4)),
    Works(Idle),
    Hands(1, 3, 3, Message, false),
    Hands(1, 1, 1, Close, false),
    Hands(1, 1, 1, Message, true),
    Hands(2, 4_096, 1, Accepted, false),
];

#[test]
fn messages_wait_where_they_were_sent(rt: HostRuntime) -> Result<(), Fail> {
    let alloc = rt.alloc();
    play_all(&rt, alloc, &Herald, None, &TWO_SESSIONS)?;
    play_all(&rt, alloc, &Herald, None, &TWO_LOGINS)
}
