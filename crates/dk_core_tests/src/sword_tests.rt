//! In SwordWorld one looks around while another logs in, or the same again.
ghost use Rattle.std.specs.Prelude.{IfOk};
ghost use Rattle.dk_txn.specs.Knowing.{HasTaskLimits};
ghost use Rattle.dk_core.specs.Cores.{IsGranted};
ghost use Rattle.dk_workers.specs.Working.{RepresentsSome};
ghost use Rattle.sword_world.specs.Rules.{sword_rules};

use crate::driving::{
    claim, commit, commit_stale, connect, opened, post, serve, serve_beside, text,
};
use dk_core::{Claimed, Conflict, Core};
use dk_game::run_over;
use dk_txn::Finished;
use dk_types::limits::MOMENT_MOST_MS;
use dk_types::{Blob, ConnNo, Input, Item, Job, ObjectId, Out, Outcome, RunNo, Seen};
use std::alloc::Global;
use std::process::Abort;
use std::test::Fail;
use sword_world::SwordWorld;

/// The first run, and alice's login.
fn alice_logs_in(alloc: Global, core: &mut Core) -> Result<ConnNo, Fail>
    requires { RepresentsSome sword_rules core.old }
    ensures { IfOk result (λ _. RepresentsSome sword_rules core.new) }
{
    serve(alloc, &SwordWorld, core)?;
    let alice = connect(alloc, &SwordWorld, core, "alice")?;
    serve(alloc, &SwordWorld, core)?;
    Ok(alice)
}

/// Another connects, and her look is posted.
fn other_connects(alloc: Global, core: &mut Core, other: &str, alice: ConnNo) -> Result<(), Fail>
    requires { RepresentsSome sword_rules core.old }
    ensures { IfOk result (λ _. RepresentsSome sword_rules core.new) }
{
    connect(alloc, &SwordWorld, core, other)?;
    let look = Input::Message(Blob::copy_of(alloc, b"look")?);
    match post(&SwordWorld, core, alice, look)? {
        Ok(()) => Ok(()),
        Err(_) => Err(Fail::from("a post")),
    }
}

/// Alice is logged in and another has connected, and her look waits.
fn before_the_look(alloc: Global, core: &mut Core, other: &str) -> Result<ConnNo, Fail>
    requires { RepresentsSome sword_rules core.old }
    ensures { IfOk result (λ _. RepresentsSome sword_rules core.new) }
{
    let alice = alice_logs_in(alloc, core)?;
    other_connects(alloc, core, other, alice)?;
    Ok(alice)
}

fn look_job(alloc: Global, alice: ConnNo) -> Result<Job, Fail>
    ensures { IfOk result HasTaskLimits }
{
    Ok(Job::Message {
        conn: alice,
        name: text(alloc, "alice")?,
        body: Blob::copy_of(alloc, b"look")?,
    })
}

fn run_look(
    rt: &impl Abort,
    alloc: Global,
    core: &Core,
    claimed: &Claimed,
    job: &Job,
) -> Result<Finished, Fail>
    requires { HasTaskLimits job.now }
{
    let at = claimed.at();
    assert!(rt; at <= MOMENT_MOST_MS);
    let mut look = core.look();
    Ok(run_over(alloc, &SwordWorld, job, &mut look, claimed.run(), at)?)
}

/// Her look, over the world as it stands.
fn looks(
    rt: &impl Abort,
    alloc: Global,
    core: &Core,
    claimed: &Claimed,
    alice: ConnNo,
) -> Result<Finished, Fail> {
    let job = look_job(alloc, alice)?;
    assert!(rt; *claimed.job() == job);
    run_look(rt, alloc, core, claimed, &job)
}

/// The room, as it stood after her login and stands after his.
fn room_changed() -> Conflict {
    Conflict {
        item: Item::Object(ObjectId {
            run: RunNo(0),
            k: 1,
        }),
        found: Seen::At(2),
        now: Seen::At(3),
    }
}

/// Her record's name, as it stood after her login and stands after her second.
fn record_changed(alloc: Global) -> Result<Conflict, Fail> {
    Ok(Conflict {
        item: Item::Bound(text(alloc, "$s.alice")?),
        found: Seen::At(2),
        now: Seen::At(3),
    })
}

/// The other comes in meanwhile, and her look is refused.
fn behind_a_login(
    rt: &impl Abort,
    alloc: Global,
    core: &mut Core,
    look: Claimed,
    finished: Finished,
) -> Result<(Claimed, Conflict), Fail>
    requires standing { RepresentsSome sword_rules core.old }
    requires granted { IsGranted core.old look }
    ensures { IfOk result (λ back. IsGranted core.new back.0) }
{
    let (login, seq) = serve_beside(alloc, &SwordWorld, core, &look)?;
    let numbers = (look.run(), login, seq);
    assert!(rt; numbers == (RunNo(4), RunNo(5), 3));
    commit_stale(&SwordWorld, core, look, finished)
}

/// Her look was refused, since the other has come in meanwhile and this has changed.
fn after_a_login(
    rt: &impl Abort,
    alloc: Global,
    core: &mut Core,
    alice: ConnNo,
) -> Result<(Claimed, Conflict), Fail>
    requires { RepresentsSome sword_rules core.old }
    ensures { IfOk result (λ back. IsGranted core.new back.0) }
{
    let look = claim(&SwordWorld, core)?;
    let finished = looks(rt, alloc, core, &look, alice)?;
    behind_a_login(rt, alloc, core, look, finished)
}

/// Her look, run again and committed: whether it did something, and as which commit.
fn looks_again(
    rt: &impl Abort,
    alloc: Global,
    core: &mut Core,
    look: Claimed,
    alice: ConnNo,
) -> Result<(bool, u64), Fail>
    requires { IsGranted core.old look }
{
    let again = looks(rt, alloc, core, &look, alice)?;
    let is_bare = *again.outcome() == Outcome::Ok && again.touched().is_empty();
    Ok((!is_bare, commit(&SwordWorld, core, look, again)?))
}

/// A core, what refused a look on it, and whether it did something when it was run again, and as which commit.
#[derive(Drop)]
struct Looked {
    core: Core,
    changed: Conflict,
    acts: bool,
    seq: u64,
    alice: ConnNo,
}

/// Her look is refused and run again behind the other's login.
fn look_refused(rt: &impl Abort, alloc: Global, other: &str) -> Result<Looked, Fail> {
    let mut core = opened(alloc, &SwordWorld, 0, None)?;
    let alice = before_the_look(alloc, &mut core, other)?;
    let (look, changed) = after_a_login(rt, alloc, &mut core, alice)?;
    let (acts, seq) = looks_again(rt, alloc, &mut core, look, alice)?;
    Ok(Looked {
        core,
        changed,
        acts,
        seq,
        alice,
    })
}

/// A connection is handed these messages, and is gone then or not.
fn assert_handed(
    rt: &impl Abort,
    core: &mut Core,
    conn: ConnNo,
    outs: &[Out],
    end: bool,
) -> Result<(), Fail> {
    let handed = core.hand(conn, 3).ok().ok_or("a list")?;
    assert!(rt; handed.outs.as_slice() == outs);
    assert!(rt; handed.end == end);
    Ok(())
}

fn room_told(alloc: Global) -> Result<Out, Fail> {
    let body = Blob::copy_of(
        alloc,
        b"You are in a plain room.\nAlso in here: bob.\nOn the floor: a shiny sword.\n",
    )?;
    Ok(Out::Message(body))
}

#[test]
fn a_look_is_run_again_after_a_login(rt: HostRuntime) -> Result<(), Fail> {
    let mut looked = look_refused(&rt, rt.alloc(), "bob")?;
    assert!(rt; looked.changed == room_changed());
    assert_eq!(rt; looked.seq, 4);
    let told = [Out::Accepted, room_told(rt.alloc())?];
    assert_handed(&rt, &mut looked.core, looked.alice, told.as_slice(), false)
}

/// Her look of before her second login commits behind it, and does nothing.
#[test]
fn a_look_of_who_was_displaced_does_nothing(rt: HostRuntime) -> Result<(), Fail> {
    let mut looked = look_refused(&rt, rt.alloc(), "alice")?;
    let changed = record_changed(rt.alloc())?;
    assert!(rt; looked.changed == changed);
    assert!(rt; !looked.acts);
    assert_eq!(rt; looked.seq, 4);
    let old = [Out::Accepted, Out::Close];
    assert_handed(&rt, &mut looked.core, looked.alice, old.as_slice(), true)?;
    let new = [Out::Accepted];
    assert_handed(&rt, &mut looked.core, ConnNo(3), new.as_slice(), false)
}
