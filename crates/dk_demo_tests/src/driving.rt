//! A case, played over a core step by step.
ghost use Rattle.std.specs.Prelude.{IfOk};
ghost use Rattle.dk_model.specs.Lawful.{IsInput};
ghost use Rattle.dk_model.specs.Validity.{IsBody};
ghost use Rattle.dk_workers.specs.Working.{RepresentsSome};

use dk_core::Core;
use dk_game::Game;
use dk_inspect::inspect_text;
use dk_script::transcript_of;
use dk_types::limits::BODY_MOST_BYTES;
use dk_types::{
    Blob, ClaimReply, ConnNo, ConnectReply, Durable, Event, Input, Listed, Name, NoMemory,
};
use dk_workers::{Ran, Step as Worked, work_once};
use std::alloc::Global;
use std::test::Fail;

/// The pass of every call.
const PASS: u32 = 0;

/// More jobs than any case has at once.
const JOBS_MOST: u32 = 64;

/// As many messages as may wait.
const ALL: u32 = 4_096;

/// A step of a case. A client is meant by its place among those that logged in.
#[derive(Clone, Copy)]
pub(crate) enum Step<'a> {
    Login(&'a str),
    Send(usize, &'a str),
    /// A message on a channel.
    Say(usize, &'a str, &'a str),
    Logout(usize),
    /// Time goes on to this moment, in ms.
    Tick(u64),
    /// Jobs are run until none is left, and each client is handed its messages.
    Sync,
    /// The server stops, and starts again on what is durable.
    Restart,
}

/// Who connected, and what happened.
#[derive(Drop)]
struct Told {
    opened: Vec<ConnNo>,
    events: Vec<Event>,
}

impl Told {
    fn conn(&self, client: usize) -> Result<ConnNo, Fail> {
        Ok(*self.opened.as_slice().get(client).ok_or("a client")?)
    }

    fn add_run(&mut self, ran: Ran) -> Result<(), NoMemory> {
        let Ran {
            run,
            at,
            job,
            seq,
            outcome,
        } = ran;
        let reply = ClaimReply::Granted { run, at, job };
        self.events.push(Event::Claim { pass: PASS, reply })?;
        self.events.push(Event::Commit {
            pass: PASS,
            run,
            seq,
            outcome,
        })?;
        Ok(())
    }
}

/// A core on the world before the first run.
fn opened<G: Game>(alloc: Global, _game: &G) -> Result<Core, Fail>
    ensures { IfOk result (RepresentsSome (G.rules _game.now)) }
{
    let durable = Durable {
        commits: 0,
        last: None,
        objects: Listed::from_vec(Vec::new(alloc)),
        names: Listed::from_vec(Vec::new(alloc)),
        tasks: Listed::from_vec(Vec::new(alloc)),
    };
    match Core::open(alloc, durable, None) {
        Ok(core) => Ok(core),
        Err(_) => Err(Fail::from("a core")),
    }
}

/// A core on the durable world of another.
fn reopen<G: Game>(alloc: Global, _game: &G, core: &Core) -> Result<Core, Fail>
    requires { RepresentsSome (G.rules _game.now) core.now }
    ensures { IfOk result (RepresentsSome (G.rules _game.now)) }
{
    let durable = core.durable()?;
    match Core::open(alloc, durable, None) {
        Ok(core) => Ok(core),
        Err(_) => Err(Fail::from("a core")),
    }
}

fn login<G: Game>(
    alloc: Global,
    _game: &G,
    core: &mut Core,
    told: &mut Told,
    name: &str,
) -> Result<(), Fail>
    requires { RepresentsSome (G.rules _game.now) core.old }
    ensures { IfOk result (λ _. RepresentsSome (G.rules _game.now) core.new) }
{
    let name = Name::new(alloc, name.as_bytes()).ok().ok_or("a name")?;
    let Ok(conn) = core.connect(&name) else {
        return Err(Fail::from("a connection"));
    };
    told.opened.push(conn)?;
    let reply = ConnectReply::Number(conn);
    let pass = PASS;
    told.events.push(Event::Connect { pass, name, reply })?;
    Ok(())
}

fn body_of(alloc: Global, text: &str) -> Result<Blob, Fail>
    ensures { IfOk result IsBody }
{
    if text.len() as u64 > BODY_MOST_BYTES {
        return Err(Fail::from("a body"));
    }
    Ok(Blob::copy_of(alloc, text.as_bytes())?)
}

fn channel_input(alloc: Global, channel: &str, text: &str) -> Result<Input, Fail>
    ensures { IfOk result IsInput }
{
    let channel = Name::new(alloc, channel.as_bytes()).ok().ok_or("a name")?;
    let body = body_of(alloc, text)?;
    // What holds of every name is seen where its bytes are.
    let _bytes = channel.as_slice();
    Ok(Input::Channel { channel, body })
}

fn post<G: Game>(_game: &G, core: &mut Core, conn: ConnNo, input: Input) -> Result<(), Fail>
    requires standing { RepresentsSome (G.rules _game.now) core.old }
    requires within { IsInput input }
    ensures { IfOk result (λ _. RepresentsSome (G.rules _game.now) core.new) }
{
    match core.post(conn, input) {
        Ok(()) => Ok(()),
        Err(_) => Err(Fail::from("a post")),
    }
}

fn tick<G: Game>(_game: &G, core: &mut Core, moment: u64)
    requires { RepresentsSome (G.rules _game.now) core.old }
    ensures { RepresentsSome (G.rules _game.now) core.new }
{
    core.tick(moment);
}

fn serve<G: Game>(alloc: Global, game: &G, core: &mut Core) -> Result<Option<Ran>, Fail>
    requires { RepresentsSome (G.rules game.now) core.old }
    ensures { IfOk result (λ _. RepresentsSome (G.rules game.now) core.new) }
{
    match work_once(alloc, game, core, PASS) {
        Ok(Worked::Ran(ran)) => Ok(Some(ran)),
        Ok(Worked::Idle) => Ok(None),
        _ => Err(Fail::from("a run")),
    }
}

/// Runs jobs until none is left.
fn drain<G: Game>(alloc: Global, game: &G, core: &mut Core, told: &mut Told) -> Result<(), Fail>
    requires { RepresentsSome (G.rules game.now) core.old }
    ensures { IfOk result (λ _. RepresentsSome (G.rules game.now) core.new) }
{
    for _job in 0..JOBS_MOST {
        match serve(alloc, game, core)? {
            None => return Ok(()),
            Some(ran) => told.add_run(ran)?,
        }
    }
    Err(Fail::from("an end"))
}

fn hand<G: Game>(
    _game: &G,
    core: &mut Core,
    conn: ConnNo,
    events: &mut Vec<Event>,
) -> Result<(), Fail>
    requires { RepresentsSome (G.rules _game.now) core.old }
    ensures { IfOk result (λ _. RepresentsSome (G.rules _game.now) core.new) }
{
    let Ok(handed) = core.hand(conn, ALL) else {
        return Err(Fail::from("a list"));
    };
    events.push(Event::Hand {
        pass: PASS,
        conn,
        most: ALL,
        outs: handed.outs,
        end: handed.end,
    })?;
    Ok(())
}

/// Hands each client all that waits for it, in the order of logging in.
fn hand_all<G: Game>(game: &G, core: &mut Core, told: &mut Told) -> Result<(), Fail>
    requires { RepresentsSome (G.rules game.now) core.old }
    ensures { IfOk result (λ _. RepresentsSome (G.rules game.now) core.new) }
{
    for conn in &told.opened {
        hand(game, core, *conn, &mut told.events)?;
    }
    Ok(())
}

fn take<G: Game>(
    alloc: Global,
    game: &G,
    core: &mut Core,
    told: &mut Told,
    step: Step<'_>,
) -> Result<(), Fail>
    requires { RepresentsSome (G.rules game.now) core.old }
    ensures { IfOk result (λ _. RepresentsSome (G.rules game.now) core.new) }
{
    match step {
        Step::Login(name) => login(alloc, game, core, told, name),
        Step::Send(client, text) => {
            let body = body_of(alloc, text)?;
            post(game, core, told.conn(client)?, Input::Message(body))
        }
        Step::Say(client, channel, text) => {
            let input = channel_input(alloc, channel, text)?;
            post(game, core, told.conn(client)?, input)
        }
        Step::Logout(client) => {
            let input = Input::Disconnect { graceful: true };
            post(game, core, told.conn(client)?, input)
        }
        Step::Tick(moment) => {
            tick(game, core, moment);
            told.events.push(Event::Tick { pass: PASS, moment })?;
            Ok(())
        }
        Step::Sync => {
            drain(alloc, game, core, told)?;
            hand_all(game, core, told)
        }
        Step::Restart => {
            *core = reopen(alloc, game, core)?;
            Ok(())
        }
    }
}

/// What the steps come to: the transcript of all that happened, in one phase, and what `inspect` writes in the end.
pub(crate) fn play<G: Game>(
    alloc: Global,
    game: &G,
    steps: &[Step<'_>],
) -> Result<(Blob, Blob), Fail> {
    let mut core = opened(alloc, game)?;
    let mut told = Told {
        opened: Vec::new(alloc),
        events: Vec::new(alloc),
    };
    for step in steps {
        take(alloc, game, &mut core, &mut told, *step)?;
    }
    let commits = core.commits();
    let tasks = core.pending_len();
    let transcript = transcript_of(alloc, told.events.as_slice(), &[0], commits, tasks)?;
    let inspected = inspect_text(alloc, &game.id(), &core.durable()?)?;
    Ok((transcript, inspected))
}
