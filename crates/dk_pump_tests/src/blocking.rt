//! Sessions by the blocking calls.
ghost use Rattle.std.specs.Prelude.{◌≡◌};

use crate::hosting::{Scene, drain, three};
use dk_disk::{Home, MemoryHome};
use dk_edge::{MemorySink, MemorySource};
use dk_frame::Decoder;
use dk_game::Game;
use dk_host::{Host, Hosting, WorldBook};
use dk_pump::{SessionEnd, WriteEnd, greet, read_session, write_session};
use dk_turn::{Naming, Pass};
use dk_types::{ConnNo, Event, Item, Name, Seen};
use std::alloc::Global;
use std::sync::Wait;
use std::test::Fail;

/// Two sessions are read, one after the other, and no job is run.
#[derive(Drop)]
pub(crate) struct TwoRead {
    pub(crate) first: MemorySource,
    pub(crate) second: MemorySource,
}

/// How two sessions ended, how many events were kept by then, and what was kept when the host was closed.
#[derive(Drop)]
pub(crate) struct Sessions {
    pub(crate) ends: (SessionEnd, SessionEnd),
    pub(crate) count: u64,
    pub(crate) events: Vec<Event>,
}

impl Scene for TwoRead {
    type Told = Sessions;

    fn play<G: Game, W: Hosting, J: Naming, R: Wait>(
        self,
        rt: &R,
        alloc: Global,
        _game: &G,
        host: Host<W, J, MemoryHome>,
        passes: Vec<Pass<WorldBook<W>, J>>,
    ) -> Result<Sessions, Fail> {
        let mut passes = passes;
        let Some(pass) = passes.as_mut_slice().last_mut() else {
            return Err(Fail::from("a pass"));
        };
        let (ends, count) = read_both(rt, alloc, &host, pass, self)?;
        Ok(Sessions {
            ends,
            count,
            events: kept_events(host, passes),
        })
    }
}

// How two sessions end behind a connection that is not there, and how many events are kept by then.
fn read_both<W: Hosting, J: Naming, M: Home, R: Wait>(
    rt: &R,
    alloc: Global,
    host: &Host<W, J, M>,
    pass: &mut Pass<WorldBook<W>, J>,
    two: TwoRead,
) -> Result<((SessionEnd, SessionEnd), u64), Fail> {
    gone(rt, alloc, host, pass)?;
    let TwoRead { first, second } = two;
    let (_, one) = read(rt, alloc, host, pass, first);
    let (_, other) = read(rt, alloc, host, pass, second);
    Ok(((one, other), host.kept_count(rt, pass)))
}

// What a host has kept when it is closed.
fn kept_events<W: Hosting, J: Naming>(
    host: Host<W, J, MemoryHome>,
    passes: Vec<Pass<WorldBook<W>, J>>,
) -> Vec<Event> {
    host.close(passes).events
}

// Which connection a session has, if it has one, and how its reading ends.
fn read<W: Hosting, J: Naming, M: Home, R: Wait>(
    rt: &R,
    alloc: Global,
    host: &Host<W, J, M>,
    pass: &mut Pass<WorldBook<W>, J>,
    mut source: MemorySource,
) -> (Option<ConnNo>, SessionEnd) {
    let mut decoder = Decoder::new(alloc);
    match greet(rt, host, pass, &mut source, &mut decoder) {
        Ok(greeted) => {
            let conn = greeted.conn;
            let end = read_session(rt, host, pass, greeted, &mut source, &mut decoder);
            (Some(conn), end)
        }
        Err(end) => (None, end),
    }
}

// Of a connection that is not there nothing is written.
fn gone<W: Hosting, J: Naming, M: Home, R: Wait>(
    rt: &R,
    alloc: Global,
    host: &Host<W, J, M>,
    pass: &mut Pass<WorldBook<W>, J>,
) -> Result<(), Fail> {
    let mut sink = MemorySink::new(alloc, Vec::new(alloc));
    let end = write_session(rt, alloc, host, pass, ConnNo(7), &mut sink);
    if end == WriteEnd::Done && sink.contents().is_empty() {
        Ok(())
    } else {
        Err(Fail::from("a writer of nothing"))
    }
}

/// A session is read, a worker runs what it asked for, and then it is written.
#[derive(Drop)]
pub(crate) struct ReadThenWritten {
    pub(crate) source: MemorySource,
    pub(crate) sink: MemorySink,
}

/// How a session was read and written, what was put, and whether a record of alice's session is left.
#[derive(Drop)]
pub(crate) struct Written {
    pub(crate) end: SessionEnd,
    pub(crate) write: WriteEnd,
    pub(crate) put: Vec<u8>,
    pub(crate) recorded: bool,
}

impl Scene for ReadThenWritten {
    type Told = Written;

    fn play<G: Game, W: Hosting, J: Naming, R: Wait>(
        self,
        rt: &R,
        alloc: Global,
        game: &G,
        host: Host<W, J, MemoryHome>,
        passes: Vec<Pass<WorldBook<W>, J>>,
    ) -> Result<Written, Fail> {
        let (mut worker, mut reader, mut writer) = three(passes).ok_or("a pass")?;
        let ReadThenWritten { source, sink } = self;
        let (conn, end) = read_and_run(rt, alloc, game, &host, &mut worker, &mut reader, source)?;
        let (write, put) = put_frames(rt, alloc, &host, &mut writer, conn, sink)?;
        Ok(Written {
            end,
            write,
            put,
            recorded: is_recorded(rt, alloc, &host, &mut worker)?,
        })
    }
}

// A session is read behind the first run, and a worker runs what it asked for.
fn read_and_run<G: Game, W: Hosting, J: Naming, M: Home, R: Wait>(
    rt: &R,
    alloc: Global,
    game: &G,
    host: &Host<W, J, M>,
    worker: &mut Pass<WorldBook<W>, J>,
    reader: &mut Pass<WorldBook<W>, J>,
    source: MemorySource,
) -> Result<(ConnNo, SessionEnd), Fail>
    requires rules { W.opened.rules ≡ G.rules game.now }
{
    drain(rt, alloc, game, host, worker);
    let (conn, end) = read(rt, alloc, host, reader, source);
    drain(rt, alloc, game, host, worker);
    match conn {
        Some(conn) => Ok((conn, end)),
        None => Err(Fail::from("a connection")),
    }
}

// How a session is written, and what is put.
fn put_frames<W: Hosting, J: Naming, M: Home, R: Wait>(
    rt: &R,
    alloc: Global,
    host: &Host<W, J, M>,
    writer: &mut Pass<WorldBook<W>, J>,
    conn: ConnNo,
    mut sink: MemorySink,
) -> Result<(WriteEnd, Vec<u8>), Fail> {
    let write = write_session(rt, alloc, host, writer, conn, &mut sink);
    Ok((write, Vec::from_slice(alloc, sink.contents())?))
}

/// Whether there is a record of alice's session.
pub(crate) fn is_recorded<W: Hosting, J: Naming, M: Home, R: Wait>(
    rt: &R,
    alloc: Global,
    host: &Host<W, J, M>,
    pass: &mut Pass<WorldBook<W>, J>,
) -> Result<bool, Fail> {
    let name = Name::new(alloc, b"$s.alice").ok().ok_or("a name")?;
    match host.read(rt, pass, &Item::Bound(name)) {
        Ok(read) => Ok(read.seen != Seen::Absent),
        Err(_) => Err(Fail::from("a read")),
    }
}
