//! A client that asks and never takes.
ghost use Rattle.std.specs.Prelude.{◌≡◌, IfOk};
ghost use Rattle.dk_model.specs.Lawful.{IsInput};

use crate::hosting::{Scene, drain};
use dk_disk::{Home, MemoryHome};
use dk_game::Game;
use dk_host::{Host, Hosting, WorldBook};
use dk_turn::{Naming, Pass};
use dk_types::{Blob, ConnNo, Input, Name};
use std::alloc::Global;
use std::sync::Wait;
use std::test::Fail;

/// alice logs in and looks so many times, in batches, each of which a worker drains. Then her connection is handed.
#[derive(Drop)]
pub(crate) struct Untaken {
    pub(crate) batches: &'static [u32],
    pub(crate) hands: u32,
    pub(crate) most: u32,
}

impl Scene for Untaken {
    /// How many messages each hand gave, and whether the connection was gone.
    type Told = Vec<(usize, bool)>;

    fn play<G: Game, W: Hosting, J: Naming, R: Wait>(
        self,
        rt: &R,
        alloc: Global,
        game: &G,
        host: Host<W, J, MemoryHome>,
        passes: Vec<Pass<WorldBook<W>, J>>,
    ) -> Result<Vec<(usize, bool)>, Fail> {
        let mut passes = passes;
        let Some(pass) = passes.as_mut_slice().last_mut() else {
            return Err(Fail::from("a pass"));
        };
        drain(rt, alloc, game, &host, pass);
        let conn = log_in(rt, alloc, &host, pass)?;
        for batch in self.batches {
            look(rt, alloc, &host, pass, conn, *batch)?;
            drain(rt, alloc, game, &host, pass);
        }
        handed(rt, alloc, &host, pass, conn, &self)
    }
}

// What is handed to a connection, hand by hand.
fn handed<W: Hosting, J: Naming, M: Home, R: Wait>(
    rt: &R,
    alloc: Global,
    host: &Host<W, J, M>,
    pass: &mut Pass<WorldBook<W>, J>,
    conn: ConnNo,
    scene: &Untaken,
) -> Result<Vec<(usize, bool)>, Fail> {
    let mut handed = Vec::new(alloc);
    for _ in 0..scene.hands {
        handed.push(hand(rt, host, pass, conn, scene.most)?)?;
    }
    Ok(handed)
}

fn log_in<W: Hosting, J: Naming, M: Home, R: Wait>(
    rt: &R,
    alloc: Global,
    host: &Host<W, J, M>,
    pass: &mut Pass<WorldBook<W>, J>,
) -> Result<ConnNo, Fail> {
    let name = Name::new(alloc, b"alice").ok().ok_or("a name")?;
    match host.connect(rt, pass, &name) {
        Ok(conn) => Ok(conn),
        Err(_) => Err(Fail::from("a connection")),
    }
}

fn look_message(alloc: Global) -> Result<Input, Fail>
    ensures { IfOk result IsInput }
{
    Ok(Input::Message(Blob::copy_of(alloc, b"look")?))
}

fn look<W: Hosting, J: Naming, M: Home, R: Wait>(
    rt: &R,
    alloc: Global,
    host: &Host<W, J, M>,
    pass: &mut Pass<WorldBook<W>, J>,
    conn: ConnNo,
    times: u32,
) -> Result<(), Fail> {
    for _ in 0..times {
        if host.post(rt, pass, conn, look_message(alloc)?).is_err() {
            return Err(Fail::from("a place"));
        }
    }
    Ok(())
}

fn hand<W: Hosting, J: Naming, M: Home, R: Wait>(
    rt: &R,
    host: &Host<W, J, M>,
    pass: &mut Pass<WorldBook<W>, J>,
    conn: ConnNo,
    most: u32,
) -> Result<(usize, bool), Fail> {
    match host.hand(rt, pass, conn, most.max(1)) {
        Ok(handed) => Ok((handed.outs.as_slice().len(), handed.end)),
        Err(_) => Err(Fail::from("a list")),
    }
}
