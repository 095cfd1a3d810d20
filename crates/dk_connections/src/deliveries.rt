// The messages of a commit, with all the room that their delivery takes.
ghost use Rattle.std.specs.Prelude.{◌≡◌, ◌≤◌, [], length, vec_capacity, IfOk};

use dk_outbox::Ready;
use dk_types::{ConnNo, NoMemory, Out};
use std::alloc::Global;
use std::marker::Model;

/// A message for a connection, with the room that it takes there.
#[derive(Drop)]
pub(crate) struct Letter {
    conn: ConnNo,
    ready: Ready,
    closes: bool,
}

impl Model for Letter {
    ghost use Rattle.std.specs.Prelude.{◌≡◌};
    ghost use Rattle.dk_types.specs.declared.job.Out.{Out};
    ghost use Rattle.dk_types.specs.declared.number.ConnNo.{ConnNo};
    ghost use Rattle.dk_model.specs.Deliveries.{is_close};

    ghost Value = { ConnNo × Out };

    ghost view = { λ a. (a.conn, a.ready) };

    ghost invariant = { λ a. a.closes ≡ is_close a.ready };
}

/// The messages of a commit in their order, with all the room that their delivery takes.
#[derive(Drop)]
pub struct Deliveries {
    letters: Vec<Letter>,
    /// Empty, with room for the number of each connection that they close.
    closed: Vec<ConnNo>,
}

impl Model for Deliveries {
    ghost use Rattle.std.specs.Prelude.{◌≡◌, ◌≤◌, [], List, length, vec_capacity};
    ghost use Rattle.dk_types.specs.declared.job.Out.{Out};
    ghost use Rattle.dk_types.specs.declared.number.ConnNo.{ConnNo};

    ghost Value = { List (ConnNo × Out) };

    ghost view = { λ a. a.letters.items };

    ghost invariant = { λ a. (a.closed.items ≡ []) × (length a.letters.items ≤ vec_capacity a.closed) };
}

impl Letter {
    ghost use Rattle.dk_model.specs.Deliveries.{is_close};

    /// A copy of a message, with its room.
    fn new(alloc: Global, conn: ConnNo, out: &Out) -> Result<Letter, NoMemory>
        ensures { IfOk result (λ letter. letter ≡ (conn, out.now)) }
    {
        let out = out.clone()?;
        let closes = match &out {
            Out::Close => true,
            _ => false,
        };
        let ready = Ready::new(alloc, out)?;
        Ok(Letter {
            conn,
            ready,
            closes,
        })
    }

    /// Its connection, the message with its room, and whether it is a Close.
    pub(crate) fn into_parts(self) -> (ConnNo, Ready, bool)
        ensures conn { result.0 ≡ self.0 }
        ensures ready { result.1 ≡ self.1 }
        ensures closes { result.2 ≡ is_close self.1 }
    {
        let Letter {
            conn,
            ready,
            closes,
        } = self;
        (conn, ready, closes)
    }
}

impl Deliveries {
    /// Makes the room of all messages, and copies them.
    pub fn new(alloc: Global, outs: &[(ConnNo, Out)]) -> Result<Deliveries, NoMemory>
        ensures { IfOk result (λ deliveries. deliveries ≡ outs.now) }
    {
        let closed = Vec::with_capacity(alloc, outs.len())?;
        let mut letters = Vec::with_capacity(alloc, outs.len())?;
        for (conn, out) in outs {
            letters.push(Letter::new(alloc, *conn, out)?)?;
        }
        Ok(Deliveries { letters, closed })
    }

    /// The messages, and the empty list with its room.
    pub(crate) fn into_parts(self) -> (Vec<Letter>, Vec<ConnNo>)
        ensures letters { result.0.items ≡ self }
        ensures none { result.1.items ≡ [] }
        ensures room { length self ≤ vec_capacity result.1 }
    {
        let Deliveries { letters, closed } = self;
        (letters, closed)
    }
}
