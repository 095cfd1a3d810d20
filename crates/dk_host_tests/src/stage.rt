//! A host on which is played, and its single calls.
ghost use Rattle.std.specs.Prelude.{IfSome};
ghost use Rattle.dk_model.specs.Lawful.{IsInput};

use crate::texts::{object, of_entries, of_handed, of_read, of_world};
use dk_disk::Home;
use dk_game::Game;
use dk_host::{Host, Hosting, WorldBook};
use dk_rows::Words;
use dk_turn::{Naming, Pass};
use dk_types::{Blob, ConnNo, Input, Item, Name, ObjectId, Read, RunNo, Seen};
use std::alloc::Global;
use std::sync::Wait;
use std::sync::atomic::AtomicU64;
use std::thread::yield_now;

/// How often a thread looks for what another does.
pub(crate) const TURNS_COUNT: u32 = 100_000_000;

/// How many messages are taken at once.
const MESSAGES_MOST_COUNT: u32 = 64;

/// The room that the first run makes.
const ROOM: ObjectId = ObjectId {
    run: RunNo(0),
    k: 1,
};

/// A host of this game, and the word by which its home's syncs are held.
#[derive(Drop)]
pub(crate) struct Stage<'a, G: Game, W: Hosting, J: Naming, M: Home, R: Wait> {
    pub(crate) rt: &'a R,
    pub(crate) alloc: Global,
    pub(crate) host: &'a Host<W, J, M>,
    pub(crate) game: &'a G,
    pub(crate) word: &'a AtomicU64,
}

impl<G: Game, W: Hosting, J: Naming, M: Home, R: Wait> Stage<'_, G, W, J, M, R> {
    /// `connect NAME`
    pub(crate) fn connect(
        &self,
        pass: &mut Pass<WorldBook<W>, J>,
        call: &mut Words<'_>,
    ) -> Option<String> {
        let name = Name::new(self.alloc, call.word()?.as_bytes()).ok()?;
        let answer = self.host.connect(self.rt, pass, &name);
        format!(in self.alloc; "{answer:?}").ok()
    }

    /// `send CONN TEXT`
    pub(crate) fn send(
        &self,
        pass: &mut Pass<WorldBook<W>, J>,
        call: &mut Words<'_>,
    ) -> Option<String> {
        let conn = ConnNo(call.number()?);
        let input = message(self.alloc, call.rest())?;
        let answer = self.host.post(self.rt, pass, conn, input);
        format!(in self.alloc; "{answer:?}").ok()
    }

    fn handed(&self, pass: &mut Pass<WorldBook<W>, J>, conn: u64, most: u32) -> Option<String> {
        match self.host.hand(self.rt, pass, ConnNo(conn), most.max(1)) {
            Ok(handed) => of_handed(self.alloc, &handed),
            Err(_) => None,
        }
    }

    /// `hand CONN`: its messages.
    pub(crate) fn hand(
        &self,
        pass: &mut Pass<WorldBook<W>, J>,
        call: &mut Words<'_>,
    ) -> Option<String> {
        self.handed(pass, call.number()?, MESSAGES_MOST_COUNT)
    }

    /// `await CONN`: its first message, which comes at last.
    pub(crate) fn await_message(
        &self,
        pass: &mut Pass<WorldBook<W>, J>,
        call: &mut Words<'_>,
    ) -> Option<String> {
        let conn = call.number()?;
        for _ in 0..TURNS_COUNT {
            let text = self.handed(pass, conn, 1)?;
            if !text.is_empty() {
                return Some(text);
            }
            yield_now();
        }
        None
    }

    /// `read RUN.K`: an object.
    pub(crate) fn read(
        &self,
        pass: &mut Pass<WorldBook<W>, J>,
        call: &mut Words<'_>,
    ) -> Option<String> {
        let item = Item::Object(object(call.word()?)?);
        match self.host.read(self.rt, pass, &item) {
            Ok(read) => of_read(self.alloc, &read),
            Err(_) => None,
        }
    }

    /// `since COMMIT`: whether the room is of this commit or a later one.
    pub(crate) fn since(
        &self,
        pass: &mut Pass<WorldBook<W>, J>,
        call: &mut Words<'_>,
    ) -> Option<String> {
        let least = call.number()?;
        let is_since = match self.host.read(self.rt, pass, &Item::Object(ROOM)) {
            Ok(
                Read {
                    seen: Seen::At(at),
                    ..
                },
            ) => least <= at,
            _ => false,
        };
        format!(in self.alloc; "{is_since}").ok()
    }

    /// `checkpoint`
    pub(crate) fn checkpoint(&self, pass: &mut Pass<WorldBook<W>, J>) -> Option<String> {
        let answer = match self.host.checkpoint(self.rt, pass) {
            Ok(()) => Ok(()),
            Err(shown) => Err(shown.refused),
        };
        format!(in self.alloc; "{answer:?}").ok()
    }

    /// `durable`: the durable world.
    pub(crate) fn durable(&self, pass: &mut Pass<WorldBook<W>, J>) -> Option<String> {
        match self.host.durable(self.rt, pass) {
            Ok(durable) => of_world(self.alloc, &durable),
            Err(_) => None,
        }
    }

    /// `entries AFTER MOST`
    pub(crate) fn entries(
        &self,
        pass: &mut Pass<WorldBook<W>, J>,
        call: &mut Words<'_>,
    ) -> Option<String> {
        let (after, most) = (call.number()?, call.small()?);
        match self.host.entries_after(self.rt, pass, after, most.max(1)) {
            Ok(entries) => of_entries(self.alloc, &entries),
            Err(shown) => {
                let refused = shown.refused;
                format!(in self.alloc; "{refused:?}").ok()
            }
        }
    }
}

// A message of this text, which is short.
fn message(alloc: Global, text: &str) -> Option<Input>
    ensures { IfSome result IsInput }
{
    let bytes = text.as_bytes();
    if bytes.len() > 1_024 {
        return None;
    }
    Some(Input::Message(Blob::copy_of(alloc, bytes).ok()?))
}
