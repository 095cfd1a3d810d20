//! Connections, their inputs, and what they are handed.

use crate::book::WorldBook;
use crate::hosting::Hosting;
use crate::keeping::{
    connect_event, hand_event, kept_input, kept_messages, kept_name, post_event, room_for_post,
};
use crate::steps::Call;
use dk_core::{ConnectRefused, Handed, PostRefused};
use dk_turn::{NotingAll, Step};
use dk_types::{ConnNo, Event, Input, Name, NoMemory};
use std::snapshot::Snapshot;

/// A new connection.
#[derive(Drop)]
pub(crate) struct Connect<'a> {
    pub(crate) name: &'a Name,
}

impl<'a, 'b> NotingAll<Call<'b, Name, Result<ConnNo, ConnectRefused>>, Event> for Connect<'a> {
    ghost use Rattle.dk_host.specs.Calls.{connect_events};

    ghost entries = { λ t. connect_events t.pass t.ask.now t.reply.now };
}

impl<'a, W: Hosting> Step<WorldBook<W>> for Connect<'a> {
    ghost use Rattle.dk_host.specs.Calls.{connect_events};
    ghost use Rattle.dk_host.specs.Steps.{Adds};

    type Reply = Result<ConnNo, ConnectRefused>;

    ghost may = { λ _ _ _. Unit {0} };

    ghost gives = { λ s pass before reply added. Adds W.opened (connect_events pass s.name.now reply) before added };

    fn apply(self, pass: u32, book: &mut WorldBook<W>) -> Result<ConnNo, ConnectRefused> {
        let name = kept_name(&book.history, self.name)?;
        book.history.make_room()?;
        let reply = book.core.connect(self.name);
        let event = connect_event(pass, name, &reply);
        book.history
            .enter::<Call<'_, Name, Result<ConnNo, ConnectRefused>>, Connect<'a>>(
                &Call {
                    pass,
                    ask: self.name,
                    reply: &reply,
                },
                event,
            );
        reply
    }

    fn wakes(reply: &Result<ConnNo, ConnectRefused>) -> bool {
        reply.is_ok()
    }
}

/// An input for a connection, as contracts see it once it is put there.
pub(crate) struct Posted {
    conn: ConnNo,
    input: Snapshot<Input>,
}

/// An input.
#[derive(Drop)]
pub(crate) struct Post {
    pub(crate) conn: ConnNo,
    pub(crate) input: Input,
}

impl<'a> NotingAll<Call<'a, Posted, Result<(), PostRefused>>, Event> for Post {
    ghost use Rattle.dk_host.specs.Calls.{post_events};

    ghost entries = { λ t. post_events t.pass t.ask.now.conn t.ask.now.input.value t.reply.now };
}

impl<W: Hosting> Step<WorldBook<W>> for Post {
    ghost use Rattle.dk_model.specs.Lawful.{IsInput};
    ghost use Rattle.dk_host.specs.Steps.{Posts};

    type Reply = Result<(), PostRefused>;

    ghost may = { λ s _ _. IsInput s.input };

    ghost gives = { λ s pass before reply added. Posts W.opened W.keeps pass s.conn s.input before reply added };

    fn apply(self, pass: u32, book: &mut WorldBook<W>) -> Result<(), PostRefused> {
        let Post { conn, input } = self;
        let copy = kept_input(&book.history, &input)?;
        room_for_post(&mut book.history, &book.core, conn, &input)?;
        let posted = Posted {
            conn,
            input: Snapshot::of(&input),
        };
        let reply = book.core.post(conn, input);
        let event = post_event(pass, conn, copy, &reply);
        book.history
            .enter::<Call<'_, Posted, Result<(), PostRefused>>, Post>(
                &Call {
                    pass,
                    ask: &posted,
                    reply: &reply,
                },
                event,
            );
        let Posted { conn: _, input: _ } = posted;
        reply
    }

    fn wakes(reply: &Result<(), PostRefused>) -> bool {
        reply.is_ok()
    }
}

/// Messages that are handed out.
#[derive(Drop)]
pub(crate) struct Hand {
    pub(crate) conn: ConnNo,
    pub(crate) most: u32,
}

impl<'a> NotingAll<Call<'a, Hand, Result<Handed, NoMemory>>, Event> for Hand {
    ghost use Rattle.dk_host.specs.Calls.{hand_events};

    ghost entries = { λ t. hand_events t.pass t.ask.now.conn t.ask.now.most t.reply.now };
}

impl<W: Hosting> Step<WorldBook<W>> for Hand {
    ghost use Rattle.dk_host.specs.Steps.{Hands};

    type Reply = Result<Handed, NoMemory>;

    ghost may = { λ _ _ _. Unit {0} };

    ghost gives = { λ s pass before reply added. Hands W.opened pass s.conn s.most before reply added };

    fn apply(self, pass: u32, book: &mut WorldBook<W>) -> Result<Handed, NoMemory> {
        let outs = kept_messages(&book.history, &book.core, self.conn, self.most)?;
        book.history.make_room()?;
        let reply = book.core.hand(self.conn, self.most);
        let event = hand_event(pass, self.conn, self.most, outs, &reply);
        book.history
            .enter::<Call<'_, Hand, Result<Handed, NoMemory>>, Hand>(
                &Call {
                    pass,
                    ask: &self,
                    reply: &reply,
                },
                event,
            );
        reply
    }

    // A hand makes nothing runnable that another pass may wait for.
    fn wakes(_reply: &Result<Handed, NoMemory>) -> bool {
        false
    }
}
