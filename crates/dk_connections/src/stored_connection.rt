// A connection, as the store keeps it.
ghost use Rattle.std.specs.Prelude.{◌≡◌, ◌==◌, ◌<◌, ◌||◌, length, not, take, false, Some, IfOk, OnOk, OnErr};
ghost use Rattle.dk_types.specs.declared.limits.TheConstants.{INPUTS_MOST_COUNT};
ghost use Rattle.dk_model.specs.declared.waiting.Waiting.TheVariants as waits;
ghost use Rattle.dk_model.specs.Worlds.{new_connection};
ghost use Rattle.dk_model.specs.Openings.{ended_connection};
ghost use Rattle.dk_model.specs.Deliveries.{close_off as closed_off, is_disconnect, is_done as is_done_at, takes, with_out};
ghost use Rattle.dk_model.specs.Events.{is_open_at, put_last};
ghost use Rattle.dk_connections.specs.MarkedConnections.{less_first, linked, over_now, released, run_ended, unclaimed, with_turn};
ghost use Rattle.dk_connections.specs.Places.{place_of};
ghost use Rattle.dk_connections.specs.Posts.{has_no_place_at, PostAnswer};
ghost use Rattle.dk_connections.specs.Ready.{first_at};

use crate::answers::PostRefused;
use crate::place::ConnectionRank;
use crate::queue::Queue;
use dk_outbox::{Outbox, Ready};
use dk_types::limits::INPUTS_MOST_COUNT;
use dk_types::{ConnNo, Input, Job, Listed, Name, NoMemory, Out, Session};
use std::alloc::Global;
use std::marker::Model;

/// A connection, and whether a claimed run has its first input.
#[derive(Drop)]
pub(crate) struct StoredConnection {
    name: Name,
    queue: Queue,
    outbox: Outbox,
    turn: u64,
    closed: bool,
    cut: bool,
    over: bool,
    claimed: bool,
}

impl Model for StoredConnection {
    ghost use Rattle.std.specs.Prelude.{◌≡◌, false};
    ghost use Rattle.std.specs.List.{list_any};
    ghost use Rattle.dk_types.specs.contracts.job.Out as out;
    ghost use Rattle.dk_model.specs.contracts.waiting.Waiting as waiting;
    ghost use Rattle.dk_model.specs.Deliveries.{is_disconnect};
    ghost use Rattle.dk_connections.specs.MarkedConnections.{MarkedConnection, linked_code};

    ghost Value = { MarkedConnection };

    ghost coded = { linked_code waiting.the_row.coded out.the_row.coded };

    ghost view = { λ s. record { connection = record { name = s.name; queue = s.queue; outbox = s.outbox.outs; turn = s.turn; closed = s.closed; cut = s.cut; over = s.over }; claimed = s.claimed } };

    ghost invariant = { λ s. s.closed ≡ false → list_any is_disconnect s.queue ≡ false };
}

impl StoredConnection {
    /// A new connection, whose login waits.
    pub(crate) fn connected(
        alloc: Global,
        name: &Name,
        turn: u64,
    ) -> Result<StoredConnection, NoMemory>
        ensures { IfOk result (λ slot. slot ≡ unclaimed (new_connection name.now turn)) }
    {
        let name = name.clone()?;
        let queue = Queue::of_login(alloc)?;
        Ok(StoredConnection {
            name,
            queue,
            outbox: Outbox::new(alloc),
            turn,
            closed: false,
            cut: false,
            over: false,
            claimed: false,
        })
    }

    /// The connection of a session that a stop cut off, whose end waits.
    pub(crate) fn ended(alloc: Global, session: &Session) -> Result<StoredConnection, NoMemory>
        ensures { IfOk result (λ slot. slot ≡ unclaimed (ended_connection session.now)) }
    {
        let name = session.name.clone()?;
        Ok(StoredConnection {
            name,
            queue: Queue::of_end(alloc),
            outbox: Outbox::new(alloc),
            turn: session.conn.0,
            closed: true,
            cut: true,
            over: false,
            claimed: false,
        })
    }

    pub(crate) fn place(&self, conn: ConnNo) -> ConnectionRank
        ensures { result ≡ place_of conn self.now }
    {
        ConnectionRank {
            idle: self.claimed || self.queue.is_empty(),
            turn: self.turn,
            conn,
        }
    }

    /// Whether it is over and has nothing left to hand.
    pub(crate) fn is_done(&self) -> bool
        ensures { result ≡ is_done_at (Some self.now.connection) }
    {
        self.over && self.outbox.is_empty()
    }

    /// Whether nothing more is sent to it.
    pub(crate) fn is_over(&self) -> bool
        ensures { result ≡ self.now.connection.over }
    {
        self.over
    }

    /// Whether no message waits to be handed.
    pub(crate) fn has_none(&self) -> bool
        ensures { result ≡ (length self.now.connection.outbox == 0) }
    {
        self.outbox.is_empty()
    }

    /// Whether it takes inputs.
    pub(crate) fn is_open(&self) -> bool
        ensures { result ≡ is_open_at (Some self.now.connection) }
    {
        !self.closed
    }

    /// Copies of the first messages, `most` of them or all.
    pub(crate) fn copy_first(&self, most: u32) -> Result<Listed<Out>, NoMemory>
        ensures { IfOk result (λ copies. copies ≡ take most self.now.connection.outbox) }
    {
        self.outbox.copy_first(most)
    }

    /// The job of the first input, copied.
    pub(crate) fn first_job(&self, conn: ConnNo) -> Result<Option<Job>, NoMemory>
        ensures { IfOk result (λ job. job ≡ first_at conn (Some self.now)) }
    {
        self.queue.first_job(conn, &self.name)
    }

    /// Puts an input last, unless the connection is closed or as many inputs wait as may wait. Refused, it changes
    /// nothing.
    pub(crate) fn post(&mut self, input: Input) -> Result<(), PostRefused>
        ensures answer { PostAnswer (Some self.old.connection) input result }
        ensures put { OnOk result (self.new ≡ linked (put_last (waits.Input input)) self.old) }
        ensures refused { OnErr result (self.new ≡ self.old) }
    {
        if self.closed {
            return Err(PostRefused::Closed);
        }
        let waiting = self.queue.len();
        if waiting >= INPUTS_MOST_COUNT && !is_end(&input) {
            return Err(PostRefused::QueueFull { waiting });
        }
        self.put(input)?;
        Ok(())
    }

    /// Puts an input last; a Disconnect closes the connection, and takes no memory. Refused, it changes nothing.
    fn put(&mut self, input: Input) -> Result<(), NoMemory>
        requires open { self.old.connection.closed ≡ false }
        requires room { has_no_place_at (Some self.old.connection) input ≡ false }
        ensures put { OnOk result (self.new ≡ linked (put_last (waits.Input input)) self.old) }
        ensures refused { OnErr result (self.new ≡ self.old) }
        ensures memory { OnErr result (is_disconnect (waits.Input input) ≡ false) }
    {
        match input {
            Input::Disconnect { graceful } => {
                self.queue.end(graceful);
                self.closed = true;
                Ok(())
            }
            other => self.queue.push(other),
        }
    }

    /// A claimed run has the first input, and gives the connection its turn.
    pub(crate) fn claim(&mut self, turn: u64)
        ensures { self.new ≡ with_turn turn self.old }
    {
        self.turn = turn;
        self.claimed = true;
    }

    /// No claimed run has the first input any more.
    pub(crate) fn release(&mut self)
        ensures { self.new ≡ released self.old }
    {
        self.claimed = false;
    }

    /// The claimed input leaves the queue.
    pub(crate) fn end_run(&mut self)
        ensures { self.new ≡ run_ended self.old }
    {
        self.queue.drop_first();
        self.claimed = false;
    }

    /// Puts a message into the outbox, and says whether it was appended. It is dropped where the connection is cut or
    /// over; where the outbox is full it is dropped, and the connection is cut off.
    pub(crate) fn send(&mut self, ready: Ready) -> bool
        ensures sent { self.new ≡ linked (with_out ready) self.old }
        ensures answer { result ≡ takes (Some self.old.connection) }
    {
        if self.cut || self.over {
            return false;
        }
        if self.outbox.push_ready(ready) {
            return true;
        }
        self.queue.cut_off();
        self.closed = true;
        self.cut = true;
        false
    }

    /// Nothing more comes from the connection, and nothing more is sent to it.
    pub(crate) fn close_off(&mut self)
        ensures { self.new ≡ linked closed_off self.old }
    {
        self.queue.clear();
        self.closed = true;
        self.over = true;
    }

    /// Nothing more is sent to the connection.
    pub(crate) fn end(&mut self)
        ensures { self.new ≡ linked over_now self.old }
    {
        self.over = true;
    }

    /// Takes the first messages off, `most` of them or all. Refused, it changes nothing.
    pub(crate) fn hand(&mut self, most: u32) -> Result<Listed<Out>, NoMemory>
        ensures handed { IfOk result (λ handed. handed ≡ take most self.old.connection.outbox) }
        ensures left { OnOk result (self.new ≡ linked (less_first most) self.old) }
        ensures refused { OnErr result (self.new ≡ self.old) }
    {
        self.outbox.hand(most)
    }
}

/// Whether an input is the end of the session.
fn is_end(input: &Input) -> bool
    ensures { result ≡ is_disconnect (waits.Input input.now) }
{
    match input {
        Input::Disconnect { .. } => true,
        Input::Message(_) | Input::Channel { .. } => false,
    }
}
