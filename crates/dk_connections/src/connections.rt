// The store.
ghost use Rattle.std.specs.Prelude.{◌≡◌, ◌==◌, ◌+◌, ◌<◌, true, false, None, Some, IfOk, IfSome, OnOk, OnErr, take, drop, is_none};
ghost use Rattle.std.specs.FinMap as map;
ghost use Rattle.dk_types.specs.declared.number.ConnNo.{ConnNo};
ghost use Rattle.dk_model.specs.declared.waiting.Waiting.TheVariants as waits;
ghost use Rattle.dk_model.specs.Worlds.{World, new_connection};
ghost use Rattle.dk_model.specs.Openings.{ended_connection};
ghost use Rattle.dk_model.specs.Deliveries.{change_connection, without_done};
ghost use Rattle.dk_model.specs.Events.{is_open_at, outbox_at, put_last};
ghost use Rattle.dk_model.specs.Picks.{pick_input};
ghost use Rattle.dk_connections.specs.MarkedConnections.{all_of, change, left, less_first, linked, released, unclaimed, with_turn, HasNoneAt, IsAlive, IsOnAt, IsSwept};
ghost use Rattle.dk_connections.specs.Posts.{PostAnswer};
ghost use Rattle.dk_connections.specs.Ready.{first_at, job_at, least_ready as least_ready_of, HasConnections, HasInput, IsReadyAt};

use crate::answers::{Handed, PostRefused};
use crate::place::ConnectionRank;
use crate::stored_connection::StoredConnection;
use dk_map::OrderedMap;
use dk_types::{ConnNo, Input, Job, Listed, Name, NoMemory, Out, Session};
use std::alloc::Global;
use std::marker::Model;

mod deliver;
mod room;

/// The connections by their numbers. The room that was made stays until the store is dropped.
pub struct Connections {
    slots: OrderedMap<ConnNo, StoredConnection>,
    places: OrderedMap<ConnectionRank, ()>,
    alloc: Global,
}

// Written out, so that a function which lets connections go proves one call and not the way down its trees.
impl Drop for Connections {
    fn drop(self) {
        let Connections {
            slots: _,
            places: _,
            alloc: _,
        } = self;
    }
}

impl Model for Connections {
    ghost use Rattle.std.specs.Prelude.{min};
    ghost use Rattle.dk_types.specs.contracts.job.Out as out;
    ghost use Rattle.dk_model.specs.contracts.waiting.Waiting as waiting;
    ghost use Rattle.dk_map.specs.AsMap.{map_of};
    ghost use Rattle.dk_model.specs.Keys.{conn_cmp};
    ghost use Rattle.dk_connections.specs.MarkedConnections.{ConnectionStore, shown_code};
    ghost use Rattle.dk_connections.specs.Places.{IsInStep};

    ghost Value = { ConnectionStore };

    ghost coded = { shown_code waiting.the_row.coded out.the_row.coded };

    ghost view = { λ a. record { connections = map_of conn_cmp a.slots.entries; spare = min a.slots.spare a.places.spare } };

    ghost invariant = { λ a. IsInStep a.slots.entries a.places.entries };
}

impl Connections {
    /// No connections, which takes no memory.
    pub fn new(alloc: Global) -> Connections
        ensures empty { result.connections ≡ map.empty }
        ensures world { all_of result.connections ≡ map.empty }
        ensures swept { IsSwept result.connections }
    {
        Connections {
            slots: OrderedMap::new(alloc),
            places: OrderedMap::new(alloc),
            alloc,
        }
    }

    /// How many connections there are.
    pub fn len(&self) -> u64
        ensures len { result ≡ map.len self.now.connections }
        ensures swept { IsSwept self.now.connections }
    {
        self.slots.len() as u64
    }

    /// Whether a connection is there.
    pub fn contains(&self, conn: ConnNo) -> bool
        ensures linked { result ≡ map.contains_key self.now.connections conn }
        ensures world { result ≡ map.contains_key (all_of self.now.connections) conn }
    {
        self.slots.contains_key(&conn)
    }

    /// Whether a connection is there and takes inputs.
    pub fn is_open(&self, conn: ConnNo) -> bool
        ensures { result ≡ is_open_at (map.get (all_of self.now.connections) conn) }
    {
        match self.slots.get(&conn) {
            Some(slot) => slot.is_open(),
            None => false,
        }
    }

    /// Copies of a connection's first messages, `most` of them or all. They stay there.
    pub fn copy_first(&self, conn: ConnNo, most: u32) -> Result<Listed<Out>, NoMemory>
        ensures { IfOk result (λ copies. copies ≡ take most (outbox_at (map.get (all_of self.now.connections) conn))) }
    {
        match self.slots.get(&conn) {
            Some(slot) => slot.copy_first(most),
            None => Ok(Listed::from_vec(Vec::new(self.alloc))),
        }
    }

    /// Adds a new connection, whose login waits and whose number is its turn. Refused, it changes nothing.
    pub fn connect(&mut self, conn: ConnNo, name: &Name) -> Result<(), NoMemory>
        requires absent { map.contains_key self.old.connections conn ≡ false }
        ensures linked { OnOk result (self.new.connections ≡ map.insert self.old.connections conn (unclaimed (new_connection name.now conn.0))) }
        ensures world { OnOk result (all_of self.new.connections ≡ map.insert (all_of self.old.connections) conn (new_connection name.now conn.0)) }
        ensures swept { IsSwept self.new.connections }
        ensures refused { OnErr result (self.new ≡ self.old) }
    {
        let slot = StoredConnection::connected(self.alloc, name, conn.0)?;
        self.make_room()?;
        self.add(conn, slot);
        Ok(())
    }

    /// Adds the connection of a session that a stop cut off, whose end waits. Refused, it changes nothing.
    pub fn open_ended(&mut self, session: &Session) -> Result<(), NoMemory>
        requires absent { map.contains_key self.old.connections session.now.conn ≡ false }
        ensures linked { OnOk result (self.new.connections ≡ map.insert self.old.connections session.now.conn (unclaimed (ended_connection session.now))) }
        ensures world { OnOk result (all_of self.new.connections ≡ map.insert (all_of self.old.connections) session.now.conn (ended_connection session.now)) }
        ensures swept { IsSwept self.new.connections }
        ensures refused { OnErr result (self.new ≡ self.old) }
    {
        let slot = StoredConnection::ended(self.alloc, session)?;
        self.make_room()?;
        self.add(session.conn, slot);
        Ok(())
    }

    /// Puts an input last in the queue of its connection; a Disconnect closes the connection, and takes no memory.
    /// Refused, it changes nothing.
    pub fn post(&mut self, conn: ConnNo, input: Input) -> Result<(), PostRefused>
        ensures answer { PostAnswer (map.get (all_of self.old.connections) conn) input result }
        ensures linked { OnOk result (self.new.connections ≡ change conn (linked (put_last (waits.Input input))) self.old.connections) }
        ensures world { OnOk result (all_of self.new.connections ≡ change_connection conn (put_last (waits.Input input)) (all_of self.old.connections)) }
        ensures swept { IsSwept self.new.connections }
        ensures refused { OnErr result (self.new ≡ self.old) }
    {
        let posted = self.alter(
            conn,
            |slot: &mut StoredConnection| -> Result<(), PostRefused>
                ensures answer { PostAnswer (Some slot.old.connection) input result }
                ensures put { OnOk result (slot.new ≡ linked (put_last (waits.Input input)) slot.old) }
                ensures refused { OnErr result (slot.new ≡ slot.old) }
            { slot.post(input) },
        );
        match posted {
            Some(posted) => posted,
            None => Err(PostRefused::Closed),
        }
    }

    /// The connection whose first input is to be run next: of those that no claimed run has an input of, the one of the
    /// least turn, and among equal ones of the least number.
    pub fn least_ready(&self) -> Option<ConnNo>
        ensures least { result ≡ least_ready_of self.now.connections }
        ensures picked { (w : World) → HasConnections w self.now.connections → pick_input w ≡ job_at self.now.connections result }
        ensures ready { IfSome result (λ conn. IsReadyAt (map.get self.now.connections conn)) }
        ensures waits { IfSome result (λ conn. HasInput (map.get self.now.connections conn)) }
    {
        let Some((place, _)) = self.places.first() else {
            return None;
        };
        if place.idle {
            return None;
        }
        Some(place.conn)
    }

    /// The job of a connection's first input, copied.
    pub fn job(&self, conn: ConnNo) -> Result<Job, NoMemory>
        requires waits { HasInput (map.get self.now.connections conn) }
        ensures { IfOk result (λ job. first_at conn (map.get self.now.connections conn) ≡ Some job) }
    {
        let Some(slot) = self.slots.get(&conn) else {
            unreachable!()
        };
        match slot.first_job(conn)? {
            Some(job) => Ok(job),
            None => unreachable!(),
        }
    }

    /// A claimed run has a connection's first input, and gives it its turn. It takes no memory.
    pub fn claim(&mut self, conn: ConnNo, turn: u64)
        ensures linked { self.new.connections ≡ change conn (with_turn turn) self.old.connections }
        ensures world { all_of self.new.connections ≡ change_connection conn (λ c. record c { turn = turn }) (all_of self.old.connections) }
        ensures swept { IsSwept self.new.connections }
    {
        self.alter(conn, |slot| slot.claim(turn));
    }

    /// No claimed run has a connection's first input any more. It takes no memory.
    pub fn release(&mut self, conn: ConnNo)
        ensures linked { self.new.connections ≡ change conn released self.old.connections }
        ensures world { all_of self.new.connections ≡ all_of self.old.connections }
        ensures swept { IsSwept self.new.connections }
    {
        self.alter(conn, |slot| slot.release());
    }

    /// Whether a connection is there and no message waits for it.
    fn has_none_for(&self, conn: ConnNo) -> bool
        ensures none { result ≡ true → HasNoneAt (map.get self.now.connections conn) }
        ensures alive { IsAlive self.now.connections }
    {
        match self.slots.get(&conn) {
            Some(slot) => slot.has_none(),
            None => false,
        }
    }

    /// Hands a connection's first messages, `most` of them or all. A connection that is over and has none left is gone.
    /// The list alone takes memory; refused, it changes nothing.
    pub fn hand(&mut self, conn: ConnNo, most: u32) -> Result<Handed, NoMemory>
        ensures handed { IfOk result (λ handed. handed.outs ≡ take most (outbox_at (map.get (all_of self.old.connections) conn))) }
        ensures linked { OnOk result (self.new.connections ≡ left (change conn (linked (less_first most)) self.old.connections)) }
        ensures world { OnOk result (all_of self.new.connections ≡ without_done (change_connection conn (λ c. record c { outbox = drop most c.outbox }) (all_of self.old.connections))) }
        ensures end { IfOk result (λ handed. handed.end ≡ is_none (map.get (all_of self.new.connections) conn)) }
        ensures swept { IsSwept self.new.connections }
        ensures refused { OnErr result (self.new ≡ self.old) }
    {
        // A client that waits for its messages asks often: where there are none, both trees stay as they are.
        if self.has_none_for(conn) {
            return Ok(Handed {
                outs: Listed::from_vec(Vec::new(self.alloc)),
                end: false,
            });
        }
        if self.is_over(conn) {
            return self.hand_last(conn, most);
        }
        let handed = self.alter(
            conn,
            |slot: &mut StoredConnection| -> Result<Listed<Out>, NoMemory>
                ensures handed { IfOk result (λ outs. outs ≡ take most slot.old.connection.outbox) }
                ensures left { OnOk result (slot.new ≡ linked (less_first most) slot.old) }
                ensures refused { OnErr result (slot.new ≡ slot.old) }
            { slot.hand(most) },
        );
        let Some(handed) = handed else {
            return Ok(Handed {
                outs: Listed::from_vec(Vec::new(self.alloc)),
                end: true,
            });
        };
        Ok(Handed {
            outs: handed?,
            end: false,
        })
    }

    /// Whether a connection is there to which nothing more is sent.
    fn is_over(&self, conn: ConnNo) -> bool
        ensures { result ≡ false → IsOnAt (map.get self.now.connections conn) }
    {
        match self.slots.get(&conn) {
            Some(slot) => slot.is_over(),
            None => false,
        }
    }

    /// The same as `hand`, also for a connection that is gone then: it is taken out of both trees.
    fn hand_last(&mut self, conn: ConnNo, most: u32) -> Result<Handed, NoMemory>
        ensures handed { IfOk result (λ handed. handed.outs ≡ take most (outbox_at (map.get (all_of self.old.connections) conn))) }
        ensures linked { OnOk result (self.new.connections ≡ left (change conn (linked (less_first most)) self.old.connections)) }
        ensures world { OnOk result (all_of self.new.connections ≡ without_done (change_connection conn (λ c. record c { outbox = drop most c.outbox }) (all_of self.old.connections))) }
        ensures end { IfOk result (λ handed. handed.end ≡ is_none (map.get (all_of self.new.connections) conn)) }
        ensures swept { IsSwept self.new.connections }
        ensures refused { OnErr result (self.new ≡ self.old) }
    {
        let Some(mut slot) = self.take(conn) else {
            return Ok(Handed {
                outs: Listed::from_vec(Vec::new(self.alloc)),
                end: true,
            });
        };
        match slot.hand(most) {
            Ok(outs) => {
                let end = slot.is_done();
                self.settle(conn, slot);
                Ok(Handed { outs, end })
            }
            Err(refused) => {
                self.add(conn, slot);
                Err(refused)
            }
        }
    }
}
