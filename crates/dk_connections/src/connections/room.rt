// Connections in and out of both trees.
ghost use Rattle.std.specs.Prelude.{◌≡◌, ◌+◌, ◌<◌, false, None, Some, IfSome, OnOk, OnErr, if◌then◌else◌};
ghost use Rattle.std.specs.FinMap as map;
ghost use Rattle.std.specs.Fn.{FnOnceReturnsAtMut};
ghost use Rattle.dk_connections.specs.Altered.{IsAltered};
ghost use Rattle.dk_connections.specs.MarkedConnections.{MarkedConnection, is_done_at, settled, IsAlive};
ghost use Rattle.dk_connections.specs.Places.{place_of};

use super::Connections;
use crate::place::ConnectionRank;
use crate::stored_connection::StoredConnection;
use dk_types::{ConnNo, NoMemory};

impl Connections {
    /// Makes room for one connection more. Where memory is refused nothing changes.
    pub(crate) fn make_room(&mut self) -> Result<(), NoMemory>
        ensures connections { self.new.connections ≡ self.old.connections }
        ensures room { OnOk result (0 < self.new.spare) }
        ensures alive { IsAlive self.old.connections }
        ensures refused { OnErr result (self.new ≡ self.old) }
    {
        // The tree with more room comes first: `spare` is that of the other, so that a refusal leaves it.
        if self.slots.spare() < self.places.spare() {
            self.places.reserve(1)?;
            self.slots.reserve(1)?;
        } else {
            self.slots.reserve(1)?;
            self.places.reserve(1)?;
        }
        Ok(())
    }

    /// Takes a connection out of both trees, if it is there.
    pub(crate) fn take(&mut self, conn: ConnNo) -> Option<StoredConnection>
        ensures found { result ≡ map.get self.old.connections conn }
        ensures connections { self.new.connections ≡ map.remove self.old.connections conn }
        ensures spare { self.new.spare ≡ self.old.spare + (if map.contains_key self.old.connections conn then 1 else 0) }
        ensures alive { IsAlive self.old.connections }
    {
        let Some((_, slot)) = self.slots.remove(&conn) else {
            return None;
        };
        self.places.remove(&slot.place(conn));
        Some(slot)
    }

    /// Adds a connection to both trees, at a number that is not there.
    pub(crate) fn add(&mut self, conn: ConnNo, slot: StoredConnection)
        requires absent { map.get self.old.connections conn ≡ None }
        requires room { 0 < self.old.spare }
        requires alive { is_done_at (Some slot) ≡ false }
        ensures connections { self.new.connections ≡ map.insert self.old.connections conn slot }
        ensures spare { self.new.spare + 1 ≡ self.old.spare }
        ensures alive { IsAlive self.new.connections }
    {
        self.places.insert(slot.place(conn), ());
        self.slots.insert(conn, slot);
    }

    /// The same, unless it is over and has nothing left to hand: then it is gone.
    pub(crate) fn settle(&mut self, conn: ConnNo, slot: StoredConnection)
        requires absent { map.get self.old.connections conn ≡ None }
        requires room { 0 < self.old.spare }
        ensures connections { self.new.connections ≡ settled conn slot self.old.connections }
        ensures alive { IsAlive self.old.connections → IsAlive self.new.connections }
    {
        if !slot.is_done() {
            self.add(conn, slot);
        }
    }

    /// Changes a connection where it stands, if it is there, and gives what the change answers. Its place is moved only where it
    /// is another then.
    pub(crate) fn alter<A, F: FnOnce(&mut StoredConnection) -> A>(
        &mut self,
        conn: ConnNo,
        alter: F,
    ) -> Option<A>
        requires callable { F.IsAlwaysCallable alter }
        requires lives { (l x : MarkedConnection) (a : A) → Some l ≡ map.get self.old.connections conn → FnOnceReturnsAtMut F.FnOnce alter l a x → is_done_at (Some l) ≡ false → is_done_at (Some x) ≡ false }
        ensures altered { IsAltered conn (λ l x a. FnOnceReturnsAtMut F.FnOnce alter l a x) self.old.connections self.new.connections result }
        ensures spare { self.new.spare ≡ self.old.spare }
        ensures alive { IsAlive self.old.connections }
        ensures alive_still { IsAlive self.new.connections }
    {
        let (from, to, answer) = self.slots.change(
            &conn,
            |slot: &mut StoredConnection| -> (ConnectionRank, ConnectionRank, A)
                requires { F.IsAlwaysCallable alter }
                ensures from { result.0 ≡ place_of conn slot.old }
                ensures to { result.1 ≡ place_of conn slot.new }
                ensures altered { FnOnceReturnsAtMut F.FnOnce alter slot.old result.2 slot.new }
            {
                let from = slot.place(conn);
                let answer = alter(slot);
                (from, slot.place(conn), answer)
            },
        )?;
        if from != to {
            self.places.remove(&from);
            self.places.insert(to, ());
        }
        Some(answer)
    }
}
