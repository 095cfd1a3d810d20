// What a commit does to the connections.
ghost use Rattle.std.specs.Prelude.{◌≡◌};
ghost use Rattle.std.specs.FinMap as map;
ghost use Rattle.dk_model.specs.Deliveries.{closed_by, close_off as closed_off, conn_of as conn_of_job, delivered, ended_by as ended_by_job, for_conn, is_close, takes, with_closed, with_out, with_outs, without_done};
ghost use Rattle.dk_connections.specs.MarkedConnections.{all_of, change, change_some, left, linked, over_now, run_ended, IsAlive, IsSwept, KeepsMarks, KeepsMarksBut};

use super::Connections;
use crate::deliveries::Deliveries;
use crate::stored_connection::StoredConnection;
use dk_outbox::Ready;
use dk_types::{ConnNo, Job};

impl Connections {
    /// Delivers what a commit of this job sends: its input leaves the queue, the messages are put into outboxes, and
    /// connections end. It takes no memory, and no claimed run has an input of the job's connection any more.
    pub fn deliver(&mut self, job: &Job, deliveries: Deliveries)
        ensures world { all_of self.new.connections ≡ without_done (delivered job.now deliveries (all_of self.old.connections)) }
        ensures marks { KeepsMarksBut job.now self.old.connections self.new.connections }
        ensures swept { IsSwept self.new.connections }
    {
        // None is over with nothing left to hand: the invariant says so where the fields are seen.
        let _slots = &self.slots;
        self.end_run(conn_of(job));
        let closed = self.send_all(deliveries);
        self.close_all(closed);
        self.end(ended_by(job));
    }

    /// The claimed input leaves the queue of its connection.
    fn end_run(&mut self, conn: Option<ConnNo>)
        requires { IsAlive self.old.connections }
        ensures linked { self.new.connections ≡ change_some conn run_ended self.old.connections }
        ensures alive { IsAlive self.new.connections }
    {
        let Some(conn) = conn else {
            return;
        };
        self.alter(conn, |slot| slot.end_run());
    }

    /// Puts all messages into outboxes, and gives the connections to which a Close was appended.
    fn send_all(&mut self, deliveries: Deliveries) -> Vec<ConnNo>
        requires { IsAlive self.old.connections }
        ensures world { all_of self.new.connections ≡ with_outs deliveries (all_of self.old.connections) }
        ensures closed { result.items ≡ closed_by deliveries (all_of self.old.connections) }
        ensures marks { KeepsMarks self.old.connections self.new.connections }
        ensures alive { IsAlive self.new.connections }
    {
        let (letters, mut closed) = deliveries.into_parts();
        for letter in letters {
            let (conn, ready, closes) = letter.into_parts();
            if self.send(conn, ready) && closes {
                closed.push_reserved(conn);
            }
        }
        closed
    }

    /// Puts a message into the outbox of its connection, and says whether it was appended.
    fn send(&mut self, conn: ConnNo, ready: Ready) -> bool
        requires { IsAlive self.old.connections }
        ensures linked { self.new.connections ≡ change conn (linked (with_out ready)) self.old.connections }
        ensures answer { result ≡ takes (map.get (all_of self.old.connections) conn) }
        ensures alive { IsAlive self.new.connections }
    {
        let appended = self.alter(
            conn,
            |slot: &mut StoredConnection| -> bool
                ensures sent { slot.new ≡ linked (with_out ready) slot.old }
                ensures answer { result ≡ takes (Some slot.old.connection) }
            { slot.send(ready) },
        );
        match appended {
            Some(appended) => appended,
            None => false,
        }
    }

    /// Closes connections off, each as often as it is named.
    fn close_all(&mut self, closed: Vec<ConnNo>)
        requires { IsAlive self.old.connections }
        ensures world { all_of self.new.connections ≡ without_done (with_closed closed.items (all_of self.old.connections)) }
        ensures marks { KeepsMarks self.old.connections self.new.connections }
        ensures alive { IsAlive self.new.connections }
    {
        for conn in closed {
            self.close_off(conn);
        }
    }

    /// Closes a connection off, where it is there.
    fn close_off(&mut self, conn: ConnNo)
        requires { IsAlive self.old.connections }
        ensures linked { self.new.connections ≡ left (change conn (linked closed_off) self.old.connections) }
        ensures alive { IsAlive self.new.connections }
    {
        let Some(mut slot) = self.take(conn) else {
            return;
        };
        slot.close_off();
        self.settle(conn, slot);
    }

    /// Nothing more is sent to a connection whose end was run.
    fn end(&mut self, conn: Option<ConnNo>)
        requires { IsAlive self.old.connections }
        ensures linked { self.new.connections ≡ left (change_some conn (linked over_now) self.old.connections) }
        ensures alive { IsAlive self.new.connections }
    {
        let Some(conn) = conn else {
            return;
        };
        let Some(mut slot) = self.take(conn) else {
            return;
        };
        slot.end();
        self.settle(conn, slot);
    }
}

/// The connection that an input is of.
fn conn_of(job: &Job) -> Option<ConnNo>
    ensures { result ≡ conn_of_job job.now }
{
    match job {
        Job::Login { conn, .. }
        | Job::Message { conn, .. }
        | Job::Channel { conn, .. }
        | Job::Disconnect { conn, .. } => Some(*conn),
        Job::Initialize | Job::Task { .. } => None,
    }
}

/// The connection whose end the job is.
fn ended_by(job: &Job) -> Option<ConnNo>
    ensures { result ≡ ended_by_job job.now }
{
    match job {
        Job::Disconnect { conn, .. } => Some(*conn),
        _ => None,
    }
}
