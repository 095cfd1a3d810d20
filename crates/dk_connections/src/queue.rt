// The queue of a connection.
ghost use Rattle.std.specs.Prelude.{◌≡◌, ◌==◌, ◌<◌, [], ◌∷◌, ◌++◌, length, drop, false, IfOk, OnOk, OnErr};
ghost use Rattle.std.specs.List.{list_any};
ghost use Rattle.dk_types.specs.declared.limits.TheConstants.{INPUTS_MOST_COUNT};
ghost use Rattle.dk_model.specs.declared.waiting.Waiting.TheVariants as waits;
ghost use Rattle.dk_model.specs.Deliveries.{is_disconnect, with_disconnect};
ghost use Rattle.dk_model.specs.Picks.{first_job as job_of_first, job_of as job_of_waiting};
ghost use Rattle.dk_connections.specs.Queues.{disconnect, end_of};

use dk_model::Waiting;
use dk_types::{ConnNo, Input, Job, Name, NoMemory};
use std::alloc::Global;
use std::collections::VecDeque;
use std::marker::Model;

/// What waits at a connection to be run: at most 1,024 inputs, and the end of the session behind them.
///
/// Nothing waits behind an end, so it has a place of its own and takes no memory.
#[derive(Drop)]
pub(crate) struct Queue {
    waiting: VecDeque<Waiting>,
    /// Whether the session ended gracefully, where its end waits.
    end: Option<bool>,
}

impl Model for Queue {
    ghost use Rattle.std.specs.Prelude.{◌≡◌, ◌≤◌, ◌++◌, length, false, List};
    ghost use Rattle.std.specs.List.{list_any};
    ghost use Rattle.dk_types.specs.declared.limits.TheConstants.{INPUTS_MOST_COUNT};
    ghost use Rattle.dk_model.specs.declared.waiting.Waiting.{Waiting};
    ghost use Rattle.dk_model.specs.Deliveries.{is_disconnect};
    ghost use Rattle.dk_connections.specs.Queues.{end_of};

    ghost Value = { List Waiting };

    ghost view = { λ q. q.waiting.items ++ end_of q.end };

    ghost invariant = { λ q. (list_any is_disconnect q.waiting.items ≡ false) × (length q.waiting.items ≤ INPUTS_MOST_COUNT) };
}

impl Queue {
    /// The queue of a new connection: its login waits.
    pub(crate) fn of_login(alloc: Global) -> Result<Queue, NoMemory>
        ensures { IfOk result (λ queue. queue ≡ waits.Login ∷ []) }
    {
        let mut waiting = VecDeque::new(alloc);
        waiting.push_back(Waiting::Login)?;
        Ok(Queue { waiting, end: None })
    }

    /// The queue of a session that a stop cut off: its end waits.
    pub(crate) fn of_end(alloc: Global) -> Queue
        ensures { result ≡ disconnect false ∷ [] }
    {
        Queue {
            waiting: VecDeque::new(alloc),
            end: Some(false),
        }
    }

    /// How many wait.
    pub(crate) fn len(&self) -> u64
        ensures { result ≡ length self.now }
    {
        let ends = if self.end.is_some() { 1 } else { 0 };
        self.waiting.len() as u64 + ends
    }

    pub(crate) fn is_empty(&self) -> bool
        ensures { result ≡ (length self.now == 0) }
    {
        self.waiting.is_empty() && self.end.is_none()
    }

    /// The job of the first that waits, copied.
    pub(crate) fn first_job(&self, conn: ConnNo, name: &Name) -> Result<Option<Job>, NoMemory>
        ensures { IfOk result (λ job. job ≡ job_of_first conn name.now self.now) }
    {
        match self.waiting.front() {
            Some(waiting) => Ok(Some(job_of(conn, name, waiting)?)),
            None => end_job(conn, name, self.end),
        }
    }

    /// Puts an input last. Refused, it changes nothing.
    pub(crate) fn push(&mut self, input: Input) -> Result<(), NoMemory>
        requires open { list_any is_disconnect self.old ≡ false }
        requires no_end { is_disconnect (waits.Input input) ≡ false }
        requires room { length self.old < INPUTS_MOST_COUNT }
        ensures put { OnOk result (self.new ≡ self.old ++ waits.Input input ∷ []) }
        ensures refused { OnErr result (self.new ≡ self.old) }
    {
        self.waiting.push_back(Waiting::Input(input))?;
        Ok(())
    }

    /// Puts the end of the session last. It takes no memory.
    pub(crate) fn end(&mut self, graceful: bool)
        requires open { list_any is_disconnect self.old ≡ false }
        ensures { self.new ≡ self.old ++ disconnect graceful ∷ [] }
    {
        self.end = Some(graceful);
    }

    /// Puts an end last that is not graceful, where none waits.
    pub(crate) fn cut_off(&mut self)
        ensures { self.new ≡ with_disconnect self.old }
    {
        if self.end.is_none() {
            self.end = Some(false);
        }
    }

    /// Takes the first off, if there is one.
    pub(crate) fn drop_first(&mut self)
        ensures { self.new ≡ drop 1 self.old }
    {
        if self.waiting.pop_front().is_none() {
            self.end = None;
        }
    }

    /// Takes all off.
    pub(crate) fn clear(&mut self)
        ensures { self.new ≡ [] }
    {
        self.waiting.clear();
        self.end = None;
    }
}

/// The job of what waits at a connection.
fn job_of(conn: ConnNo, name: &Name, waiting: &Waiting) -> Result<Job, NoMemory>
    ensures { IfOk result (λ job. job ≡ job_of_waiting conn name.now waiting.now) }
{
    let name = name.clone()?;
    match waiting {
        Waiting::Login => Ok(Job::Login { conn, name }),
        Waiting::Input(Input::Message(body)) => {
            let body = body.clone()?;
            Ok(Job::Message { conn, name, body })
        }
        Waiting::Input(Input::Channel { channel, body }) => {
            let channel = channel.clone()?;
            let body = body.clone()?;
            Ok(Job::Channel {
                conn,
                name,
                channel,
                body,
            })
        }
        Waiting::Input(Input::Disconnect { graceful }) => Ok(Job::Disconnect {
            conn,
            name,
            graceful: *graceful,
        }),
    }
}

/// The job of the end of a session, where it waits.
fn end_job(conn: ConnNo, name: &Name, end: Option<bool>) -> Result<Option<Job>, NoMemory>
    ensures { IfOk result (λ job. job ≡ job_of_first conn name.now (end_of end)) }
{
    let Some(graceful) = end else {
        return Ok(None);
    };
    let name = name.clone()?;
    Ok(Some(Job::Disconnect {
        conn,
        name,
        graceful,
    }))
}
