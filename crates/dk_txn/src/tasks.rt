//! The calls on tasks, and messages.
ghost use Rattle.std.specs.Prelude.{◌≡◌, ◌+◌, ◌≤◌, ◌<◌, false, not, nat_lt, length, None, OnErr, IfOk, IfErr};
ghost use Rattle.std.specs.FinMap as map;
ghost use Rattle.std.specs.List.{AllByRecursion};
ghost use Rattle.dk_types.specs.declared.item.Item.TheVariants as ask;
ghost use Rattle.dk_types.specs.declared.limits.TheConstants.{MOMENT_MOST_MS, DELAY_MOST_MS, PERIOD_MOST_MS, MESSAGES_MOST_COUNT};
ghost use Rattle.dk_model.specs.Runs as act;
ghost use Rattle.dk_model.specs.Steps.{own_task as own_act};
ghost use Rattle.dk_overlay.specs.Asked.{IsAsked};
ghost use Rattle.dk_txn.specs.Pairs.{send_all as sent_all};
ghost use Rattle.dk_txn.specs.Refusals.{refusal_fault, TellsLength};

use crate::checks::{body_len, is_bad_period, is_too_long, too_long};
use crate::ending::pass_own_task;
use crate::refusal::Refusal;
use crate::txn::Txn;
use crate::view::View;
use dk_model::limits::{BODY_MOST_BYTES, DELAY_MOST_MS, MESSAGES_MOST_COUNT, TASKS_MOST_COUNT};
use dk_overlay::{Scheduled, says_pending};
use dk_types::{Blob, ConnNo, Item, NoMemory, Out, TaskKey};

impl<'a, V: View> Txn<'a, V> {
    ghost use Rattle.dk_txn.specs.Asks.{Asks, AsksNothing};
    ghost use Rattle.dk_txn.specs.Does.{Keeps, Does, DoesFor, Only, SameChanges, KnownTask};

    /// Whether a task is pending.
    fn is_pending(&mut self, key: TaskKey) -> Result<bool, NoMemory>
        ensures keeps { Keeps V.sights self.old self.new }
        ensures asks { Asks (ask.Task key) V.sights self.old self.new }
        ensures same_changes { SameChanges self.old.set self.new.set }
        ensures known { IfOk result (KnownTask self.new.set key) }
        ensures asked { IfOk result (λ _. map.get self.old.set.tasks key ≡ None → IsAsked self.new.set.reads (ask.Task key)) }
    {
        match self.set.task_settled(key) {
            Some(there) => Ok(there),
            None => {
                let said = self.ask(Item::Task(key))?;
                Ok(says_pending(&said))
            }
        }
    }

    /// A task after its delay and its period were looked at. Refuses 8.
    fn add_task(
        &mut self,
        kind: u16,
        arg: Blob,
        delay: u64,
        period: u64,
    ) -> Result<TaskKey, Refusal>
        requires { delay ≤ DELAY_MOST_MS }
        ensures does { Does V.sights refusal_fault self.old self.new (act.scheduled kind arg delay period) result }
        ensures asks { AsksNothing self.old self.new }
        ensures refused { OnErr result (SameChanges self.old.set self.new.set) }
        ensures length { IfErr result (TellsLength arg) }
    {
        if self.set.tasks_made() as u64 >= TASKS_MOST_COUNT {
            return Err(Refusal::TooMany);
        }
        let due = self.set.at() + delay;
        let shared = self.kept(arg)?;
        let task = Scheduled {
            due,
            period,
            kind,
            arg: shared,
        };
        Ok(self.set.schedule_task(task)?)
    }

    /// A once-task that is due at the run's moment and the delay, in ms (`TaskManager.scheduleTask`). Refuses 4, 5, 8.
    pub fn schedule(&mut self, kind: u16, arg: Blob, delay: u64) -> Result<TaskKey, Refusal>
        ensures does { Does V.sights refusal_fault self.old self.new (act.schedule kind arg delay) result }
        ensures asks { AsksNothing self.old self.new }
        ensures refused { OnErr result (SameChanges self.old.set self.new.set) }
        ensures length { IfErr result (TellsLength arg) }
    {
        if is_too_long(&arg) {
            return Err(too_long(&arg));
        }
        if delay > DELAY_MOST_MS {
            return Err(Refusal::BadDelay);
        }
        self.add_task(kind, arg, delay, 0)
    }

    /// A task that is first due at the run's moment and the delay, and then each period, in ms
    /// (`TaskManager.schedulePeriodicTask`). Refuses 4, 5, 8.
    pub fn schedule_periodic(
        &mut self,
        kind: u16,
        arg: Blob,
        delay: u64,
        period: u64,
    ) -> Result<TaskKey, Refusal>
        ensures does { Does V.sights refusal_fault self.old self.new (act.schedule_periodic kind arg delay period) result }
        ensures asks { AsksNothing self.old self.new }
        ensures refused { OnErr result (SameChanges self.old.set self.new.set) }
        ensures length { IfErr result (TellsLength arg) }
    {
        if is_too_long(&arg) {
            return Err(too_long(&arg));
        }
        if is_bad_period(delay, period) {
            return Err(Refusal::BadDelay);
        }
        self.add_task(kind, arg, delay, period)
    }

    /// Takes a pending task away (`PeriodicTaskHandle.cancel`). Refuses 2.
    pub fn cancel(&mut self, key: TaskKey) -> Result<(), Refusal>
        ensures does { Does V.sights refusal_fault self.old self.new (act.cancel key) result }
        ensures asks { Asks (ask.Task key) V.sights self.old self.new }
        ensures refused { OnErr result (SameChanges self.old.set self.new.set) }
    {
        if !self.is_pending(key)? {
            return Err(Refusal::ObjectNotFound);
        }
        self.set.remove_task(key)?;
        Ok(())
    }

    /// A message to a connection, of which nothing else is looked at (`ClientSession.send`). Refuses 4, by its body, and 8.
    pub fn send(&mut self, to: ConnNo, out: Out) -> Result<(), Refusal>
        ensures does { Does V.sights refusal_fault self.old self.new (act.send to out) result }
        ensures asks { AsksNothing self.old self.new }
        ensures refused { OnErr result (SameChanges self.old.set self.new.set) }
        ensures same_mode { self.new.set.mode ≡ self.old.set.mode }
        ensures length { IfErr result (TellsLength (act.body_of out)) }
    {
        let len = body_len(&out);
        if len > BODY_MOST_BYTES {
            return Err(Refusal::TooLong { len });
        }
        if self.set.outs_made() >= MESSAGES_MOST_COUNT {
            return Err(Refusal::TooMany);
        }
        self.set.add_out(to, out)?;
        Ok(())
    }

    /// Messages to connections, of which nothing else is looked at: all are sent, or none. Their bodies are within the limit, and
    /// the run may send so many more. Refuses 7 alone.
    pub fn send_all(&mut self, messages: Vec<(ConnNo, Out)>) -> Result<(), Refusal>
        requires short { AllByRecursion (λ m. act.is_too_long (act.body_of m.1) ≡ false) messages.items }
        requires room { nat_lt MESSAGES_MOST_COUNT (length self.old.set.outs + length messages.items) ≡ false }
        ensures does { Does V.sights refusal_fault self.old self.new (sent_all messages.items) result }
        ensures asks { AsksNothing self.old self.new }
        ensures refused { OnErr result (SameChanges self.old.set self.new.set) }
        ensures same_mode { self.new.set.mode ≡ self.old.set.mode }
    {
        self.set.add_outs(messages)?;
        Ok(())
    }

    /// Whether the run may send so many more messages.
    pub fn has_room_for(&self, messages: u64) -> bool
        ensures { result ≡ not (nat_lt MESSAGES_MOST_COUNT (length self.now.set.outs + messages)) }
    {
        self.set.outs_made().saturating_add(messages) <= MESSAGES_MOST_COUNT
    }

    /// What an occurrence does to the run's own task, which is due at `due` with this period or 0, in ms: false where it is
    /// not pending; else a once-task is taken away, and a periodic one gets its next due moment. A run that fails keeps it.
    /// Refuses 7 alone.
    pub fn own_task(&mut self, key: TaskKey, due: u64, period: u64) -> Result<bool, Refusal>
        requires due { due ≤ MOMENT_MOST_MS + DELAY_MOST_MS }
        requires period { period ≤ PERIOD_MOST_MS }
        ensures does { DoesFor (Only key due) V.sights refusal_fault self.old self.new (own_act key due period) result }
        ensures asks { Asks (ask.Task key) V.sights self.old self.new }
        ensures refused { OnErr result (SameChanges self.old.set self.new.set) }
        ensures same_mode { self.new.set.mode ≡ self.old.set.mode }
        ensures asked { IfOk result (λ _. map.get self.old.set.tasks key ≡ None → IsAsked self.new.set.reads (ask.Task key)) }
    {
        if !self.is_pending(key)? {
            return Ok(false);
        }
        pass_own_task(&mut self.set, key, due, period)?;
        Ok(true)
    }
}
