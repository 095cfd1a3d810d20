// Claim and Release.
ghost use Rattle.std.specs.Prelude.{◌≡◌, ◌∷◌, [], Some, IfOk, IfSome};
ghost use Rattle.dk_types.specs.declared.event.Event.TheVariants as event;
ghost use Rattle.dk_core.specs.Answers.{Claims};
ghost use Rattle.dk_model.specs.Picks.{pick as pick_of};
ghost use Rattle.dk_core.specs.Cores.{world_of, Adds, IsGranted, KeepsReady};
ghost use Rattle.dk_core.specs.Picking.{job_of, AreMarks, IsDueTask, IsFirstRun, IsPick, IsReadyInput, IsThere};
ghost use Rattle.dk_core.specs.Marking.{IsMarked, IsFreed, IsTaskFreed};
ghost use Rattle.dk_core.specs.declared.choice.Choice.TheVariants as choose;

use crate::answers::ClaimRefused;
use crate::choice::Choice;
use crate::claimed::Claimed;
use crate::claims::Held;
use crate::world::Core;
use dk_types::limits::NUMBERS_END;
use dk_types::{Job, NoMemory, RunNo, TaskKey};

impl Core {
    /// Claims the job that is to be run next, for a pass: the first run; else a task or an input by turns. None where
    /// nothing can be run.
    pub fn claim(&mut self, pass: u32) -> Result<Option<Claimed>, ClaimRefused>
        ensures event { Claims self.old self.new pass result }
        ensures ready { KeepsReady self.old self.new }
    {
        let Some(choice) = self.pick() else {
            return Ok(None);
        };
        if !self.claims.has_left() {
            return Err(ClaimRefused::Spent {
                granted: self.claims.granted(),
            });
        }
        let next = self.claims.next();
        if NUMBERS_END <= next {
            return Err(ClaimRefused::Exhausted { next });
        }
        let claimed = Claimed {
            run: RunNo(next),
            pass,
            at: self.moment,
            job: self.job(choice)?,
        };
        self.claims.grant(Held::of(&claimed))?;
        self.mark(choice, next);
        Ok(Some(claimed))
    }

    /// Gives a claim back: its job can be run again where it still waits. It takes no memory.
    pub fn release(&mut self, claimed: Claimed)
        requires granted { IsGranted self.old claimed }
        ensures event { Adds self.old self.new (event.Release claimed.pass claimed.run ∷ []) }
        ensures ready { KeepsReady self.old self.new }
    {
        self.claims.release(claimed.run);
        self.unmark(&claimed.job);
    }

    /// A copy of the job that a claim would take. None where nothing can be run.
    pub fn next_job(&self) -> Result<Option<Job>, NoMemory>
        ensures { IfOk result (λ job. AreMarks self.now → pick_of (world_of self.now) ≡ job) }
    {
        match self.pick() {
            Some(choice) => Ok(Some(self.job(choice)?)),
            None => Ok(None),
        }
    }

    /// What a claim takes: before the first commit the first run alone, unless it is claimed; then the soonest due task
    /// or the input of the least turn, where the last claim was of a task the input first, and else the task.
    fn pick(&self) -> Option<Choice>
        ensures pick { IsPick self.now result }
        ensures there { IfSome result (IsThere self.now) }
        ensures first { self.now.world.commits ≡ 0 → IfSome result (λ choice. choice ≡ choose.First) }
    {
        if self.world.commits() == 0 {
            return self.first_run();
        }
        let task = self.due_task();
        let input = self.ready_input();
        if self.after_task {
            input.or(task)
        } else {
            task.or(input)
        }
    }

    /// The first run, unless it is claimed.
    fn first_run(&self) -> Option<Choice>
        ensures pick { IsFirstRun self.now result }
        ensures first { IfSome result (λ choice. choice ≡ choose.First) }
    {
        if self.claims.is_empty() {
            Some(Choice::First)
        } else {
            None
        }
    }

    /// The soonest of the due tasks that no claimed run has.
    fn due_task(&self) -> Option<Choice>
        ensures pick { IsDueTask self.now result }
        ensures there { IfSome result (IsThere self.now) }
    {
        let Some(key) = self.world.least_due(self.moment) else {
            return None;
        };
        Some(Choice::Task(key))
    }

    /// The first input of the connection of the least turn, of those that no claimed run has an input of.
    fn ready_input(&self) -> Option<Choice>
        ensures pick { IsReadyInput self.now result }
        ensures there { IfSome result (IsThere self.now) }
    {
        let Some(conn) = self.connections.least_ready() else {
            return None;
        };
        Some(Choice::Input(conn))
    }

    /// The job of a choice, copied.
    fn job(&self, choice: Choice) -> Result<Job, NoMemory>
        requires there { IsThere self.now choice }
        ensures { IfOk result (λ job. job_of self.now (Some choice) ≡ Some job) }
    {
        match choice {
            Choice::First => Ok(Job::Initialize),
            Choice::Task(key) => self.task_job(key),
            Choice::Input(conn) => self.connections.job(conn),
        }
    }

    fn task_job(&self, key: TaskKey) -> Result<Job, NoMemory>
        requires there { IsThere self.now (choose.Task key) }
        ensures { IfOk result (λ job. job_of self.now (Some (choose.Task key)) ≡ Some job) }
    {
        let Some(task) = self.world.task(key) else {
            unreachable!()
        };
        Ok(Job::Task {
            key,
            due: task.due,
            period: task.period,
            kind: task.kind,
            arg: task.arg.clone()?,
        })
    }

    /// A claimed run has what was chosen. An input's connection gets the run's number as its turn.
    fn mark(&mut self, choice: Choice, run: u64)
        requires there { IsThere self.old choice }
        ensures { IsMarked choice run self.old self.new }
    {
        self.after_task = match choice {
            Choice::Task(_) => true,
            Choice::First | Choice::Input(_) => false,
        };
        match choice {
            Choice::First => {}
            Choice::Task(key) => self.world.set_claimed(key, true),
            Choice::Input(conn) => self.connections.claim(conn, run),
        }
    }

    /// No claimed run has the job any more.
    fn unmark(&mut self, job: &Job)
        ensures { IsFreed job.now self.old self.new }
    {
        match job {
            Job::Login { conn, .. }
            | Job::Message { conn, .. }
            | Job::Channel { conn, .. }
            | Job::Disconnect { conn, .. } => self.connections.release(*conn),
            Job::Initialize | Job::Task { .. } => self.free_task(job),
        }
    }

    /// No claimed run has the job any more, where it is a task that is pending.
    pub(crate) fn free_task(&mut self, job: &Job)
        ensures { IsTaskFreed job.now self.old self.new }
    {
        let Job::Task { key, .. } = job else {
            return;
        };
        self.world.set_claimed(*key, false);
    }
}
