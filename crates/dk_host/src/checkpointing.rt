//! The store of a host, written anew.
ghost use Rattle.std.specs.Prelude.{◌≡◌, ◌<◌, ◌≤◌, ℕ, None, [], IfErr, IfOk};
ghost use Rattle.std.specs.List.{All};
ghost use Rattle.dk_model.specs.Images.{world_lists};
ghost use Rattle.dk_model.specs.Legal.{pass_of, world_after};
ghost use Rattle.dk_core.specs.Listings.{world_of};
ghost use Rattle.dk_host.specs.Calls.{Entered, IsCopyAt};
ghost use Rattle.dk_host.specs.Checkpoints.{AnswersAt, GoesOn, Rewrites, faults_after};
ghost use Rattle.dk_host.specs.Notices.{checkpoint_shows, plain};
ghost use Rattle.dk_host.specs.Refusals.{IsFree};

use crate::book::WorldBook;
use crate::host::Host;
use crate::hosting::Hosting;
use crate::refused::CheckpointRefused;
use crate::shown::Shown;
use crate::steps::{CopyLast, CopyWorld, Glance};
use crate::store::CommitStore;
use dk_checkpoint::{CheckpointRefused as NotWritten, checkpoint};
use dk_core::WorldCopy;
use dk_disk::Home;
use dk_journal::Journal;
use dk_turn::{Naming, Pass, Turn};
use dk_types::{Durable, NoMemory, Side};
use std::sync::Wait;

// The kept count of faults, where a checkpoint stopped the store.
fn stop_after(answer: &Result<(Journal, Side), NotWritten>, faults: u64) -> Option<u64>
    ensures { result ≡ faults_after answer.now faults }
{
    match answer {
        Err(NotWritten::DiskFault) => Some(faults),
        _ => None,
    }
}

impl<W: Hosting, J: Naming, M: Home> CommitStore<W, J, M> {
    // Writes the store anew from the world that it has, unless it is stopped.
    pub(crate) fn checkpoint<R: Wait>(
        &mut self,
        rt: &R,
        world: &Turn<WorldBook<W>, J>,
        pass: &mut Pass<WorldBook<W>, J>,
    ) -> Result<(), CheckpointRefused>
        requires free { IsFree self.old }
        ensures number { pass.new.number ≡ pass.old.number }
        ensures entered { Entered W.opened pass.old.number [] pass.old.front pass.new.front }
        ensures named { All (λ e. pass_of e < J.name.passes) pass.new.front }
        ensures since { W.first ≤ self.old.epoch }
        ensures answers { AnswersAt W.opened pass.new.front self.old.epoch result }
        ensures rewrites { Rewrites self.old self.new result }
        ensures free { IsFree self.new }
    {
        if let Some(faults) = self.faults {
            world.with(rt, pass, Glance);
            return Err(CheckpointRefused::Stopped { faults });
        }
        let durable = self.copy(rt, world, pass)?.in_order()?;
        self.write_anew(&durable)
    }

    // A copy of the durable world, after all commits: the store has seen them when it is made. Who asks for it puts it in
    // order, without the world's lock.
    fn copy<R: Wait>(
        &mut self,
        rt: &R,
        world: &Turn<WorldBook<W>, J>,
        pass: &mut Pass<WorldBook<W>, J>,
    ) -> Result<WorldCopy, NoMemory>
        requires none_waits { self.old.waiting ≡ None }
        ensures number { pass.new.number ≡ pass.old.number }
        ensures entered { Entered W.opened pass.old.number [] pass.old.front pass.new.front }
        ensures named { All (λ e. pass_of e < J.name.passes) pass.new.front }
        ensures same { self.new.watcher.front ≡ pass.new.front }
        ensures copied { IsCopyAt W.opened pass.new.front result }
        ensures none_waits { self.new.waiting ≡ None }
        ensures faults { (self.new.faults ≡ self.old.faults) × (self.new.counted ≡ self.old.counted) × (self.new.journal_length ≡ self.old.journal_length) × (self.new.epoch ≡ self.old.epoch) }
    {
        let right = self.right.lend();
        let (right, result) = world.with_watcher(rt, pass, &mut self.watcher, CopyLast { right });
        self.right = right;
        result
    }

    // Writes the store anew, without the world's lock. After a fault of the disk it is stopped.
    fn write_anew(&mut self, durable: &Durable) -> Result<(), CheckpointRefused>
        requires none_waits { self.old.waiting ≡ None }
        requires running { self.old.faults ≡ None }
        requires given { durable.now ≡ world_lists (world_after W.opened self.old.watcher.front).durable }
        ensures none_waits { self.new.waiting ≡ None }
        ensures answers { AnswersAt W.opened self.old.watcher.front self.old.epoch result }
        ensures rewrites { Rewrites self.old self.new result }
    {
        let answer = checkpoint(
            self.alloc,
            &mut self.home,
            &self.game,
            durable,
            &self.journal,
            self.side,
        );
        self.faults = stop_after(&answer, self.home.faults());
        let (journal, side) = answer?;
        self.journal = journal;
        self.side = side;
        self.base = Some(durable.commits);
        Ok(())
    }
}

impl<W: Hosting, J: Naming, M: Home> Host<W, J, M> {
    /// A copy of the durable world at the new front. Nothing is entered.
    pub fn durable<R: Wait>(
        &self,
        rt: &R,
        pass: &mut Pass<WorldBook<W>, J>,
    ) -> Result<Durable, NoMemory>
        ensures number { pass.new.number ≡ pass.old.number }
        ensures entered { Entered W.opened pass.old.number [] pass.old.front pass.new.front }
        ensures copied { IsCopyAt W.opened pass.new.front result }
        ensures world { IfOk result (λ durable. world_of durable ≡ (world_after W.opened pass.new.front).durable) }
        ensures named { All (λ e. pass_of e < J.name.passes) pass.new.front }
    {
        self.world.with(rt, pass, CopyWorld)?.in_order()
    }

    /// Writes the store anew from its world, with the next epoch: the journal begins again behind an image of the world.
    /// Nothing is entered. All memory is taken before the first write; a fault of the disk stops the host, which a notice
    /// shows.
    pub fn checkpoint<R: Wait>(
        &self,
        rt: &R,
        pass: &mut Pass<WorldBook<W>, J>,
    ) -> Result<(), Shown<CheckpointRefused>>
        ensures number { pass.new.number ≡ pass.old.number }
        ensures entered { Entered W.opened pass.old.number [] pass.old.front pass.new.front }
        ensures answers { (epoch : ℕ) × (W.first ≤ epoch) × AnswersAt W.opened pass.new.front epoch (plain result) }
        ensures shows { IfErr result (λ e. checkpoint_shows W.board W.counted e.refused e.notice) }
        ensures named { All (λ e. pass_of e < J.name.passes) pass.new.front }
    {
        self.store.lock(rt).checkpoint(rt, &self.world, pass)
    }
}
