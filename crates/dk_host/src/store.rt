//! The store behind the commit lock.
ghost use Rattle.std.specs.Prelude.{◌≡◌, ◌<◌, ◌^◌, ◌↔◌, ◌+◌, ℕ, min, None, Some, [], ◌∷◌, length, IfOk, IsErrOf, IsTrue};
ghost use Rattle.std.specs.List.{All};
ghost use Rattle.dk_types.specs.Faults.{COUNT_END};
ghost use Rattle.dk_types.specs.declared.event.Event.TheVariants as event;
ghost use Rattle.dk_disk.specs.Opening.{IsOpen};
ghost use Rattle.dk_entry.specs.Drafts.{IsDraft};
ghost use Rattle.dk_model.specs.Lawful.{AreLawful};
ghost use Rattle.dk_model.specs.Legal.{pass_of};
ghost use Rattle.dk_model.specs.Validity.{IsValid};
ghost use Rattle.dk_journal.specs.declared.refused.JournalRefused.TheVariants.{Full};
ghost use Rattle.dk_host.specs.Calls.{Entered, IsClaimOf, IsHonestAt};
ghost use Rattle.dk_host.specs.Fulls.{IsFullFor};
ghost use Rattle.dk_host.specs.Notices.{told_of};
ghost use Rattle.dk_host.specs.Refusals.{IsFree};
ghost use Rattle.dk_host.specs.Stores.{Appends, CountsOn, FindsNext, HasRecovered, HoldsNow, IsReady, LooksNext, WaitsOf, faults_after, waiting_after};

use crate::book::WorldBook;
use crate::hosting::Hosting;
use crate::prepared::PreparedCommit;
use crate::right::CommitRight;
use crate::steps::{Prepare, Publish};
use dk_core::{Claimed, PrepareRefused, Prepared};
use dk_disk::Home;
use dk_entry::CommitDraft;
use dk_journal::{Journal, JournalRefused};
use dk_notice::Told;
use dk_turn::{Naming, Pass, Turn, Watcher};
use dk_txn::Finished;
use dk_types::{GameId, NoMemory, Side};
use std::alloc::Global;
use std::marker::Model;
use std::sync::Wait;

/// The journal and its home, with a watcher that has seen just the commits that are stored, and the record that waits to be
/// published. Unless it is stopped, the files recover to the world after all that its watcher has seen, followed by that
/// record.
#[derive(Drop)]
pub struct CommitStore<W: Hosting, J: Naming, M: Home> {
    pub(crate) home: M,
    pub(crate) game: GameId,
    // The side that the journal stands on.
    pub(crate) side: Side,
    pub(crate) journal: Journal,
    // The epoch of the store as it was opened.
    pub(crate) first: u64,
    // How many commits come before the journal's entries: those of its image, once they are known.
    pub(crate) base: Option<u64>,
    pub(crate) watcher: Watcher<WorldBook<W>, J>,
    pub(crate) right: CommitRight<W>,
    // Where the store is stopped, the one whose record the disk did not take.
    pub(crate) waiting: Option<Prepared>,
    // The home's count of faults, as it was when the store was stopped.
    pub(crate) faults: Option<u64>,
    pub(crate) alloc: Global,
}

impl<W: Hosting, J: Naming, M: Home> Model for CommitStore<W, J, M> {
    ghost use Rattle.std.specs.Prelude.{◌≡◌};
    ghost use Rattle.dk_host.specs.Stores.{Stored, stored, IsKeptOn, IsSameHome, IsStored};

    ghost Value = { Stored };

    ghost view = { λ s. stored s.watcher s.waiting s.right.places.amount s.faults (M.counted s.home) s.journal };

    ghost invariant = { λ s. (s.right.commits.parts ≡ 1)
        × (s.right.places.parts ≡ 1)
        × IsKeptOn s.side s.journal s.base W.first s.first
        × IsStored W.opened W.began M.tells (M.past s.home) (M.opening s.home) s.game s.journal s.base s.watcher.front s.right.commits.amount s.right.places.amount s.waiting s.faults
        × IsSameHome W.counted W.opening s.faults (M.counted s.home) (M.opening s.home) };
}

// What waits after an append, and the kept count of faults where it stopped the store.
fn settle(
    answer: &Result<(), JournalRefused>,
    prepared: Prepared,
    faults: u64,
) -> (Option<Prepared>, Option<u64>)
    ensures { (result.0 ≡ waiting_after answer.now prepared) × (result.1 ≡ faults_after answer.now faults) }
{
    match answer {
        Ok(()) => (Some(prepared), None),
        Err(JournalRefused::DiskFault) => (Some(prepared), Some(faults)),
        Err(_) => (None, None),
    }
}

// How many commits come before the entries of a journal of this epoch, if no image has to tell it.
fn base_of(epoch: u64) -> Option<u64>
    ensures { (n : ℕ) → result ≡ Some n → (n ≡ 0) × (epoch ≡ 0) }
{
    if epoch == 0 { Some(0) } else { None }
}

impl<W: Hosting, J: Naming, M: Home> CommitStore<W, J, M> {
    // A store whose watcher has seen nothing.
    pub(crate) fn new(
        home: M,
        game: GameId,
        side: Side,
        journal: Journal,
        watcher: Watcher<WorldBook<W>, J>,
        right: CommitRight<W>,
        alloc: Global,
    ) -> CommitStore<W, J, M>
        requires lawful { AreLawful W.opened.rules }
        requires valid { IsValid W.opened.durable }
        requires watcher { watcher.front ≡ [] }
        requires right { (right.commits.parts ≡ 1) × (right.places.parts ≡ 1) × (right.commits.amount ≡ 0) }
        requires is_open { IsOpen (M.opening home) }
        requires here { journal.side ≡ side }
        requires first { journal.epoch ≡ W.first }
        requires opening { M.opening home ≡ W.opening }
        requires counted { M.counted home ≡ W.counted }
        requires format { journal.format ≡ 2 }
        requires holds { IsTrue M.tells → HoldsNow (M.past home) game journal W.opened.durable }
        requires since { IsTrue M.tells → HasRecovered W.opened W.began (M.past home) [] [] }
        ensures free { IsFree result }
    {
        let first = journal.epoch();
        CommitStore {
            home,
            game,
            side,
            journal,
            first,
            base: base_of(first),
            watcher,
            right,
            waiting: None,
            faults: None,
            alloc,
        }
    }

    // What there is of faults of the home.
    pub(crate) fn told(&self) -> Told
        ensures told { result ≡ told_of self.now }
        ensures counts { CountsOn W.counted self.now.faults self.now.counted }
    {
        Told {
            counted: self.home.faults(),
            stopped: self.faults,
        }
    }

    /// Looks whether all reads of a finished run stand, and makes what its commit needs. Nothing is entered.
    pub fn prepare<R: Wait>(
        &mut self,
        rt: &R,
        world: &Turn<WorldBook<W>, J>,
        pass: &mut Pass<WorldBook<W>, J>,
        claimed: &Claimed,
        finished: &Finished,
    ) -> Result<PreparedCommit, PrepareRefused>
        requires none_waits { self.old.waiting ≡ None }
        requires claim { IsClaimOf W.opened pass.old claimed.now }
        requires honest { IsHonestAt W.opened pass.old.front claimed.now finished.now }
        ensures number { pass.new.number ≡ pass.old.number }
        ensures entered { Entered W.opened pass.old.number [] pass.old.front pass.new.front }
        ensures same { self.new.watcher.front ≡ pass.new.front }
        ensures finds { FindsNext W.opened pass.new.front claimed.now finished.now self.new.room result }
        ensures none_waits { self.new.waiting ≡ None }
        ensures faults { (self.new.faults ≡ self.old.faults) × (self.new.counted ≡ self.old.counted) × (self.new.journal_length ≡ self.old.journal_length) × (self.new.epoch ≡ self.old.epoch) }
        ensures named { All (λ e. pass_of e < J.name.passes) pass.new.front }
    {
        let draft = CommitDraft::new(self.alloc, claimed.run(), finished.effects());
        self.prepare_drafted(rt, world, pass, claimed, finished, draft)
    }

    // The same with a draft of its record, which was made before the lock of this store was taken. That there was no
    // memory for it is told behind a stale read.
    pub(crate) fn prepare_drafted<R: Wait>(
        &mut self,
        rt: &R,
        world: &Turn<WorldBook<W>, J>,
        pass: &mut Pass<WorldBook<W>, J>,
        claimed: &Claimed,
        finished: &Finished,
        draft: Result<CommitDraft, NoMemory>,
    ) -> Result<PreparedCommit, PrepareRefused>
        requires none_waits { self.old.waiting ≡ None }
        requires claim { IsClaimOf W.opened pass.old claimed.now }
        requires honest { IsHonestAt W.opened pass.old.front claimed.now finished.now }
        requires draft { IfOk draft (IsDraft claimed.now.run finished.now.effects) }
        ensures number { pass.new.number ≡ pass.old.number }
        ensures entered { Entered W.opened pass.old.number [] pass.old.front pass.new.front }
        ensures same { self.new.watcher.front ≡ pass.new.front }
        ensures finds { FindsNext W.opened pass.new.front claimed.now finished.now self.new.room result }
        ensures none_waits { self.new.waiting ≡ None }
        ensures faults { (self.new.faults ≡ self.old.faults) × (self.new.counted ≡ self.old.counted) × (self.new.journal_length ≡ self.old.journal_length) × (self.new.epoch ≡ self.old.epoch) }
        ensures named { All (λ e. pass_of e < J.name.passes) pass.new.front }
    {
        let prepared = self.look(rt, world, pass, claimed, finished)?;
        Ok(PreparedCommit::new(prepared, draft?))
    }

    fn look<R: Wait>(
        &mut self,
        rt: &R,
        world: &Turn<WorldBook<W>, J>,
        pass: &mut Pass<WorldBook<W>, J>,
        claimed: &Claimed,
        finished: &Finished,
    ) -> Result<Prepared, PrepareRefused>
        requires none_waits { self.old.waiting ≡ None }
        requires claim { IsClaimOf W.opened pass.old claimed.now }
        requires honest { IsHonestAt W.opened pass.old.front claimed.now finished.now }
        ensures number { pass.new.number ≡ pass.old.number }
        ensures entered { Entered W.opened pass.old.number [] pass.old.front pass.new.front }
        ensures same { self.new.watcher.front ≡ pass.new.front }
        ensures finds { LooksNext W.opened pass.new.front claimed.now finished.now self.new.room result }
        ensures none_waits { self.new.waiting ≡ None }
        ensures faults { (self.new.faults ≡ self.old.faults) × (self.new.counted ≡ self.old.counted) × (self.new.journal_length ≡ self.old.journal_length) × (self.new.epoch ≡ self.old.epoch) }
        ensures named { All (λ e. pass_of e < J.name.passes) pass.new.front }
    {
        let right = self.right.lend();
        let (right, result) = world.with_watcher(
            rt,
            pass,
            &mut self.watcher,
            Prepare {
                claimed,
                finished,
                right,
            },
        );
        self.right = right;
        result
    }

    /// Puts the record of a prepared commit last in the journal, without memory. At Ok it waits to be published. After a
    /// fault of the disk the store is stopped.
    pub fn append(&mut self, commit: PreparedCommit) -> Result<(), JournalRefused>
        requires none_waits { self.old.waiting ≡ None }
        requires running { self.old.faults ≡ None }
        requires ready { IsReady W.opened self.old commit.prepared }
        ensures watcher { (self.new.watcher ≡ self.old.watcher) × (self.new.room ≡ self.old.room) × (self.new.epoch ≡ self.old.epoch) }
        ensures appends { Appends self.old self.new commit.prepared result }
        ensures full { (n : ℕ) → IsErrOf result (Full n) ↔ ((n ≡ min (self.old.journal_length + (5 + length commit.payload)) COUNT_END) × (2 ^ 40 < n)) }
        ensures log { IsTrue M.tells → (n : ℕ) → IsErrOf result (Full n) → IsFullFor W.opened self.old.watcher.front commit.prepared n }
    {
        let PreparedCommit { prepared, payload } = commit;
        let answer = self.journal.append(&mut self.home, &payload);
        let (waiting, faults) = settle(&answer, prepared, self.home.faults());
        self.waiting = waiting;
        self.faults = faults;
        answer
    }

    /// Enters the commit whose record waits. It takes no memory.
    pub fn publish<R: Wait>(
        &mut self,
        rt: &R,
        world: &Turn<WorldBook<W>, J>,
        pass: &mut Pass<WorldBook<W>, J>,
        claimed: Claimed,
        finished: Finished,
    ) -> u64
        requires waits { WaitsOf W.opened self.old claimed finished }
        requires claim { IsClaimOf W.opened pass.old claimed }
        requires honest { IsHonestAt W.opened pass.old.front claimed finished }
        ensures number { pass.new.number ≡ pass.old.number }
        ensures entered { Entered W.opened pass.old.number (event.Commit pass.old.number claimed.run result finished.outcome ∷ []) pass.old.front pass.new.front }
        ensures same { self.new.watcher.front ≡ pass.new.front }
        ensures none_waits { self.new.waiting ≡ None }
        ensures faults { (self.new.faults ≡ self.old.faults) × (self.new.counted ≡ self.old.counted) × (self.new.epoch ≡ self.old.epoch) }
        ensures named { All (λ e. pass_of e < J.name.passes) pass.new.front }
    {
        let Some(prepared) = self.waiting.take() else {
            return 0;
        };
        let right = self.right.lend();
        let (right, seq) = world.with_watcher(
            rt,
            pass,
            &mut self.watcher,
            Publish {
                claimed,
                finished,
                prepared,
                right,
            },
        );
        self.right = right;
        seq
    }
}
