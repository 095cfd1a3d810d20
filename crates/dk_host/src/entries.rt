//! The commits of a host, read back from its store.
ghost use Rattle.std.specs.Prelude.{◌≡◌, ◌+◌, ◌-◌, ◌<◌, ◌≤◌, ℕ, List, None, Some, [], length, IfErr, IfOk, IsErrOf, IsTrue};
ghost use Rattle.std.specs.List.{All};
ghost use Rattle.dk_types.specs.Faults.{HasRisen};
ghost use Rattle.dk_types.specs.declared.limits.TheConstants.{NUMBERS_END};
ghost use Rattle.dk_disk.specs.Disk.{settled};
ghost use Rattle.dk_disk.specs.DiskHistories.{now};
ghost use Rattle.dk_disk.specs.Opening.{IsOpen};
ghost use Rattle.dk_model.specs.DurableWorlds.{DurableWorld};
ghost use Rattle.dk_model.specs.Legal.{pass_of, world_after};
ghost use Rattle.dk_model.specs.Stores.{StoreHeader};
ghost use Rattle.dk_journal.specs.Moments.{Looks};
ghost use Rattle.dk_commit_log.specs.Logs.{BeginsWith, IsStoreFile};
ghost use Rattle.dk_commit_log.specs.Ranges.{AreNumbered};
ghost use Rattle.dk_commit_log.specs.declared.refused.LogRefused.TheVariants.{Damaged as LogDamaged, DiskFault as LogFault};
ghost use Rattle.dk_host.specs.Calls.{Entered};
ghost use Rattle.dk_host.specs.Notices.{plain, reading_shows};
ghost use Rattle.dk_host.specs.Refusals.{IsFree};
ghost use Rattle.dk_host.specs.Stores.{CountsOn};
ghost use Rattle.dk_host.specs.Tails.{IsLogPart, BeginsAt, LeavesRead, last_wanted};
ghost use Rattle.dk_host.specs.declared.refused.TailRefused.TheVariants.{Damaged as DamagedAt, Older as IsOlder};

use crate::book::WorldBook;
use crate::host::Host;
use crate::hosting::Hosting;
use crate::refused::TailRefused;
use crate::shown::Shown;
use crate::steps::{CountLast, Glance};
use crate::store::CommitStore;
use dk_commit_log::{LogRefused, commits_before, read_commits};
use dk_disk::Home;
use dk_turn::{Naming, Pass, Turn};
use dk_types::{Entry, Side};
use std::alloc::Global;
use std::sync::Wait;

// How many commits come before the entries of a file, which may be known.
fn known_commits<M: Home>(
    alloc: Global,
    home: &mut M,
    side: Side,
    known: Option<u64>,
) -> Result<u64, LogRefused>
    requires is_open { IsOpen (M.opening home.old) }
    requires most { (n : ℕ) → known ≡ Some n → n ≤ NUMBERS_END }
    ensures begins { IsTrue M.tells → IfOk result (λ n. (header : StoreHeader) (payloads : List (List ℕ)) (first : DurableWorld) (others : List (List ℕ)) → IsStoreFile (now (M.past home.old) side).reads header payloads → BeginsWith header payloads first others → ((m : ℕ) → known ≡ Some m → first.commits ≡ m) → n ≡ first.commits) }
    ensures most { IfOk result (λ n. n ≤ NUMBERS_END) }
    ensures undamaged { IsTrue M.tells → (at : ℕ) → IsErrOf result (LogDamaged at) → (header : StoreHeader) (payloads : List (List ℕ)) (first : DurableWorld) (others : List (List ℕ)) → IsStoreFile (now (M.past home.old) side).reads header payloads → BeginsWith header payloads first others → ⊥ }
    ensures looks { IsTrue M.tells → now (M.past home.old) side ≡ settled (now (M.past home.old) side).reads → Looks (M.past home.old) (M.past home.new) }
    ensures cause { IsErrOf result LogFault → HasRisen (M.counted home.old) (M.counted home.new) }
    ensures steady { (IsErrOf result LogFault → ⊥) → M.counted home.new ≡ M.counted home.old }
    ensures opening { M.opening home.new ≡ M.opening home.old }
{
    match known {
        Some(commits) => Ok(commits),
        None => commits_before(alloc, home, side),
    }
}

impl<W: Hosting, J: Naming, M: Home> CommitStore<W, J, M> {
    // The entries behind the one of a number, unless the store is stopped.
    pub(crate) fn entries_after<R: Wait>(
        &mut self,
        rt: &R,
        world: &Turn<WorldBook<W>, J>,
        pass: &mut Pass<WorldBook<W>, J>,
        after: u64,
        most: u32,
    ) -> Result<Vec<Entry>, TailRefused>
        requires free { IsFree self.old }
        ensures number { pass.new.number ≡ pass.old.number }
        ensures entered { Entered W.opened pass.old.number [] pass.old.front pass.new.front }
        ensures named { All (λ e. pass_of e < J.name.passes) pass.new.front }
        ensures numbered { IfOk result (λ entries. AreNumbered (after + 1) entries.items × (length entries.items ≡ last_wanted W.opened pass.new.front after most - after)) }
        ensures read { IsTrue M.tells → IfOk result (λ entries. IsLogPart W.opened pass.new.front after (last_wanted W.opened pass.new.front after most) entries.items) }
        ensures undamaged { IsTrue M.tells → (at : ℕ) → IsErrOf result (DamagedAt at) → ⊥ }
        ensures older { (n : ℕ) → IsErrOf result (IsOlder n) → after + 1 < n }
        ensures begins { IsTrue M.tells → (n : ℕ) → IsErrOf result (IsOlder n) → BeginsAt W.opened pass.new.front n }
        ensures leaves { LeavesRead self.old self.new result }
        ensures counts { CountsOn W.counted self.old.faults self.old.counted }
        ensures free { IsFree self.new }
    {
        if let Some(faults) = self.faults {
            world.with(rt, pass, Glance);
            return Err(TailRefused::Stopped { faults });
        }
        let commits = self.count(rt, world, pass);
        let last = commits.min(after.saturating_add(u64::from(most)));
        self.read_after(after, last)
    }

    // How many commits there are: the store has seen them then.
    fn count<R: Wait>(
        &mut self,
        rt: &R,
        world: &Turn<WorldBook<W>, J>,
        pass: &mut Pass<WorldBook<W>, J>,
    ) -> u64
        requires none_waits { self.old.waiting ≡ None }
        ensures number { pass.new.number ≡ pass.old.number }
        ensures entered { Entered W.opened pass.old.number [] pass.old.front pass.new.front }
        ensures named { All (λ e. pass_of e < J.name.passes) pass.new.front }
        ensures same { self.new.watcher.front ≡ pass.new.front }
        ensures counted { result ≡ (world_after W.opened pass.new.front).durable.commits }
        ensures none_waits { self.new.waiting ≡ None }
        ensures faults { (self.new.faults ≡ self.old.faults) × (self.new.counted ≡ self.old.counted) × (self.new.journal_length ≡ self.old.journal_length) × (self.new.epoch ≡ self.old.epoch) }
    {
        let right = self.right.lend();
        let (right, commits) = world.with_watcher(rt, pass, &mut self.watcher, CountLast { right });
        self.right = right;
        commits
    }

    // The entries behind the one of a number, up to the last one. The home is left as it is, also where it fails.
    fn read_after(&mut self, after: u64, last: u64) -> Result<Vec<Entry>, TailRefused>
        requires none_waits { self.old.waiting ≡ None }
        requires running { self.old.faults ≡ None }
        requires there { last ≤ (world_after W.opened self.old.watcher.front).durable.commits }
        ensures none_waits { self.new.waiting ≡ None }
        ensures numbered { IfOk result (λ entries. AreNumbered (after + 1) entries.items × (length entries.items ≡ last - after)) }
        ensures read { IsTrue M.tells → IfOk result (λ entries. IsLogPart W.opened self.old.watcher.front after last entries.items) }
        ensures undamaged { IsTrue M.tells → (at : ℕ) → IsErrOf result (DamagedAt at) → ⊥ }
        ensures older { (n : ℕ) → IsErrOf result (IsOlder n) → after + 1 < n }
        ensures begins { IsTrue M.tells → (n : ℕ) → IsErrOf result (IsOlder n) → BeginsAt W.opened self.old.watcher.front n }
        ensures leaves { LeavesRead self.old self.new result }
    {
        let base = known_commits(self.alloc, &mut self.home, self.side, self.base)?;
        self.base = Some(base);
        if after < base {
            return Err(TailRefused::Older { first: base + 1 });
        }
        let entries = read_commits(self.alloc, &mut self.home, self.side, base, after, last)?;
        Ok(entries)
    }
}

impl<W: Hosting, J: Naming, M: Home> Host<W, J, M> {
    /// The entries of the commits behind the one of the number `after`, up to `most` of them, in order, as they stand in
    /// the journal. Nothing is entered and nothing is written; a fault of the disk does not stop the host, and a notice shows
    /// that it was counted.
    pub fn entries_after<R: Wait>(
        &self,
        rt: &R,
        pass: &mut Pass<WorldBook<W>, J>,
        after: u64,
        most: u32,
    ) -> Result<Vec<Entry>, Shown<TailRefused>>
        requires some { 1 ≤ most }
        ensures number { pass.new.number ≡ pass.old.number }
        ensures entered { Entered W.opened pass.old.number [] pass.old.front pass.new.front }
        ensures named { All (λ e. pass_of e < J.name.passes) pass.new.front }
        ensures numbered { IfOk result (λ entries. AreNumbered (after + 1) entries.items × (length entries.items ≡ last_wanted W.opened pass.new.front after most - after)) }
        ensures read { IsTrue M.tells → IfOk result (λ entries. IsLogPart W.opened pass.new.front after (last_wanted W.opened pass.new.front after most) entries.items) }
        ensures undamaged { IsTrue M.tells → (at : ℕ) → IsErrOf (plain result) (DamagedAt at) → ⊥ }
        ensures older { (n : ℕ) → IsErrOf (plain result) (IsOlder n) → after + 1 < n }
        ensures begins { IsTrue M.tells → (n : ℕ) → IsErrOf (plain result) (IsOlder n) → BeginsAt W.opened pass.new.front n }
        ensures shows { IfErr result (λ e. reading_shows W.board W.counted e.refused e.notice) }
    {
        self.store
            .lock(rt)
            .entries_after(rt, &self.world, pass, after, most)
    }
}
