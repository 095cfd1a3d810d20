//! The store while its lock is free, and the board on which the faults of its home are told.
ghost use Rattle.std.specs.Prelude.{◌≡◌, ◌+◌, ◌-◌, ◌<◌, ◌≤◌, ℕ, [], length, IfErr, IfOk, IsErrOf, IsTrue, OnOk};
ghost use Rattle.std.specs.List.{All};
ghost use Rattle.dk_commit_log.specs.Ranges.{AreNumbered};
ghost use Rattle.dk_entry.specs.Drafts.{IsDraft};
ghost use Rattle.dk_model.specs.Legal.{pass_of};
ghost use Rattle.dk_notice.specs.Notices.{GoesOn, nothing_told, said_on};
ghost use Rattle.dk_host.specs.Calls.{Entered, IsClaimOf, IsHonestAt};
ghost use Rattle.dk_host.specs.Checkpoints.{AnswersAt, Rewrites};
ghost use Rattle.dk_host.specs.Fulls.{IsFullBy};
ghost use Rattle.dk_host.specs.Notices.{IsNoticeOf, checkpoint_shows, commit_shows, plain, reading_shows, told_of};
ghost use Rattle.dk_host.specs.Refusals.{commit_events, IsBackAt, IsFree, Leaves};
ghost use Rattle.dk_host.specs.Stores.{CountsOn};
ghost use Rattle.dk_host.specs.Tails.{BeginsAt, IsLogPart, LeavesRead, last_wanted};
ghost use Rattle.dk_host.specs.declared.refused.TailRefused.TheVariants.{Damaged as DamagedAt, Older as IsOlder};

use crate::book::WorldBook;
use crate::hosting::Hosting;
use crate::refused::{CheckpointRefused, CommitRefused, TailRefused};
use crate::shown::Shown;
use crate::store::CommitStore;
use dk_core::Claimed;
use dk_disk::Home;
use dk_entry::CommitDraft;
use dk_notice::{NoticeBoard, Told};
use dk_turn::{Naming, Pass, Turn};
use dk_txn::Finished;
use dk_types::{Entry, NoMemory};
use std::marker::Model;
use std::sync::Wait;

/// A store whose lock is free: no record waits, unless the disk did not take it; and its board says what there was of faults
/// of its home.
#[derive(Drop)]
pub(crate) struct FreeStore<W: Hosting, J: Naming, M: Home> {
    pub(crate) store: CommitStore<W, J, M>,
    pub(crate) board: NoticeBoard,
}

impl<W: Hosting, J: Naming, M: Home> Model for FreeStore<W, J, M> {
    ghost use Rattle.std.specs.Prelude.{◌≡◌};
    ghost use Rattle.dk_notice.specs.Notices.{said_on};
    ghost use Rattle.dk_host.specs.Fulls.{IsFullBy};
    ghost use Rattle.dk_host.specs.Notices.{told_of};
    ghost use Rattle.dk_host.specs.Refusals.{IsFree};
    ghost use Rattle.dk_host.specs.Stores.{Stored};

    ghost Value = { Stored };

    ghost view = { λ f. f.store };

    ghost invariant = { λ f. IsFree f.store × (f.board ≡ said_on W.board (told_of f.store)) };
}

// The answer of a call of a store, with a notice where it is refused. The board tells what there is now of faults.
fn shown<A, E, W: Hosting, J: Naming, M: Home>(
    store: &CommitStore<W, J, M>,
    board: &mut NoticeBoard,
    answer: Result<A, E>,
) -> Result<A, Shown<E>>
    requires goes_on { GoesOn board.old.told (told_of store.now) }
    requires same { OnOk answer (told_of store.now ≡ board.old.told) }
    ensures plain { plain result ≡ answer }
    ensures told { board.new ≡ said_on board.old.board (told_of store.now) }
    ensures notice { IfErr result (λ e. IsNoticeOf board.old.board board.old.told store.now e.notice) }
    ensures counts { IfErr result (λ e. CountsOn W.counted store.now.faults store.now.counted) }
{
    match answer {
        Ok(value) => Ok(value),
        Err(refused) => {
            let notice = board.tell(store.told());
            Err(Shown { refused, notice })
        }
    }
}

impl<W: Hosting, J: Naming, M: Home> FreeStore<W, J, M> {
    // A store with a board on which nothing was told.
    pub(crate) fn new(store: CommitStore<W, J, M>, board: NoticeBoard) -> FreeStore<W, J, M>
        requires free { IsFree store }
        requires board { board ≡ said_on W.board nothing_told }
    {
        let mut board = board;
        let _ = board.tell(store.told());
        FreeStore { store, board }
    }

    pub(crate) fn commit<R: Wait>(
        &mut self,
        rt: &R,
        world: &Turn<WorldBook<W>, J>,
        pass: &mut Pass<WorldBook<W>, J>,
        claimed: Claimed,
        finished: Finished,
        draft: Result<CommitDraft, NoMemory>,
    ) -> Result<u64, Shown<CommitRefused>>
        requires claim { IsClaimOf W.opened pass.old claimed }
        requires honest { IsHonestAt W.opened pass.old.front claimed finished }
        requires draft { IfOk draft (IsDraft claimed.run finished.effects) }
        ensures number { pass.new.number ≡ pass.old.number }
        ensures entered { Entered W.opened pass.old.number (commit_events pass.old.number claimed finished (plain result)) pass.old.front pass.new.front }
        ensures back { IsBackAt W.opened pass.new.front claimed finished (plain result) }
        ensures full { IsTrue M.tells → IfErr (plain result) (λ refused. IsFullBy W.opened pass.new.front claimed finished refused.why) }
        ensures named { All (λ e. pass_of e < J.name.passes) pass.new.front }
        ensures leaves { Leaves self.old self.new (plain result) }
        ensures shows { IfErr result (λ e. commit_shows W.board W.counted e.refused.why e.notice) }
    {
        let answer = self.store.commit(rt, world, pass, claimed, finished, draft);
        shown(&self.store, &mut self.board, answer)
    }

    pub(crate) fn checkpoint<R: Wait>(
        &mut self,
        rt: &R,
        world: &Turn<WorldBook<W>, J>,
        pass: &mut Pass<WorldBook<W>, J>,
    ) -> Result<(), Shown<CheckpointRefused>>
        ensures number { pass.new.number ≡ pass.old.number }
        ensures entered { Entered W.opened pass.old.number [] pass.old.front pass.new.front }
        ensures named { All (λ e. pass_of e < J.name.passes) pass.new.front }
        ensures since { W.first ≤ self.old.epoch }
        ensures answers { AnswersAt W.opened pass.new.front self.old.epoch (plain result) }
        ensures rewrites { Rewrites self.old self.new (plain result) }
        ensures shows { IfErr result (λ e. checkpoint_shows W.board W.counted e.refused e.notice) }
    {
        let answer = self.store.checkpoint(rt, world, pass);
        shown(&self.store, &mut self.board, answer)
    }

    pub(crate) fn entries_after<R: Wait>(
        &mut self,
        rt: &R,
        world: &Turn<WorldBook<W>, J>,
        pass: &mut Pass<WorldBook<W>, J>,
        after: u64,
        most: u32,
    ) -> Result<Vec<Entry>, Shown<TailRefused>>
        ensures number { pass.new.number ≡ pass.old.number }
        ensures entered { Entered W.opened pass.old.number [] pass.old.front pass.new.front }
        ensures named { All (λ e. pass_of e < J.name.passes) pass.new.front }
        ensures numbered { IfOk result (λ entries. AreNumbered (after + 1) entries.items × (length entries.items ≡ last_wanted W.opened pass.new.front after most - after)) }
        ensures read { IsTrue M.tells → IfOk result (λ entries. IsLogPart W.opened pass.new.front after (last_wanted W.opened pass.new.front after most) entries.items) }
        ensures undamaged { IsTrue M.tells → (at : ℕ) → IsErrOf (plain result) (DamagedAt at) → ⊥ }
        ensures older { (n : ℕ) → IsErrOf (plain result) (IsOlder n) → after + 1 < n }
        ensures begins { IsTrue M.tells → (n : ℕ) → IsErrOf (plain result) (IsOlder n) → BeginsAt W.opened pass.new.front n }
        ensures leaves { LeavesRead self.old self.new (plain result) }
        ensures shows { IfErr result (λ e. reading_shows W.board W.counted e.refused e.notice) }
    {
        let answer = self.store.entries_after(rt, world, pass, after, most);
        shown(&self.store, &mut self.board, answer)
    }
}
