//! A commit: a look, a record, and its event.
ghost use Rattle.std.specs.Prelude.{◌≡◌, ◌<◌, None, IfErr, IfOk, IsTrue};
ghost use Rattle.std.specs.List.{All};
ghost use Rattle.dk_entry.specs.Drafts.{IsDraft};
ghost use Rattle.dk_model.specs.Legal.{pass_of};
ghost use Rattle.dk_core.specs.Rooms.{places_of};
ghost use Rattle.dk_host.specs.Calls.{Entered, IsClaimOf, IsHonestAt};
ghost use Rattle.dk_host.specs.Fulls.{IsFullBy};
ghost use Rattle.dk_host.specs.Refusals.{commit_events, IsBackAt, IsFree, Leaves};
ghost use Rattle.dk_host.specs.Stores.{IsNextCommit};

use crate::book::WorldBook;
use crate::hosting::Hosting;
use crate::prepared::PreparedCommit;
use crate::refused::{CommitRefused, Why, why_of_append, why_of_look};
use crate::store::CommitStore;
use dk_core::Claimed;
use dk_disk::Home;
use dk_entry::CommitDraft;
use dk_turn::{Naming, Pass, Turn};
use dk_txn::Finished;
use dk_types::NoMemory;
use std::sync::Wait;

impl<W: Hosting, J: Naming, M: Home> CommitStore<W, J, M> {
    // Commits a finished run where all its reads stand: its record, of which there is a draft, is on the disk before its
    // event is entered.
    pub(crate) fn commit<R: Wait>(
        &mut self,
        rt: &R,
        world: &Turn<WorldBook<W>, J>,
        pass: &mut Pass<WorldBook<W>, J>,
        claimed: Claimed,
        finished: Finished,
        draft: Result<CommitDraft, NoMemory>,
    ) -> Result<u64, CommitRefused>
        requires free { IsFree self.old }
        requires claim { IsClaimOf W.opened pass.old claimed }
        requires honest { IsHonestAt W.opened pass.old.front claimed finished }
        requires draft { IfOk draft (IsDraft claimed.run finished.effects) }
        ensures number { pass.new.number ≡ pass.old.number }
        ensures entered { Entered W.opened pass.old.number (commit_events pass.old.number claimed finished result) pass.old.front pass.new.front }
        ensures back { IsBackAt W.opened pass.new.front claimed finished result }
        ensures full { IsTrue M.tells → IfErr result (λ refused. IsFullBy W.opened pass.new.front claimed finished refused.why) }
        ensures named { All (λ e. pass_of e < J.name.passes) pass.new.front }
        ensures leaves { Leaves self.old self.new result }
        ensures free { IsFree self.new }
    {
        if let Some(faults) = self.faults {
            pass.has_named();
            return Err(CommitRefused {
                claimed,
                why: Why::Stopped { faults },
            });
        }
        match self.prepare_drafted(rt, world, pass, &claimed, &finished, draft) {
            Ok(commit) => self.record(rt, world, pass, claimed, finished, commit),
            Err(refused) => Err(CommitRefused {
                claimed,
                why: why_of_look(refused),
            }),
        }
    }

    fn record<R: Wait>(
        &mut self,
        rt: &R,
        world: &Turn<WorldBook<W>, J>,
        pass: &mut Pass<WorldBook<W>, J>,
        claimed: Claimed,
        finished: Finished,
        commit: PreparedCommit,
    ) -> Result<u64, CommitRefused>
        requires none_waits { self.old.waiting ≡ None }
        requires running { self.old.faults ≡ None }
        requires same { self.old.watcher.front ≡ pass.old.front }
        requires next { IsNextCommit W.opened self.old.watcher.front claimed finished commit.prepared × (self.old.room ≡ places_of finished.effects) }
        requires claim { IsClaimOf W.opened pass.old claimed }
        requires honest { IsHonestAt W.opened pass.old.front claimed finished }
        requires named { All (λ e. pass_of e < J.name.passes) pass.old.front }
        ensures number { pass.new.number ≡ pass.old.number }
        ensures entered { Entered W.opened pass.old.number (commit_events pass.old.number claimed finished result) pass.old.front pass.new.front }
        ensures back { IsBackAt W.opened pass.new.front claimed finished result }
        ensures full { IsTrue M.tells → IfErr result (λ refused. IsFullBy W.opened pass.new.front claimed finished refused.why) }
        ensures named { All (λ e. pass_of e < J.name.passes) pass.new.front }
        ensures leaves { Leaves self.old self.new result }
        ensures free { IsFree self.new }
    {
        match self.append(commit) {
            Ok(()) => Ok(self.publish(rt, world, pass, claimed, finished)),
            Err(refused) => Err(CommitRefused {
                claimed,
                why: why_of_append(refused),
            }),
        }
    }
}
