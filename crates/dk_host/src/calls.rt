//! The calls by a pass.
ghost use Rattle.std.specs.Prelude.{◌≡◌, ◌≤◌, ◌<◌, ◌∷◌, [], length, IfErr, IsTrue, OnErr};
ghost use Rattle.std.specs.List.{All};
ghost use Rattle.dk_types.specs.declared.event.Event.TheVariants as event;
ghost use Rattle.dk_model.specs.Lawful.{IsInput};
ghost use Rattle.dk_model.specs.Events.{is_open};
ghost use Rattle.dk_model.specs.Legal.{pass_of, world_after};
ghost use Rattle.dk_host.specs.Fulls.{IsFullBy};
ghost use Rattle.dk_host.specs.Notices.{commit_shows, plain};
ghost use Rattle.dk_host.specs.Refusals.{IsBackAt, commit_events};
ghost use Rattle.dk_host.specs.Calls.{AreShort, Entered, Grants, IsClaimOf, IsHonestAt, IsSpared, ReadsAt, claim_events, connect_events, hand_events, post_events, tick_events};

use crate::book::WorldBook;
use crate::free::FreeStore;
use crate::host::Host;
use crate::hosting::Hosting;
use crate::refused::CommitRefused;
use crate::shown::Shown;
use crate::steps::{Claim, Connect, CountKept, Hand, Post, ReadItem, Release, Tick};
use dk_core::{ClaimRefused, Claimed, ConnectRefused, Handed, PostRefused};
use dk_disk::Home;
use dk_entry::CommitDraft;
use dk_turn::{Naming, Pass, Turn, pause, spin_then_lock};
use dk_txn::Finished;
use dk_types::{ConnNo, Input, Item, Name, NoMemory, Read};
use std::sync::{MutexGuard, Wait};

/// How often a commit looks whether the commit lock is free before its thread sleeps: about as long as four commits in memory
/// take.
const LOOKS_COUNT: u32 = 400;

/// How many additions a thread makes behind a commit that it had to wait for: some four hundred nanoseconds. Another thread's
/// commit begins then, with a look at the world, and the claim of this thread would hold the world's lock for longer than that.
const STEP_BACK_ADDITIONS: u32 = 64;

// What the world answers to an item at the new front, and what is seen of it there.
pub(crate) fn read_item<W: Hosting, J: Naming, R: Wait>(
    world: &Turn<WorldBook<W>, J>,
    rt: &R,
    pass: &mut Pass<WorldBook<W>, J>,
    item: &Item,
) -> Result<Read, NoMemory>
    ensures number { pass.new.number ≡ pass.old.number }
    ensures entered { Entered W.opened pass.old.number [] pass.old.front pass.new.front }
    ensures read { ReadsAt W.opened pass.new.front item.now result }
    ensures named { All (λ e. pass_of e < J.name.passes) pass.new.front }
{
    world.with(rt, pass, ReadItem { item })
}

impl<W: Hosting, J: Naming, M: Home> Host<W, J, M> {
    /// Makes a connection, whose login waits.
    pub fn connect<R: Wait>(
        &self,
        rt: &R,
        pass: &mut Pass<WorldBook<W>, J>,
        name: &Name,
    ) -> Result<ConnNo, ConnectRefused>
        ensures number { pass.new.number ≡ pass.old.number }
        ensures entered { Entered W.opened pass.old.number (connect_events pass.old.number name.now result) pass.old.front pass.new.front }
        ensures named { All (λ e. pass_of e < J.name.passes) pass.new.front }
    {
        self.world.with(rt, pass, Connect { name })
    }

    /// Puts an input last in its connection's queue. A Disconnect takes no memory, unless events are kept and it ends no
    /// session, since the connection is not open.
    pub fn post<R: Wait>(
        &self,
        rt: &R,
        pass: &mut Pass<WorldBook<W>, J>,
        conn: ConnNo,
        input: Input,
    ) -> Result<(), PostRefused>
        requires within { IsInput input }
        ensures number { pass.new.number ≡ pass.old.number }
        ensures entered { Entered W.opened pass.old.number (post_events pass.old.number conn input result) pass.old.front pass.new.front }
        ensures spared { IsSpared W.keeps (is_open (world_after W.opened pass.new.front) conn) input result }
        ensures named { All (λ e. pass_of e < J.name.passes) pass.new.front }
    {
        self.world.with(rt, pass, Post { conn, input })
    }

    /// Claims the job that is to be run next. None where nothing can be run.
    pub fn claim<R: Wait>(
        &self,
        rt: &R,
        pass: &mut Pass<WorldBook<W>, J>,
    ) -> Result<Option<Claimed>, ClaimRefused>
        ensures number { pass.new.number ≡ pass.old.number }
        ensures entered { Entered W.opened pass.old.number (claim_events pass.old.number result) pass.old.front pass.new.front }
        ensures grants { Grants W.opened pass.new result }
        ensures named { All (λ e. pass_of e < J.name.passes) pass.new.front }
    {
        self.world.with(rt, pass, Claim)
    }

    /// Gives a claim back: its job can be run again where it still waits. It takes no memory.
    pub fn release<R: Wait>(&self, rt: &R, pass: &mut Pass<WorldBook<W>, J>, claimed: Claimed)
        requires claim { IsClaimOf W.opened pass.old claimed }
        ensures number { pass.new.number ≡ pass.old.number }
        ensures entered { Entered W.opened pass.old.number (event.Release pass.old.number claimed.run ∷ []) pass.old.front pass.new.front }
        ensures named { All (λ e. pass_of e < J.name.passes) pass.new.front }
    {
        self.world.with(rt, pass, Release { claimed })
    }

    /// What the world answers to an item at the new front, and what is seen of it there.
    pub fn read<R: Wait>(
        &self,
        rt: &R,
        pass: &mut Pass<WorldBook<W>, J>,
        item: &Item,
    ) -> Result<Read, NoMemory>
        ensures number { pass.new.number ≡ pass.old.number }
        ensures entered { Entered W.opened pass.old.number [] pass.old.front pass.new.front }
        ensures read { ReadsAt W.opened pass.new.front item.now result }
        ensures named { All (λ e. pass_of e < J.name.passes) pass.new.front }
    {
        read_item(&self.world, rt, pass, item)
    }

    /// Hands a connection's first messages, `most` of them or all; `end` says whether it is gone.
    pub fn hand<R: Wait>(
        &self,
        rt: &R,
        pass: &mut Pass<WorldBook<W>, J>,
        conn: ConnNo,
        most: u32,
    ) -> Result<Handed, NoMemory>
        requires some { 1 ≤ most }
        ensures number { pass.new.number ≡ pass.old.number }
        ensures entered { Entered W.opened pass.old.number (hand_events pass.old.number conn most result) pass.old.front pass.new.front }
        ensures short { AreShort result }
        ensures named { All (λ e. pass_of e < J.name.passes) pass.new.front }
    {
        self.world.with(rt, pass, Hand { conn, most })
    }

    /// Time goes on to a moment, in ms, and never back. It takes no memory unless events are kept.
    pub fn tick<R: Wait>(
        &self,
        rt: &R,
        pass: &mut Pass<WorldBook<W>, J>,
        moment: u64,
    ) -> Result<(), NoMemory>
        ensures number { pass.new.number ≡ pass.old.number }
        ensures entered { Entered W.opened pass.old.number (tick_events pass.old.number moment result) pass.old.front pass.new.front }
        ensures only { OnErr result (IsTrue W.keeps) }
        ensures named { All (λ e. pass_of e < J.name.passes) pass.new.front }
    {
        self.world.with(rt, pass, Tick { moment })
    }

    /// How many events are kept: all that there are at the new front, where events are kept.
    pub fn kept_count<R: Wait>(&self, rt: &R, pass: &mut Pass<WorldBook<W>, J>) -> u64
        ensures number { pass.new.number ≡ pass.old.number }
        ensures entered { Entered W.opened pass.old.number [] pass.old.front pass.new.front }
        ensures count { IsTrue W.keeps → result ≡ length pass.new.front }
        ensures named { All (λ e. pass_of e < J.name.passes) pass.new.front }
    {
        self.world.with(rt, pass, CountKept)
    }

    // The store, once no other commit is at it, and whether one was. In memory a commit takes less time than to sleep and to be
    // woken, so it looks for a while first.
    fn enter_store<R: Wait>(&self, rt: &R) -> (MutexGuard<'_, FreeStore<W, J, M>>, bool) {
        match self.store.try_lock() {
            Some(store) => (store, false),
            None => (spin_then_lock(rt, &self.store, LOOKS_COUNT), true),
        }
    }

    /// Commits a finished run where all its reads stand: first its record is on the disk, and then its event is entered.
    /// Where it is refused the claim comes back, and nothing is entered; a notice shows whether a fault of the disk had
    /// stopped the host. The record is spelled in memory before the commit lock is taken.
    pub fn commit<R: Wait>(
        &self,
        rt: &R,
        pass: &mut Pass<WorldBook<W>, J>,
        claimed: Claimed,
        finished: Finished,
    ) -> Result<u64, Shown<CommitRefused>>
        requires claim { IsClaimOf W.opened pass.old claimed }
        requires honest { IsHonestAt W.opened pass.old.front claimed finished }
        ensures number { pass.new.number ≡ pass.old.number }
        ensures entered { Entered W.opened pass.old.number (commit_events pass.old.number claimed finished (plain result)) pass.old.front pass.new.front }
        ensures back { IsBackAt W.opened pass.new.front claimed finished (plain result) }
        ensures full { IsTrue M.tells → IfErr (plain result) (λ refused. IsFullBy W.opened pass.new.front claimed finished refused.why) }
        ensures shows { IfErr result (λ e. commit_shows W.board W.counted e.refused.why e.notice) }
        ensures named { All (λ e. pass_of e < J.name.passes) pass.new.front }
    {
        let draft = CommitDraft::new(self.alloc, claimed.run(), finished.effects());
        let (mut store, has_waited) = self.enter_store(rt);
        let answer = store.commit(rt, &self.world, pass, claimed, finished, draft);
        drop(store);
        if has_waited {
            pause(STEP_BACK_ADDITIONS);
        }
        answer
    }
}
