//! Commits of finished runs.
ghost use Rattle.std.specs.Prelude.{◌≡◌, ◌+◌, ◌<◌, ◌^◌, Some, OnOk};
ghost use Rattle.dk_model.specs.DurableWorlds.{last_with};
ghost use Rattle.dk_model.specs.Effects.{after};
ghost use Rattle.dk_txn.specs.Finishes.{report};
ghost use Rattle.dk_core.specs.StampedWorlds.{durable_of, with_room};
ghost use Rattle.dk_core.specs.Rooms.{places_of as effects_places, HasPlaces, HasRoom, IsNoLess};
ghost use Rattle.dk_core.specs.Publishing.{published, committed};
ghost use Rattle.dk_core.specs.Commits.{next_entry, StampsAfter, ClaimsAfter, CommitsSteps};

use crate::durable::publish::{
    add_tasks, bind_names, drop_tasks, move_tasks, remove_objects, restamp, set_objects,
    unbind_names,
};
use crate::durable::world::StampedWorld;
use crate::rooms::places_of;
use dk_txn::{Finished, FinishedParts};
use dk_types::{Effects, Item, NoMemory, RunNo};

/// The largest committed run, once this one is committed.
fn largest(last: Option<RunNo>, run: RunNo) -> RunNo
    ensures { Some result ≡ last_with last run }
{
    match last {
        None => run,
        Some(last) => RunNo(last.0.max(run.0)),
    }
}

impl StampedWorld {
    /// Makes the room that the commit of a finished run needs. Where memory is refused the room that was made so far stays,
    /// and nothing else changes either.
    pub fn reserve_for(&mut self, finished: &Finished) -> Result<(), NoMemory>
        ensures same { self.new ≡ with_room self.new.room self.old }
        ensures kept { IsNoLess self.old.room self.new.room }
        ensures room { OnOk result (HasPlaces self.new.room (effects_places finished.now.effects)) }
    {
        let places = places_of(finished.effects());
        self.objects.reserve(places)?;
        self.names.reserve(places)?;
        self.tasks.reserve(places)
    }

    /// Makes the effects of a finished run, as this run, stamps what it wrote with the number of the commit, and tells that
    /// number. It takes no memory.
    pub fn commit(&mut self, finished: Finished, run: RunNo) -> u64
        requires room { HasRoom self.old.room finished.effects }
        requires number { self.old.commits + 1 < 2 ^ 64 }
        ensures seq { result ≡ self.old.commits + 1 }
        ensures durable { durable_of self.new ≡ after (next_entry self.old run finished.effects) (durable_of self.old) }
        ensures stamps { StampsAfter self.old self.new finished.effects finished.touched.items }
        ensures claims { ClaimsAfter self.old self.new finished.effects }
        ensures steps { CommitsSteps self.old self.new run (report finished) }
    {
        let FinishedParts {
            effects,
            touched,
            ..
        } = finished.into_parts();
        self.publish(effects, &touched, run)
    }

    /// Makes the effects of a run, stamps them and what it wrote with the number of the commit, and tells that number.
    fn publish(&mut self, effects: Effects, touched: &[Item], run: RunNo) -> u64
        requires room { HasRoom self.old.room effects }
        requires number { self.old.commits + 1 < 2 ^ 64 }
        ensures seq { result ≡ self.old.commits + 1 }
        ensures world { self.new ≡ with_room self.new.room (committed run effects touched.now self.old) }
    {
        let seq = self.commits + 1;
        let last = largest(self.last, run);
        restamp(
            &mut self.objects,
            &mut self.names,
            &mut self.tasks,
            touched,
            &effects,
            seq,
        );
        self.make(effects, seq);
        self.commits = seq;
        self.last = Some(last);
        seq
    }

    /// Makes effects. What they set gets the stamp.
    fn make(&mut self, effects: Effects, stamp: u64)
        requires room { HasRoom self.old.room effects }
        ensures { self.new ≡ with_room self.new.room (published stamp effects self.old) }
    {
        set_objects(&mut self.objects, effects.written, stamp);
        remove_objects(&mut self.objects, effects.removed.as_slice());
        bind_names(&mut self.names, effects.bound, stamp);
        unbind_names(&mut self.names, effects.unbound.as_slice());
        add_tasks(&mut self.tasks, effects.added, stamp);
        drop_tasks(&mut self.tasks, effects.dropped.as_slice());
        move_tasks(&mut self.tasks, effects.requeued.as_slice());
    }
}
