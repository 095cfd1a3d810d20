//! A run's transaction.
ghost use Rattle.std.specs.Prelude.{◌≡◌, ◌≤◌, IfOk};
ghost use Rattle.dk_types.specs.declared.limits.TheConstants.{MOMENT_MOST_MS};
ghost use Rattle.dk_model.specs.DurableWorlds.{DurableWorld, Agrees, answer};
ghost use Rattle.dk_overlay.specs.Asked.{IsAsked, IsOnce};
ghost use Rattle.dk_txn.specs.Finishes.{TellsEnd};
ghost use Rattle.dk_overlay.specs.ReadsAndWrites.{nothing_done};

use crate::ending;
use crate::finished::Finished;
use crate::view::View;
use dk_model::Mode;
use dk_overlay::{ReadWriteSet, copy_answer};
use dk_types::{Answer, AppFault, Item, Job, NoMemory, RunNo};
use std::alloc::Global;
use std::mem;

/// What a run has read and changed, over the view that it asks for the rest.
///
/// An operation first looks at the run's own changes, and asks the view for what they do not say. A refused operation
/// leaves the changes as they were; the reads that it made stay. `L` is the run's read and write set, and is never chosen.
pub struct Txn<'a, V: View, L = ReadWriteSet> {
    pub(crate) view: &'a mut V,
    pub(crate) set: L,
}

impl<V: View, L: Drop> Drop for Txn<'_, V, L> {
    fn drop(self)
        ensures { self.exit.0.now ≡ self.entry.view.now }
    {
        let Txn { view: _, set: _ } = self;
    }
}

impl<'a, V: View> Txn<'a, V> {
    ghost use Rattle.dk_txn.specs.Asks.{Asks};
    ghost use Rattle.dk_txn.specs.Does.{Keeps, SameChanges};

    /// The transaction of a run at its moment, in ms. Its mode is `Platform`. It takes no memory.
    pub fn begin(alloc: Global, view: &'a mut V, run: RunNo, at: u64) -> Txn<'a, V>
        requires { at ≤ MOMENT_MOST_MS }
        ensures same_view { result.view.ghost_name ≡ view.entry.ghost_name }
        ensures view_stays { result.view.now ≡ view.old }
        ensures nothing_done { result.set ≡ nothing_done run at }
    {
        Txn {
            view,
            set: ReadWriteSet::new(alloc, run, at),
        }
    }

    /// Sets on whose behalf the calls act from now on, and answers what it was.
    pub fn set_mode(&mut self, mode: Mode) -> Mode
        ensures old { result ≡ self.old.set.mode }
        ensures mode { self.new.set ≡ record (self.old.set) { mode = mode } }
        ensures same_view { self.new.view.ghost_name ≡ self.old.view.ghost_name }
        ensures view_stays { self.new.view.now ≡ self.old.view.now }
    {
        let before = self.set.mode();
        self.set.set_mode(mode);
        before
    }

    /// Asks the view for an item once, and then answers as it did.
    pub(crate) fn ask(&mut self, item: Item) -> Result<Answer, NoMemory>
        ensures keeps { Keeps V.sights self.old self.new }
        ensures asks { Asks item V.sights self.old self.new }
        ensures same_changes { SameChanges self.old.set self.new.set }
        ensures answers { IfOk result (λ said. (d : DurableWorld) → Agrees d self.new.set.reads → answer d item ≡ said) }
        ensures asked { IfOk result (λ _. IsAsked self.new.set.reads item) }
    {
        match self.set.answer(&item)? {
            Some(answer) => Ok(answer),
            None => {
                let read = self.view.read(&item)?;
                let answer = copy_answer(&read.answer)?;
                self.set.add_read(item, read)?;
                Ok(answer)
            }
        }
    }

    /// Ends the run, and begins one with nothing read in its place, so that the view can be had back from the transaction.
    pub fn end(&mut self, job: &Job, end: Result<(), AppFault>) -> Result<Finished, NoMemory>
        ensures reads { IfOk result (λ f. f.reads.items ≡ self.old.set.reads) }
        ensures once { IfOk result (λ f. IsOnce f.reads.items) }
        ensures told { IfOk result (TellsEnd self.old.set job.now end) }
        ensures same_view { self.new.view.ghost_name ≡ self.old.view.ghost_name }
        ensures view_stays { self.new.view.now ≡ self.old.view.now }
    {
        let empty = ReadWriteSet::new(self.set.allocator(), RunNo(0), 0);
        let set = mem::replace(&mut self.set, empty);
        ending::finish(set, job, end)
    }

    /// Ends the run, with the fault over which it gave up, if there is one. A run whose effects are written in more than
    /// 16,777,216 bytes fails with `TooLarge`. A failed run keeps what it did to its own task alone.
    pub fn finish(self, job: &Job, end: Result<(), AppFault>) -> Result<Finished, NoMemory>
        ensures reads { IfOk result (λ f. f.reads.items ≡ self.entry.set.reads) }
        ensures once { IfOk result (λ f. IsOnce f.reads.items) }
        ensures told { IfOk result (TellsEnd self.entry.set job.now end) }
        ensures view_stays { self.exit.0.now ≡ self.entry.view.now }
    {
        let Txn { view: _, set } = self;
        ending::finish(set, job, end)
    }
}
