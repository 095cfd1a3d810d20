//! What lies under the lock.
ghost use Rattle.std.specs.Prelude.{◌≡◌, ◌<◌, List};
ghost use Rattle.std.specs.List.{All};
ghost use Rattle.dk_turn.specs.Fronts.{Begins, Continues, Called};
ghost use Rattle.dk_turn.specs.Rule.{keeper_of};

use crate::book::{Book, Step};
use crate::lending::{add_entries, end_turn, take_turn, watch_turn};
use crate::naming::Naming;
use crate::pass::Pass;
use crate::rule::{Place, Words};
use crate::watcher::Watcher;
use std::marker::PhantomData;

/// The value, and the seat that knows its history.
#[derive(Drop)]
pub(crate) struct Guarded<O: Book, J: Naming> {
    pub(crate) book: O,
    pub(crate) seat: Place<O>,
    pub(crate) of: PhantomData<J>,
    pub(crate) ghost seat_is: { seat.table_id ≡ J.name.table },
    pub(crate) ghost named: { All (λ e. O.number e < J.name.passes) (O.history book) },
    pub(crate) ghost knows: { seat.me.0 ≡ keeper_of (O.history book) J.name.passes },
}

impl<O: Book, J: Naming> Guarded<O, J> {
    // The pass sees the history.
    pub(crate) fn see(&mut self, words: &Words<O>, pass: &mut Pass<O, J>)
        requires { (words.now.table_id ≡ J.name.table) × (0 < words.now.table_id.words) }
        ensures book { self.new.book ≡ self.old.book }
        ensures number { pass.new.number ≡ pass.old.number }
        ensures front { pass.new.front ≡ O.history self.old.book }
        ensures named { All (λ e. O.number e < J.name.passes) pass.new.front }
        ensures continues { Continues O.number pass.old.number pass.old.front pass.new.front }
    {
        let number = pass.number;
        take_turn::<O, J>(words, &mut self.seat, &mut pass.seat, number, &self.book);
        pass.woken = words.peek(0);
        end_turn::<O, J>(words, &mut self.seat, &mut pass.seat, number, &self.book);
    }

    // The pass sees the history, and then its step adds to it.
    pub(crate) fn enter<E: Step<O>>(
        &mut self,
        words: &Words<O>,
        pass: &mut Pass<O, J>,
        step: E,
    ) -> E::Reply
        requires words { (words.now.table_id ≡ J.name.table) × (0 < words.now.table_id.words) }
        requires may { Continues O.number pass.old.number pass.old.front (O.history self.old.book)
            → E.may step pass.old.number (O.history self.old.book) }
        ensures number { pass.new.number ≡ pass.old.number }
        ensures front { pass.new.front ≡ O.history self.new.book }
        ensures named { All (λ e. O.number e < J.name.passes) pass.new.front }
        ensures called { Called O.number pass.old.number
            (λ before added. (before ≡ O.history self.old.book)
            × E.gives step pass.old.number before result added)
            pass.old.front pass.new.front }
    {
        let number = pass.number;
        take_turn::<O, J>(words, &mut self.seat, &mut pass.seat, number, &self.book);
        let reply = step.apply(number, &mut self.book);
        let wakes = E::wakes(&reply);
        pass.woken = add_entries::<O, J>(words, &mut pass.seat, number, &self.book, wakes);
        end_turn::<O, J>(words, &mut self.seat, &mut pass.seat, number, &self.book);
        reply
    }

    // `enter` by the pass, before and after which `other` sees the history.
    pub(crate) fn enter_both<E: Step<O>>(
        &mut self,
        words: &Words<O>,
        pass: &mut Pass<O, J>,
        other: &mut Pass<O, J>,
        step: E,
    ) -> E::Reply
        requires words { (words.now.table_id ≡ J.name.table) × (0 < words.now.table_id.words) }
        requires may { Continues O.number pass.old.number pass.old.front (O.history self.old.book)
            → Continues O.number other.old.number other.old.front (O.history self.old.book)
            → E.may step pass.old.number (O.history self.old.book) }
        ensures numbers { (pass.new.number ≡ pass.old.number) × (other.new.number ≡ other.old.number) }
        ensures same { other.new.front ≡ pass.new.front }
        ensures named { All (λ e. O.number e < J.name.passes) pass.new.front }
        ensures called { Called O.number pass.old.number
            (λ before added. Continues O.number other.old.number other.old.front before
            × E.gives step pass.old.number before result added)
            pass.old.front pass.new.front }
    {
        self.see(words, other);
        let reply = self.enter(words, pass, step);
        self.see(words, other);
        reply
    }

    // The watcher sees the history.
    pub(crate) fn watch(&mut self, words: &Words<O>, watcher: &mut Watcher<O, J>)
        requires { (words.now.table_id ≡ J.name.table) × (0 < words.now.table_id.words) }
        ensures book { self.new.book ≡ self.old.book }
        ensures front { watcher.new.front ≡ O.history self.old.book }
        ensures begins { Begins watcher.old.front (O.history self.old.book) }
    {
        watch_turn::<O, J>(words, &mut self.seat, &mut watcher.seat, &self.book);
    }

    // `enter` by the pass, before and after which the watcher sees the history.
    pub(crate) fn enter_watched<E: Step<O>>(
        &mut self,
        words: &Words<O>,
        pass: &mut Pass<O, J>,
        watcher: &mut Watcher<O, J>,
        step: E,
    ) -> E::Reply
        requires words { (words.now.table_id ≡ J.name.table) × (0 < words.now.table_id.words) }
        requires may { Continues O.number pass.old.number pass.old.front (O.history self.old.book)
            → Begins watcher.old.front (O.history self.old.book)
            → E.may step pass.old.number (O.history self.old.book) }
        ensures number { pass.new.number ≡ pass.old.number }
        ensures same { watcher.new.front ≡ pass.new.front }
        ensures named { All (λ e. O.number e < J.name.passes) pass.new.front }
        ensures called { Called O.number pass.old.number
            (λ before added. Begins watcher.old.front before
            × E.gives step pass.old.number before result added)
            pass.old.front pass.new.front }
    {
        self.watch(words, watcher);
        let reply = self.enter(words, pass, step);
        self.watch(words, watcher);
        reply
    }
}
