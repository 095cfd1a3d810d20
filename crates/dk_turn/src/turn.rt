//! The lock.
ghost use Rattle.std.specs.Prelude.{◌≡◌, ◌<◌, ◌≤◌, List, [], IfOk, IfErr, vec_capacity};
ghost use Rattle.std.specs.List.{All};
ghost use Rattle.dk_turn.specs.Fronts.{Begins, Continues, ContinuesAll, Called, IsDealt};
ghost use Rattle.dk_turn.specs.Rule.{dealer};

use crate::book::{Book, Step};
use crate::builder::TurnBuilder;
use crate::guarded::Guarded;
use crate::naming::Naming;
use crate::pass::{Pass, Waking};
use crate::rule::{Deals, Ordered, Place, Seats, View, Words};
use crate::spinning::spin_then_lock;
use crate::watcher::Watcher;
use atomic_table::Table;
use std::alloc::Global;
use std::fmt::Debug;
use std::marker::{Model, PhantomData};
use std::sync::atomic::AtomicU64;
use std::sync::atomic::Ordering::SeqCst;
use std::sync::{Mutex, MutexGuard, Wait};
use thiserror::Error;

/// How often a thread looks whether the lock is free before it sleeps: for some fifteen microseconds.
const LOOKS_COUNT: u32 = 100;

/// There was no memory. The book comes back.
#[derive(Debug, Drop, Error)]
#[error_bound(O: Debug)]
#[error("out of memory")]
pub struct TurnRefused<O> {
    pub book: O,
}

/// A lock whose value stands for a history. Those who call it have passes. Contracts see the name that it was given.
#[derive(Drop)]
pub struct Turn<O: Book, J: Naming> {
    table: Table<O, View<O::Entry>, (), Ordered, Global>,
    desk: Mutex<Guarded<O, J>>,
    // How many threads are in `wait`.
    waiting: AtomicU64,
}

impl<O: Book, J: Naming> Model for Turn<O, J> {
    ghost use Rattle.std.specs.Prelude.{◌≡◌};
    ghost use Rattle.dk_turn.specs.Names.{TurnName, turn_name};

    ghost Value = { TurnName };

    ghost view = { λ t. turn_name t.table.shared.table_id J.name.passes };

    ghost invariant = { λ t. (t.table.shared.table_id.words ≡ 1)
        × (t.table.shared.table_id.slots ≡ 0)
        × (t.table.shared.table_id ≡ J.name.table) };
}

impl<O: Book, J: Naming> Turn<O, J> {
    /// The lock, and its passes, with the numbers from 0 on.
    pub fn new(
        alloc: Global,
        blank: TurnBuilder<O>,
        book: O,
    ) -> Result<(Turn<O, J>, Vec<Pass<O, J>>), TurnRefused<O>>
        requires name { blank ≡ J.name }
        requires empty { O.history book ≡ [] }
        ensures ok { IfOk result (λ r. IsDealt J.name.passes r.1.items) }
        ensures err { IfErr result (λ r. r.book ≡ book) }
    {
        match Turn::watched(alloc, blank, book) {
            Ok((turn, given, _)) => Ok((turn, given)),
            Err(refused) => Err(refused),
        }
    }

    /// The lock, its passes, with the numbers from 0 on, and a watcher.
    pub fn watched(
        alloc: Global,
        blank: TurnBuilder<O>,
        book: O,
    ) -> Result<(Turn<O, J>, Vec<Pass<O, J>>, Watcher<O, J>), TurnRefused<O>>
        requires name { blank ≡ J.name }
        requires empty { O.history book ≡ [] }
        ensures ok { IfOk result (λ r. IsDealt J.name.passes r.1.items) }
        ensures watcher { IfOk result (λ r. r.2.front ≡ []) }
        ensures err { IfErr result (λ r. r.book ≡ book) }
    {
        let TurnBuilder {
            table,
            mut seat,
            passes,
        } = blank;
        let Ok(room) = Vec::with_capacity(alloc, passes as usize) else {
            table.close().free();
            return Err(TurnRefused { book });
        };
        let watcher = Watcher {
            seat: table.shared.split_seat::<Seats>(&mut seat),
            of: PhantomData,
        };
        let given = deal(&table.shared, &mut seat, passes, room);
        let desk = Guarded {
            book,
            seat,
            of: PhantomData,
        };
        let turn = Turn {
            table,
            desk: Mutex::new(desk),
            waiting: AtomicU64::new(0),
        };
        Ok((turn, given, watcher))
    }

    // The desk, once no one else is at it. A step takes less time than to sleep and to be woken, so it looks for a while first.
    fn enter_desk<R: Wait>(&self, rt: &R) -> MutexGuard<'_, Guarded<O, J>> {
        spin_then_lock(rt, &self.desk, LOOKS_COUNT)
    }

    /// Applies the step at one point of the history. The new front begins with the old one, and ends with what the step added.
    pub fn with<R: Wait, E: Step<O>>(&self, rt: &R, pass: &mut Pass<O, J>, step: E) -> E::Reply
        requires { (book : O)
            → Continues O.number pass.old.number pass.old.front (O.history book)
            → E.may step pass.old.number (O.history book) }
        ensures number { pass.new.number ≡ pass.old.number }
        ensures called { Called O.number pass.old.number
            (λ before added. E.gives step pass.old.number before result added)
            pass.old.front pass.new.front }
        ensures named { All (λ e. O.number e < J.name.passes) pass.new.front }
    {
        let mut desk = self.enter_desk(rt);
        let reply = desk.enter(&self.table.shared, pass, step);
        drop(desk);
        self.wake(E::wakes(&reply), pass.waking);
        reply
    }

    /// Both passes see the history as it is.
    pub fn meet<R: Wait>(&self, rt: &R, one: &mut Pass<O, J>, other: &mut Pass<O, J>)
        ensures numbers { (one.new.number ≡ one.old.number) × (other.new.number ≡ other.old.number) }
        ensures same { one.new.front ≡ other.new.front }
        ensures one { Continues O.number one.old.number one.old.front one.new.front }
        ensures other { Continues O.number other.old.number other.old.front other.new.front }
        ensures named { All (λ e. O.number e < J.name.passes) one.new.front }
    {
        let mut desk = self.enter_desk(rt);
        desk.see(&self.table.shared, one);
        desk.see(&self.table.shared, other);
    }

    /// `with` on `pass`, and under the same lock `other` sees what `pass` sees.
    pub fn with_both<R: Wait, E: Step<O>>(
        &self,
        rt: &R,
        pass: &mut Pass<O, J>,
        other: &mut Pass<O, J>,
        step: E,
    ) -> E::Reply
        requires { (book : O)
            → Continues O.number pass.old.number pass.old.front (O.history book)
            → Continues O.number other.old.number other.old.front (O.history book)
            → E.may step pass.old.number (O.history book) }
        ensures numbers { (pass.new.number ≡ pass.old.number) × (other.new.number ≡ other.old.number) }
        ensures same { other.new.front ≡ pass.new.front }
        ensures called { Called O.number pass.old.number
            (λ before added. Continues O.number other.old.number other.old.front before
            × E.gives step pass.old.number before result added)
            pass.old.front pass.new.front }
        ensures named { All (λ e. O.number e < J.name.passes) pass.new.front }
    {
        let mut desk = self.enter_desk(rt);
        let reply = desk.enter_both(&self.table.shared, pass, other, step);
        drop(desk);
        self.wake(E::wakes(&reply), pass.waking);
        reply
    }

    /// `with` on `pass`, and under the same lock the watcher sees what `pass` sees.
    pub fn with_watcher<R: Wait, E: Step<O>>(
        &self,
        rt: &R,
        pass: &mut Pass<O, J>,
        watcher: &mut Watcher<O, J>,
        step: E,
    ) -> E::Reply
        requires { (book : O)
            → Continues O.number pass.old.number pass.old.front (O.history book)
            → Begins watcher.old.front (O.history book)
            → E.may step pass.old.number (O.history book) }
        ensures number { pass.new.number ≡ pass.old.number }
        ensures same { watcher.new.front ≡ pass.new.front }
        ensures called { Called O.number pass.old.number
            (λ before added. Begins watcher.old.front before
            × E.gives step pass.old.number before result added)
            pass.old.front pass.new.front }
        ensures named { All (λ e. O.number e < J.name.passes) pass.new.front }
    {
        let mut desk = self.enter_desk(rt);
        let reply = desk.enter_watched(&self.table.shared, pass, watcher, step);
        drop(desk);
        self.wake(E::wakes(&reply), pass.waking);
        reply
    }

    /// Sleeps until a step whose reply `wakes` was applied after the last call of this pass. Which it was is for the next call to see.
    pub fn wait<R: Wait>(&self, rt: &R, pass: &Pass<O, J>) {
        let words = &self.table.shared;
        self.waiting.fetch_add(1, SeqCst);
        for _ in rt.forever() {
            if words.peek(0) != pass.woken {
                break;
            }
            words.park(rt, 0, (pass.woken & 0xffff_ffff) as u32);
        }
        self.waiting.fetch_sub(1, SeqCst);
    }

    /// Whether a step whose reply `wakes` was applied after the last call of this pass: whether it would not wait. What it was is
    /// for the next call to see.
    pub fn has_news(&self, pass: &Pass<O, J>) -> bool {
        self.table.shared.peek(0) != pass.woken
    }

    // Those who wait count themselves before they look at the word, and it was raised before this.
    fn wake(&self, wakes: bool, waking: Waking) {
        if !wakes || self.waiting.load(SeqCst) == 0 {
            return;
        }
        match waking {
            Waking::All => self.table.shared.wake_all(0),
            Waking::One => self.table.shared.wake_one(0),
            Waking::Nobody => {}
        }
    }

    /// The book. Its history begins with the front of each pass handed in, and has no entry of such a pass beyond it.
    pub fn close(self, mut passes: Vec<Pass<O, J>>) -> O
        ensures fronts { ContinuesAll O.number passes.items (O.history result) }
        ensures named { All (λ e. O.number e < J.name.passes) (O.history result) }
    {
        let Turn {
            table,
            desk,
            waiting: _,
        } = self;
        let mut desk = desk.into_inner();
        while let Some(mut pass) = passes.pop() {
            desk.see(&table.shared, &mut pass);
        }
        table.close().free();
        let Guarded {
            book,
            seat: _,
            of: _,
        } = desk;
        book
    }

    /// The book, as `close` gives it. Its history also begins with what the watcher has seen.
    pub fn close_with(self, mut passes: Vec<Pass<O, J>>, mut watcher: Watcher<O, J>) -> O
        ensures fronts { ContinuesAll O.number passes.items (O.history result) }
        ensures watcher { Begins watcher.front (O.history result) }
        ensures named { All (λ e. O.number e < J.name.passes) (O.history result) }
    {
        let Turn {
            table,
            desk,
            waiting: _,
        } = self;
        let mut inner = desk.into_inner();
        inner.watch(&table.shared, &mut watcher);
        while let Some(mut pass) = passes.pop() {
            inner.see(&table.shared, &mut pass);
        }
        table.close().free();
        let Guarded {
            book,
            seat: _,
            of: _,
        } = inner;
        book
    }
}

// Makes the passes, for which there is room.
fn deal<O: Book, J: Naming>(
    words: &Words<O>,
    seat: &mut Place<O>,
    passes: u32,
    mut given: Vec<Pass<O, J>>,
) -> Vec<Pass<O, J>>
    requires words { (words.now.table_id ≡ J.name.table) × (0 < words.now.table_id.words) }
    requires table { seat.old.table_id ≡ J.name.table }
    requires first { seat.old.me.0 ≡ dealer 0 }
    requires count { passes ≡ J.name.passes }
    requires room { (given.items ≡ []) × (passes ≤ vec_capacity given) }
    ensures seat { (seat.new.table_id ≡ J.name.table) × (seat.new.me.0 ≡ dealer J.name.passes) }
    ensures given { IsDealt J.name.passes result.items }
{
    for number in 0..passes {
        let place = words.split_seat::<Deals>(seat);
        given.push_reserved(Pass {
            number,
            seat: place,
            woken: 0,
            waking: Waking::All,
            of: PhantomData,
        });
    }
    given
}
