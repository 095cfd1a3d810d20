//! A list that contracts alone see, for a book that keeps no history in memory.
ghost use Rattle.std.specs.Prelude.{◌≡◌, List, [], ◌∷◌, ◌++◌, IfOk};

use atomic_table::{Play, Seat, Table, TableRule};
use std::alloc::{AllocError, Global};
use std::collections::LinkedList;
use std::marker::{Brand, Model, PhantomData};

// The table of one list, whose one seat knows the list. Nothing is to be kept.
struct Alone;

impl<E> TableRule<E, LinkedList<E>, ()> for Alone {
    ghost use Rattle.std.specs.Prelude.{[]};

    ghost holds = { λ _ _. Unit {0} };

    ghost first = { λ _. [] };
}

/// Which entry is made of a value. No entry is built.
pub trait Noting<X, E> {
    ghost entry: { X → E };
}

/// Which entries, if any, are made of a value. None is built.
pub trait NotingAll<X, E> {
    ghost entries: { X → List E };
}

/// The entries of one step.
trait Noted<E> {
    ghost entries: { List E };
}

impl<E> Noted<E> for Brand {
    ghost entries = { [] };
}

// A step that adds the entries of `K`.
struct Notes<K>(PhantomData<K>);

impl<E, K: Noted<E>> Play<E, LinkedList<E>> for Notes<K> {
    ghost then = { λ _ me _ after. after.0 ≡ me.0 ++ K.entries };
}

/// A list that contracts alone see. It takes one word of memory when it is made, and none when it grows.
pub struct GhostList<E> {
    table: Table<E, LinkedList<E>, (), Alone, Global>,
    seat: Seat<E, LinkedList<E>>,
}

impl<E> Model for GhostList<E> {
    ghost use Rattle.std.specs.Prelude.{◌≡◌, List};

    ghost Value = { List E };

    ghost view = { λ g. g.seat.me.0 };

    ghost invariant = { λ g. (g.table.shared.table_id.words ≡ 1) × (g.table.shared.table_id.slots ≡ 0) × (g.seat.table_id ≡ g.table.shared.table_id) };
}

impl<E> GhostList<E> {
    /// An empty list.
    pub fn new(alloc: Global) -> Result<GhostList<E>, AllocError>
        ensures { IfOk result (λ g. g ≡ []) }
    {
        let (table, seat) = Table::of_words(alloc, &[0], &())?;
        Ok(GhostList { table, seat })
    }

    /// One more entry, which is made of `about`.
    pub fn note<X, M: Noting<X, E>>(&mut self, about: &X)
        ensures { self.new ≡ self.old ++ M.entry about.now ∷ [] }
    {
        let GhostList { table, seat } = self;
        extend::<E, X, Brand>(table, seat, about);
    }

    /// The entries, if any, that are made of `about`.
    pub fn note_all<X, M: NotingAll<X, E>>(&mut self, about: &X)
        ensures { self.new ≡ self.old ++ M.entries about.now }
    {
        let GhostList { table, seat } = self;
        extend::<E, X, Brand>(table, seat, about);
    }
}

// The one step that changes the view: what the seat knows grows by the entries of `K`.
fn extend<E, X, K: Noted<E>>(
    table: &Table<E, LinkedList<E>, (), Alone, Global>,
    seat: &mut Seat<E, LinkedList<E>>,
    about: &X,
)
    requires { (seat.old.table_id ≡ table.now.shared.table_id) × (table.now.shared.table_id.words ≡ 1) }
    ensures { (seat.new.table_id ≡ seat.old.table_id) × (seat.new.me.0 ≡ seat.old.me.0 ++ K.entries) }
{
    let _ = about;
    table.shared.load::<Notes<K>>(seat, 0);
}

impl<E> Drop for GhostList<E> {
    fn drop(self) {
        let GhostList { table, seat: _ } = self;
        table.close().free();
    }
}
