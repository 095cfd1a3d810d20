//! A turn: a pass gets the book, sees the history, and gives the book back.
ghost use Rattle.std.specs.Prelude.{◌≡◌, ◌<◌, List, ◌++◌, Some};
ghost use Rattle.std.specs.List.{All};
ghost use Rattle.dk_turn.specs.Fronts.{Begins, Continues};
ghost use Rattle.dk_turn.specs.Rule.{nobody, keeper_of, pass_of, watcher_of, turn_of, without_book, with_book};

use crate::book::Book;
use crate::naming::Naming;
use crate::rule::{Enters, Lends, Place, Sees, Words};

// The book goes from one seat to another.
fn lend<O: Book>(words: &Words<O>, from: &mut Place<O>, to: &mut Place<O>)
    requires words { 0 < words.now.table_id.words }
    requires table { (from.old.table_id ≡ words.now.table_id) × (to.old.table_id ≡ words.now.table_id) }
    requires book { (h : List O.Entry) × (from.old.me.0.book ≡ Some h) }
    ensures from { (from.new.table_id ≡ from.old.table_id) × (from.new.me.0 ≡ without_book from.old.me.0) }
    ensures to { (to.new.table_id ≡ to.old.table_id) × (to.new.me.0 ≡ with_book to.old.me.0 from.old.me.0) }
{
    let book = words.split_seat::<Lends>(from);
    words.join_seat::<Lends>(to, book);
}

// The pass gets the book, and sees the history for which the book stands.
pub(crate) fn take_turn<O: Book, J: Naming>(
    words: &Words<O>,
    desk: &mut Place<O>,
    pass: &mut Place<O>,
    number: u32,
    book: &O,
)
    requires words { 0 < words.now.table_id.words }
    requires table { (desk.old.table_id ≡ words.now.table_id) × (pass.old.table_id ≡ words.now.table_id) }
    requires desk { desk.old.me.0 ≡ keeper_of (O.history book.now) J.name.passes }
    requires pass { pass.old.me.0 ≡ pass_of number pass.old.me.0.seen }
    ensures table { (desk.new.table_id ≡ desk.old.table_id) × (pass.new.table_id ≡ pass.old.table_id) }
    ensures desk { desk.new.me.0 ≡ nobody }
    ensures pass { pass.new.me.0 ≡ turn_of number (O.history book.now) (O.history book.now) J.name.passes }
    ensures continues { Continues O.number number pass.old.me.0.seen (O.history book.now) }
    ensures named { All (λ e. O.number e < J.name.passes) (O.history book.now) }
{
    let _ = book;
    lend(words, desk, pass);
    words.load::<Sees>(pass, 0);
}

// The history becomes the one for which the book now stands. The word counts the steps that woke, and stays at its greatest value. Gives the word.
pub(crate) fn add_entries<O: Book, J: Naming>(
    words: &Words<O>,
    pass: &mut Place<O>,
    number: u32,
    book: &O,
    wakes: bool,
) -> u64
    requires words { 0 < words.now.table_id.words }
    requires table { pass.old.table_id ≡ words.now.table_id }
    requires added { (old : List O.Entry) × (added : List O.Entry)
        × (pass.old.me.0 ≡ turn_of number old old J.name.passes)
        × (O.history book.now ≡ old ++ added)
        × All (λ e. O.number e ≡ number) added }
    ensures table { pass.new.table_id ≡ pass.old.table_id }
    ensures pass { pass.new.me.0 ≡ turn_of number (O.history book.now) (O.history book.now) J.name.passes }
    ensures named { All (λ e. O.number e < J.name.passes) (O.history book.now) }
{
    let before = words.peek(0);
    let after = before.saturating_add(wakes as u64);
    words.compare_exchange_with::<Enters>(pass, 0, before, after, book);
    after
}

// The pass gives the book back.
pub(crate) fn end_turn<O: Book, J: Naming>(
    words: &Words<O>,
    desk: &mut Place<O>,
    pass: &mut Place<O>,
    number: u32,
    book: &O,
)
    requires words { 0 < words.now.table_id.words }
    requires table { (desk.old.table_id ≡ words.now.table_id) × (pass.old.table_id ≡ words.now.table_id) }
    requires desk { desk.old.me.0 ≡ nobody }
    requires pass { pass.old.me.0 ≡ turn_of number (O.history book.now) (O.history book.now) J.name.passes }
    ensures table { (desk.new.table_id ≡ desk.old.table_id) × (pass.new.table_id ≡ pass.old.table_id) }
    ensures desk { desk.new.me.0 ≡ keeper_of (O.history book.now) J.name.passes }
    ensures pass { pass.new.me.0 ≡ pass_of number (O.history book.now) }
{
    let _ = number;
    let _ = book;
    lend(words, pass, desk);
}

// A watcher gets the book, sees the history for which the book stands, and gives the book back.
pub(crate) fn watch_turn<O: Book, J: Naming>(
    words: &Words<O>,
    desk: &mut Place<O>,
    watcher: &mut Place<O>,
    book: &O,
)
    requires words { 0 < words.now.table_id.words }
    requires table { (desk.old.table_id ≡ words.now.table_id) × (watcher.old.table_id ≡ words.now.table_id) }
    requires desk { desk.old.me.0 ≡ keeper_of (O.history book.now) J.name.passes }
    requires watcher { watcher.old.me.0 ≡ watcher_of watcher.old.me.0.seen }
    ensures table { (desk.new.table_id ≡ desk.old.table_id) × (watcher.new.table_id ≡ watcher.old.table_id) }
    ensures desk { desk.new.me.0 ≡ keeper_of (O.history book.now) J.name.passes }
    ensures watcher { watcher.new.me.0 ≡ watcher_of (O.history book.now) }
    ensures begins { Begins watcher.old.me.0.seen (O.history book.now) }
{
    let _ = book;
    lend(words, desk, watcher);
    words.load::<Sees>(watcher, 0);
    lend(words, watcher, desk);
}
