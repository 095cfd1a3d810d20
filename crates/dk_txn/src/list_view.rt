//! A view that answers from a list.
ghost use Rattle.std.specs.Prelude.{◌≡◌, ◌∷◌, [], IfOk, IfSome};
ghost use Rattle.dk_txn.specs.Listing.{read_in, absent};

use crate::view::View;
use dk_overlay::{copy_answer, copy_name, is_same_item};
use dk_types::{Answer, Item, Name, NoMemory, Read, Seen};

/// A view that gives the first read that its list has for an item, and else the absent form.
#[derive(Drop)]
pub struct ListView {
    reads: Vec<(Item, Read)>,
}

impl ListView {
    /// A view that answers by this list.
    pub fn new(reads: Vec<(Item, Read)>) -> ListView
        ensures { result.reads.items ≡ reads.items }
    {
        ListView { reads }
    }
}

/// The absent form of an item's read.
fn absent_read(item: &Item) -> Read
    ensures { result ≡ absent item.now }
{
    match item {
        Item::Object(_) => Read {
            answer: Answer::NoObject,
            seen: Seen::Absent,
        },
        Item::Bound(_) => Read {
            answer: Answer::NoName,
            seen: Seen::Absent,
        },
        Item::NextAfter(_) => Read {
            answer: Answer::Next(None),
            seen: Seen::Next(None),
        },
        Item::Task(_) => Read {
            answer: Answer::NoTask,
            seen: Seen::Absent,
        },
    }
}

fn copy_seen(seen: &Seen) -> Result<Seen, NoMemory>
    ensures { IfOk result (λ copy. copy ≡ seen.now) }
{
    match seen {
        Seen::Absent => Ok(Seen::Absent),
        Seen::At(stamp) => Ok(Seen::At(*stamp)),
        Seen::Next(name) => Ok(Seen::Next(copy_name(name)?)),
    }
}

fn copy_read(read: &Read) -> Result<Read, NoMemory>
    ensures { IfOk result (λ copy. copy ≡ read.now) }
{
    let answer = copy_answer(&read.answer)?;
    let seen = copy_seen(&read.seen)?;
    Ok(Read { answer, seen })
}

impl View for ListView {
    ghost use Rattle.std.specs.Prelude.{◌≡◌};
    ghost use Rattle.dk_txn.specs.Listing.{read_in};
    ghost use Rattle.dk_txn.specs.Sights.{steady};

    ghost sights = { steady (λ view item read. read ≡ read_in view.reads.items item) };

    fn read(&mut self, item: &Item) -> Result<Read, NoMemory> {
        for (known, read) in &self.reads {
            if is_same_item(known, item) {
                return copy_read(read);
            }
        }
        Ok(absent_read(item))
    }
}
