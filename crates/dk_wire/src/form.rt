//! Formats of whole values: a form of a record, counted lists of a form, and payloads that hold one value.
//!
//! A format above names a type of its own for each record and implements `Form` for it: `put` and `take` are its fields
//! one after another, `reading` says the same with `do`, and `exact` is a lemma for each field, out of
//! `Composing` of dk_types. Lists, `encode` and `decode` then come with their laws. `scores` in `dk_value_tests` is a
//! whole one.
ghost use Rattle.std.specs.Prelude.{◌≡◌, ◌++◌, ℕ, List, Option, None, Result, Ok, OnOk, IfOk, MatchResult};
ghost use Rattle.std.specs.Option.{option_copied};
ghost use Rattle.dk_types.specs.Rest.{Rest};
ghost use Rattle.dk_types.specs.Exact.{IsExact};
ghost use Rattle.dk_types.specs.Payload.{whole};
ghost use Rattle.dk_wire.specs.Payload.{Gives, GivesBack, Misses, Decodes};
ghost use Rattle.dk_types.specs.Lists.{IsList, list_spelling, items_at, list_at};

use crate::payload::PayloadRefused;
use crate::reader::Reader;
use crate::writer::Writer;
use dk_types::{Blob, Listed, NoMemory};
use std::alloc::Global;

/// A form in which values of `T` are spelled. It is a type without fields, named for the format, so that one type may
/// have several. In a list an item may have to fit behind the one before it, as where items ascend; a form that does
/// not care leaves that argument alone.
pub trait Form<T> {
    // what may stand behind the item before it, if there is one
    ghost fits: { Option T → T → Type 0 };

    ghost spelling: { T → List ℕ };

    // behind the item before it
    ghost reading: { Option T → Rest → Result (T × Rest) ℕ };

    /// Puts an item. Where there is no memory, what the writer holds is not said: let it go.
    fn put(writer: &mut Writer, item: &T) -> Result<(), NoMemory>
        ensures { OnOk result (writer.new ≡ writer.old ++ spelling item.now) };

    /// Takes an item that stands behind `before`, and hands back the reader behind it. After a refusal there is no
    /// reader: who wants to go on from where it stood keeps one of its own, as `take_list` does.
    fn take<'a>(
        alloc: Global,
        reader: Reader<'a>,
        before: Option<&T>,
    ) -> Result<(T, Reader<'a>), PayloadRefused>
        ensures { GivesBack (reading (option_copied before.entry)) reader.entry result };

    // what is put is taken again, and nothing else is taken
    ghost exact: { (before : Option T) → IsExact (fits before) spelling (reading before) };
}

/// The spelling of a value. That of one that does not fit is no value's own, and `decode` refuses it.
pub fn encode<T, F: Form<T>>(alloc: Global, value: &T) -> Result<Blob, NoMemory>
    ensures { IfOk result (λ payload. payload ≡ F.spelling value.now) }
{
    let mut writer = Writer::new(alloc);
    F::put(&mut writer, value)?;
    Ok(writer.finish())
}

/// The value that a whole payload spells.
pub fn decode<T: Drop, F: Form<T>>(alloc: Global, payload: &[u8]) -> Result<T, PayloadRefused>
    ensures { Decodes (F.fits None) F.spelling (F.reading None) payload.now result }
{
    decode_any::<T, F>(alloc, payload)
}

fn decode_any<T: Drop, F: Form<T>>(alloc: Global, payload: &[u8]) -> Result<T, PayloadRefused>
    ensures { MatchResult result (λ x. whole (F.reading None) payload.now ≡ Ok x) (λ e. Misses e (whole (F.reading None) payload.now)) }
{
    let before: Option<T> = None;
    let (value, behind) = F::take(alloc, Reader::new(payload), before.as_ref())?;
    behind.next_end()?;
    Ok(value)
}

/// Puts the number of the items, the low 32 bits of it where there are more, and the items. Where there is no memory, what the writer holds is not said: let it go.
#[tactic(auto, unfolding(dk_types::specs::Lists::list_spelling))]
pub fn put_list<T, F: Form<T>>(writer: &mut Writer, items: &[T]) -> Result<(), NoMemory>
    ensures { OnOk result (writer.new ≡ writer.old ++ list_spelling F.spelling items.now) }
{
    writer.put_count(items.len() as u64)?;
    for item in items {
        F::put(writer, item)?;
    }
    Ok(())
}

/// A list begins with room for so many items at least, if it has them.
const FIRST_ITEMS_LEAST: usize = 16;

/// And for so many at most.
const FIRST_ITEMS_MOST: usize = 65_536;

/// For how many items of a list of this count there is room at first: one to eight of the bytes that are left, within these
/// bounds. A count alone is no reason to take more.
fn first_room(reader: &Reader<'_>, count: u32) -> usize {
    let ahead = reader.rest.len() / 8;
    (count as usize).min(ahead.clamp(FIRST_ITEMS_LEAST, FIRST_ITEMS_MOST))
}

/// Takes a list: its count, and that many items, each behind the one before it.
#[tactic(auto, unfolding(dk_types::specs::Lists::list_at))]
pub fn take_list<T: Drop, F: Form<T>>(
    alloc: Global,
    reader: &mut Reader<'_>,
) -> Result<Listed<T>, PayloadRefused>
    ensures { Gives (list_at F.reading) reader.old result reader.new }
{
    let mut ahead = reader.copy();
    let count = ahead.next_u32()?;
    let (items, behind) = take_items::<T, F>(alloc, ahead, count)?;
    *reader = behind;
    Ok(items)
}

fn take_items<'a, T: Drop, F: Form<T>>(
    alloc: Global,
    mut reader: Reader<'a>,
    count: u32,
) -> Result<(Listed<T>, Reader<'a>), PayloadRefused>
    ensures { GivesBack (items_at F.reading None count) reader.entry result }
{
    let mut items: Vec<T> = Vec::with_capacity(alloc, first_room(&reader, count))?;
    for _ in 0..count {
        let (item, behind) = F::take(alloc, reader, items.last())?;
        items.push(item)?;
        reader = behind;
    }
    Ok((Listed::from_vec(items), reader))
}
