//! Commit entries, and the payloads that hold them.
ghost use Rattle.std.specs.Prelude.{◌≡◌, ◌⊎◌, ℕ, List, [], ◌∷◌, ◌++◌, IfOk, OnOk};
ghost use Rattle.dk_wire.specs.Payload.{Gives, Decodes};
ghost use Rattle.dk_types.specs.Payload.{next_u64, checked};
ghost use Rattle.dk_model.specs.Entries.{IsFormat, AreEntries, entries_spelling, entries_at, entry_spelling, is_seq, is_run, is_some_entry};

use crate::effects::EffectsForm;
use crate::formats::{FirstFormat, SecondFormat, StoreFormat};
use dk_types::limits::NUMBERS_END;
use dk_types::{Blob, Effects, Entry, Listed, NoMemory, RunNo};
use dk_wire::{Form, PayloadRefused, Reader, Writer, decode, put_list, take_list};
use std::alloc::Global;
use std::marker::PhantomData;

/// A commit: its number, its run and its effects.
pub struct EntryForm<F> {
    format: PhantomData<F>,
}

impl<F: StoreFormat> Form<Entry> for EntryForm<F> {
    ghost use Rattle.dk_model.specs.Entries.{IsEntry, entry_spelling, entry_at};
    ghost use Rattle.dk_entry.specs.EntryLaws.{each_entry_exact};

    ghost fits = { λ _. IsEntry F.number };

    ghost spelling = { entry_spelling };

    ghost reading = { λ _. entry_at F.number };

    ghost exact = { each_entry_exact F.number };

    fn put(writer: &mut Writer, entry: &Entry) -> Result<(), NoMemory> {
        put_commit::<F>(writer, entry.seq, entry.run, &entry.effects)
    }

    #[tactic(auto, unfolding(dk_model::specs::Entries::entry_at))]
    fn take<'a>(
        alloc: Global,
        mut reader: Reader<'a>,
        _: Option<&Entry>,
    ) -> Result<(Entry, Reader<'a>), PayloadRefused> {
        let seq = next_seq(&mut reader)?;
        let run = next_run(&mut reader)?;
        let before: Option<Effects> = None;
        let (effects, behind) = EffectsForm::<F>::take(alloc, reader, before.as_ref())?;
        let entry = Entry {
            seq,
            run: RunNo(run),
            effects,
        };
        Ok((entry, behind))
    }
}

/// Puts the fields of an entry.
pub(crate) fn put_commit<F: StoreFormat>(
    writer: &mut Writer,
    seq: u64,
    run: RunNo,
    effects: &Effects,
) -> Result<(), NoMemory>
    ensures { OnOk result (writer.new ≡ writer.old ++ entry_spelling (record { seq = seq; run = run; effects = effects.now })) }
{
    writer.put_u64(seq)?;
    writer.put_u64(run.0)?;
    EffectsForm::<F>::put(writer, effects)?;
    Ok(())
}

/// A commit's number; the fault of 0 is at its own place.
fn next_seq(reader: &mut Reader<'_>) -> Result<u64, PayloadRefused>
    ensures { Gives (checked is_seq next_u64) reader.old result reader.new }
{
    let mut ahead = reader.copy();
    let seq = ahead.next_u64()?;
    if seq >= 1 {
        *reader = ahead;
        Ok(seq)
    } else {
        Err(PayloadRefused::NotInGrammar { at: reader.at() })
    }
}

/// A run's number; the fault of one past the end is at its own place.
fn next_run(reader: &mut Reader<'_>) -> Result<u64, PayloadRefused>
    ensures { Gives (checked is_run next_u64) reader.old result reader.new }
{
    let mut ahead = reader.copy();
    let run = ahead.next_u64()?;
    if run < NUMBERS_END {
        *reader = ahead;
        Ok(run)
    } else {
        Err(PayloadRefused::NotInGrammar { at: reader.at() })
    }
}

/// The payload of a record: entries, at least one.
pub struct EntriesForm<F> {
    format: PhantomData<F>,
}

impl<F: StoreFormat> Form<Listed<Entry>> for EntriesForm<F> {
    ghost use Rattle.dk_model.specs.Entries.{AreEntries, entries_spelling, entries_at};
    ghost use Rattle.dk_entry.specs.EntryLaws.{entries_exact};

    ghost fits = { λ _. AreEntries F.number };

    ghost spelling = { entries_spelling };

    ghost reading = { λ _. entries_at F.number };

    ghost exact = { λ _. entries_exact F.number };

    fn put(writer: &mut Writer, entries: &Listed<Entry>) -> Result<(), NoMemory> {
        put_list::<Entry, EntryForm<F>>(writer, entries.as_slice())
    }

    #[tactic(auto, unfolding(dk_model::specs::Entries::entries_at))]
    fn take<'a>(
        alloc: Global,
        mut reader: Reader<'a>,
        _: Option<&Listed<Entry>>,
    ) -> Result<(Listed<Entry>, Reader<'a>), PayloadRefused> {
        let at = reader.at();
        let entries = take_list::<Entry, EntryForm<F>>(alloc, &mut reader)?;
        if entries.as_slice().is_empty() {
            Err(PayloadRefused::NotInGrammar { at })
        } else {
            Ok((entries, reader))
        }
    }
}

/// A payload begins with room for so many bytes: most commits of a game are written in less.
const ROOM_BYTES: usize = 256;

/// The payload of these entries. It is alike in both formats. Entries that are none of a format have no spelling of
/// their own, and `decode_entries` refuses these bytes in it.
pub fn encode_entries(alloc: Global, entries: &[Entry]) -> Result<Blob, NoMemory>
    ensures { IfOk result (λ payload. payload ≡ entries_spelling entries.now) }
{
    let mut writer = Writer::with_capacity(alloc, ROOM_BYTES)?;
    put_list::<Entry, EntryForm<SecondFormat>>(&mut writer, entries)?;
    Ok(writer.finish())
}

/// So many bytes are enough for most commits with these effects, whose objects are copied once by this.
pub(crate) fn room_for(effects: &Effects) -> usize {
    let mut room = ROOM_BYTES;
    for (_, object) in effects.written.as_slice() {
        room = room.saturating_add(object.bytes.as_slice().len());
    }
    room
}

/// The entries that a whole payload spells in this format.
pub fn decode_entries(
    alloc: Global,
    payload: &Blob,
    format: u16,
) -> Result<Listed<Entry>, PayloadRefused>
    requires { IsFormat format }
    ensures { Decodes (AreEntries format) entries_spelling (entries_at format) payload.now result }
{
    entries_of(alloc, payload.as_slice(), format)
}

/// The same, of bytes that stand somewhere.
pub fn entries_of(
    alloc: Global,
    payload: &[u8],
    format: u16,
) -> Result<Listed<Entry>, PayloadRefused>
    requires { IsFormat format }
    ensures { Decodes (AreEntries format) entries_spelling (entries_at format) payload.now result }
{
    if format == 1 {
        decode::<Listed<Entry>, EntriesForm<FirstFormat>>(alloc, payload)
    } else {
        decode::<Listed<Entry>, EntriesForm<SecondFormat>>(alloc, payload)
    }
}
