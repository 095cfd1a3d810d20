//! Tasks, their keys and their moved due moments, in lists that ascend strictly.
ghost use Rattle.std.specs.Prelude.{◌≡◌, ℕ};
ghost use Rattle.std.specs.Option.{option_copied};
ghost use Rattle.dk_types.specs.declared.number.TaskKey.{TaskKey as Key};
ghost use Rattle.dk_types.specs.declared.durable.Pending.{Pending as Task};
ghost use Rattle.dk_wire.specs.Payload.{Gives};
ghost use Rattle.dk_types.specs.Payload.{next_u64, checked};
ghost use Rattle.dk_model.specs.Keys.{key_cmp};
ghost use Rattle.dk_model.specs.Entries.{is_above_last, is_due, is_period};

use crate::formats::StoreFormat;
use dk_types::limits::{DELAY_MOST_MS, MOMENT_MOST_MS, PERIOD_MOST_MS};
use dk_types::{NoMemory, Pending, TaskKey};
use dk_wire::{Form, PayloadRefused, Reader, Writer};
use std::alloc::Global;
use std::marker::PhantomData;

/// A pending task: its key, its due moment, its period, its kind and its argument.
pub struct PendingForm<F> {
    format: PhantomData<F>,
}

impl<F: StoreFormat> Form<Pending> for PendingForm<F> {
    ghost use Rattle.dk_model.specs.Entries.{IsPendingItem, pending_spelling, pending_at};
    ghost use Rattle.dk_entry.specs.TaskLaws.{pending_exact};

    ghost fits = { IsPendingItem F.number };

    ghost spelling = { pending_spelling };

    ghost reading = { pending_at F.number };

    ghost exact = { pending_exact F.number };

    fn put(writer: &mut Writer, task: &Pending) -> Result<(), NoMemory> {
        writer.put_key(task.key)?;
        writer.put_u64(task.due)?;
        writer.put_u64(task.period)?;
        writer.put_u16(task.kind)?;
        writer.put_blob(&task.arg)?;
        Ok(())
    }

    #[tactic(auto, unfolding(dk_model::specs::Entries::pending_at))]
    fn take<'a>(
        alloc: Global,
        mut reader: Reader<'a>,
        before: Option<&Pending>,
    ) -> Result<(Pending, Reader<'a>), PayloadRefused> {
        let at = reader.at();
        let key = reader.next_key()?;
        if !is_task_above(before, &key) {
            return Err(PayloadRefused::NotInGrammar { at });
        }
        let due = next_due(&mut reader)?;
        let period = next_period(&mut reader)?;
        let kind = reader.next_u16()?;
        let arg = reader.next_blob(alloc, F::blob_most_bytes())?;
        let task = Pending {
            key,
            due,
            period,
            kind,
            arg,
        };
        Ok((task, reader))
    }
}

fn is_task_above(before: Option<&Pending>, key: &TaskKey) -> bool
    ensures { result ≡ is_above_last key_cmp (λ (e : Task). e.key) (option_copied before.entry) key.now }
{
    match before {
        None => true,
        Some(last) => &last.key < key,
    }
}

/// A moment at which a task is due; the fault of another is at its own place.
fn next_due(reader: &mut Reader<'_>) -> Result<u64, PayloadRefused>
    ensures { Gives (checked is_due next_u64) reader.old result reader.new }
{
    let mut ahead = reader.copy();
    let due = ahead.next_u64()?;
    if due <= MOMENT_MOST_MS + DELAY_MOST_MS {
        *reader = ahead;
        Ok(due)
    } else {
        Err(PayloadRefused::NotInGrammar { at: reader.at() })
    }
}

/// A period; the fault of one that is too long is at its own place.
fn next_period(reader: &mut Reader<'_>) -> Result<u64, PayloadRefused>
    ensures { Gives (checked is_period next_u64) reader.old result reader.new }
{
    let mut ahead = reader.copy();
    let period = ahead.next_u64()?;
    if period <= PERIOD_MOST_MS {
        *reader = ahead;
        Ok(period)
    } else {
        Err(PayloadRefused::NotInGrammar { at: reader.at() })
    }
}

/// A task's key behind others.
pub struct NextKeyForm;

impl Form<TaskKey> for NextKeyForm {
    ghost use Rattle.dk_types.specs.Fields.{key_spelling};
    ghost use Rattle.dk_model.specs.Entries.{IsKeyItem, key_item_at};
    ghost use Rattle.dk_entry.specs.TaskLaws.{key_item_exact};

    ghost fits = { IsKeyItem };

    ghost spelling = { key_spelling };

    ghost reading = { key_item_at };

    ghost exact = { key_item_exact };

    fn put(writer: &mut Writer, key: &TaskKey) -> Result<(), NoMemory> {
        writer.put_key(*key)
    }

    #[tactic(auto, unfolding(dk_model::specs::Entries::key_item_at))]
    fn take<'a>(
        _alloc: Global,
        mut reader: Reader<'a>,
        before: Option<&TaskKey>,
    ) -> Result<(TaskKey, Reader<'a>), PayloadRefused> {
        let at = reader.at();
        let key = reader.next_key()?;
        if is_key_above(before, &key) {
            Ok((key, reader))
        } else {
            Err(PayloadRefused::NotInGrammar { at })
        }
    }
}

fn is_key_above(before: Option<&TaskKey>, key: &TaskKey) -> bool
    ensures { result ≡ is_above_last key_cmp (λ (e : Key). e) (option_copied before.entry) key.now }
{
    match before {
        None => true,
        Some(last) => last < key,
    }
}

/// A task's key and its new due moment.
pub struct MovedForm;

impl Form<(TaskKey, u64)> for MovedForm {
    ghost use Rattle.dk_model.specs.Entries.{IsMovedItem, moved_spelling, moved_at_place};
    ghost use Rattle.dk_entry.specs.TaskLaws.{moved_exact};

    ghost fits = { IsMovedItem };

    ghost spelling = { moved_spelling };

    ghost reading = { moved_at_place };

    ghost exact = { moved_exact };

    fn put(writer: &mut Writer, item: &(TaskKey, u64)) -> Result<(), NoMemory> {
        writer.put_key(item.0)?;
        writer.put_u64(item.1)?;
        Ok(())
    }

    #[tactic(auto, unfolding(dk_model::specs::Entries::moved_at_place))]
    fn take<'a>(
        _alloc: Global,
        mut reader: Reader<'a>,
        before: Option<&(TaskKey, u64)>,
    ) -> Result<((TaskKey, u64), Reader<'a>), PayloadRefused> {
        let at = reader.at();
        let key = reader.next_key()?;
        if !is_moved_above(before, &key) {
            return Err(PayloadRefused::NotInGrammar { at });
        }
        let due = next_due(&mut reader)?;
        Ok(((key, due), reader))
    }
}

fn is_moved_above(before: Option<&(TaskKey, u64)>, key: &TaskKey) -> bool
    ensures { result ≡ is_above_last key_cmp (λ (e : Key × ℕ). e.0) (option_copied before.entry) key.now }
{
    match before {
        None => true,
        Some((last, _)) => last < key,
    }
}
