//! The net effects of a run: seven lists.

use crate::formats::StoreFormat;
use crate::items::{BindingForm, NextIdForm, NextNameForm, ObjectForm};
use crate::tasks::{MovedForm, NextKeyForm, PendingForm};
use dk_types::{Effects, Name, NoMemory, Object, ObjectId, Pending, TaskKey};
use dk_wire::{Form, PayloadRefused, Reader, Writer, put_list, take_list};
use std::alloc::Global;
use std::marker::PhantomData;

/// What a run changes of the durable world.
pub struct EffectsForm<F> {
    format: PhantomData<F>,
}

impl<F: StoreFormat> Form<Effects> for EffectsForm<F> {
    ghost use Rattle.dk_model.specs.Entries.{AreEffects, effects_spelling, effects_at};
    ghost use Rattle.dk_entry.specs.EntryLaws.{effects_exact};

    ghost fits = { λ _. AreEffects F.number };

    ghost spelling = { effects_spelling };

    ghost reading = { λ _. effects_at F.number };

    ghost exact = { λ _. effects_exact F.number };

    fn put(writer: &mut Writer, effects: &Effects) -> Result<(), NoMemory> {
        put_list::<(ObjectId, Object), ObjectForm<F>>(writer, effects.written.as_slice())?;
        put_list::<ObjectId, NextIdForm>(writer, effects.removed.as_slice())?;
        put_list::<(Name, ObjectId), BindingForm>(writer, effects.bound.as_slice())?;
        put_list::<Name, NextNameForm>(writer, effects.unbound.as_slice())?;
        put_list::<Pending, PendingForm<F>>(writer, effects.added.as_slice())?;
        put_list::<TaskKey, NextKeyForm>(writer, effects.dropped.as_slice())?;
        put_list::<(TaskKey, u64), MovedForm>(writer, effects.requeued.as_slice())?;
        Ok(())
    }

    #[tactic(auto, unfolding(dk_model::specs::Entries::effects_at))]
    fn take<'a>(
        alloc: Global,
        mut reader: Reader<'a>,
        _: Option<&Effects>,
    ) -> Result<(Effects, Reader<'a>), PayloadRefused> {
        let written = take_list::<(ObjectId, Object), ObjectForm<F>>(alloc, &mut reader)?;
        let removed = take_list::<ObjectId, NextIdForm>(alloc, &mut reader)?;
        let bound = take_list::<(Name, ObjectId), BindingForm>(alloc, &mut reader)?;
        let unbound = take_list::<Name, NextNameForm>(alloc, &mut reader)?;
        let added = take_list::<Pending, PendingForm<F>>(alloc, &mut reader)?;
        let dropped = take_list::<TaskKey, NextKeyForm>(alloc, &mut reader)?;
        let requeued = take_list::<(TaskKey, u64), MovedForm>(alloc, &mut reader)?;
        let effects = Effects {
            written,
            removed,
            bound,
            unbound,
            added,
            dropped,
            requeued,
        };
        Ok((effects, reader))
    }
}
