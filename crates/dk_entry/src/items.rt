//! Objects, ids, bound names and names, in lists that ascend strictly.
ghost use Rattle.std.specs.Prelude.{◌≡◌, ℕ, List};
ghost use Rattle.std.specs.Option.{option_copied};
ghost use Rattle.dk_types.specs.Names.{bytes_cmp};
ghost use Rattle.dk_types.specs.declared.number.ObjectId.{ObjectId as Id};
ghost use Rattle.dk_types.specs.declared.object.Object.{Object as Value};
ghost use Rattle.dk_wire.specs.Payload.{Gives};
ghost use Rattle.dk_types.specs.Payload.{next_id, next_name, checked};
ghost use Rattle.dk_model.specs.Keys.{id_cmp};
ghost use Rattle.dk_model.specs.Entries.{is_above_last};

use crate::formats::StoreFormat;
use dk_types::{Name, NoMemory, Object, ObjectId};
use dk_wire::{Form, PayloadRefused, Reader, Writer};
use std::alloc::Global;
use std::marker::PhantomData;

/// An object: its id, its kind and its bytes.
pub struct ObjectForm<F> {
    format: PhantomData<F>,
}

impl<F: StoreFormat> Form<(ObjectId, Object)> for ObjectForm<F> {
    ghost use Rattle.dk_model.specs.Entries.{IsObjectItem, object_spelling, object_at};
    ghost use Rattle.dk_entry.specs.ItemLaws.{object_exact};

    ghost fits = { IsObjectItem F.number };

    ghost spelling = { object_spelling };

    ghost reading = { object_at F.number };

    ghost exact = { object_exact F.number };

    fn put(writer: &mut Writer, item: &(ObjectId, Object)) -> Result<(), NoMemory> {
        writer.put_id(item.0)?;
        writer.put_u16(item.1.kind)?;
        writer.put_blob(&item.1.bytes)?;
        Ok(())
    }

    #[tactic(auto, unfolding(dk_model::specs::Entries::object_at))]
    fn take<'a>(
        alloc: Global,
        mut reader: Reader<'a>,
        before: Option<&(ObjectId, Object)>,
    ) -> Result<((ObjectId, Object), Reader<'a>), PayloadRefused> {
        let at = reader.at();
        let id = reader.next_id()?;
        if !is_object_above(before, &id) {
            return Err(PayloadRefused::NotInGrammar { at });
        }
        let kind = reader.next_u16()?;
        let bytes = reader.next_blob(alloc, F::blob_most_bytes())?;
        Ok(((id, Object { kind, bytes }), reader))
    }
}

fn is_object_above(before: Option<&(ObjectId, Object)>, id: &ObjectId) -> bool
    ensures { result ≡ is_above_last id_cmp (λ (e : Id × Value). e.0) (option_copied before.entry) id.now }
{
    match before {
        None => true,
        Some((last, _)) => last < id,
    }
}

/// An id behind others.
pub struct NextIdForm;

impl Form<ObjectId> for NextIdForm {
    ghost use Rattle.dk_types.specs.Fields.{id_spelling};
    ghost use Rattle.dk_model.specs.Entries.{IsIdItem, id_item_at};
    ghost use Rattle.dk_entry.specs.ItemLaws.{id_item_exact};

    ghost fits = { IsIdItem };

    ghost spelling = { id_spelling };

    ghost reading = { id_item_at };

    ghost exact = { id_item_exact };

    fn put(writer: &mut Writer, id: &ObjectId) -> Result<(), NoMemory> {
        writer.put_id(*id)
    }

    #[tactic(auto, unfolding(dk_model::specs::Entries::id_item_at))]
    fn take<'a>(
        _alloc: Global,
        mut reader: Reader<'a>,
        before: Option<&ObjectId>,
    ) -> Result<(ObjectId, Reader<'a>), PayloadRefused> {
        let at = reader.at();
        let id = reader.next_id()?;
        if is_id_above(before, &id) {
            Ok((id, reader))
        } else {
            Err(PayloadRefused::NotInGrammar { at })
        }
    }
}

fn is_id_above(before: Option<&ObjectId>, id: &ObjectId) -> bool
    ensures { result ≡ is_above_last id_cmp (λ (e : Id). e) (option_copied before.entry) id.now }
{
    match before {
        None => true,
        Some(last) => last < id,
    }
}

/// A name and the id that it is bound to.
pub struct BindingForm;

impl Form<(Name, ObjectId)> for BindingForm {
    ghost use Rattle.dk_model.specs.Entries.{IsBinding, binding_spelling, binding_at};
    ghost use Rattle.dk_entry.specs.ItemLaws.{binding_exact};

    ghost fits = { IsBinding };

    ghost spelling = { binding_spelling };

    ghost reading = { binding_at };

    ghost exact = { binding_exact };

    fn put(writer: &mut Writer, item: &(Name, ObjectId)) -> Result<(), NoMemory> {
        writer.put_name(&item.0)?;
        writer.put_id(item.1)?;
        Ok(())
    }

    #[tactic(auto, unfolding(dk_model::specs::Entries::binding_at))]
    fn take<'a>(
        alloc: Global,
        mut reader: Reader<'a>,
        before: Option<&(Name, ObjectId)>,
    ) -> Result<((Name, ObjectId), Reader<'a>), PayloadRefused> {
        let at = reader.at();
        let name = reader.next_name(alloc)?;
        if !is_binding_above(before, &name) {
            return Err(PayloadRefused::NotInGrammar { at });
        }
        let id = reader.next_id()?;
        Ok(((name, id), reader))
    }
}

fn is_binding_above(before: Option<&(Name, ObjectId)>, name: &Name) -> bool
    ensures { result ≡ is_above_last bytes_cmp (λ (e : List ℕ × Id). e.0) (option_copied before.entry) name.now }
{
    match before {
        None => true,
        Some((last, _)) => last < name,
    }
}

/// A name behind others.
pub struct NextNameForm;

impl Form<Name> for NextNameForm {
    ghost use Rattle.dk_types.specs.Fields.{name_spelling};
    ghost use Rattle.dk_model.specs.Entries.{IsNameItem, name_item_at};
    ghost use Rattle.dk_entry.specs.ItemLaws.{name_item_exact};

    ghost fits = { IsNameItem };

    ghost spelling = { name_spelling };

    ghost reading = { name_item_at };

    ghost exact = { name_item_exact };

    fn put(writer: &mut Writer, name: &Name) -> Result<(), NoMemory> {
        writer.put_name(name)
    }

    #[tactic(auto, unfolding(dk_model::specs::Entries::name_item_at))]
    fn take<'a>(
        alloc: Global,
        mut reader: Reader<'a>,
        before: Option<&Name>,
    ) -> Result<(Name, Reader<'a>), PayloadRefused> {
        let at = reader.at();
        let name = reader.next_name(alloc)?;
        if is_name_above(before, &name) {
            Ok((name, reader))
        } else {
            Err(PayloadRefused::NotInGrammar { at })
        }
    }
}

fn is_name_above(before: Option<&Name>, name: &Name) -> bool
    ensures { result ≡ is_above_last bytes_cmp (λ (e : List ℕ). e) (option_copied before.entry) name.now }
{
    match before {
        None => true,
        Some(last) => last < name,
    }
}
