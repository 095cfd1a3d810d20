//! Fields as forms, for counted lists of them.

use dk_types::{Name, NoMemory, ObjectId};
use dk_wire::{Form, PayloadRefused, Reader, Writer};
use std::alloc::Global;

/// A name, wherever it stands.
pub struct NameForm;

impl Form<Name> for NameForm {
    ghost use Rattle.dk_types.specs.Names.{IsName};
    ghost use Rattle.dk_types.specs.Fields.{name_spelling};
    ghost use Rattle.dk_types.specs.Payload.{next_name};
    ghost use Rattle.dk_records.specs.FieldLaws.{each_name_exact};

    ghost fits = { λ _. IsName };

    ghost spelling = { name_spelling };

    ghost reading = { λ _. next_name };

    ghost exact = { each_name_exact };

    fn put(writer: &mut Writer, name: &Name) -> Result<(), NoMemory> {
        writer.put_name(name)
    }

    fn take<'a>(
        alloc: Global,
        mut reader: Reader<'a>,
        _: Option<&Name>,
    ) -> Result<(Name, Reader<'a>), PayloadRefused> {
        let name = reader.next_name(alloc)?;
        Ok((name, reader))
    }
}

/// An id, wherever it stands.
pub struct IdForm;

impl Form<ObjectId> for IdForm {
    ghost use Rattle.dk_types.specs.Fields.{IsId, id_spelling};
    ghost use Rattle.dk_types.specs.Payload.{next_id};
    ghost use Rattle.dk_records.specs.FieldLaws.{each_id_exact};

    ghost fits = { λ _. IsId };

    ghost spelling = { id_spelling };

    ghost reading = { λ _. next_id };

    ghost exact = { each_id_exact };

    fn put(writer: &mut Writer, id: &ObjectId) -> Result<(), NoMemory> {
        writer.put_id(*id)
    }

    fn take<'a>(
        _alloc: Global,
        mut reader: Reader<'a>,
        _: Option<&ObjectId>,
    ) -> Result<(ObjectId, Reader<'a>), PayloadRefused> {
        let id = reader.next_id()?;
        Ok((id, reader))
    }
}
