//! The form of an image.
ghost use Rattle.std.specs.Prelude.{◌≡◌, ◌<◌, ◌≤◌, ◌^◌, ◌↔◌, ℕ, length, IfOk, IsErrOf};
ghost use Rattle.dk_types.specs.Fields.{u64_spelling};
ghost use Rattle.dk_wire.specs.Payload.{Gives, Decodes};
ghost use Rattle.dk_types.specs.Payload.{next_u64, checked};
ghost use Rattle.dk_model.specs.Validity.{next_of};
ghost use Rattle.dk_model.specs.Entries.{IsFormat};
ghost use Rattle.dk_model.specs.Images.{IsImageValue, image_spelling, image_at, agrees_with, last_of};
ghost use Rattle.dk_image.specs.declared.refused.ImageRefused.TheVariants.{TooLarge};

use crate::refused::ImageRefused;
use dk_entry::{BindingForm, FirstFormat, ObjectForm, PendingForm, SecondFormat, StoreFormat};
use dk_types::limits::NUMBERS_END;
use dk_types::{Blob, Durable, Name, NoMemory, Object, ObjectId, Pending, RunNo};
use dk_wire::{Form, PayloadRefused, Reader, Writer, decode, encode, put_list, take_list};
use std::alloc::Global;
use std::marker::PhantomData;

/// A durable world: its two numbers, and its objects, names and tasks.
pub struct ImageForm<F> {
    format: PhantomData<F>,
}

impl<F: StoreFormat> Form<Durable> for ImageForm<F> {
    ghost use Rattle.dk_model.specs.Images.{IsImageValue, image_spelling, image_at};
    ghost use Rattle.dk_image.specs.ImageLaws.{image_exact};

    ghost fits = { λ _. IsImageValue F.number };

    ghost spelling = { image_spelling };

    ghost reading = { λ _. image_at F.number };

    ghost exact = { λ _. image_exact F.number };

    fn put(writer: &mut Writer, durable: &Durable) -> Result<(), NoMemory> {
        writer.put_u64(durable.commits)?;
        writer.put_u64(next_run(durable.last))?;
        put_list::<(ObjectId, Object), ObjectForm<F>>(writer, durable.objects.as_slice())?;
        put_list::<(Name, ObjectId), BindingForm>(writer, durable.names.as_slice())?;
        put_list::<Pending, PendingForm<F>>(writer, durable.tasks.as_slice())?;
        Ok(())
    }

    #[tactic(auto, unfolding(dk_model::specs::Images::image_at))]
    fn take<'a>(
        alloc: Global,
        mut reader: Reader<'a>,
        _: Option<&Durable>,
    ) -> Result<(Durable, Reader<'a>), PayloadRefused> {
        let commits = reader.next_u64()?;
        let next = next_behind(&mut reader, commits)?;
        let objects = take_list::<(ObjectId, Object), ObjectForm<F>>(alloc, &mut reader)?;
        let names = take_list::<(Name, ObjectId), BindingForm>(alloc, &mut reader)?;
        let tasks = take_list::<Pending, PendingForm<F>>(alloc, &mut reader)?;
        let world = Durable {
            commits,
            last: last_before(next),
            objects,
            names,
            tasks,
        };
        Ok((world, reader))
    }
}

/// One more than the largest committed run, or 0 where none is committed. DiskHistory the end of 64 bits it begins anew, and
/// `decode_image` refuses it.
fn next_run(last: Option<RunNo>) -> u64
    ensures { u64_spelling result ≡ u64_spelling (next_of last) }
{
    match last {
        None => 0,
        Some(run) => { if run.0 == u64::MAX { 0 } else { run.0 + 1 } }
    }
}

fn last_before(next: u64) -> Option<RunNo>
    ensures { result ≡ last_of next }
{
    if next == 0 {
        None
    } else {
        Some(RunNo(next - 1))
    }
}

fn do_agree(commits: u64, next: u64) -> bool
    ensures { result ≡ agrees_with commits next }
{
    next <= NUMBERS_END && commits <= next && if commits == 0 { next == 0 } else { next != 0 }
}

/// The second number, which agrees with the number of commits; the fault of another is at its own place.
fn next_behind(reader: &mut Reader<'_>, commits: u64) -> Result<u64, PayloadRefused>
    ensures { Gives (checked (agrees_with commits) next_u64) reader.old result reader.new }
{
    let mut ahead = reader.copy();
    let next = ahead.next_u64()?;
    if do_agree(commits, next) {
        *reader = ahead;
        Ok(next)
    } else {
        Err(PayloadRefused::NotInGrammar { at: reader.at() })
    }
}

/// The image of a world. It is alike in both formats. A world that is none of a format has no image of its own, and
/// `decode_image` refuses these bytes in it.
pub fn encode_image(alloc: Global, durable: &Durable) -> Result<Blob, ImageRefused>
    ensures ok { IfOk result (λ payload. (payload ≡ image_spelling durable.now) × (length payload < 2 ^ 32)) }
    ensures large { (n : ℕ) → IsErrOf result (TooLarge n) → (n ≡ length (image_spelling durable.now)) × (2 ^ 32 ≤ n) }
{
    let payload = encode::<Durable, ImageForm<SecondFormat>>(alloc, durable)?;
    let length = payload.as_slice().len() as u64;
    if length > u64::from(u32::MAX) {
        return Err(ImageRefused::TooLarge { length });
    }
    Ok(payload)
}

/// The world that a whole payload spells in this format.
pub fn decode_image(alloc: Global, payload: &Blob, format: u16) -> Result<Durable, PayloadRefused>
    requires { IsFormat format }
    ensures { Decodes (IsImageValue format) image_spelling (image_at format) payload.now result }
{
    if format == 1 {
        decode::<Durable, ImageForm<FirstFormat>>(alloc, payload.as_slice())
    } else {
        decode::<Durable, ImageForm<SecondFormat>>(alloc, payload.as_slice())
    }
}
