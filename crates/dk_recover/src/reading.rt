//! The world after payloads: an image, and entries one after another.
ghost use Rattle.std.specs.Prelude.{◌≡◌, Err, IfOk, OnOk};
ghost use Rattle.std.specs.List.{AllByRecursion};
ghost use Rattle.dk_model.specs.DurableWorlds.{DurableWorld};
ghost use Rattle.dk_model.specs.Entries.{IsFormat, IsEntry};
ghost use Rattle.dk_model.specs.Images.{SpellsImage};
ghost use Rattle.dk_model.specs.Recovered.{Follow, Takes};
ghost use Rattle.dk_model.specs.Validity.{IsValid};
ghost use Rattle.dk_recover.specs.Bytes.{AreBytes, EachHasBytes};
ghost use Rattle.dk_recover.specs.declared.world.Unfit.TheVariants.{DoesNotFit};

use crate::world::{Unfit, World};
use dk_entry::{EntryRefused, entries_of};
use dk_image::{ImageFault, decode_image};
use dk_types::{Blob, Entry, Listed};
use std::alloc::Global;

// Each item of a slice of bytes is a byte.
fn are_bytes(bytes: &[u8])
    ensures { AreBytes bytes.now }
{
    let _ = bytes;
}

// Makes commits on a world, one after another, if each entry fits. Else the world is of no use any more.
fn after_entries(world: &mut World, entries: Listed<Entry>) -> Result<(), Unfit>
    requires valid { IsValid world.old }
    requires entries { AllByRecursion (IsEntry 2) entries }
    requires bytes { EachHasBytes entries }
    ensures fits { OnOk result (Follow world.old entries world.new) }
    ensures unfit { result ≡ Err DoesNotFit → (end_ : DurableWorld) → Follow world.old entries end_ → ⊥ }
{
    for entry in entries.into_vec() {
        world.commit(entry)?;
    }
    Ok(())
}

/// The world after a payload of entries, if it is one and each entry fits.
pub fn after_payload(
    alloc: Global,
    mut world: World,
    payload: &[u8],
    format: u16,
) -> Result<World, Unfit>
    requires valid { IsValid world }
    requires format { IsFormat format }
    ensures fits { IfOk result (λ end_. Takes format world payload.now end_) }
    ensures unfit { result ≡ Err DoesNotFit → (end_ : DurableWorld) → Takes format world payload.now end_ → ⊥ }
{
    are_bytes(payload);
    match entries_of(alloc, payload, format) {
        Ok(entries) => match after_entries(&mut world, entries) {
            Ok(()) => Ok(world),
            Err(unfit) => Err(unfit),
        },
        Err(EntryRefused::NotInGrammar { at: _ }) => Err(Unfit::DoesNotFit),
        Err(EntryRefused::NoMemory) => Err(Unfit::NoMemory),
    }
}

/// The world of an image, if the payload is one of a valid world.
pub fn world_of_image(alloc: Global, payload: &Blob, format: u16) -> Result<World, Unfit>
    requires { IsFormat format }
    ensures fits { IfOk result (λ first. SpellsImage format first payload.now × IsValid first) }
    ensures unfit { result ≡ Err DoesNotFit → (first : DurableWorld) → SpellsImage format first payload.now → IsValid first → ⊥ }
{
    are_bytes(payload.as_slice());
    match decode_image(alloc, payload, format) {
        Ok(durable) => World::open(alloc, durable),
        Err(ImageFault::NotInGrammar { at: _ }) => Err(Unfit::DoesNotFit),
        Err(ImageFault::NoMemory) => Err(Unfit::NoMemory),
    }
}
