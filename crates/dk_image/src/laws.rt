//! Laws of images. Each is the contract of a function that does nothing.
ghost use Rattle.std.specs.Prelude.{ℕ, ◌<◌, ◌^◌, length};
ghost use Rattle.dk_types.specs.declared.durable.Durable.{Durable};
ghost use Rattle.dk_types.specs.Exact.{IsPrefixFree};
ghost use Rattle.dk_model.specs.DurableWorlds.{DurableWorld};
ghost use Rattle.dk_model.specs.Validity.{IsValid};
ghost use Rattle.dk_model.specs.Images.{IsImageValue, image_spelling, world_lists, SpellsImage};

/// A world has one image in a format, and no image begins another of its format.
pub fn no_image_begins_another()
    ensures { (format : ℕ) → IsPrefixFree (IsImageValue format) image_spelling }
{}

/// A world of format 1 is one of format 2, where its image is the same.
pub fn first_format_is_in_the_second()
    ensures { (d : Durable) → IsImageValue 1 d → IsImageValue 2 d }
{}

/// A valid world has an image in the format that is written, if 32 bits hold its length.
pub fn a_valid_world_has_an_image()
    ensures { (d : DurableWorld) → IsValid d → length (image_spelling (world_lists d)) < 2 ^ 32 → SpellsImage 2 d (image_spelling (world_lists d)) }
{}
