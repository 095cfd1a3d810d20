//! Entries and images as bytes.

use crate::pieces::Pieces;
use dk_entry::{EntryRefused, decode_entries, encode_entries};
use dk_image::{decode_image, encode_image};
use dk_rows::Words;
use dk_types::Blob;
use std::alloc::Global;

/// Whether a payload is written again as it was read.
fn again(alloc: Global, is_same: bool) -> Option<String> {
    let text = if is_same { "so" } else { "otherwise" };
    format!(in alloc; "written again {text}").ok()
}

/// `entries FORMAT FILE`: what these bytes are as entries of the first format, for `1`, or the second.
pub fn entries(alloc: Global, pieces: &Pieces, call: &mut Words<'_>) -> Option<String> {
    let is_first = call.number()? == 1;
    let payload = Blob::from_vec(pieces.next(alloc, call)?);
    match decode_entries(alloc, &payload, if is_first { 1 } else { 2 }) {
        Ok(entries) => again(
            alloc,
            encode_entries(alloc, entries.as_slice()).ok()? == payload,
        ),
        Err(EntryRefused::NotInGrammar { at }) => format!(in alloc; "wrong at {at}").ok(),
        Err(_) => None,
    }
}

/// `image FORMAT FILE`: the same as an image.
pub fn image(alloc: Global, pieces: &Pieces, call: &mut Words<'_>) -> Option<String> {
    let is_first = call.number()? == 1;
    let payload = Blob::from_vec(pieces.next(alloc, call)?);
    let durable = decode_image(alloc, &payload, if is_first { 1 } else { 2 }).ok()?;
    again(alloc, encode_image(alloc, &durable).ok()? == payload)
}
