//! Fields that are put and taken one after another.

use crate::texts::{body, shown};
use dk_rows::Words;
use dk_types::{Name, ObjectId, RunNo};
use dk_wire::{Reader, WireRefused, Writer};
use std::alloc::Global;

/// Bytes, as hexadecimal digits.
pub fn bytes(alloc: Global, call: &mut Words<'_>) -> Option<Vec<u8>> {
    let digits = call.text(alloc)?;
    dk_rows::bytes::read(alloc, digits.as_str())
}

fn id(call: &mut Words<'_>) -> Option<ObjectId> {
    let (run, k) = call.word()?.split_once(".")?;
    Some(ObjectId {
        run: RunNo(run.parse::<u64>().ok()?),
        k: k.parse::<u32>().ok()?,
    })
}

fn put_field(alloc: Global, writer: &mut Writer, call: &mut Words<'_>) -> Option<()> {
    match call.word()? {
        "name" => {
            let name = Name::new(alloc, call.word()?.as_bytes()).ok()?;
            writer.put_name(&name).ok()
        }
        "id" => writer.put_id(id(call)?).ok(),
        "blob" => writer.put_blob(&body(alloc, call.word()?)?).ok(),
        "u8" => writer.put_u8(u8::try_from(call.number()?).ok()?).ok(),
        "u16" => writer.put_u16(u16::try_from(call.number()?).ok()?).ok(),
        "u32" => writer.put_u32(call.small()?).ok(),
        "u64" => writer.put_u64(call.number()?).ok(),
        _ => None,
    }
}

/// The spellings of fields, as `name Room u8 7`.
pub fn put(alloc: Global, call: &mut Words<'_>) -> Option<String> {
    let mut writer = Writer::new(alloc);
    for _ in 0..64 {
        if call.rest().is_empty() {
            break;
        }
        put_field(alloc, &mut writer, call)?;
    }
    dk_rows::bytes::spelled(alloc, writer.finish().as_slice()).ok()
}

fn number(alloc: Global, taken: Result<u64, WireRefused>) -> Option<String> {
    match taken {
        Ok(value) => format!(in alloc; "{value} ").ok(),
        Err(refused) => format!(in alloc; "{refused:?} ").ok(),
    }
}

fn name(alloc: Global, taken: Result<Name, WireRefused>) -> Option<String> {
    match taken {
        Ok(name) if name.as_slice().len() < 16 => format!(in alloc; "{} ", name.as_str()).ok(),
        Ok(name) => format!(in alloc; "name of {} ", name.as_slice().len()).ok(),
        Err(refused) => format!(in alloc; "{refused:?} ").ok(),
    }
}

fn blob(alloc: Global, reader: &mut Reader<'_>, most: u32) -> Option<String> {
    match reader.take_blob(alloc, most) {
        Ok(blob) => {
            let mut text = shown(alloc, blob.as_slice())?;
            text.push(' ').ok()?;
            Some(text)
        }
        Err(refused) => format!(in alloc; "{refused:?} ").ok(),
    }
}

fn an_id(alloc: Global, taken: Result<ObjectId, WireRefused>) -> Option<String> {
    match taken {
        Ok(id) => format!(in alloc; "{}.{} ", id.run.0, id.k).ok(),
        Err(refused) => format!(in alloc; "{refused:?} ").ok(),
    }
}

fn end(alloc: Global, reader: &Reader<'_>) -> Option<String> {
    match reader.end() {
        Ok(()) => String::from_str(alloc, "end ").ok(),
        Err(refused) => format!(in alloc; "{refused:?} ").ok(),
    }
}

fn take_field(alloc: Global, reader: &mut Reader<'_>, call: &mut Words<'_>) -> Option<String> {
    match call.word()? {
        "name" => name(alloc, reader.take_name(alloc)),
        "id" => an_id(alloc, reader.take_id()),
        "blob" => blob(alloc, reader, call.small()?),
        "u8" => number(alloc, reader.take_u8().map(u64::from)),
        "u16" => number(alloc, reader.take_u16().map(u64::from)),
        "u32" => number(alloc, reader.take_u32().map(u64::from)),
        "u64" => number(alloc, reader.take_u64()),
        "end" => end(alloc, reader),
        "at" => format!(in alloc; "at {} ", reader.at()).ok(),
        _ => None,
    }
}

/// What is taken from the front of the bytes, one field after another; `at` tells the place.
pub fn take(alloc: Global, bytes: &[u8], call: &mut Words<'_>) -> Option<String> {
    let mut reader = Reader::new(bytes);
    let mut text = String::new(alloc);
    for _ in 0..64 {
        if call.rest().is_empty() {
            break;
        }
        text.push_str(take_field(alloc, &mut reader, call)?.as_str())
            .ok()?;
    }
    Some(text)
}
