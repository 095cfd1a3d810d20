//! The text of a world of so many objects.

use crate::stores::nanoseconds;
use dk_inspect::inspect_text;
use dk_types::{Blob, Durable, GameId, Listed, NoMemory, Object, ObjectId, RunNo};
use std::alloc::Global;
use std::time::{Clock, Instant};

/// A world of so many objects of 14 bytes each.
fn filled(alloc: Global, objects: u32) -> Result<Durable, NoMemory> {
    let mut all = Vec::new(alloc);
    for k in 0..objects {
        let bytes = Blob::copy_of(alloc, b"a shiny sword.")?;
        all.push((ObjectId { run: RunNo(0), k }, Object { kind: 2, bytes }))?;
    }
    Ok(Durable {
        commits: 1,
        last: Some(RunNo(0)),
        objects: Listed::from_vec(all),
        names: Listed::from_vec(Vec::new(alloc)),
        tasks: Listed::from_vec(Vec::new(alloc)),
    })
}

/// Writes the text once, and tells the nanoseconds; nothing where memory or the clock is wanting.
pub fn inspect_objects<R: AllocGlobal + Clock>(rt: &R, objects: u32) -> Option<u64> {
    let alloc = rt.alloc();
    let world = filled(alloc, objects).ok()?;
    let game = GameId::new(b"sword-world").ok()?;
    let start = Instant::now(rt).ok()?;
    let text = inspect_text(alloc, &game, &world).ok()?;
    let spent = nanoseconds(rt, &start);
    if text.as_slice().is_empty() {
        return None;
    }
    spent
}
