//! Tests of the ordered map, the stores of a world, outboxes and connections, as rows.
//!
//! Each section of the standard input speaks of one of them, which `given` names. `plain` makes as many operations on it and on a
//! plain list, and tells where they first differ. The program proves nothing but that it is safe.
#![tactic(auto)]

mod connections;
mod kept;
mod outbox;
mod plain;
mod stores;
mod tasks;
mod texts;

use connections::Crowd;
use dk_connections::Connections;
use dk_map::OrderedMap;
use dk_names::Names;
use dk_objects::Objects;
use dk_outbox::Outbox;
use dk_rows::{Section, Words, hold, read_sections};
use dk_tasks::Tasks;
use kept::Kept;
use outbox::Post;
use std::alloc::Global;
use std::io::{self, BufReader, Write};
use tasks::Plan;
use texts::Texts;

fn main(rt: HostRuntime) -> io::Result<()> {
    let alloc = rt.alloc();
    let sections = read_sections(alloc, BufReader::new(alloc, rt.reader())?)?;
    let mut out = io::writer(&rt);
    for section in &sections {
        let held = hold_section(alloc, &mut out, section)?;
        writeln!(out, "{held} rows: {}", section.title)?;
    }
    Ok(())
}

/// Holds the rows of a section over what it names.
fn hold_section<W: Write>(alloc: Global, out: &mut W, section: &Section) -> io::Result<u64> {
    let rows = section.rows.as_slice();
    match subject_of(section) {
        "map" => hold(alloc, out, &mut Kept::of(OrderedMap::new(alloc)), rows),
        "objects" => hold(alloc, out, &mut Kept::of(Objects::new(alloc)), rows),
        "names" => hold(alloc, out, &mut Kept::of(Names::new(alloc)), rows),
        "texts" => hold(alloc, out, &mut Texts::new(alloc), rows),
        "tasks" => hold(alloc, out, &mut Plan::of(Tasks::new(alloc)), rows),
        "outbox" => hold(alloc, out, &mut Post::of(Outbox::new(alloc)), rows),
        _ => hold(alloc, out, &mut Crowd::of(Connections::new(alloc)), rows),
    }
}

/// What the section speaks of.
fn subject_of(section: &Section) -> &str {
    for line in &section.given {
        let mut words = Words::of(line.as_str());
        let _given = words.word();
        return words.rest();
    }
    ""
}
