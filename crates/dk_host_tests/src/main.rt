//! Tests of a shared host and its workers by their public calls, as rows of what is asked and what is answered.
//!
//! A section whose first line is `given host` is a play: a host of SwordWorld is opened on a home in memory, its rows are asked of it
//! one after another, by two passes on one thread or in two, and it is closed. The rows of any other section speak of the play before
//! it: of the files that it left, and of the same play again with each call of its disk failing and a stop at each moment. The
//! program proves nothing but that it is safe.
#![tactic(auto)]

mod asking;
mod both;
mod committing;
mod desk;
mod hosting;
mod plays;
mod stage;
mod stops;
mod texts;
mod together;

use desk::Desk;
use dk_rows::{Section, hold, read_sections};
use plays::Answers;
use std::alloc::Global;
use std::io::{self, BufReader, Write};
use std::sync::Wait;
use std::thread::Threads;

fn main(rt: HostRuntime) -> io::Result<()> {
    let alloc = rt.alloc();
    let sections = read_sections(alloc, BufReader::new(alloc, rt.reader())?)?;
    let mut out = io::writer(&rt);
    let mut desk = Desk::new(&rt, alloc);
    for section in &sections {
        hold_section(alloc, &mut out, &mut desk, section)?;
    }
    Ok(())
}

fn hold_section<'a, R: Threads + Wait + Sync, W: Write>(
    alloc: Global,
    out: &mut W,
    desk: &mut Desk<'a, R>,
    section: &'a Section,
) -> io::Result<()> {
    let rows = section.rows.as_slice();
    let held = hold(alloc, out, &mut Answers::new(desk.answers(section)), rows)?;
    writeln!(out, "{held} rows: {}", section.title)
}
