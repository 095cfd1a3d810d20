//! Tests of streams, of the two files of a store, and of what threads share, as rows.
//!
//! A row names a whole run of calls and tells what came of it: what a stop at a moment leaves, what both homes read like. What comes
//! of threads is printed behind the rows. The program proves nothing but that it is safe; files and threads are as the system has them.
#![tactic(auto)]

mod crashes;
mod folders;
mod shared;
mod streams;
mod texts;

use dk_rows::{Section, Subject, Words, hold, read_sections};
use std::alloc::Global;
use std::fs::File;
use std::io::{self, BufReader, Write};
use std::rt::Files;

/// The system, with its files.
#[derive(Drop)]
struct Desk<R: Drop> {
    rt: R,
}

impl<R: Files<File = File> + AllocGlobal + Clone + Drop> Subject for Desk<R> {
    fn answer(&mut self, alloc: Global, call: &mut Words<'_>) -> Option<String> {
        match call.word()? {
            "crash" => crashes::answer(alloc, call),
            "folder" => folders::answer(alloc, &self.rt, call),
            "stream" => streams::answer(alloc, call),
            _ => None,
        }
    }
}

fn main(rt: HostRuntime) -> io::Result<()> {
    let alloc = rt.alloc();
    let sections = read_sections(alloc, BufReader::new(alloc, rt.reader())?)?;
    let mut out = io::writer(&rt);
    let mut desk = Desk { rt: rt.clone()? };
    for section in &sections {
        hold_section(alloc, &mut out, &mut desk, section)?;
    }
    shared::tell(alloc, &rt, &mut out)?;
    standard(&rt, &mut out)
}

fn hold_section<S: Subject, W: Write>(
    alloc: Global,
    out: &mut W,
    desk: &mut S,
    section: &Section,
) -> io::Result<()> {
    let held = hold(alloc, out, desk, section.rows.as_slice())?;
    writeln!(out, "{held} rows: {}", section.title)
}

/// The standard streams, the input at its end: each counts what fails.
fn standard<R: Input + Print, W: Write>(rt: &R, out: &mut W) -> io::Result<()> {
    let (took, put) = streams::standard(rt);
    writeln!(out, "{took} and {put} standard streams count what fails")
}
