//! Tests of transactions, sessions, channels, references and games, as rows.
//!
//! A section of the standard input gives what a world holds and then makes calls of one run, or runs whole jobs. The program
//! prints how many rows of each section were answered as they say, and the other rows. It proves nothing but that it is safe.
#![tactic(auto)]

mod channels;
mod crier;
mod ends;
mod given;
mod look_in;
mod names;
mod objects;
mod plays;
mod run;
mod said;
mod sessions;
mod swords;
mod tasks;
mod things;
mod view;

use dk_rows::{Section, hold, read_sections};
use given::Given;
use plays::Plays;
use run::Run;
use std::alloc::Global;
use std::io::{self, BufReader, Write};
use view::Counting;

fn main(rt: HostRuntime) -> io::Result<()> {
    let alloc = rt.alloc();
    let sections = read_sections(alloc, BufReader::new(alloc, rt.reader())?)?;
    let mut out = io::writer(&rt);
    for section in &sections {
        hold_section(alloc, &mut out, section)?;
    }
    Ok(())
}

/// What a section gives.
fn given_by<W: Write>(alloc: Global, out: &mut W, section: &Section) -> io::Result<Given> {
    let mut given = Given::new(alloc);
    hold(alloc, out, &mut given, section.given.as_slice())?;
    Ok(given)
}

/// Holds the rows of a section over the world that it gives.
fn hold_section<W: Write>(alloc: Global, out: &mut W, section: &Section) -> io::Result<()> {
    let given = given_by(alloc, out, section)?;
    let (at, of_jobs, asked) = (given.at, given.of_jobs, given.asked);
    let mut view = Counting::new(given.reads);
    let rows = section.rows.as_slice();
    let held = if of_jobs {
        hold_jobs(alloc, out, &mut view, at, rows)?
    } else {
        hold_calls(alloc, out, &mut view, at, rows)?
    };
    tell_asked(out, asked, view.asked())?;
    writeln!(out, "{held} rows: {}", section.title)
}

fn hold_jobs<W: Write>(
    alloc: Global,
    out: &mut W,
    view: &mut Counting,
    at: u64,
    rows: &[String],
) -> io::Result<u64> {
    let mut plays = Plays::new(view, at);
    hold(alloc, out, &mut plays, rows)
}

fn hold_calls<W: Write>(
    alloc: Global,
    out: &mut W,
    view: &mut Counting,
    at: u64,
    rows: &[String],
) -> io::Result<u64> {
    let mut run = Run::new(alloc, view, at);
    hold(alloc, out, &mut run, rows)
}

/// Tells how often the view was asked where that is not as it was to be.
fn tell_asked<W: Write>(out: &mut W, told: Option<u64>, asked: u64) -> io::Result<()> {
    match told {
        Some(told) if told != asked => writeln!(out, "asked for {asked}, not {told}"),
        _ => Ok(()),
    }
}
