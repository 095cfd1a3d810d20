//! Tests of a store's files, as rows: entries, images and journals by the vectors of their formats, what recovering two files gives,
//! and a stop after every call that makes and fills a store.
//!
//! Rows name pieces of bytes, and files are put together of them. A row may stand for many cases: each cut of a file, each byte of it
//! with each other value, each call failing. It tells how many they are, and what all of them answer. The program proves nothing but
//! that it is safe.
#![tactic(auto)]

mod changes;
mod journals;
mod open_home;
mod payloads;
mod pieces;
mod recovery;
mod seen;
mod stops;
mod stores;

use dk_rows::{Section, Subject, Words, hold, read_sections};
use pieces::Pieces;
use std::alloc::Global;
use std::io::{self, BufReader, Write};

/// The pieces that rows have named, and how many changed bytes rows have tried.
#[derive(Drop)]
struct Desk {
    pieces: Pieces,
    tried: u64,
}

impl Desk {
    /// Tries each value of each byte, and counts them.
    fn bytes(&mut self, alloc: Global, call: &mut Words<'_>) -> Option<String> {
        let seen = changes::bytes(alloc, &self.pieces, call)?;
        self.tried = self.tried.saturating_add(seen.cases);
        let text = seen.told(alloc)?;
        format!(in alloc; "{} cases, {text}", seen.cases).ok()
    }
}

impl Subject for Desk {
    fn answer(&mut self, alloc: Global, call: &mut Words<'_>) -> Option<String> {
        match call.word()? {
            "piece" => self.pieces.add(alloc, call),
            "entries" => payloads::entries(alloc, &self.pieces, call),
            "image" => payloads::image(alloc, &self.pieces, call),
            "opens" => journals::opens(alloc, &self.pieces, call),
            "recovers" => recovery::recovers(alloc, &self.pieces, call),
            "fails" => recovery::fails(alloc, &self.pieces, call),
            "cuts" => changes::cuts(alloc, &self.pieces, call),
            "bytes" => self.bytes(alloc, call),
            "tried" => format!(in alloc; "{}", self.tried).ok(),
            "plays" => stops::plays(alloc, &self.pieces, call),
            "images" => stops::images(alloc, &self.pieces, call),
            "stops" => stops::stops(alloc, &self.pieces, call),
            "epoch" => stops::epoch(alloc, &self.pieces, call),
            _ => None,
        }
    }
}

fn main(rt: HostRuntime) -> io::Result<()> {
    let alloc = rt.alloc();
    let sections = read_sections(alloc, BufReader::new(alloc, rt.reader())?)?;
    let mut out = io::writer(&rt);
    let mut desk = Desk {
        pieces: Pieces::new(alloc),
        tried: 0,
    };
    for section in &sections {
        hold_section(alloc, &mut out, &mut desk, section)?;
    }
    Ok(())
}

fn hold_section<W: Write>(
    alloc: Global,
    out: &mut W,
    desk: &mut Desk,
    section: &Section,
) -> io::Result<()> {
    let held = hold(alloc, out, desk, section.rows.as_slice())?;
    writeln!(out, "{held} rows: {}", section.title)
}
