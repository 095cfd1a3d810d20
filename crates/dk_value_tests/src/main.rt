//! Tests of names, fields as bytes, records, scripts and transcripts, as rows.
//!
//! Each section of the standard input has rows of calls on values; what a row reads and does not say stands in the rows before it.
//! The program proves nothing but that it is safe, and that the worked format of `scores` is exact.
#![tactic(auto)]

mod events;
mod fields;
mod payloads;
mod scores;
mod scripts;
mod texts;
mod values;

use dk_rows::{Section, Subject, Words, hold, read_sections};
use dk_types::Event;
use std::alloc::Global;
use std::io::{self, BufReader, Write};

/// The bytes that rows read, and the events that rows have entered.
#[derive(Drop)]
struct Desk {
    bytes: Vec<u8>,
    events: Vec<Event>,
}

impl Subject for Desk {
    fn answer(&mut self, alloc: Global, call: &mut Words<'_>) -> Option<String> {
        match call.word()? {
            "bytes" => {
                self.bytes = fields::bytes(alloc, call)?;
                Some(String::new(alloc))
            }
            "event" => {
                self.events.push(events::event(alloc, call)?).ok()?;
                Some(String::new(alloc))
            }
            "transcript" => scripts::transcript(alloc, self.events.as_slice(), call.number()?),
            "put" => fields::put(alloc, call),
            "take" => fields::take(alloc, self.bytes.as_slice(), call),
            "read" => payloads::read(alloc, self.bytes.as_slice(), call),
            "changed" => payloads::changed(alloc, self.bytes.as_slice(), call),
            "cut" => payloads::cut(alloc, self.bytes.as_slice(), call),
            "script" => scripts::script(alloc, call),
            "padded" => scripts::padded(alloc, call),
            "repeated" => scripts::repeated(alloc, call),
            word => values::answer(alloc, word, call),
        }
    }
}

fn main(rt: HostRuntime) -> io::Result<()> {
    let alloc = rt.alloc();
    let sections = read_sections(alloc, BufReader::new(alloc, rt.reader())?)?;
    let mut out = io::writer(&rt);
    for section in &sections {
        hold_section(alloc, &mut out, section)?;
    }
    Ok(())
}

fn hold_section<W: Write>(alloc: Global, out: &mut W, section: &Section) -> io::Result<()> {
    let mut desk = Desk {
        bytes: Vec::new(alloc),
        events: Vec::new(alloc),
    };
    let held = hold(alloc, out, &mut desk, section.rows.as_slice())?;
    writeln!(out, "{held} rows: {}", section.title)
}
