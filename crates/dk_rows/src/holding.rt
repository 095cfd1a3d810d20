//! The loop that makes the calls of rows.

use crate::words::Words;
use std::alloc::Global;
use std::io::{self, Write};

/// What the rows of a section speak of.
pub trait Subject {
    /// Makes a call, and tells what it answered. Where there is no memory, or the words are no call, there is none.
    fn answer(&mut self, alloc: Global, call: &mut Words<'_>) -> Option<String>;
}

/// An empty answer, which a row may also leave out.
const NONE: &str = "none";

/// An answer as rows write it.
fn shown(answer: &str) -> &str {
    let shown = answer.trim_end();
    if shown.is_empty() { NONE } else { shown }
}

/// Makes the calls of the rows in order, and prints each row that is answered otherwise than it says. How many are answered so.
pub fn hold<S: Subject, W: Write>(
    alloc: Global,
    out: &mut W,
    subject: &mut S,
    rows: &[String],
) -> io::Result<u64> {
    let mut held = 0u64;
    for row in rows {
        let (call, told) = row
            .as_str()
            .split_once(" = ")
            .unwrap_or((row.as_str(), NONE));
        match subject.answer(alloc, &mut Words::of(call)) {
            Some(answer) if shown(answer.as_str()) == told => held = held.saturating_add(1),
            Some(answer) => writeln!(out, "{call} = {}, not {told}", shown(answer.as_str()))?,
            None => writeln!(out, "{call} has no answer")?,
        }
    }
    Ok(held)
}
