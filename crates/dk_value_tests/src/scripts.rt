//! Scripts that are read or refused, and the transcripts of events.

use crate::texts::{bytes_of, shown, text};
use dk_model::Line;
use dk_rows::Words;
use dk_script::{ScriptRefused, parse_script, transcript_of};
use dk_types::Event;
use std::alloc::Global;

/// What the rest of the row is as a script.
pub fn script(alloc: Global, call: &mut Words<'_>) -> Option<String> {
    let bytes = bytes_of(alloc, call.rest()).ok()?;
    match told(alloc, bytes.as_slice())? {
        Ok(lines) => shown(alloc, lines.as_slice()),
        Err(line) => format!(in alloc; "line {line}").ok(),
    }
}

/// `padded 255 login`: with so many `~` behind it, how many bytes its lines are told in.
pub fn padded(alloc: Global, call: &mut Words<'_>) -> Option<String> {
    let count = call.number()?;
    let mut bytes = bytes_of(alloc, call.rest()).ok()?;
    for _ in 0..count {
        bytes.push(b'~').ok()?;
    }
    counted(alloc, bytes.as_slice())
}

/// `repeated 3 #\n`: so many times behind itself.
pub fn repeated(alloc: Global, call: &mut Words<'_>) -> Option<String> {
    let count = call.number()?;
    let once = bytes_of(alloc, call.rest()).ok()?;
    let mut bytes = Vec::new(alloc);
    for _ in 0..count {
        bytes.extend_from_slice(once.as_slice()).ok()?;
    }
    counted(alloc, bytes.as_slice())
}

fn counted(alloc: Global, bytes: &[u8]) -> Option<String> {
    match told(alloc, bytes)? {
        Ok(lines) => format!(in alloc; "{} bytes", lines.len()).ok(),
        Err(line) => format!(in alloc; "line {line}").ok(),
    }
}

/// The lines of a script as they were read, with `sync` between two phases, or the number of the line that is told.
fn told(alloc: Global, bytes: &[u8]) -> Option<Result<Vec<u8>, u64>> {
    let script = match parse_script(alloc, bytes) {
        Ok(script) => script,
        Err(ScriptRefused::BadLine { line }) => return Some(Err(line)),
        Err(ScriptRefused::NoMemory) => return None,
    };
    let mut told = Vec::new(alloc);
    let mut is_first = true;
    for phase in script.phases.as_slice() {
        if !is_first {
            told.extend_from_slice(b"sync\n").ok()?;
        }
        is_first = false;
        for line in phase.as_slice() {
            push_line(alloc, &mut told, line)?;
            told.push(b'\n').ok()?;
        }
    }
    Some(Ok(told))
}

/// `+NAME` for a login, `NAME:TEXT` for a send, `NAME/CHANNEL:TEXT` on a channel, `-NAME` for a logout, `!NAME` for a drop,
/// `@M` for a tick.
fn push_line(alloc: Global, told: &mut Vec<u8>, line: &Line) -> Option<()> {
    match line {
        Line::Login { name } => push_marked(told, b'+', name.as_slice()),
        Line::Send { name, text } => {
            told.extend_from_slice(name.as_slice()).ok()?;
            push_marked(told, b':', text.as_slice())
        }
        Line::Channel {
            name,
            channel,
            text,
        } => {
            told.extend_from_slice(name.as_slice()).ok()?;
            push_marked(told, b'/', channel.as_slice())?;
            push_marked(told, b':', text.as_slice())
        }
        Line::Logout { name } => push_marked(told, b'-', name.as_slice()),
        Line::Drop { name } => push_marked(told, b'!', name.as_slice()),
        Line::Tick { moment } => {
            let text = format!(in alloc; "@{moment}").ok()?;
            told.extend_from_slice(text.as_bytes()).ok()
        }
    }
}

fn push_marked(told: &mut Vec<u8>, mark: u8, bytes: &[u8]) -> Option<()> {
    told.push(mark).ok()?;
    told.extend_from_slice(bytes).ok()
}

/// The transcript of two phases, of which the second begins at the third event.
pub fn transcript(alloc: Global, events: &[Event], commits: u64) -> Option<String> {
    let mark = events.len().min(2) as u64;
    let text = transcript_of(alloc, events, [0, mark].as_slice(), commits, 0).ok()?;
    shown(alloc, text.as_slice())
}
