//! Sources and sinks.

use crate::texts::push_bytes;
use dk_edge::{MemorySink, MemorySource, Sink, Source, StdSink, StdSource};
use dk_rows::Words;
use std::alloc::Global;
use std::io;

/// `stream source 2`: the call that fails.
pub fn answer(alloc: Global, call: &mut Words<'_>) -> Option<String> {
    match call.word()? {
        "source" => failing_source(alloc, call.number()?),
        "whole-source" => whole_source(alloc),
        "sink" => failing_sink(alloc, call.number()?),
        "over-memory" => over_memory(alloc),
        _ => None,
    }
}

/// Calls so often with room for four bytes, and puts last what comes.
fn collect<S: Source>(source: &mut S, calls: u64, text: &mut String) -> Option<()> {
    for _ in 0..calls {
        let mut buffer = [0u8; 4];
        if let Ok(count) = source.take(&mut buffer) {
            push_bytes(text, &buffer[..count]).ok()?;
            text.push(' ').ok()?;
        }
    }
    Some(())
}

/// Five bytes by two: what four calls gave, and the faults and calls.
fn failing_source(alloc: Global, failing: u64) -> Option<String> {
    let bytes = [1, 2, 3, 4, 5].to_vec(alloc).ok()?;
    let mut source = MemorySource::in_pieces(bytes, [failing].to_vec(alloc).ok()?, 2);
    let mut text = String::new(alloc);
    collect(&mut source, 4, &mut text)?;
    let counts = format!(in alloc;
        "with {} fault in {} calls",
        source.faults(),
        source.calls()
    )
    .ok()?;
    text.push_str(counts.as_str()).ok()?;
    Some(text)
}

/// Five bytes in all that there is room for: what three calls gave, what was left after the first, and the faults.
fn whole_source(alloc: Global) -> Option<String> {
    let bytes = [1, 2, 3, 4, 5].to_vec(alloc).ok()?;
    let mut source = MemorySource::new(bytes, Vec::new(alloc));
    let mut text = String::new(alloc);
    collect(&mut source, 1, &mut text)?;
    text.push('|').ok()?;
    push_bytes(&mut text, source.left()).ok()?;
    text.push('|').ok()?;
    collect(&mut source, 2, &mut text)?;
    let faults = format!(in alloc; "with {} faults", source.faults()).ok()?;
    text.push_str(faults.as_str()).ok()?;
    Some(text)
}

/// Puts three pieces, whatever comes of each.
fn put_three<K: Sink>(sink: &mut K) {
    for piece in [[1, 2, 3], [4, 5, 6], [7, 8, 9]] {
        let _ = sink.put(&piece);
    }
}

/// A sink that keeps two bytes of the call that fails: what it has, and the faults and calls.
fn failing_sink(alloc: Global, failing: u64) -> Option<String> {
    let mut sink = MemorySink::tearing(alloc, [failing].to_vec(alloc).ok()?, 2);
    sink.reserve(9).ok()?;
    put_three(&mut sink);
    let mut text = String::new(alloc);
    push_bytes(&mut text, sink.contents()).ok()?;
    let counts = format!(in alloc; " with {} fault in {} calls", sink.faults(), sink.calls()).ok()?;
    text.push_str(counts.as_str()).ok()?;
    Some(text)
}

fn over_memory(alloc: Global) -> Option<String> {
    let mut source = StdSource::new([1, 2, 3, 4, 5].as_slice());
    let mut text = String::new(alloc);
    collect(&mut source, 2, &mut text)?;
    Some(text)
}

/// Whether standard input, at its end, and standard output count just what fails, as 1 or 0.
pub fn standard<R: Input + Print>(rt: &R) -> (u64, u64) {
    let mut source = StdSource::new(rt.reader());
    let mut buffer = [0u8; 4];
    let took = source.take(&mut buffer);
    let mut sink = StdSink::new(io::writer(rt));
    let put = sink.put(b"a line\n");
    (
        u64::from(source.faults() == u64::from(took.is_err())),
        u64::from(sink.faults() == u64::from(put.is_err())),
    )
}
