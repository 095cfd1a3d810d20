//! Sessions that are read and written by the blocking calls, with a worker between.

use crate::blocking::{ReadThenWritten, Written};
use crate::hosting::play;
use crate::reading::source;
use crate::rows::{SERVED, SESSION};
use dk_edge::MemorySink;
use dk_pump::{SessionEnd, WriteEnd};
use std::alloc::Global;
use std::process::Abort;
use std::sync::Wait;
use std::test::*;
use sword_world::SwordWorld;

// A stream in pieces of so many bytes at most, into a sink of which one call fails, or none.
fn written<R: Wait>(
    rt: &R,
    alloc: Global,
    stream: &[u8],
    piece: usize,
    failing: u64,
) -> Result<Written, Fail> {
    let scene = ReadThenWritten {
        source: source(alloc, stream, piece, &[])?,
        sink: MemorySink::new(alloc, [failing].to_vec(alloc)?),
    };
    play(rt, alloc, &SwordWorld::new(), false, scene)
}

fn assert_told(rt: &impl Abort, told: &Written, end: SessionEnd, write: WriteEnd, put: &[u8]) {
    assert_eq!(rt; told.end, end);
    assert_eq!(rt; told.write, write);
    assert_eq!(rt; told.put.as_slice(), put);
}

#[test]
fn a_session_is_written_frame_by_frame(rt: HostRuntime) -> Result<(), Fail> {
    // Of the frames the first alone is put where the second fails.
    for (piece, failing, write, put) in [
        (1, 0, WriteEnd::Done, SERVED),
        (25, 0, WriteEnd::Done, SERVED),
        (
            25,
            2,
            WriteEnd::WriteFault,
            b"\x00\x00\x00\x01\x81".as_slice(),
        ),
    ] {
        let told = written(&rt, rt.alloc(), SESSION, piece, failing)?;
        assert_told(&rt, &told, SessionEnd::Logout, write, put);
        assert!(rt; !told.recorded);
    }
    Ok(())
}

// A login of 255 letters.
fn long_login(alloc: Global) -> Result<Vec<u8>, Fail> {
    let mut stream = Vec::from_slice(alloc, b"\x00\x00\x01\x01\x01\xFF")?;
    for _ in 0..255 {
        stream.push(b'a')?;
    }
    Ok(stream)
}

#[test]
fn a_name_that_is_too_long_is_refused(rt: HostRuntime) -> Result<(), Fail> {
    let alloc = rt.alloc();
    let stream = long_login(alloc)?;
    let told = written(&rt, alloc, &stream, 1_000, 0)?;
    let put = b"\x00\x00\x00\x01\x82\x00\x00\x00\x01\x85".as_slice();
    assert_told(&rt, &told, SessionEnd::End { at: 261 }, WriteEnd::Done, put);
    Ok(())
}
