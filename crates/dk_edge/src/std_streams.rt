//! The standard input and output of the process, as streams that count their faults.
//!
//! They are written over any reader and writer of std, and tell what these tell. The standard input
//! and output tell nothing: what a system call gives or takes is trusted.
ghost use Rattle.std.specs.Prelude.{◌≡◌};

use crate::sink::Sink;
use crate::source::Source;
use dk_types::{Failed, FaultCount};
use std::io::{ErrorKind, Read, Write};

/// The standard input, made from the runtime's `reader`.
#[derive(Drop)]
pub struct StdSource<I: Read + Drop> {
    reader: I,
    faults: FaultCount,
}

impl<I: Read + Drop> StdSource<I> {
    /// A source over this reader.
    pub fn new(reader: I) -> StdSource<I>
        ensures reader { result.reader ≡ reader }
        ensures faults { result.faults.count ≡ 0 }
    {
        StdSource {
            reader,
            faults: FaultCount::new(),
        }
    }
}

impl<I: Read + Drop> Source for StdSource<I> {
    ghost remaining = { λ s. I.remaining s.reader };

    ghost counted = { λ s. s.faults.count };

    /// One `read`, begun again where a signal interrupts it.
    fn take(&mut self, into: &mut [u8]) -> Result<usize, Failed> {
        for _ in 0..u64::MAX {
            match self.reader.read(into) {
                Ok(count) => return Ok(count),
                Err(error) if error.kind() == ErrorKind::Interrupted => {}
                Err(_) => break,
            }
        }
        self.faults.rise();
        Err(Failed)
    }

    fn faults(&self) -> u64 {
        self.faults.count
    }
}

/// The standard output, made from `io::writer` of the runtime.
#[derive(Drop)]
pub struct StdSink<W: Write + Drop> {
    writer: W,
    faults: FaultCount,
}

impl<W: Write + Drop> StdSink<W> {
    /// A sink over this writer.
    pub fn new(writer: W) -> StdSink<W>
        ensures writer { result.writer ≡ writer }
        ensures faults { result.faults.count ≡ 0 }
    {
        StdSink {
            writer,
            faults: FaultCount::new(),
        }
    }
}

impl<W: Write + Drop> Sink for StdSink<W> {
    ghost contents = { λ s. W.contents s.writer };

    ghost counted = { λ s. s.faults.count };

    /// A `write` of all the bytes, and again of what it left, or where a signal interrupts it.
    fn put(&mut self, bytes: &[u8]) -> Result<(), Failed> {
        let mut rest = bytes;
        for _ in 0..u64::MAX {
            if rest.is_empty() {
                return Ok(());
            }
            match self.writer.write(rest) {
                Ok(0) => break,
                Ok(count) => rest = &rest[count..],
                Err(error) if error.kind() == ErrorKind::Interrupted => {}
                Err(_) => break,
            }
        }
        self.faults.rise();
        Err(Failed)
    }

    fn faults(&self) -> u64 {
        self.faults.count
    }
}
