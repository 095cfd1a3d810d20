//! A file as a journal.
ghost use Rattle.dk_disk.specs.Opening.{IsOpen};

use crate::open_home::OpenHome;
use crate::pieces::Pieces;
use dk_journal::{JournalRefused, Scan, open};
use dk_rows::Words;
use dk_types::Side;
use std::alloc::Global;

/// How many payloads there are, of at most ten.
fn count(alloc: Global, mut scan: Scan, home: &mut OpenHome) -> Result<u64, JournalRefused>
    requires { IsOpen home.old.inner.opening }
{
    for number in 0..10 {
        if scan.next(alloc, home)?.is_none() {
            return Ok(number);
        }
    }
    Ok(10)
}

/// How many payloads the first file has, or `None` where it is blank.
fn payloads(alloc: Global, home: &mut OpenHome) -> Result<Option<u64>, JournalRefused>
    requires { IsOpen home.old.inner.opening }
{
    match open(home, Side::Zero)? {
        None => Ok(None),
        Some((_, scan)) => Ok(Some(count(alloc, scan, home)?)),
    }
}

/// What these bytes are as a file.
pub fn found_in(alloc: Global, file: &[u8]) -> Option<String> {
    let mut home = OpenHome::of(alloc, file, b"", 0)?;
    match payloads(alloc, &mut home) {
        Ok(None) => String::from_str(alloc, "blank").ok(),
        Ok(Some(count)) => format!(in alloc; "{count} payloads").ok(),
        Err(refused) => format!(in alloc; "{refused}").ok(),
    }
}

/// `opens FILE`: what it is as a file.
pub fn opens(alloc: Global, pieces: &Pieces, call: &mut Words<'_>) -> Option<String> {
    found_in(alloc, &pieces.next(alloc, call)?)
}
