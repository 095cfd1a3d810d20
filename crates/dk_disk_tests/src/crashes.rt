//! A small run of seven calls on a home in memory, and what a stop may leave of it; and a sync that is held.
ghost use Rattle.std.specs.Prelude.{◌≡◌};
ghost use Rattle.dk_disk.specs.Opening.{IsOpen};

use crate::texts::{push_bytes, text};
use dk_disk::{CrashRefused, HoldingHome, Home, MemoryHome, Torn};
use dk_rows::Words;
use dk_types::{Failed, Side};
use std::alloc::Global;
use std::sync::Arc;
use std::sync::atomic::{AtomicU64, Ordering};

/// `crash images 0 3`: the call that fails, or 0, and the moment.
pub fn answer(alloc: Global, call: &mut Words<'_>) -> Option<String> {
    match call.word()? {
        "images" => images(alloc, call.number()?, call.number()?),
        "faults" => faults(alloc, call.number()?, call.number()?),
        "opening" => opening(alloc),
        "held" => held(alloc),
        _ => None,
    }
}

/// Writes where that leaves no gap.
fn write(home: &mut MemoryHome, side: Side, at: u64, bytes: &[u8]) -> Result<(), Failed>
    requires { IsOpen home.old.opening }
    ensures { home.new.opening ≡ home.old.opening }
{
    if at <= home.contents(side).len() as u64 {
        home.write_at(side, at, bytes)
    } else {
        Ok(())
    }
}

/// Cuts where that does not lengthen.
fn cut(home: &mut MemoryHome, side: Side, to: u64) -> Result<(), Failed>
    requires { IsOpen home.old.opening }
    ensures { home.new.opening ≡ home.old.opening }
{
    if to <= home.contents(side).len() as u64 {
        home.cut(side, to)
    } else {
        Ok(())
    }
}

/// Seven calls on both sides, whatever comes of each.
fn seven_calls(home: &mut MemoryHome)
    requires { IsOpen home.old.opening }
{
    let _ = write(home, Side::Zero, 1, &[9, 9, 9]);
    let _ = write(home, Side::One, 0, &[7]);
    let _ = home.sync(Side::Zero);
    let _ = cut(home, Side::Zero, 2);
    let _ = home.sync(Side::One);
    let _ = write(home, Side::Zero, 2, &[5]);
    let _ = home.sync(Side::Zero);
}

/// A home after them, of which one call fails, or none.
fn after_seven_calls(alloc: Global, failing: u64) -> Option<MemoryHome> {
    let zero = [1, 2, 3].to_vec(alloc).ok()?;
    let failing = [failing].to_vec(alloc).ok()?;
    let mut home = MemoryHome::new(alloc, zero, Vec::new(alloc), failing, false);
    home.reserve(7, 16).ok()?;
    if home.open("somewhere").is_ok() {
        seven_calls(&mut home);
    }
    Some(home)
}

/// Both images of each torn choice at a moment: the files' bytes, a stroke between the two.
fn images(alloc: Global, failing: u64, moment: u64) -> Option<String> {
    let home = after_seven_calls(alloc, failing)?;
    let mut text = String::new(alloc);
    for torn in [Torn::Old, Torn::New, Torn::Zeros, Torn::Ones] {
        let images = home.crash_at(moment, torn).ok()?;
        push_bytes(&mut text, &images.0).ok()?;
        text.push('|').ok()?;
        push_bytes(&mut text, &images.1).ok()?;
        text.push(' ').ok()?;
    }
    Some(text)
}

/// How many faults a home has after them, and how many calls a crash at this moment says were made.
fn faults(alloc: Global, failing: u64, moment: u64) -> Option<String> {
    let home = after_seven_calls(alloc, failing)?;
    match home.crash_at(moment, Torn::Old) {
        Err(CrashRefused::NoSuchCall { made }) => {
            format!(in alloc; "{} and {made} calls", home.faults()).ok()
        }
        _ => format!(in alloc; "{}", home.faults()).ok(),
    }
}

/// An opening that is to fail: what it answers, and how many faults and calls there are.
fn opening(alloc: Global) -> Option<String> {
    let none = Vec::new(alloc);
    let mut home = MemoryHome::new(alloc, Vec::new(alloc), Vec::new(alloc), none, true);
    let opened = home.open("somewhere");
    format!(in alloc; "{opened:?} {} {}", home.faults(), home.calls()).ok()
}

/// A sync while the word is 0, and one while it is 1: whether each was answered, and used up its turns.
fn two_syncs(home: &mut HoldingHome, word: &AtomicU64) -> [bool; 4]
    requires { IsOpen home.old.inner.opening }
{
    let first = home.sync(Side::Zero).is_ok();
    let is_spent = home.spent();
    word.store(1, Ordering::SeqCst);
    let second = home.sync(Side::Zero).is_ok();
    [first, is_spent, second, home.spent()]
}

/// The same over a home of three turns, and the word at the end.
fn held(alloc: Global) -> Option<String> {
    let none = Vec::new(alloc);
    let inner = MemoryHome::new(alloc, Vec::new(alloc), Vec::new(alloc), none, false);
    let word = Arc::new(alloc, AtomicU64::new(0)).ok()?;
    let mut home = HoldingHome::new(inner, Arc::try_clone(&word).ok()?, 3);
    if home.open("somewhere").is_err() {
        return text(alloc, "not opened");
    }
    let seen = two_syncs(&mut home, &word);
    let at_end = word.load(Ordering::SeqCst);
    format!(in alloc; "{seen:?} {at_end}").ok()
}
