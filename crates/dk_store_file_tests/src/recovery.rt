//! What recovering two files gives.
ghost use Rattle.dk_disk.specs.Opening.{IsOpen};

use crate::open_home::OpenHome;
use crate::pieces::Pieces;
use dk_recover::{OpenFault, Recovered, recover};
use dk_rows::Words;
use dk_types::{GameId, RunNo};
use std::alloc::Global;
use std::str::from_utf8;

/// What a file's own bytes say, which an answer calls its own.
#[derive(Clone, Copy)]
pub struct Own {
    /// One more than its greatest run.
    pub next: u64,
    pub game: GameId,
}

/// The game of the worked stores.
pub fn worked_game() -> Option<GameId> {
    GameId::new(b"sword-world").ok()
}

fn next_of(last: Option<RunNo>) -> u64 {
    match last {
        None => 0,
        Some(run) => run.0.saturating_add(1),
    }
}

/// One more than the largest committed run, or 0.
fn next_run(alloc: Global, last: Option<RunNo>, own: u64) -> Option<String> {
    let next = next_of(last);
    if next == own {
        String::from_str(alloc, "own").ok()
    } else {
        format!(in alloc; "{next}").ok()
    }
}

/// A store by its numbers: the file that stands, its format and epoch, where its journal ends, and what its world has.
fn held(alloc: Global, found: &Recovered, own: u64) -> Option<String> {
    let Some(journal) = &found.store else {
        return String::from_str(alloc, "no store yet").ok();
    };
    let durable = &found.durable;
    let next = next_run(alloc, durable.last, own)?;
    let mut text = format!(in alloc; "{:?} format {}", found.side, found.format).ok()?;
    write!(text, " epoch {} end {}", journal.epoch(), journal.length()).ok()?;
    write!(text, " commits {} next {next}", durable.commits).ok()?;
    let (objects, names) = (durable.objects.as_slice(), durable.names.as_slice());
    write!(text, " objects {} names {}", objects.len(), names.len()).ok()?;
    Some(text)
}

/// A store of another game, with its id.
fn other(alloc: Global, game: &GameId, own: &GameId) -> Option<String> {
    if game.as_slice() == own.as_slice() {
        String::from_str(alloc, "of its own game").ok()
    } else {
        format!(in alloc; "of {}", from_utf8(game.as_slice()).ok()?).ok()
    }
}

fn refused(alloc: Global, fault: &OpenFault, own: &GameId) -> Option<String> {
    match fault {
        OpenFault::WrongGame { found } => other(alloc, found, own),
        _ => format!(in alloc; "{fault:?}").ok(),
    }
}

/// What a home's files hold for this game.
pub fn told(alloc: Global, home: &mut OpenHome, game: &GameId, own: &Own) -> Option<String>
    requires { IsOpen home.old.inner.opening }
{
    match recover(alloc, home, game) {
        Ok(found) => held(alloc, &found, own.next),
        Err(fault) => refused(alloc, &fault, &own.game),
    }
}

/// `recovers GAME ZERO ONE`: what these two files hold for this game.
pub fn recovers(alloc: Global, pieces: &Pieces, call: &mut Words<'_>) -> Option<String> {
    let game = GameId::new(call.word()?.as_bytes()).ok()?;
    let zero = pieces.next(alloc, call)?;
    let one = pieces.next(alloc, call)?;
    let mut home = OpenHome::of(alloc, &zero, &one, 0)?;
    let next = u64::MAX;
    told(alloc, &mut home, &game, &Own { next, game })
}

/// What two files hold for the worked game where this call fails, and how many calls are made.
fn failed(alloc: Global, zero: &[u8], one: &[u8], failing: u64) -> Option<(String, u64)> {
    let game = worked_game()?;
    let mut home = OpenHome::of(alloc, zero, one, failing)?;
    let next = u64::MAX;
    let text = told(alloc, &mut home, &game, &Own { next, game })?;
    Some((text, home.calls()))
}

/// `fails ZERO ONE`: what they hold, and in how many calls of recovering them one that fails is not a disk fault behind which no call
/// is made.
pub fn fails(alloc: Global, pieces: &Pieces, call: &mut Words<'_>) -> Option<String> {
    let zero = pieces.next(alloc, call)?;
    let one = pieces.next(alloc, call)?;
    let (text, calls) = failed(alloc, &zero, &one, 0)?;
    let mut others = 0u64;
    for failing in 1..=calls {
        let (fault, made) = failed(alloc, &zero, &one, failing)?;
        if fault.as_str() != "DiskFault" || made != failing {
            others = others.saturating_add(1);
        }
    }
    format!(in alloc; "{text}, {others} told otherwise").ok()
}
