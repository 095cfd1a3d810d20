//! What cuts and changed bytes make of a file. A row has many of them, and tells what all of them hold.

use crate::journals::found_in;
use crate::open_home::OpenHome;
use crate::pieces::Pieces;
use crate::recovery::{Own, told, worked_game};
use crate::seen::Seen;
use dk_rows::Words;
use dk_types::GameId;
use std::alloc::Global;

/// The number of eight bytes that stands there.
fn number_at(file: &[u8], at: usize) -> u64 {
    let mut number = 0u64;
    for byte in file.iter().skip(at).take(8) {
        number = number.wrapping_mul(256).wrapping_add(u64::from(*byte));
    }
    number
}

/// The runs of a store of two commits stand at 81 and 221, and the game's id of eleven bytes at 20.
fn own(file: &[u8], game: GameId) -> Own {
    let greatest = number_at(file, 81).max(number_at(file, 221));
    let id = file.get(20..31).unwrap_or(&[]);
    Own {
        next: greatest.saturating_add(1),
        game: GameId::new(id).unwrap_or(game),
    }
}

/// What a file alone holds for the worked game.
fn holds(alloc: Global, file: &[u8]) -> Option<String> {
    let game = worked_game()?;
    let mut home = OpenHome::of(alloc, file, b"", 0)?;
    told(alloc, &mut home, &game, &own(file, game))
}

/// `cuts opens FILE FROM TO` or `cuts holds FILE FROM TO`: what it is as a file, or holds, when only so many of its bytes are left.
pub fn cuts(alloc: Global, pieces: &Pieces, call: &mut Words<'_>) -> Option<String> {
    let is_opened = call.word()? == "opens";
    let file = pieces.next(alloc, call)?;
    let (from, to) = (call.number()?, call.number()?);
    let mut seen = Seen::new(alloc);
    for len in from..=to {
        let cut = file.get(..len as usize)?;
        seen.add(if is_opened {
            found_in(alloc, cut)?
        } else {
            holds(alloc, cut)?
        })?;
    }
    seen.told(alloc)
}

/// Adds what a file holds with each of these bytes at one place, but for the one that stands there.
fn each_byte(
    alloc: Global,
    file: &mut [u8],
    at: usize,
    bytes: (u8, u8),
    seen: &mut Seen,
) -> Option<()> {
    let stood = *file.get(at)?;
    for byte in bytes.0..=bytes.1 {
        if byte != stood {
            *file.get_mut(at)? = byte;
            seen.add(holds(alloc, file)?)?;
        }
    }
    *file.get_mut(at)? = stood;
    Some(())
}

/// `bytes FILE FROM TO LEAST MOST`: what it holds where at one of these places stands another byte, of these.
pub fn bytes(alloc: Global, pieces: &Pieces, call: &mut Words<'_>) -> Option<Seen> {
    let mut file = pieces.next(alloc, call)?;
    let (from, to) = (call.number()?, call.number()?);
    let least = u8::try_from(call.number()?).ok()?;
    let most = u8::try_from(call.number()?).ok()?;
    let mut seen = Seen::new(alloc);
    for at in from..=to {
        each_byte(alloc, &mut file, at as usize, (least, most), &mut seen)?;
    }
    Some(seen)
}
