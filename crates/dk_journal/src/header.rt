//! The header of a store's file: the 64 bytes before the first record.
ghost use Rattle.std.specs.Prelude.{◌≡◌, ◌≤◌, ◌==◌, ◌||◌, true, false, Some, length, take, drop, nat_eq, IfOk, MatchOption, MatchResult};
ghost use Rattle.std.specs.List.{list_all};
ghost use Rattle.std.specs.Cmp.Lexicographic.{pointwise};
ghost use Rattle.dk_types.specs.GameIds.{IsGameId};
ghost use Rattle.dk_model.specs.Stores.{letters, is_visible, header_fields, header_fault};
ghost use Rattle.dk_journal.specs.Headers.{store_header, IsRead};

use byteorder::{BigEndian, ByteOrder};
use dk_types::limits::{GAME_ID_MOST_BYTES, NUMBERS_END};
use dk_types::{Blob, GameId, NoMemory};
use std::alloc::Global;

/// The format that is written.
pub const FORMAT: u16 = 2;

/// The letters behind the gate.
const LETTERS: [u8; 8] = *b"DARKSTAR";

/// Whose store a file is, how often it was written anew, and the format of its payloads.
#[derive(Clone, Copy, Debug, PartialEq, Eq)]
pub struct Header {
    pub game: GameId,
    pub epoch: u64,
    pub format: u16,
}

/// The header of a live file behind its gate, 63 bytes.
pub fn header_fields_of(alloc: Global, header: &Header) -> Result<Blob, NoMemory>
    ensures { IfOk result (λ bytes. (bytes ≡ header_fields (store_header header.now)) × (length bytes ≡ 63) × IsGameId header.now.game) }
{
    let game = header.game.as_slice();
    let mut bytes = Vec::new(alloc);
    bytes.extend_from_slice(&LETTERS)?;
    let mut format = [0; 2];
    BigEndian::write_u16(&mut format, header.format);
    bytes.extend_from_slice(&format)?;
    let mut epoch = [0; 8];
    BigEndian::write_u64(&mut epoch, header.epoch);
    bytes.extend_from_slice(&epoch)?;
    bytes.push(game.len() as u8)?;
    bytes.extend_from_slice(game)?;
    let zeros = [0; 44];
    bytes.extend_from_slice(&zeros[game.len()..])?;
    Ok(Blob::from_vec(bytes))
}

// Whether the letters stand behind the gate.
fn has_letters(bytes: &[u8; 64]) -> bool
    ensures { result ≡ pointwise nat_eq (take 8 (drop 1 bytes.now)) letters }
{
    &bytes[1..9] == LETTERS.as_slice()
}

// Whether payloads of this format are read.
fn is_known(format: u16) -> bool
    ensures { result ≡ (format == 1 || format == 2) }
{
    format == 1 || format == 2
}

// Whether nothing but zeros is there.
fn are_zeros(bytes: &[u8]) -> bool
    ensures { result ≡ list_all (λ byte. byte == 0) bytes.now }
{
    bytes.iter().all(|byte| *byte == 0)
}

// The game's id of so many bytes, if each is visible.
fn game_of(bytes: &[u8]) -> Option<GameId>
    requires { (1 ≤ length bytes.now) × (length bytes.now ≤ 44) }
    ensures { MatchOption result (list_all is_visible bytes.now ≡ false) (λ game. (game ≡ bytes.now) × IsGameId bytes.now × (list_all is_visible bytes.now ≡ true)) }
{
    match GameId::new(bytes) {
        Ok(game) => Some(game),
        Err(_) => None,
    }
}

/// What these bytes of a file say, or the place of the first field that no header has.
pub(crate) fn header_of(bytes: &[u8; 64]) -> Result<Header, u64>
    ensures { MatchResult result (λ header. IsRead bytes.now (store_header header)) (λ at. header_fault bytes.now ≡ Some at) }
{
    if !has_letters(bytes) {
        return Err(1);
    }
    let format = BigEndian::read_u16(&bytes[9..11]);
    if !is_known(format) {
        return Err(9);
    }
    let epoch = BigEndian::read_u64(&bytes[11..19]);
    if epoch >= NUMBERS_END {
        return Err(11);
    }
    let len = bytes[19];
    if len < 1 || u64::from(len) > GAME_ID_MOST_BYTES {
        return Err(19);
    }
    let end = 20 + len as usize;
    let Some(game) = game_of(&bytes[20..end]) else {
        return Err(20);
    };
    if !are_zeros(&bytes[end..]) {
        return Err(end as u64);
    }
    Ok(Header {
        game,
        epoch,
        format,
    })
}
