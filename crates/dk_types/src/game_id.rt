//! A game's id, by which a store knows whose it is.
ghost use Rattle.std.specs.Prelude.{◌≡◌, ◌<◌, ◌≤◌, ◌++◌, ◌-◌, length, take, replicate, nat_eq, IfOk, IfErr};
ghost use Rattle.dk_types.specs.GameIds.{IsGameId, IsVisible};
ghost use Rattle.dk_types.specs.GameIdFaults.{IsGameIdFault};
ghost use Rattle.std.specs.Cmp.Lexicographic.{pointwise, nat_list_eq_equiv};
ghost use Rattle.std.specs.Cmp;

use crate::limits::GAME_ID_MOST_BYTES;
use std::alloc::AllocError;
use std::marker::Model;
use thiserror::Error;

/// A game's id: 1 to 44 bytes of visible ASCII, from `!` to `~`. It is compared by its bytes and takes no memory.
#[derive(Debug)]
pub struct GameId {
    bytes: [u8; 44],
    len: u8,
}

impl Model for GameId {
    ghost use Rattle.std.specs.Prelude.{ℕ, List, ◌-◌, ◌++◌, length, take, replicate};

    ghost Value = { List ℕ };

    ghost use Rattle.dk_types.specs.GameIds.{IsGameId, IsPadded};

    ghost view = { λ g. take g.len g.bytes };

    ghost invariant = { λ g. IsPadded g.bytes g.len × IsGameId (take g.len g.bytes) };

    ghost inverse = { λ bytes. record { bytes = bytes ++ replicate (44 - length bytes) 0; len = length bytes } };
}

impl Clone for GameId {
    ghost is_clone = { λ old new. new ≡ old };

    fn clone(&self) -> Result<GameId, AllocError> {
        Ok(*self)
    }
}

impl Copy for GameId {}

/// Why bytes are no game's id. The first cause in this order is told.
#[derive(Clone, Copy, Debug, PartialEq, Eq, Error)]
pub enum GameIdRefused {
    /// No bytes, or more than 44; `len` is how many.
    #[error("a game's id has {len} bytes, and not 1 to 44")]
    BadLength { len: u64 },
    /// A byte outside 0x21 to 0x7E; `at` is the place of the first.
    #[error("a game's id has a byte that is not visible ASCII, at byte {at}")]
    BadByte { at: u64 },
}

impl GameId {
    /// The id of these bytes.
    pub fn new(bytes: &[u8]) -> Result<GameId, GameIdRefused>
        ensures ok { IfOk result (λ id. (id ≡ bytes.now) × IsGameId bytes.now) }
        ensures refused { IfErr result (IsGameIdFault bytes.now) }
    {
        if bytes.is_empty() || bytes.len() as u64 > GAME_ID_MOST_BYTES {
            return Err(GameIdRefused::BadLength {
                len: bytes.len() as u64,
            });
        }
        match bytes.iter().position(|b| *b < b'!' || *b > b'~') {
            Some(at) => Err(GameIdRefused::BadByte { at: at as u64 }),
            None => Ok(GameId::padded(bytes)),
        }
    }

    fn padded(bytes: &[u8]) -> GameId
        requires { IsGameId bytes.now }
        ensures { result ≡ bytes.now }
    {
        let mut held = [0; 44];
        held[..bytes.len()].copy_from_slice(bytes);
        GameId {
            bytes: held,
            len: bytes.len() as u8,
        }
    }

    /// The bytes, 1 to 44 of them.
    pub fn as_slice(&self) -> &[u8]
        ensures value { result.now ≡ self.now }
        ensures id { IsGameId self.now }
    {
        &self.bytes[..self.len as usize]
    }
}

impl PartialEq for GameId {
    ghost eq = { pointwise nat_eq };

    ghost laws = { Cmp.partial_equiv_from_equiv nat_list_eq_equiv };

    fn eq(&self, other: &GameId) -> bool {
        self.as_slice() == other.as_slice()
    }
}

impl Eq for GameId {
    ghost laws = { nat_list_eq_equiv };
}
