// The hasher of keys, which are a few numbers.
ghost use Rattle.std.specs.Prelude.{◌≡◌};
ghost use Rattle.dk_hashed.specs.KeyHashes as hashes;

use std::hash::{FoldHasher, Hasher};

const FIRST: u64 = 0x243f_6a88_85a3_08d3;

const MULTIPLIER: u64 = 0x9e37_79b9_7f4a_7c15;

/// Takes a number of 32 or 64 bits in by one multiplication, where std's hasher goes through its bytes. Other writes go
/// through that one. Its seed is fixed, so it is for keys that no client picks.
#[derive(Clone, Copy)]
pub struct KeyHasher {
    state: u64,
}

impl Default for KeyHasher {
    ghost is_default = { λ s. s ≡ hashes.initial };

    fn default() -> KeyHasher {
        KeyHasher { state: FIRST }
    }
}

impl KeyHasher {
    fn join(&mut self, number: u64)
        ensures { self.new ≡ hashes.joined self.old number }
    {
        let product = (self.state ^ number).wrapping_mul(MULTIPLIER);
        self.state = product ^ (product >> 32);
    }
}

fn folded(bytes: &[u8]) -> u64
    ensures { result ≡ hashes.folded bytes.now }
{
    let mut hasher = FoldHasher::default();
    hasher.write(bytes);
    hasher.finish()
}

fn number_of(bytes: &[u8]) -> u64
    ensures { result ≡ hashes.number_of bytes.now }
{
    if bytes.len() == 4 {
        u32::from_le_bytes([bytes[0], bytes[1], bytes[2], bytes[3]]) as u64
    } else if bytes.len() == 8 {
        u64::from_le_bytes([
            bytes[0], bytes[1], bytes[2], bytes[3], bytes[4], bytes[5], bytes[6], bytes[7],
        ])
    } else {
        folded(bytes)
    }
}

impl Hasher for KeyHasher {
    ghost write = { hashes.write };

    ghost finish = { λ s. s.state };

    fn finish(&self) -> u64 {
        self.state
    }

    fn write(&mut self, bytes: &[u8]) {
        self.join(number_of(bytes));
    }

    fn write_u32(&mut self, i: u32) {
        self.join(i as u64);
    }

    fn write_u64(&mut self, i: u64) {
        self.join(i);
    }
}
