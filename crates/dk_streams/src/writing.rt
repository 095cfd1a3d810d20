//! What a command writes.
ghost use Rattle.std.specs.Prelude.{◌≡◌, MatchResult};
ghost use Rattle.dk_types.specs.Faults.{HasRisen};
ghost use Rattle.dk_edge.specs.Streams.{Puts};

use dk_edge::Sink;
use dk_types::Failed;

/// The most bytes of one call on the sink.
const PIECE_BYTES: usize = 8_192;

/// Puts all the bytes into the sink, piece by piece, and stops at the first fault.
pub fn put_all<K: Sink>(out: &mut K, text: &[u8]) -> Result<(), Failed>
    ensures bytes { Puts (K.contents out.old) (K.contents out.new) text.now result }
    ensures count { MatchResult result (λ _. K.counted out.new ≡ K.counted out.old) (λ _. HasRisen (K.counted out.old) (K.counted out.new)) }
{
    let mut rest = text;
    'pieces: while !rest.is_empty() {
        let count = rest.len().min(PIECE_BYTES);
        out.put(&rest[..count])?;
        rest = &rest[count..];
    }
    Ok(())
}
