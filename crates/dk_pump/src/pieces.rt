//! The pieces of a session's stream, as frames.
ghost use Rattle.std.specs.Prelude.{◌≡◌, ◌+◌, ◌<◌, ◌≤◌, None, map, length, IfOk, IfErr};
ghost use Rattle.dk_frame.specs.Meanings.{frame_of};
ghost use Rattle.dk_pump.specs.Reading.{HasStream, IsNextEnd, IsNextRead};

use crate::ends::SessionEnd;
use crate::limits::{PIECE_BYTES, SESSION_MOST_BYTES};
use dk_edge::Source;
use dk_frame::{ClientFrame, Decoder, Truncated};

/// The frames that the source's next piece completes, which may be none. A bad frame that follows those given before is
/// told before more is read.
pub(crate) fn next_frames<S: Source>(
    source: &mut S,
    decoder: &mut Decoder,
) -> Result<Vec<ClientFrame>, SessionEnd>
    requires stream { HasStream decoder.old }
    requires few { decoder.old.fed ≤ SESSION_MOST_BYTES }
    ensures read { IfOk result (λ frames. IsNextRead (map frame_of frames.items) (S.remaining source.old) (S.remaining source.new) decoder.old decoder.new (S.counted source.old) (S.counted source.new)) }
    ensures ended { IfErr result (λ end. IsNextEnd end (S.remaining source.old) (S.remaining source.new) decoder.old decoder.new (S.counted source.old) (S.counted source.new)) }
    ensures few { decoder.new.fed ≤ SESSION_MOST_BYTES }
{
    decoder.feed(&[])?;
    let left = SESSION_MOST_BYTES - decoder.fed();
    if left == 0 {
        return Err(SessionEnd::Budget {
            bytes: SESSION_MOST_BYTES,
        });
    }
    let mut piece = [0u8; PIECE_BYTES];
    let room = left.min(PIECE_BYTES as u64) as usize;
    read_piece(source, decoder, &mut piece[..room])
}

/// The frames of one piece, where the decoder is fed all of it and no bad frame follows.
fn read_piece<S: Source>(
    source: &mut S,
    decoder: &mut Decoder,
    piece: &mut [u8],
) -> Result<Vec<ClientFrame>, SessionEnd>
    requires stream { HasStream decoder.old }
    requires good { decoder.old.fault ≡ None }
    requires some { 0 < length piece.old }
    requires few { decoder.old.fed + length piece.old ≤ SESSION_MOST_BYTES }
    ensures read { IfOk result (λ frames. IsNextRead (map frame_of frames.items) (S.remaining source.old) (S.remaining source.new) decoder.old decoder.new (S.counted source.old) (S.counted source.new)) }
    ensures ended { IfErr result (λ end. IsNextEnd end (S.remaining source.old) (S.remaining source.new) decoder.old decoder.new (S.counted source.old) (S.counted source.new)) }
    ensures few { decoder.new.fed ≤ SESSION_MOST_BYTES }
{
    let count = source.take(piece)?;
    if count == 0 {
        return Err(match decoder.end() {
            Ok(()) => SessionEnd::End { at: decoder.fed() },
            Err(Truncated { at }) => SessionEnd::Truncated { at },
        });
    }
    Ok(decoder.feed(&piece[..count])?)
}
