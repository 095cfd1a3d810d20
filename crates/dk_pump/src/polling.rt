//! The pieces of a polled session's stream, as frames.
ghost use Rattle.std.specs.Prelude.{◌≡◌, ◌+◌, ◌<◌, ◌≤◌, [], None, map, length, MatchResult};
ghost use Rattle.futures.specs.Poll.{IfReady, OnPending};
ghost use Rattle.futures.specs.Task.{IsArmed, Keeps};
ghost use Rattle.dk_types.specs.Faults.{HasRisen};
ghost use Rattle.dk_frame.specs.Meanings.{frame_of};
ghost use Rattle.dk_pump.specs.Reading.{HasStream, IsNextEnd};
ghost use Rattle.dk_pump.specs.Sessions.{IsPolledRead, KeepsPut};

use crate::ends::SessionEnd;
use crate::limits::{PIECE_BYTES, SESSION_MOST_BYTES};
use crate::watched::Watched;
use dk_edge::Link;
use dk_frame::{ClientFrame, Decoder, Truncated};
use futures::task::{Context, Poll};

/// The frames that the link's next piece completes, which may be none. A bad frame that follows those given before is
/// told before more is read.
pub(crate) fn poll_frames<K: Link + Drop>(
    link: &mut Watched<K>,
    decoder: &mut Decoder,
    context: &mut Context<'_>,
) -> Poll<Result<Vec<ClientFrame>, SessionEnd>>
    requires stream { ∥ HasStream decoder.old ∥₁ }
    requires few { decoder.old.fed ≤ SESSION_MOST_BYTES }
    ensures ready { IfReady result (λ r. MatchResult r
        (λ frames. IsPolledRead (map frame_of frames.items) link.old.left link.new.left decoder.old decoder.new link.old.take_counted link.new.take_counted)
        (λ end. IsNextEnd end link.old.left link.new.left decoder.old decoder.new link.old.take_counted link.new.take_counted)) }
    ensures pending { OnPending result (IsPolledRead [] link.old.left link.new.left decoder.old decoder.new link.old.take_counted link.new.take_counted) }
    ensures few { decoder.new.fed ≤ SESSION_MOST_BYTES }
    ensures put { KeepsPut link.old link.new }
    ensures waits { OnPending result (HasRisen link.old.take_waits link.new.take_waits) }
    ensures counted { link.old.take_waits ≤ link.new.take_waits }
    ensures armed { OnPending result (IsArmed context.new) }
    ensures kept { Keeps context.old context.new }
{
    let frames = match decoder.feed(&[]) {
        Ok(frames) => frames,
        Err(refused) => return Poll::Ready(Err(SessionEnd::from(refused))),
    };
    if !frames.as_slice().is_empty() {
        return Poll::Ready(Ok(frames));
    }
    let left = SESSION_MOST_BYTES - decoder.fed();
    if left == 0 {
        return Poll::Ready(Err(SessionEnd::Budget {
            bytes: SESSION_MOST_BYTES,
        }));
    }
    let mut piece = [0u8; PIECE_BYTES];
    let room = left.min(PIECE_BYTES as u64) as usize;
    poll_piece(link, decoder, context, &mut piece[..room])
}

/// The frames of one piece, where no bad frame follows those given before.
fn poll_piece<K: Link + Drop>(
    link: &mut Watched<K>,
    decoder: &mut Decoder,
    context: &mut Context<'_>,
    piece: &mut [u8],
) -> Poll<Result<Vec<ClientFrame>, SessionEnd>>
    requires stream { ∥ HasStream decoder.old ∥₁ }
    requires good { decoder.old.fault ≡ None }
    requires some { 0 < length piece.old }
    requires few { decoder.old.fed + length piece.old ≤ SESSION_MOST_BYTES }
    ensures ready { IfReady result (λ r. MatchResult r
        (λ frames. IsPolledRead (map frame_of frames.items) link.old.left link.new.left decoder.old decoder.new link.old.take_counted link.new.take_counted)
        (λ end. IsNextEnd end link.old.left link.new.left decoder.old decoder.new link.old.take_counted link.new.take_counted)) }
    ensures pending { OnPending result (IsPolledRead [] link.old.left link.new.left decoder.old decoder.new link.old.take_counted link.new.take_counted) }
    ensures few { decoder.new.fed ≤ SESSION_MOST_BYTES }
    ensures put { KeepsPut link.old link.new }
    ensures waits { OnPending result (HasRisen link.old.take_waits link.new.take_waits) }
    ensures counted { link.old.take_waits ≤ link.new.take_waits }
    ensures armed { OnPending result (IsArmed context.new) }
    ensures kept { Keeps context.old context.new }
{
    let count = match link.poll_take(context, piece) {
        Poll::Ready(Ok(count)) => count,
        Poll::Ready(Err(failed)) => return Poll::Ready(Err(SessionEnd::from(failed))),
        Poll::Pending => return Poll::Pending,
    };
    if count == 0 {
        return Poll::Ready(Err(match decoder.end() {
            Ok(()) => SessionEnd::End { at: decoder.fed() },
            Err(Truncated { at }) => SessionEnd::Truncated { at },
        }));
    }
    match decoder.feed(&piece[..count]) {
        Ok(frames) => Poll::Ready(Ok(frames)),
        Err(refused) => Poll::Ready(Err(SessionEnd::from(refused))),
    }
}
