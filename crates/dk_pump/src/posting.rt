//! Frames as posts.
ghost use Rattle.std.specs.Prelude.{◌≡◌, ◌<◌, ◌≤◌, All, map, length, IfOk, MatchOption};
ghost use Rattle.dk_types.specs.Names.{IsName};
ghost use Rattle.dk_types.specs.declared.job.Input.TheVariants as input;
ghost use Rattle.dk_types.specs.declared.limits.TheConstants.{BODY_MOST_BYTES};
ghost use Rattle.dk_model.specs.Frames.{AreInTurn, InSession, IsFrame, Logout, MayCome, opcode_of};
ghost use Rattle.dk_model.specs.Lawful.{IsInput};
ghost use Rattle.dk_frame.specs.Meanings.{frame_of};
ghost use Rattle.dk_pump.specs.Reading.{IsAsked, PostsFrames};

use dk_core::PostRefused;
use dk_disk::Home;
use dk_frame::ClientFrame;
use dk_host::{Host, Hosting, WorldBook};
use dk_turn::{Naming, Pass};
use dk_types::{Blob, ConnNo, Input, Name, NoMemory};
use std::sync::Wait;

/// How far frames were posted.
pub(crate) enum Progress {
    /// All of them, and none is a LOGOUT.
    All,
    /// Those before a LOGOUT.
    ToLogout,
}

/// Posts what the frames of a session ask, in order, up to a LOGOUT or to the first post that is refused.
pub(crate) fn post_frames<W: Hosting, J: Naming, M: Home, R: Wait>(
    rt: &R,
    host: &Host<W, J, M>,
    pass: &mut Pass<WorldBook<W>, J>,
    conn: ConnNo,
    frames: Vec<ClientFrame>,
) -> Result<Progress, PostRefused>
    requires in_turn { AreInTurn InSession (map frame_of frames.items) }
    ensures number { pass.new.number ≡ pass.old.number }
    ensures posts { PostsFrames W.opened J.name.passes pass.old.number conn (map frame_of frames.items) result pass.old.front pass.new.front }
{
    for frame in frames {
        let Some(input) = input_of(frame)? else {
            return Ok(Progress::ToLogout);
        };
        host.post(rt, pass, conn, input)?;
    }
    Ok(Progress::All)
}

/// What a frame in a session asks for. None is asked for by a LOGOUT alone.
fn input_of(frame: ClientFrame) -> Result<Option<Input>, NoMemory>
    requires may_come { MayCome InSession (opcode_of (frame_of frame)) }
    requires within { IsFrame (frame_of frame) }
    ensures { IfOk result (λ asked. MatchOption asked (frame_of frame ≡ Logout) (IsAsked (frame_of frame))) }
{
    Ok(match frame {
        ClientFrame::Message(body) => Some(message(body.into_blob()?)),
        ClientFrame::Channel { channel, body } => Some(channel_message(channel, body.into_blob()?)),
        ClientFrame::Login(_) => unreachable!(),
        ClientFrame::Logout => None,
    })
}

fn message(body: Blob) -> Input
    requires { length body ≤ BODY_MOST_BYTES }
    ensures is { result ≡ input.Message body }
    ensures within { IsInput result }
{
    are_bytes(body.as_slice());
    Input::Message(body)
}

fn channel_message(channel: Name, body: Blob) -> Input
    requires name { IsName channel }
    requires short { length body ≤ BODY_MOST_BYTES }
    ensures is { result ≡ input.Channel channel body }
    ensures within { IsInput result }
{
    are_bytes(body.as_slice());
    Input::Channel { channel, body }
}

/// Bytes are numbers below 256.
fn are_bytes(bytes: &[u8])
    ensures { All (λ b. b < 256) bytes.now }
{
    let _bytes = bytes;
}
