//! The reading of a session.
ghost use Rattle.std.specs.Prelude.{◌≡◌, map};
ghost use Rattle.dk_frame.specs.Meanings.{frame_of};
ghost use Rattle.dk_pump.specs.Reading.{IsClosed, IsGreeted, ReadsSession, ReadsTo};

use crate::closing::disconnect;
use crate::ends::SessionEnd;
use crate::greeting::Greeted;
use crate::pieces::next_frames;
use crate::posting::{Progress, post_frames};
use dk_disk::Home;
use dk_edge::Source;
use dk_frame::{ClientFrame, Decoder};
use dk_host::{Host, Hosting, WorldBook};
use dk_turn::{Naming, Pass};
use dk_types::ConnNo;
use std::sync::Wait;

/// Posts each frame of a session, and then one Disconnect, graceful exactly after a LOGOUT; where a post finds the
/// connection closed, none. The session, its source and its decoder are as `greet` left them.
pub fn read_session<W: Hosting, J: Naming, M: Home, R: Wait, S: Source>(
    rt: &R,
    host: &Host<W, J, M>,
    pass: &mut Pass<WorldBook<W>, J>,
    greeted: Greeted,
    source: &mut S,
    decoder: &mut Decoder,
) -> SessionEnd
    requires greeted { IsGreeted decoder.old (map frame_of greeted.rest.items) }
    ensures number { pass.new.number ≡ pass.old.number }
    ensures reads { ReadsSession W.opened W.keeps J.name.passes pass.old.number greeted.conn result (map frame_of greeted.rest.items) (S.remaining source.old) (S.remaining source.new) decoder.old decoder.new (S.counted source.old) (S.counted source.new) pass.old.front pass.new.front }
{
    let Greeted { conn, rest } = greeted;
    let end = read_frames(rt, host, pass, conn, rest, source, decoder);
    close(rt, host, pass, conn, end);
    end
}

/// Posts each frame of a session.
fn read_frames<W: Hosting, J: Naming, M: Home, R: Wait, S: Source>(
    rt: &R,
    host: &Host<W, J, M>,
    pass: &mut Pass<WorldBook<W>, J>,
    conn: ConnNo,
    rest: Vec<ClientFrame>,
    source: &mut S,
    decoder: &mut Decoder,
) -> SessionEnd
    requires greeted { IsGreeted decoder.old (map frame_of rest.items) }
    ensures number { pass.new.number ≡ pass.old.number }
    ensures reads { ReadsTo W.opened J.name.passes pass.old.number conn result (map frame_of rest.items) (S.remaining source.old) (S.remaining source.new) decoder.old decoder.new (S.counted source.old) (S.counted source.new) pass.old.front pass.new.front }
{
    let mut frames = rest;
    'pieces: loop {
        match post_frames(rt, host, pass, conn, frames) {
            Ok(Progress::All) => {}
            Ok(Progress::ToLogout) => return SessionEnd::Logout,
            Err(refused) => return SessionEnd::from(refused),
        }
        frames = match next_frames(source, decoder) {
            Ok(frames) => frames,
            Err(end) => return end,
        };
    }
}

/// Posts the Disconnect that this end wants.
pub(crate) fn close<W: Hosting, J: Naming, M: Home, R: Wait>(
    rt: &R,
    host: &Host<W, J, M>,
    pass: &mut Pass<WorldBook<W>, J>,
    conn: ConnNo,
    end: SessionEnd,
)
    ensures number { pass.new.number ≡ pass.old.number }
    ensures closed { IsClosed W.opened W.keeps J.name.passes pass.old.number conn end pass.old.front pass.new.front }
{
    match end {
        SessionEnd::Closed => {}
        SessionEnd::Logout => disconnect(rt, host, pass, conn, true),
        SessionEnd::End { .. }
        | SessionEnd::Truncated { .. }
        | SessionEnd::Bad(_)
        | SessionEnd::ReadFault
        | SessionEnd::Flood { .. }
        | SessionEnd::Exhausted { .. }
        | SessionEnd::Budget { .. }
        | SessionEnd::NoMemory => disconnect(rt, host, pass, conn, false),
    }
}
