//! Which frames may come next.
ghost use Rattle.std.specs.Prelude.{◌≡◌, ◌↔◌, IsTrue};
ghost use Rattle.dk_model.specs.Frames.{MayCome, stage_behind, LoggedOut as ModelLoggedOut};
ghost use Rattle.dk_frame.specs.Meanings.{frame_of, stage_of};

use crate::frame::ClientFrame;

/// The opcodes of a client's frames.
pub(crate) const LOGIN: u8 = 1;

pub(crate) const MESSAGE: u8 = 2;

pub(crate) const CHANNEL: u8 = 3;

pub(crate) const LOGOUT: u8 = 4;

/// How far a client's stream has come.
#[derive(Clone, Copy, Debug, PartialEq, Eq)]
pub(crate) enum Stage {
    AtLogin,
    InSession,
    LoggedOut,
}

impl Stage {
    /// The stage behind this frame.
    pub(crate) fn behind(frame: &ClientFrame) -> Stage
        ensures { stage_of result ≡ stage_behind (frame_of frame.now) }
    {
        match frame {
            ClientFrame::Login(_) | ClientFrame::Message(_) | ClientFrame::Channel { .. } => {
                Stage::InSession
            }
            ClientFrame::Logout => Stage::LoggedOut,
        }
    }

    /// Whether this opcode may come next.
    pub(crate) fn admits(self, opcode: u8) -> bool
        ensures { IsTrue result ↔ MayCome (stage_of self) opcode }
    {
        match self {
            Stage::AtLogin => opcode == LOGIN,
            Stage::InSession => MESSAGE <= opcode && opcode <= LOGOUT,
            Stage::LoggedOut => false,
        }
    }
}
