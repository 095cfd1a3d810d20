//! How a session ends, in each direction.
ghost use Rattle.std.specs.Prelude.{◌≡◌};
ghost use Rattle.dk_pump.specs.Ends.{end_of_connect, end_of_frames, end_of_post};

use dk_core::{ConnectRefused, PostRefused};
use dk_frame::{FrameFault, FrameRefused};
use dk_types::Failed;

/// A frame that is none: where its first byte stands in the session's bytes, and what is wrong.
#[derive(Clone, Copy, Debug, PartialEq, Eq)]
pub struct BadFrame {
    pub at: u64,
    pub why: FrameFault,
}

/// How the reading of a session ended.
#[derive(Clone, Copy, Debug, PartialEq, Eq)]
pub enum SessionEnd {
    /// The client logged out.
    Logout,
    /// The input ended behind a whole frame; `at` bytes were read in the session.
    End { at: u64 },
    /// The input ended within the frame whose first byte stands at `at`.
    Truncated { at: u64 },
    Bad(BadFrame),
    /// The source failed.
    ReadFault,
    /// As many inputs wait as may wait; `waiting` is how many.
    Flood { waiting: u64 },
    /// The connection takes no more.
    Closed,
    /// No connection was made: every number below 2^62 is drawn, and `next` is the next one.
    Exhausted { next: u64 },
    /// As many bytes were read as a session may have.
    Budget { bytes: u64 },
    NoMemory,
}

/// How the writing of a session ended.
#[derive(Clone, Copy, Debug, PartialEq, Eq)]
pub enum WriteEnd {
    /// The connection is gone, and the frames of all that was handed were put.
    Done,
    /// The sink failed; the connection is gone.
    WriteFault,
    /// What was handed and not put is lost.
    NoMemory,
}

impl From<FrameRefused> for SessionEnd {
    ghost from_gives = { λ refused end. end ≡ end_of_frames refused };

    fn from(refused: FrameRefused) -> SessionEnd {
        match refused {
            FrameRefused::BadFrame { at, why } => SessionEnd::Bad(BadFrame { at, why }),
            FrameRefused::NoMemory => SessionEnd::NoMemory,
        }
    }
}

impl From<Failed> for SessionEnd {
    ghost use Rattle.dk_pump.specs.declared.ends.SessionEnd.TheVariants.{ReadFault as read_fault};

    ghost from_gives = { λ _ end. end ≡ read_fault };

    fn from(_: Failed) -> SessionEnd {
        SessionEnd::ReadFault
    }
}

impl From<PostRefused> for SessionEnd {
    ghost from_gives = { λ refused end. end ≡ end_of_post refused };

    fn from(refused: PostRefused) -> SessionEnd {
        match refused {
            PostRefused::Closed => SessionEnd::Closed,
            PostRefused::QueueFull { waiting } => SessionEnd::Flood { waiting },
            PostRefused::NoMemory => SessionEnd::NoMemory,
        }
    }
}

impl From<ConnectRefused> for SessionEnd {
    ghost from_gives = { λ refused end. end ≡ end_of_connect refused };

    fn from(refused: ConnectRefused) -> SessionEnd {
        match refused {
            ConnectRefused::Exhausted { next } => SessionEnd::Exhausted { next },
            ConnectRefused::NoMemory => SessionEnd::NoMemory,
        }
    }
}
