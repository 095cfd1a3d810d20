//! A client's frames, and what may be wrong with one.
ghost use Rattle.std.specs.Prelude.{◌≡◌};

use crate::body::Body;
use dk_types::{Name, NoMemory};
use thiserror::Error;

/// A whole frame of a client.
#[derive(Clone, Debug, Drop, PartialEq, Eq)]
pub enum ClientFrame {
    /// The client logs in under this name.
    Login(Name),
    Message(Body),
    /// A message on a channel.
    Channel { channel: Name, body: Body },
    Logout,
}

/// What is wrong with a frame.
#[derive(Clone, Copy, Debug, PartialEq, Eq, Error)]
pub enum FrameFault {
    /// Its length is 0 or above the greatest.
    #[error("its length is 0 or above the greatest")]
    Length,
    /// Its opcode is none of a client's, or may not come where it stands.
    #[error("its opcode may not come here")]
    Opcode,
    /// Its fields are those of no frame.
    #[error("its fields are those of no frame")]
    Field,
}

/// Why a decoder gave no frames.
#[derive(Clone, Copy, Debug, PartialEq, Eq, Error)]
pub enum FrameRefused {
    /// The frame whose first byte stands at `at` is bad.
    #[error("the frame at byte {at} is bad: {why}")]
    BadFrame { at: u64, why: FrameFault },
    #[error("out of memory")]
    NoMemory,
}

impl From<NoMemory> for FrameRefused {
    ghost use Rattle.dk_frame.specs.declared.frame.FrameRefused.TheVariants as refused;

    ghost from_gives = { λ _ e. e ≡ refused.NoMemory };

    fn from(_: NoMemory) -> FrameRefused {
        FrameRefused::NoMemory
    }
}

/// The stream ends within the frame whose first byte stands at `at`.
#[derive(Clone, Copy, Debug, PartialEq, Eq, Error)]
#[error("the stream ends within the frame at byte {at}")]
pub struct Truncated {
    pub at: u64,
}
