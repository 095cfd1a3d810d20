//! The frames of a session: a client's bytes, in any pieces, as frames; and the server's messages as bytes.
//!
//! `Decoder` is fed what a link gives and answers the frames that each piece completes, or the fault at which the
//! stream stops being one. `encode_out` spells one message. What the definition of frames says is proved of both, and
//! `laws` has what follows from that definition. Nothing here reads or writes a link.
#![tactic(auto)]

pub use body::Body;
pub use decoder::Decoder;
pub use encode::encode_out;
pub use frame::{ClientFrame, FrameFault, FrameRefused, Truncated};

pub mod body;
pub mod decoder;
pub mod encode;
mod fields;
pub mod frame;
mod frames;
mod front;
pub mod laws;
pub mod limits;
mod messages;
mod stage;
