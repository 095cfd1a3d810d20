//! The limits of a frame.

/// The greatest length that a frame states: the bytes of an opcode, a name and a body.
pub const FRAME_LENGTH_MOST_BYTES: u32 = 1_048_833;

/// The bytes in which a frame states its length.
pub const LENGTH_BYTES: usize = 4;

/// The most bytes that one decoder is fed.
pub const STREAM_MOST_BYTES: u64 = 4_611_686_018_427_387_904;
