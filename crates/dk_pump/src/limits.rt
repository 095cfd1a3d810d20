//! The limits of a session.

/// The most bytes that are read in one session.
pub const SESSION_MOST_BYTES: u64 = 1_099_511_627_776;

/// The most bytes of one call on a source.
pub const PIECE_BYTES: usize = 8_192;

/// The most messages of one Hand.
pub const HAND_MOST_COUNT: u32 = 32;
