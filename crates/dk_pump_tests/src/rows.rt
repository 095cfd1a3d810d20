//! Clients' streams, how their sessions end, and what the server puts.

use dk_frame::FrameFault::{Field, Length, Opcode};
use dk_pump::{BadFrame, SessionEnd};

/// A stream, and how its session ends.
pub(crate) struct Row(pub(crate) &'static [u8], pub(crate) SessionEnd);

/// alice logs in.
pub(crate) const LOGIN: &[u8] = b"\x00\x00\x00\x07\x01\x05alice";

/// She looks and logs out.
pub(crate) const SESSION: &[u8] =
    b"\x00\x00\x00\x07\x01\x05alice\x00\x00\x00\x05\x02look\x00\x00\x00\x01\x04";

/// What the server puts for it.
pub(crate) const SERVED: &[u8] =
    b"\x00\x00\x00\x01\x81\x00\x00\x00\x37\x83You are in a plain room.\nOn the floor: a shiny sword.\n";

pub(crate) const ROWS: [Row; 17] = [
    Row(b"", SessionEnd::End { at: 0 }),
    Row(b"\x00", SessionEnd::Truncated { at: 0 }),
    Row(b"\x00\x00\x00", SessionEnd::Truncated { at: 0 }),
    Row(
        b"\x00\x00\x00\x00",
        SessionEnd::Bad(BadFrame { at: 0, why: Length }),
    ),
    Row(
        b"\x00\x10\x01\x02",
        SessionEnd::Bad(BadFrame { at: 0, why: Length }),
    ),
    Row(
        b"\x00\x00\x00\x01\x02",
        SessionEnd::Bad(BadFrame { at: 0, why: Opcode }),
    ),
    Row(
        b"\x00\x00\x00\x01\x81",
        SessionEnd::Bad(BadFrame { at: 0, why: Opcode }),
    ),
    Row(
        b"\x00\x00\x00\x02\x01\x00",
        SessionEnd::Bad(BadFrame { at: 0, why: Field }),
    ),
    Row(
        b"\x00\x00\x00\x03\x01\x01\xFF",
        SessionEnd::Bad(BadFrame { at: 0, why: Field }),
    ),
    Row(LOGIN, SessionEnd::End { at: 11 }),
    Row(
        b"\x00\x00\x00\x07\x01\x05alice\x00\x00\x00\x07\x01",
        SessionEnd::Bad(BadFrame {
            at: 11,
            why: Opcode,
        }),
    ),
    Row(
        b"\x00\x00\x00\x07\x01\x05alice\x00\x00\x00\x02\x04\x00",
        SessionEnd::Bad(BadFrame { at: 11, why: Field }),
    ),
    Row(
        b"\x00\x00\x00\x07\x01\x05alice\x00\x00\x00\x05\x02lo",
        SessionEnd::Truncated { at: 11 },
    ),
    // A whole frame is posted before the bad one behind it is told.
    Row(
        b"\x00\x00\x00\x07\x01\x05alice\x00\x00\x00\x05\x02look\x00\x00\x00\x00",
        SessionEnd::Bad(BadFrame {
            at: 20,
            why: Length,
        }),
    ),
    Row(
        b"\x00\x00\x00\x07\x01\x05alice\x00\x00\x00\x05\x02look",
        SessionEnd::End { at: 20 },
    ),
    Row(SESSION, SessionEnd::Logout),
    // Bytes behind a logout are not looked at.
    Row(
        b"\x00\x00\x00\x07\x01\x05alice\x00\x00\x00\x01\x04\x00\x00\x00\x00",
        SessionEnd::Logout,
    ),
];
