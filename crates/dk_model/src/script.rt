//! The lines of a script.

use dk_types::{Blob, Name};

/// A line of a script that does something. A name means the connection that last logged in under it, up to its logout or drop.
#[derive(Clone, Debug, Drop, PartialEq, Eq)]
pub enum Line {
    /// Connects.
    Login {
        name: Name,
    },
    /// Posts a message with this text.
    Send {
        name: Name,
        text: Blob,
    },
    /// Posts a message with this text on a channel.
    Channel {
        name: Name,
        channel: Name,
        text: Blob,
    },
    /// Posts a graceful disconnect.
    Logout {
        name: Name,
    },
    /// Posts a disconnect that is not graceful.
    Drop {
        name: Name,
    },
    /// Ticks to this moment in ms.
    Tick {
        moment: u64,
    },
}
