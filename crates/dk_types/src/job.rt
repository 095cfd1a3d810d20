//! What a run is for, what a client puts in, and what it is sent.

use crate::blob::Blob;
use crate::name::Name;
use crate::number::{ConnNo, TaskKey};

/// A client's session: its login name, and the number of its connection (`ClientSession`).
#[derive(Clone, Debug, Drop, PartialEq, Eq)]
pub struct Session {
    pub name: Name,
    pub conn: ConnNo,
}

/// What a run is for.
#[derive(Clone, Debug, Drop, PartialEq, Eq)]
pub enum Job {
    /// The first run of an application (`AppListener.initialize`).
    Initialize,
    /// A connection asks to log in (`AppListener.loggedIn`).
    Login {
        conn: ConnNo,
        name: Name,
    },
    /// A client's message (`ClientSessionListener.receivedMessage`).
    Message {
        conn: ConnNo,
        name: Name,
        body: Blob,
    },
    /// A client's message on a channel (`ChannelListener.receivedMessage`).
    Channel {
        conn: ConnNo,
        name: Name,
        channel: Name,
        body: Blob,
    },
    /// The end of a session (`ClientSessionListener.disconnected`).
    Disconnect {
        conn: ConnNo,
        name: Name,
        graceful: bool,
    },
    /// An occurrence of a task. `due` is a moment and `period` a span, in ms; a period of 0 marks a once-task.
    Task {
        key: TaskKey,
        due: u64,
        period: u64,
        kind: u16,
        arg: Blob,
    },
}

/// What waits at a connection behind its login.
#[derive(Clone, Debug, Drop, PartialEq, Eq)]
pub enum Input {
    Message(Blob),
    Channel { channel: Name, body: Blob },
    Disconnect { graceful: bool },
}

/// A message to a client.
#[derive(Clone, Debug, Drop, PartialEq, Eq)]
pub enum Out {
    Accepted,
    Refused,
    Message(Blob),
    Channel { channel: Name, body: Blob },
    Close,
}
