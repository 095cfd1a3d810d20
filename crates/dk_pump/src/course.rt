//! How far a session that is polled has come.
ghost use Rattle.std.specs.Prelude.{◌≡◌, [], None, false};
ghost use Rattle.dk_frame.specs.Decoding.{HasDecoded};

use crate::ends::{SessionEnd, WriteEnd};
use crate::outgoing::Outgoing;
use dk_frame::Decoder;
use dk_types::ConnNo;
use std::alloc::Global;

/// What a session holds between two polls, beside its pass and its link.
#[derive(Drop)]
pub(crate) struct Course {
    pub(crate) decoder: Decoder,
    /// The connection, once the client has logged in.
    pub(crate) conn: Option<ConnNo>,
    /// How reading ended.
    pub(crate) end: Option<SessionEnd>,
    /// What was handed and is not yet put.
    pub(crate) outgoing: Outgoing,
    /// Whether the link failed to put.
    pub(crate) failed: bool,
    /// Whether a Hand told that the connection is gone.
    pub(crate) gone: bool,
    /// How writing ended.
    pub(crate) write: Option<WriteEnd>,
}

impl Course {
    /// A session that has not begun. Takes no memory.
    pub(crate) fn new(alloc: Global) -> Course
        ensures decoder { HasDecoded result.decoder [] [] }
        ensures conn { result.conn ≡ None }
        ensures end { result.end ≡ None }
        ensures outgoing { result.outgoing ≡ [] }
        ensures failed { result.failed ≡ false }
        ensures gone { result.gone ≡ false }
        ensures write { result.write ≡ None }
    {
        Course {
            decoder: Decoder::new(alloc),
            conn: None,
            end: None,
            outgoing: Outgoing::new(alloc),
            failed: false,
            gone: false,
            write: None,
        }
    }
}
