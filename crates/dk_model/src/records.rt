//! The platform's own objects.

use dk_types::{ConnNo, Listed, Name, Session};

/// A session's connection, and the channels that it is on, in joining order.
#[derive(Debug, Drop)]
pub struct SessionRecord {
    pub conn: ConnNo,
    pub channels: Listed<Name>,
}

/// How a channel's messages are to be delivered (`Delivery`). Every kind is served as reliable and ordered.
#[derive(Clone, Copy, Debug, PartialEq, Eq)]
pub enum Delivery {
    Reliable,
    UnorderedReliable,
    OrderedUnreliable,
    Unreliable,
}

/// Whether a game listens to a channel, its delivery, and its members in joining order.
#[derive(Debug, Drop)]
pub struct ChannelRecord {
    pub listener: bool,
    pub delivery: Delivery,
    pub members: Listed<Session>,
}
