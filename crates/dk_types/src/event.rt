//! The seven events of a world's history, each with the pass that entered it and its reply.

use crate::fault::Outcome;
use crate::job::{Input, Job, Out};
use crate::listed::Listed;
use crate::name::Name;
use crate::number::{ConnNo, RunNo};

/// What a Connect is answered.
#[derive(Clone, Copy, Debug, PartialEq, Eq)]
pub enum ConnectReply {
    Number(ConnNo),
    /// Every number below 2^62 is drawn.
    Exhausted { next: u64 },
}

/// What a Post is answered.
#[derive(Clone, Copy, Debug, PartialEq, Eq)]
pub enum PostReply {
    Taken,
    /// The connection is absent or closed.
    Closed,
    /// As many inputs wait as may wait.
    QueueFull { waiting: u64 },
}

/// What a Claim is answered.
#[derive(Clone, Debug, Drop, PartialEq, Eq)]
pub enum ClaimReply {
    /// The run's number, the moment in ms, and the job.
    Granted { run: RunNo, at: u64, job: Job },
    /// Nothing is runnable.
    Nothing,
    /// The budget's claims are granted.
    Spent { granted: u64 },
    /// Every number below 2^62 is drawn.
    Exhausted { next: u64 },
}

/// What happened to the world.
#[derive(Clone, Debug, Drop, PartialEq, Eq)]
pub enum Event {
    Connect {
        pass: u32,
        name: Name,
        reply: ConnectReply,
    },
    Post {
        pass: u32,
        conn: ConnNo,
        input: Input,
        reply: PostReply,
    },
    Claim {
        pass: u32,
        reply: ClaimReply,
    },
    Release {
        pass: u32,
        run: RunNo,
    },
    /// The commit's number and the run's outcome are its reply.
    Commit {
        pass: u32,
        run: RunNo,
        seq: u64,
        outcome: Outcome,
    },
    /// `outs` are the messages that were handed; `end` says whether the connection is gone.
    Hand {
        pass: u32,
        conn: ConnNo,
        most: u32,
        outs: Listed<Out>,
        end: bool,
    },
    /// The moment that was given, in ms.
    Tick {
        pass: u32,
        moment: u64,
    },
}
