// What the calls answer.

use dk_types::{Listed, NoMemory, Out};
use thiserror::Error;

/// Why an input was not taken. The first cause in this order is told.
#[derive(Clone, Copy, Debug, PartialEq, Eq, Error)]
pub enum PostRefused {
    /// The connection is not there, or takes no more.
    #[error("the connection takes no more")]
    Closed,
    /// As many inputs wait as may wait; `waiting` is how many.
    #[error("{waiting} inputs wait already")]
    QueueFull { waiting: u64 },
    #[error("out of memory")]
    NoMemory,
}

impl From<NoMemory> for PostRefused {
    ghost use Rattle.std.specs.Prelude.{◌≡◌};
    ghost use Rattle.dk_connections.specs.declared.answers.PostRefused.TheVariants as refused;

    ghost from_gives = { λ _ e. e ≡ refused.NoMemory };

    fn from(_: NoMemory) -> PostRefused {
        PostRefused::NoMemory
    }
}

/// The messages that were handed, and whether the connection is gone.
#[derive(Drop)]
pub struct Handed {
    pub outs: Listed<Out>,
    pub end: bool,
}
