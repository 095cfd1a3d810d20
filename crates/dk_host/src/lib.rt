//! The shared host: a world that threads share, each call with its place in one history.
//!
//! The world's core lies behind a turn, whose book stands for the history from the opening on. Whoever calls has a pass:
//! each call enters at most one event of its own behind all that the pass had seen, and answers what that event is
//! answered there. A run reads through a look at the host; what it reads is honest at the pass's front, and its claim
//! stands there for as long as the pass neither commits nor releases it, whatever other passes do.
#![tactic(auto)]

mod book;
mod calls;
mod checkpointing;
mod commit;
mod entries;
mod fault;
mod free;
mod history;
mod host;
mod hosting;
mod keeping;
mod look;
mod opened;
mod prepared;
mod refused;
mod right;
mod shown;
mod standing;
mod steps;
mod store;

pub use book::WorldBook;
pub use fault::{OpenFault, OpenRefused};
pub use host::{Closed, Host};
pub use hosting::{CommitLedger, Hosting, PlaceLedger};
pub use look::HostLook;
pub use opened::{OpenedStore, open_store};
pub use prepared::PreparedCommit;
pub use refused::{CheckpointRefused, CommitRefused, TailRefused, Why};
pub use right::CommitRight;
pub use shown::Shown;
pub use store::CommitStore;
