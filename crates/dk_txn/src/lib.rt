//! A run's transaction: what a run may do, over a view that answers its reads.
//!
//! Each call does what the operation of that name does on the world itself, in every world that agrees
//! with the run's reads; `Txn::finish` tells what the run came to. How a game is proved with these calls
//! stands in `docs/TRANSACTIONS.md`. Which job is run, and what a game is, is told elsewhere.
#![tactic(auto)]

pub use dk_model::Mode;
pub use finished::{Finished, FinishedParts};
pub use list_view::ListView;
pub use refusal::Refusal;
pub use txn::Txn;
pub use view::View;

mod checks;
mod ending;
pub mod finished;
pub mod list_view;
pub mod names;
pub mod objects;
pub mod pairs;
pub mod refusal;
pub mod sizes;
pub mod tasks;
pub mod txn;
pub mod view;
