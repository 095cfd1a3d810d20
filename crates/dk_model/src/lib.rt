//! What the server means: the durable world, a run of a job on it, the volatile world, the seven
//! events and their histories, scripts and transcripts, each as a definition that contracts cite.
//!
//! The definitions stand in `specs/`. The code here is the few types that they share with programs,
//! and the trait of a game's rules. The laws of the definitions are the contracts of `dk_laws`.
#![tactic(auto)]

pub use dk_types::{Mode, limits as limits};
pub use records::{ChannelRecord, Delivery, SessionRecord};
pub use rules::Rules;
pub use script::Line;
pub use waiting::Waiting;

pub mod records;
pub mod rules;
pub mod script;
pub mod waiting;
