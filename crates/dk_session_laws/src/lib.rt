//! The laws of sessions: theorems about the definitions of `dk_model`, each the contract of a function
//! that does nothing. Where a game's rules keep the sessions, every record of a session counts, in each
//! world that histories of such games leave.
//!
//! The layer above shows that the shipped games' rules do, by the lemmas that stand in `proofs/Keeps`
//! and `proofs/Calls`, one for each operation and call. Nothing here runs.
#![tactic(auto)]

pub use histories::{
    fresh_sessions_count, legal_sessions_count, openings_connect, sessions_stay_counted,
    stores_count,
};
pub use keeping::{
    calls_keep_sessions, operations_keep_sessions, records_open_and_close, steps_lead,
};

mod histories;
mod keeping;
