//! The laws of the model: theorems about the definitions of `dk_model`, each the contract of a
//! function that does nothing.
//!
//! The layers above cite the lemmas that stand in `proofs/`. Nothing here runs.
#![tactic(auto)]

pub use claims::{claims_are_answered, claims_are_granted, nothing_is_picked, something_is_picked};
pub use effects::effects_lead_there;
pub use fronts::{
    changes_tell_of_commits, claims_stand_on, commits_alone_change, commits_are_counted,
    fronts_are_legal, handed_from_the_first, honest_runs_stay_honest, valid_runs_stay_valid,
};
pub use histories::{
    claims_stand_ready, each_commit_was_claimed_once, events_lead_to_one_world, keys_do_not_return,
    numbers_are_new, worlds_stay_valid,
};
pub use messages::{
    bodies_are_short, logins_are_answered, messages_are_handed, runs_send_few,
    the_displaced_are_closed,
};
pub use operations::{calls_are_lawful, modes_are_put_back, operations_are_lawful};
pub use retries::{
    none_is_stale_where_all_stand, reads_stand_or_one_is_stale, stale_reads_tell_of_commits,
    the_first_stale_read_is_one,
};
pub use sights::sights_tell;

mod claims;
mod effects;
mod fronts;
mod histories;
mod messages;
mod operations;
mod retries;
mod sights;
