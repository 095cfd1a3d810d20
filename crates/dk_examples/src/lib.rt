//! Worked examples of the definitions of `dk_model`: what some jobs tell and leave on some worlds,
//! computed from the definitions alone, each the contract of a function that does nothing.
#![tactic(auto)]

pub use channels::{
    channels_begin, disconnect_leaves, heard_goes_to_the_game, join_of_no_channel_fails,
    login_joins, no_channel_is_nothing, unheard_goes_to_all,
};
pub use histories::{restart_history, second_login_history, timer_history};
pub use outboxes::{
    as_many_wait, cut_gets_no_more, hand_gives_all, one_more_cuts, one_more_in_the_run_cuts,
};
pub use picks::{
    claimed_is_not_runnable, closed_takes_nothing, disconnect_is_taken, full_queue_refuses,
    names_in_order, picks_in_turn, queue_takes, ties_go_by_key,
};
pub use sessions::{
    counts_go_on, disconnect_ends, first_run_accepts, given_up_login_fails, login_is_accepted,
    login_over_no_record_fails, long_login_fails, second_login_displaces, stop_ends,
    strange_message_is_nothing, turned_away_login_stays,
};
pub use stores::{
    bare_commit_is_spelled, blank_files_are_no_store, damage_is_told_by_place,
    first_commit_is_spelled, headers_are_spelled, image_is_spelled, images_stand,
    journals_hold_their_world, later_commits_are_spelled, stores_hold_their_world,
    the_greater_epoch_stands, torn_headers_are_no_store, torn_records_are_not_looked_at,
    wrong_headers_are_told_by_place,
};
pub use timers::{
    once_fails, timer_begins, timer_ends, timer_fails, timer_goes_on, timer_is_over, timer_skips,
};

mod channels;
mod histories;
mod outboxes;
mod picks;
mod sessions;
mod stores;
mod timers;
