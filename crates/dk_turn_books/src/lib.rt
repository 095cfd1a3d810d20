//! Books that threads share behind a turn, each with a contract that pins what the threads were told.
//!
//! A journal of lines (`append_both`), a tally whose turns are not lost (`tally_in_threads`), and a relay whose legs two passes run in turn
//! (`race_in_threads`). `empty_turns` and `locked_adds` are what a benchmark runs side by side. `dk_disk_tests` runs all of them.
#![tactic(auto)]

mod any_book;
mod journal;
mod many_turns;
mod relay;
mod relay_race;
mod speed;
mod tally;
mod two_threads;

pub use any_book::call_both;
pub use journal::{Append, Journal, Line, Portion, Recall};
pub use many_turns::{count_by_each, tally_in_threads};
pub use relay::{CountLegs, Leg, Relay, RunLeg};
pub use relay_race::race_in_threads;
pub use speed::{empty_turns, empty_turns_anew, locked_adds};
pub use tally::{Count, Tally, Tick, Total};
pub use two_threads::{append, append_both, append_both_anew, portion_of, recall};
