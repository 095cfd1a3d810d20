//! Small games that show the server at work.
//!
//! `Counters` raises sixteen counters by tasks, `Timer` one counter by a periodic task, `Channels` lets clients talk on two
//! channels, and `Greeter`, the game of `docs/WRITING-A-GAME.md`, knows its guests again. What a game means stands in `specs/`;
//! its code does that in a transaction.
#![tactic(auto)]

pub use channels::Channels;
pub use commands::Command;
pub use counter::Counter;
pub use counters::{Counters, counter_name, make_all, raise};
pub use greeter::Greeter;
pub use guest::Guest;
pub use timer::Timer;
pub use totals::counters_come_to_totals;

pub mod channels;
pub mod commands;
pub mod counter;
pub mod counters;
pub mod greeter;
pub mod guest;
pub mod timer;
pub mod totals;
