//! Workers: jobs are claimed, run and committed; and plays of scripts by them.
//!
//! `work` does so over the shared host, with one pass, until nothing can be run; where a read no longer stood the job is run
//! again. `serve_jobs` waits there and works on, as long as a server runs. `work_all` has a worker in a thread of its own for
//! each pass. A `Gate` hears of their commits. `work_once` is one step over a core on one thread, where nothing that a run has
//! read changes before its commit. The host and the core say which job comes next and what a commit does, and `dk_game` runs
//! the job; nothing here knows a game or a client.
//!
//! `play_store` plays a script on an opened store, phase by phase, by any number of workers, and gives the transcript.
#![tactic(auto)]

mod gate;
mod play;
mod recipients;
mod row;
mod running;
mod serving;
mod team;
mod trying;
mod worked;
mod worker;

pub use gate::{Gate, OpenGate};
pub use play::{PlayFault, Played, drain, play_store};
pub use recipients::{RECIPIENTS_MOST_COUNT, Recipients};
pub use running::run_claimed;
pub use serving::serve_jobs;
pub use team::work_all;
pub use worked::Worked;
pub use worker::{work, work_next};
pub use working::{Ran, Step, work_once};

pub mod working;
