//! What a game is, and how a job of it is run.
//!
//! `run_job` does the platform's part of a job and the game's, in a transaction, and finishes the run.
//! What a finished run tells is what the job does alone, in every world that agrees with what the run
//! has read. How a game is proved stands in `docs/TRANSACTIONS.md`.
#![tactic(auto)]

pub use game::Game;
pub use halt::Halt;
pub use job_runs::run_over;
pub use run::run_job;

mod channel_jobs;
pub mod game;
pub mod halt;
mod job_parts;
pub mod job_runs;
mod jobs;
pub mod run;
mod session_jobs;
