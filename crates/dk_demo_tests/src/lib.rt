//! Tests of the small games over a core, and of the texts of `inspect`.
//!
//! A case is a row of data: what clients and the clock do, the transcript that follows, and what `inspect` writes in the end.
//! One proved loop runs them all. Nothing stands on this crate.
#![tactic(auto)]

#[cfg(test)]
mod driving;
#[cfg(test)]
mod game_tests;
#[cfg(test)]
mod text_tests;
