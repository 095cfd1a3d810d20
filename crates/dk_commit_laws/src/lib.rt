//! Laws of the entry of a commit.
//!
//! A run that steps from a valid durable world has an entry in the journal: its number, its run and its net effects. It
//! fits as the next one, it leads to the world that the step leaves, and it has a spelling that a record can hold. Nothing
//! here runs.
#![tactic(auto)]

pub mod entries;
