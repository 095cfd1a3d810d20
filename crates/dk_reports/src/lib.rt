//! What a store holds, as one line of text.
//!
//! `check` tells how many commits a store has and how long its journal is, `inspect` writes its whole durable world. Each
//! opens a home once, recovers its store, and writes one line to a sink, or nothing. Neither changes the store.
#![tactic(auto)]

pub use fault::ReportFault;
pub use report::{check, inspect};

pub mod fault;
pub mod report;
