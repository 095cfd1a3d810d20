//! How a command of the program ended.
//!
//! A `Status` has the number with which the program exits. Each but `Ok` has a line, which the program prints to
//! standard error and which tells the side, the place or the number that the fault is about.
#![tactic(auto)]

pub use status::Status;

pub mod status;
