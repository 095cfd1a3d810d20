//! Rows of tests, which a test program reads from its standard input.
//!
//! A section has a title, what is given, and rows: each is a call and, behind ` = `, what it is to answer. A program says by a
//! `Subject` what a call does, and `hold` makes the calls one after another. It prints each row that is answered otherwise. The
//! expected answers are written by hand, from the worked examples. It proves nothing of what it tests.
#![tactic(auto)]

pub use holding::{Subject, hold};
pub use section::{Section, read_sections};
pub use words::Words;

pub mod bytes;
pub mod holding;
pub mod section;
pub mod words;
