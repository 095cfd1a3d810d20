//! The text of a durable world: what `inspect` writes.
//!
//! `inspect_text` writes one JSON object in one line, and its contract says for every world and every game's id which bytes
//! these are. What stands in the text is defined in `specs/Texts`. This crate reads no store and prints nothing.
#![tactic(auto)]

pub use text::inspect_text;

pub mod items;
pub mod text;
