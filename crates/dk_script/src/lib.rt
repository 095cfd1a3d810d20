//! Scripts and transcripts: the text that a play reads, and the text that it writes.
//!
//! `parse_script` reads a script of any number of sessions and phases, and else tells the first line outside.
//! `transcript_of` writes a history's text, phase by phase. That the order of claims and commits can
//! be read back from that text is the law `order_is_told`. Nothing here plays anything.
#![tactic(auto)]

pub use laws::{one_worker_decides, order_is_told, scripts_are_read};
pub use script::{Script, ScriptRefused, parse_script};
pub use transcript::transcript_of;

mod event_text;
mod item_text;
mod known;
pub mod laws;
mod lines;
mod moment;
mod reader;
pub mod script;
mod text;
pub mod transcript;
