//! SwordWorld: a game of one plain room, its players and a sword.
//!
//! What it means stands in `specs/Rules`, and the code does that in a transaction. A login enters the
//! room; the messages `look`, `take` and `drop` are commands; the end of a session leaves the room.
#![tactic(auto)]

pub use command::Command;
pub use game::SwordWorld;
pub use things::{Player, Room, Thing};

pub mod command;
pub mod forms;
pub mod game;
pub mod labels;
pub mod scene;
pub mod sessions;
pub mod texts;
pub mod things;
