//! The words of a command line: which subcommand they are, and with which values.
//!
//! The first word names the subcommand, and one simple `clap` command of that subcommand reads the words after it. The
//! program's top call does what the `Command` says. Nothing is printed here, and no text of `clap` is shown.
#![tactic(auto)]

pub use command::{Command, GameName};
pub use parse::{CommandRefused, parse_command};

mod arguments;
mod command;
mod grammars;
mod matches;
mod parse;
mod subcommands;
