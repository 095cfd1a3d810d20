//! The reading of the words.
ghost use Rattle.std.specs.Prelude.{◌≡◌, ◌≢◌, ◌↔◌, None, IfOk};
ghost use Rattle.dk_command.specs.Commands.{app_of_words, IsCommandLine, IsCommandOf};
ghost use Rattle.dk_command.specs.Requests.{AreFew, Asks, Request, request_of};

use crate::command::Command;
use crate::subcommands::{check, inspect, play, serve, stress};
use dk_types::Words;
use std::alloc::{AllocError, AllocFailed, Global};
use thiserror::Error;

/// Why the words are read as no command.
#[derive(Clone, Copy, Debug, PartialEq, Eq, Error)]
pub enum CommandRefused {
    /// The words are no command line.
    #[error("the words are no command")]
    Usage,
    #[error("out of memory")]
    NoMemory,
}

impl From<AllocError> for CommandRefused {
    ghost use Rattle.std.specs.Prelude.{◌≡◌};
    ghost use Rattle.dk_command.specs.declared.parse.CommandRefused.TheVariants.{NoMemory as no_memory};

    ghost from_gives = { λ _ e. e ≡ no_memory };

    fn from(_: AllocError) -> Self {
        CommandRefused::NoMemory
    }
}

impl<T: Drop> From<AllocFailed<T>> for CommandRefused {
    ghost use Rattle.std.specs.Prelude.{◌≡◌};
    ghost use Rattle.dk_command.specs.declared.parse.CommandRefused.TheVariants.{NoMemory as no_memory};

    ghost from_gives = { λ _ e. e ≡ no_memory };

    fn from(_: AllocFailed<T>) -> Self {
        CommandRefused::NoMemory
    }
}

/// Reads the words after the program's name as a command.
///
/// The first word names a subcommand; what that takes is read by `clap`, as it stands in `docs/FORMATS.md`. Where there is
/// no first word, or it names no subcommand, no memory is taken.
pub fn parse_command(alloc: Global, words: &Words) -> Result<Command, CommandRefused>
    ensures ok { IfOk result (IsCommandOf words.now) }
    ensures one { (request : Request) → Asks words.now request → IfOk result (λ command. request_of command ≡ request) }
    ensures few { IfOk result AreFew }
    ensures usage { result ≢ Err CommandRefused.NoMemory → ((result ≡ Err CommandRefused.Usage) ↔ (¬ IsCommandLine words.now)) }
    ensures unknown { app_of_words words.now ≡ None → result ≡ Err CommandRefused.Usage }
{
    if words.count() == 0 {
        return Err(CommandRefused::Usage);
    }
    match words.word(0) {
        "play" => play(alloc, words),
        "serve" => serve(alloc, words),
        "check" => check(alloc, words),
        "inspect" => inspect(alloc, words),
        "stress" => stress(alloc, words),
        _ => Err(CommandRefused::Usage),
    }
}
