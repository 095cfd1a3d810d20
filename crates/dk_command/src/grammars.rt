//! The `clap` command of each subcommand, which has no help flag and no version flag.
ghost use Rattle.std.specs.Prelude.{◌≡◌, ◌∷◌, [], codes, IfOk};
ghost use Rattle.clap.specs.Words.{app_of};
ghost use Rattle.dk_command.specs.Grammar.{check_app, grammar, inspect_app, play_app, serve_app, stress_app};

use crate::arguments::{dir, flag, number, required_number, text};
use clap::Command;
use std::alloc::{AllocError, Global};

pub(crate) fn play<'a>(alloc: Global) -> Result<Command<'a>, AllocError>
    ensures { IfOk result (λ c. app_of c ≡ play_app) }
{
    empty(alloc, "play")
        .arg(dir(alloc))?
        .arg(text(alloc, "game"))?
        .arg(number(alloc, "workers", 1, 64))?
        .arg(number(alloc, "budget", 1, 1_000_000_000))?
        .arg(flag(alloc, "checkpoint"))
}

pub(crate) fn serve<'a>(alloc: Global) -> Result<Command<'a>, AllocError>
    ensures { IfOk result (λ c. app_of c ≡ serve_app) }
{
    empty(alloc, "serve")
        .arg(dir(alloc))?
        .arg(required_number(alloc, "port", 1, 65_535))?
        .arg(text(alloc, "game"))?
        .arg(number(alloc, "workers", 1, 64))?
        .arg(number(alloc, "clients", 1, 256))?
        .arg(number(alloc, "sessions", 0, 1_000_000))
}

pub(crate) fn check<'a>(alloc: Global) -> Result<Command<'a>, AllocError>
    ensures { IfOk result (λ c. app_of c ≡ check_app) }
{
    empty(alloc, "check")
        .arg(dir(alloc))?
        .arg(text(alloc, "game"))
}

pub(crate) fn inspect<'a>(alloc: Global) -> Result<Command<'a>, AllocError>
    ensures { IfOk result (λ c. app_of c ≡ inspect_app) }
{
    empty(alloc, "inspect")
        .arg(dir(alloc))?
        .arg(text(alloc, "game"))
}

pub(crate) fn stress<'a>(alloc: Global) -> Result<Command<'a>, AllocError>
    ensures { IfOk result (λ c. app_of c ≡ stress_app) }
{
    empty(alloc, "stress")
        .arg(number(alloc, "seed", 0, 65_536))?
        .arg(number(alloc, "tasks", 1, 65_536))?
        .arg(number(alloc, "workers", 1, 64))
}

/// A command of this name that takes no words.
fn empty<'a>(alloc: Global, name: &'a str) -> Command<'a>
    ensures { app_of result ≡ grammar name.entry.now [] }
{
    Command::new(alloc, name).disable_help_flag(true)
}
