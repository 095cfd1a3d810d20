//! The commands of the subcommands, by what `clap` found.
ghost use Rattle.std.specs.Prelude.{◌≡◌, ◌<◌, IfOk, length};
ghost use Rattle.clap.specs.Walk.{texts};
ghost use Rattle.dk_command.specs.Commands.{IsAnswerOf};
ghost use Rattle.dk_command.specs.Grammar.{check_app, inspect_app, play_app, serve_app, stress_app};
ghost use Rattle.dk_command.specs.Matches.{limit_of};
ghost use Rattle.dk_command.specs.Requests.{AreFew};

use crate::command::Command;
use crate::grammars;
use crate::matches::{dir, flag, game, number, read};
use crate::parse::CommandRefused;
use dk_types::Words;
use std::alloc::{AllocError, Global};

pub(crate) fn play(alloc: Global, words: &Words) -> Result<Command, CommandRefused>
    ensures { IsAnswerOf play_app words.now result }
{
    let texts = texts_of(alloc, words)?;
    let grammar = grammars::play(alloc)?;
    let matches = read(grammar, texts.as_slice())?;
    let Some(game) = game(&matches) else {
        return Err(CommandRefused::Usage);
    };
    Ok(Command::Play {
        dir: dir(alloc, &matches)?,
        game,
        workers: number(&matches, "workers", 1) as u8,
        budget: number(&matches, "budget", 1_000_000),
        checkpoint: flag(&matches, "checkpoint"),
    })
}

pub(crate) fn serve(alloc: Global, words: &Words) -> Result<Command, CommandRefused>
    ensures answer { IsAnswerOf serve_app words.now result }
    ensures few { IfOk result AreFew }
{
    let texts = texts_of(alloc, words)?;
    let grammar = grammars::serve(alloc)?;
    let matches = read(grammar, texts.as_slice())?;
    let Some(game) = game(&matches) else {
        return Err(CommandRefused::Usage);
    };
    Ok(Command::Serve {
        dir: dir(alloc, &matches)?,
        port: number(&matches, "port", 0) as u16,
        game,
        workers: number(&matches, "workers", 2) as u8,
        clients: number(&matches, "clients", 16) as u16,
        sessions: limit(number(&matches, "sessions", 0)),
    })
}

pub(crate) fn check(alloc: Global, words: &Words) -> Result<Command, CommandRefused>
    ensures { IsAnswerOf check_app words.now result }
{
    let texts = texts_of(alloc, words)?;
    let grammar = grammars::check(alloc)?;
    let matches = read(grammar, texts.as_slice())?;
    let Some(game) = game(&matches) else {
        return Err(CommandRefused::Usage);
    };
    Ok(Command::Check {
        dir: dir(alloc, &matches)?,
        game,
    })
}

pub(crate) fn inspect(alloc: Global, words: &Words) -> Result<Command, CommandRefused>
    ensures { IsAnswerOf inspect_app words.now result }
{
    let texts = texts_of(alloc, words)?;
    let grammar = grammars::inspect(alloc)?;
    let matches = read(grammar, texts.as_slice())?;
    let Some(game) = game(&matches) else {
        return Err(CommandRefused::Usage);
    };
    Ok(Command::Inspect {
        dir: dir(alloc, &matches)?,
        game,
    })
}

pub(crate) fn stress(alloc: Global, words: &Words) -> Result<Command, CommandRefused>
    ensures answer { IsAnswerOf stress_app words.now result }
    ensures few { IfOk result AreFew }
{
    let texts = texts_of(alloc, words)?;
    let grammar = grammars::stress(alloc)?;
    let matches = read(grammar, texts.as_slice())?;
    Ok(Command::Stress {
        seed: number(&matches, "seed", 1) as u32,
        tasks: number(&matches, "tasks", 1000) as u32,
        workers: number(&matches, "workers", 1) as u8,
    })
}

/// A limit of which 0 means that there is none.
fn limit(number: u64) -> Option<u64>
    ensures { result ≡ limit_of number }
{
    match number {
        0 => None,
        most => Some(most),
    }
}

/// The words as `clap` takes them.
fn texts_of(alloc: Global, words: &Words) -> Result<Vec<&str>, AllocError>
    ensures { IfOk result (λ v. texts v.items ≡ words.now) }
{
    let mut list = Vec::new(alloc);
    for at in 0..words.count() {
        list.push(words.word(at))?;
    }
    Ok(list)
}
