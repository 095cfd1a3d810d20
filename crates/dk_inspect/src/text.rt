//! The whole text.
ghost use Rattle.std.specs.Prelude.{◌≡◌, ◌++◌, decimal, string_bytes, IfOk, OnOk};
ghost use Rattle.json.specs.Print.{quoted};
ghost use Rattle.dk_inspect.specs.Texts.{last_text, world_text};

use crate::items::push_list;
use dk_types::{Blob, Durable, GameId, NoMemory, RunNo};
use serde_json::Value;
use std::alloc::Global;

/// The game's id as text.
fn id_text(game: &GameId) -> &str
    ensures { result.now ≡ game.now }
{
    match std::str::from_utf8(game.as_slice()) {
        Ok(text) => text,
        Err(_) => unreachable!(),
    }
}

fn push_game(alloc: Global, out: &mut String, game: &GameId) -> Result<(), NoMemory>
    ensures { OnOk result (string_bytes out.new ≡ string_bytes out.old ++ quoted game.now) }
{
    let value = Value::try_from_str(alloc, id_text(game))?;
    let text = value.to_string(alloc)?;
    out.push_str(text.as_str())?;
    Ok(())
}

fn push_number(out: &mut String, number: u64) -> Result<(), NoMemory>
    ensures { OnOk result (string_bytes out.new ≡ string_bytes out.old ++ decimal number) }
{
    write!(out, "{number}")?;
    Ok(())
}

/// The largest committed run, or null.
fn push_last(out: &mut String, last: Option<RunNo>) -> Result<(), NoMemory>
    ensures { OnOk result (string_bytes out.new ≡ string_bytes out.old ++ last_text last) }
{
    match last {
        None => {
            out.push_str("null")?;
            Ok(())
        }
        Some(run) => push_number(out, run.0),
    }
}

/// What `inspect` writes of a durable world: one compact JSON object, and the line's end. Its items are written one by one.
pub fn inspect_text(alloc: Global, game: &GameId, durable: &Durable) -> Result<Blob, NoMemory>
    ensures { IfOk result (λ text. text ≡ world_text game.now durable.now) }
{
    let mut out = String::new(alloc);
    out.push_str("{\"commits\":")?;
    push_number(&mut out, durable.commits)?;
    out.push_str(",\"game\":")?;
    push_game(alloc, &mut out, game)?;
    out.push_str(",\"last_run\":")?;
    push_last(&mut out, durable.last)?;
    out.push_str(",\"names\":")?;
    push_list(alloc, &mut out, durable.names.as_slice())?;
    out.push_str(",\"objects\":")?;
    push_list(alloc, &mut out, durable.objects.as_slice())?;
    out.push_str(",\"tasks\":")?;
    push_list(alloc, &mut out, durable.tasks.as_slice())?;
    out.push_str("}\n")?;
    Ok(Blob::from_vec(out.into_bytes()))
}
