//! Scripts of any number of sessions and phases.
ghost use Rattle.std.specs.Prelude.{◌≤◌, length, IfOk};
ghost use Rattle.std.specs.List.{sum_by};
ghost use Rattle.std.specs.FinSet as sets;
ghost use Rattle.dk_model.specs.Scripts.{AllStand, IsBadLine, IsScript};
ghost use Rattle.dk_script.specs.Refusals.{IfBadLine};

use crate::lines::cut_line;
use crate::reader::{LineRefused, Reader};
use dk_model::Line;
use dk_model::limits::SCRIPT_MOST_BYTES;
use dk_types::{Listed, NoMemory};
use std::alloc::Global;
use thiserror::Error;

/// The phases of a script, each with its lines in their order.
#[derive(Debug, Drop, PartialEq, Eq)]
pub struct Script {
    pub phases: Listed<Listed<Line>>,
}

/// Why bytes are not read as a script.
#[derive(Clone, Copy, Debug, PartialEq, Eq, Error)]
pub enum ScriptRefused {
    /// The line of this number, counted from 1, is the first that is no line of a script, or has the byte behind as many
    /// as a script may have.
    #[error("line {line} is no line of a script")]
    BadLine { line: u64 },
    #[error("out of memory")]
    NoMemory,
}

impl From<NoMemory> for ScriptRefused {
    ghost use Rattle.std.specs.Prelude.{◌≡◌};
    ghost use Rattle.dk_script.specs.declared.script.ScriptRefused.TheVariants.{NoMemory as no_memory};

    ghost from_gives = { λ _ e. e ≡ no_memory };

    fn from(_: NoMemory) -> Self {
        ScriptRefused::NoMemory
    }
}

/// Reads the bytes as a script, of which at most 16,777,216 are read.
///
/// A script's lines are `login NAME`, `send NAME TEXT`, `channel NAME CHANNEL TEXT`, `logout NAME`, `drop NAME`, `tick M`
/// and `sync`, which ends a phase; an empty line and one that begins with `#` are passed over. A NAME that is no login's
/// means a connection by an earlier line. The bytes are read once, line by line, and a name is looked up in an index. The
/// script has at most as many lines as a script may have bytes.
pub fn parse_script(alloc: Global, bytes: &[u8]) -> Result<Script, ScriptRefused>
    ensures ok { IfOk result (λ script. IsScript bytes.now script.phases) }
    ensures bad_line { IfBadLine result (IsBadLine bytes.now) }
    ensures stand { IfOk result (λ script. AllStand sets.empty script.phases) }
    ensures few { IfOk result (λ script. sum_by length script.phases ≤ SCRIPT_MOST_BYTES) }
{
    let mut reader = Reader::new(alloc);
    let mut rest = bytes;
    let mut line = 0;
    'lines: while !rest.is_empty() {
        let (text, after) = cut_line(rest);
        line += 1;
        if (bytes.len() - after.len()) as u64 > SCRIPT_MOST_BYTES {
            return Err(ScriptRefused::BadLine { line });
        }
        match reader.read(alloc, text) {
            Ok(()) => rest = after,
            Err(LineRefused::Outside) => return Err(ScriptRefused::BadLine { line }),
            Err(LineRefused::NoMemory) => return Err(ScriptRefused::NoMemory),
        }
    }
    let script = reader.into_script(alloc)?;
    Ok(script)
}
