//! What a command reads.
ghost use Rattle.std.specs.Prelude.{◌≤◌, length, IfOk, IfSome};
ghost use Rattle.std.specs.FinSet as sets;
ghost use Rattle.std.specs.List.{sum_by};
ghost use Rattle.dk_model.specs.Scripts.{AllStand, IsBadLine};
ghost use Rattle.dk_streams.specs.Sources.{IsReadScript, ReadsFront, ReadsNear, ReadsOut};
ghost use Rattle.dk_streams.specs.Refusals.{CountsRead, IfBadLine, ReadsFewAt};

use dk_edge::Source;
use dk_model::limits::SCRIPT_MOST_BYTES;
use dk_script::{Script, ScriptRefused, parse_script};
use dk_types::{Failed, NoMemory};
use std::alloc::{AllocError, Global};

/// The most bytes of one call on the source.
pub const PIECE_BYTES: usize = 8_192;

/// Why no script was read.
#[derive(Clone, Copy, Debug, PartialEq, Eq)]
pub enum Refused {
    NoMemory,
    /// The source failed.
    ReadFault,
    /// The line of this number is the first that is no line of a script, or has the byte behind as many as a script may have.
    BadScript { line: u64 },
}

impl From<NoMemory> for Refused {
    ghost use Rattle.std.specs.Prelude.{◌≡◌};
    ghost use Rattle.dk_streams.specs.declared.reading.Refused.TheVariants.{NoMemory as no_memory};

    ghost from_gives = { λ _ e. e ≡ no_memory };

    fn from(_: NoMemory) -> Self {
        Refused::NoMemory
    }
}

impl From<AllocError> for Refused {
    ghost use Rattle.std.specs.Prelude.{◌≡◌};
    ghost use Rattle.dk_streams.specs.declared.reading.Refused.TheVariants.{NoMemory as no_memory};

    ghost from_gives = { λ _ e. e ≡ no_memory };

    fn from(_: AllocError) -> Self {
        Refused::NoMemory
    }
}

impl From<Failed> for Refused {
    ghost use Rattle.std.specs.Prelude.{◌≡◌};
    ghost use Rattle.dk_streams.specs.declared.reading.Refused.TheVariants.{ReadFault as read_fault};

    ghost from_gives = { λ _ e. e ≡ read_fault };

    fn from(_: Failed) -> Self {
        Refused::ReadFault
    }
}

/// Reads the source to its end as a script. Its bytes are let go before this returns.
pub fn read_script<S: Source>(alloc: Global, input: &mut S) -> Result<Script, Refused>
    ensures ok { IfOk result (λ script. IsReadScript (S.remaining input.old) (S.remaining input.new) script.phases) }
    ensures stand { IfOk result (λ script. AllStand sets.empty script.phases) }
    ensures few { IfOk result (λ script. sum_by length script.phases ≤ SCRIPT_MOST_BYTES) }
    ensures bad_line { IfBadLine result (λ line. IfSome (S.remaining input.old) (λ bytes. IsBadLine bytes line)) }
    ensures few_read { ReadsFewAt result (S.remaining input.old) (S.remaining input.new) }
    ensures near { ReadsNear (S.remaining input.old) (S.remaining input.new) }
    ensures read_out { IfBadLine result (λ _. ReadsOut (S.remaining input.old) (S.remaining input.new)) }
    ensures count { CountsRead result (S.counted input.old) (S.counted input.new) }
{
    let bytes = read_all(alloc, input)?;
    match parse_script(alloc, bytes.as_slice()) {
        Ok(script) => Ok(script),
        Err(ScriptRefused::BadLine { line }) => Err(Refused::BadScript { line }),
        Err(ScriptRefused::NoMemory) => Err(Refused::NoMemory),
    }
}

/// The bytes up to the end of the source, or so many of them that they are more than a script may have.
fn read_all<S: Source>(alloc: Global, input: &mut S) -> Result<Vec<u8>, Refused>
    ensures ok { IfOk result (λ bytes. ReadsFront (S.remaining input.old) (S.remaining input.new) bytes.items) }
    ensures good { IfBadLine result (λ _. ⊥) }
    ensures few_read { ReadsFewAt result (S.remaining input.old) (S.remaining input.new) }
    ensures near { ReadsNear (S.remaining input.old) (S.remaining input.new) }
    ensures count { CountsRead result (S.counted input.old) (S.counted input.new) }
{
    let mut bytes = Vec::new(alloc);
    let mut piece = [0u8; PIECE_BYTES];
    'pieces: loop {
        let count = input.take(&mut piece)?;
        bytes.extend_from_slice(&piece[..count])?;
        if count == 0 || bytes.len() as u64 > SCRIPT_MOST_BYTES {
            return Ok(bytes);
        }
    }
}
