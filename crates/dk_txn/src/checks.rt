//! What a call looks at before it does anything.
ghost use Rattle.std.specs.Prelude.{◌≡◌, ◌≤◌, ◌||◌, ◌==◌, nat_lt, false, Some, length};
ghost use Rattle.dk_types.specs.declared.limits.TheConstants.{DELAY_MOST_MS, PERIOD_MOST_MS};
ghost use Rattle.dk_types.specs.declared.fault.AppFault.TheVariants.{Refused};
ghost use Rattle.dk_model.specs.Runs as act;
ghost use Rattle.dk_txn.specs.Refusals.{refusal_fault, TellsLength};

use crate::refusal::Refusal;
use dk_model::Mode;
use dk_model::limits::{BODY_MOST_BYTES, DELAY_MOST_MS, PERIOD_MOST_MS};
use dk_types::{Blob, Name, Out};

/// Whether bytes are more than an object, an argument or a body may have.
pub(crate) fn is_too_long(body: &Blob) -> bool
    ensures { result ≡ act.is_too_long body.now }
{
    body.as_slice().len() as u64 > BODY_MOST_BYTES
}

/// Whether a game may not touch objects of this kind.
pub(crate) fn is_reserved_kind(mode: Mode, kind: u16) -> bool
    ensures { result ≡ act.is_reserved_kind mode kind }
{
    match mode {
        Mode::Game => kind >= 0xFF00,
        Mode::Platform => false,
    }
}

fn begins_with_dollar(bytes: &[u8]) -> bool
    ensures { result ≡ act.begins_with_dollar bytes.now }
{
    match bytes {
        [] => false,
        [first, ..] => *first == b'$',
    }
}

/// Whether a game may not touch this name.
pub(crate) fn is_reserved_name(mode: Mode, name: &Name) -> bool
    ensures { result ≡ act.is_reserved_name mode name.now }
{
    match mode {
        Mode::Game => begins_with_dollar(name.as_slice()),
        Mode::Platform => false,
    }
}

/// How many bytes the body of a message has, where it has one.
pub(crate) fn body_len(out: &Out) -> u64
    ensures { result ≡ length (act.body_of out.now) }
{
    match out {
        Out::Message(body) => body.as_slice().len() as u64,
        Out::Channel { channel: _, body } => body.as_slice().len() as u64,
        Out::Accepted | Out::Refused | Out::Close => 0,
    }
}

/// The refusal of bytes that are too long.
pub(crate) fn too_long(body: &Blob) -> Refusal
    ensures told { refusal_fault result ≡ Some (Refused 4) }
    ensures length { TellsLength body.now result }
{
    Refusal::TooLong {
        len: body.as_slice().len() as u64,
    }
}

/// Whether a delay or a period, in ms, is out of its limits.
pub(crate) fn is_bad_period(delay: u64, period: u64) -> bool
    ensures told { result ≡ (nat_lt DELAY_MOST_MS delay || nat_lt PERIOD_MOST_MS period || period == 0) }
    ensures near { result ≡ false → delay ≤ DELAY_MOST_MS }
{
    delay > DELAY_MOST_MS || period > PERIOD_MOST_MS || period == 0
}
