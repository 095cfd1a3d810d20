//! The calls on a home in memory and what its files held at first, from the files and what takes the calls
//! back.
ghost use Rattle.std.specs.Prelude.{◌≡◌, ◌∷◌, [], length, IfOk, OnOk};
ghost use Rattle.dk_disk.specs.Disk.{IsImage, settled};
ghost use Rattle.dk_disk.specs.Record.{replayed};
ghost use Rattle.dk_disk.specs.Memory.{first_of};
ghost use Rattle.dk_disk.specs.Torn.{IsTorn};
ghost use Rattle.dk_disk.specs.UndoRecord.{as_undo, IsTraced};
ghost use Rattle.dk_disk.specs.Unwinding.{unwound, before, undone, call_behind};

use crate::call_record::{CallRecord, Recorded};
use crate::replay::Replay;
use crate::step::Step;
use crate::torn::Torn;
use crate::undo_record::{Trace, UndoRecord, Undoing};
use dk_types::{NoMemory, Side};
use std::alloc::Global;
use std::marker::Model;

/// Both files as they were at some moment, and the calls since.
#[derive(Drop)]
pub(crate) struct Unwinding {
    alloc: Global,
    zero: Vec<u8>,
    one: Vec<u8>,
    calls: CallRecord,
}

impl Model for Unwinding {
    ghost use Rattle.dk_disk.specs.Unwinding.{Unwound};

    ghost Value = { Unwound };

    ghost view = { λ u. record { zero = u.zero.items; one = u.one.items; calls = u.calls } };
}

impl Unwinding {
    /// The files as they are.
    fn begin(alloc: Global, zero: &[u8], one: &[u8]) -> Result<Unwinding, NoMemory>
        ensures { IfOk result (λ past. past ≡ record { zero = zero.now; one = one.now; calls = [] }) }
    {
        Ok(Unwinding {
            alloc,
            zero: zero.to_vec(alloc)?,
            one: one.to_vec(alloc)?,
            calls: CallRecord::new(alloc),
        })
    }

    /// The files before the first call, and all calls. It copies what was ever written.
    pub(crate) fn of(
        alloc: Global,
        zero: &[u8],
        one: &[u8],
        undos: &UndoRecord,
    ) -> Result<Unwinding, NoMemory>
        ensures { IfOk result (λ past. past ≡ unwound undos.now.undos zero.now one.now) }
    {
        let mut past = Unwinding::begin(alloc, zero, one)?;
        let count = undos.count();
        'undos: for done in 0..count {
            past.take_back(&undos.undo(count - 1 - done))?;
        }
        Ok(past)
    }

    /// Goes back before the call that came before.
    fn take_back(&mut self, undo: &Undoing<'_>) -> Result<(), NoMemory>
        requires { IsTraced undo.now.trace (length undo.now.bytes.now) }
        ensures { OnOk result (self.new ≡ before undo.now.side (as_undo undo.now) self.old) }
    {
        match undo.side {
            Side::Zero => take_file_back(self.alloc, &mut self.zero, &mut self.calls, undo),
            Side::One => take_file_back(self.alloc, &mut self.one, &mut self.calls, undo),
        }
    }

    fn file(&self, side: Side) -> &[u8]
        ensures { result.now ≡ first_of self.now.zero self.now.one side }
    {
        match side {
            Side::Zero => &self.zero,
            Side::One => &self.one,
        }
    }

    /// The image of a file that was asked for, as a stop may have left it at this moment.
    pub(crate) fn image(&self, side: Side, moment: u64, torn: Torn) -> Result<Vec<u8>, NoMemory>
        ensures image { IfOk result (λ image. IsImage (replayed moment side self.now.calls (settled (first_of self.now.zero self.now.one side))) image.items) }
        ensures torn { IfOk result (λ image. IsTorn torn (replayed moment side self.now.calls (settled (first_of self.now.zero self.now.one side))) image.items) }
    {
        let replay = Replay::at_moment(self.alloc, self.file(side), &self.calls, side, moment)?;
        replay.image(torn)
    }
}

/// Makes of a file what it was before a call, and puts the call before the others.
fn take_file_back(
    alloc: Global,
    file: &mut Vec<u8>,
    calls: &mut CallRecord,
    undo: &Undoing<'_>,
) -> Result<(), NoMemory>
    requires { IsTraced undo.now.trace (length undo.now.bytes.now) }
    ensures file { OnOk result (file.new.items ≡ undone undo.now.trace undo.now.is_made undo.now.bytes.now file.old.items) }
    ensures calls { OnOk result (calls.new ≡ call_behind (as_undo undo.now) file.old.items ∷ calls.old) }
{
    match undo.trace {
        Trace::Write { at, count } => {
            if undo.is_made {
                let rest = file[at.min(file.len())..].to_vec(alloc)?;
                let reach = count.min(rest.len());
                calls.put_first(&call_of(
                    undo,
                    Step::Write {
                        at,
                        bytes: &rest[..reach],
                    },
                ))?;
                file.truncate(at);
                file.extend_from_slice(undo.bytes)?;
                file.extend_from_slice(&rest[reach..])?;
                Ok(())
            } else {
                calls.put_first(&call_of(
                    undo,
                    Step::Write {
                        at,
                        bytes: undo.bytes,
                    },
                ))
            }
        }
        Trace::Cut { to } => {
            calls.put_first(&call_of(undo, Step::Cut { to }))?;
            file.extend_from_slice(undo.bytes)?;
            Ok(())
        }
        Trace::Sync => calls.put_first(&call_of(undo, Step::Sync)),
    }
}

/// The call with this step.
fn call_of<'a>(undo: &Undoing<'_>, step: Step<'a>) -> Recorded<'a>
    ensures { result ≡ record { number = undo.now.number; side = undo.now.side; step = step.entry; is_made = undo.now.is_made } }
{
    Recorded {
        number: undo.number,
        side: undo.side,
        step,
        is_made: undo.is_made,
    }
}
