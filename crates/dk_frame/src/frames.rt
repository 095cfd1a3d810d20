//! All whole frames at the front of bytes.
ghost use Rattle.std.specs.Prelude.{◌≡◌, ◌+◌, ◌^◌, ◌<◌, ◌≤◌, [], ◌++◌, length, IfOk, IfErr, IfSome, None};
ghost use Rattle.dk_frame.specs.Meanings.{stage_of};
ghost use Rattle.dk_frame.specs.Fronts.{IsRead, IsReadOn, IsReportedFault};

use crate::frame::{ClientFrame, FrameFault, FrameRefused};
use crate::front::Front;
use crate::messages::take_messages;
use crate::stage::Stage;
use dk_types::NoMemory;
use std::alloc::Global;

/// The whole frames at the front of bytes, and where they end.
#[derive(Drop)]
pub(crate) struct Frames {
    pub(crate) frames: Vec<ClientFrame>,
    pub(crate) taken: usize,
    pub(crate) stage: Stage,
    /// What is wrong with the next frame, if something is.
    pub(crate) fault: Option<FrameFault>,
}

impl Frames {
    /// All whole frames at the front of these bytes, where `start` says what may come.
    pub(crate) fn of(alloc: Global, start: Stage, bytes: &[u8]) -> Result<Frames, NoMemory>
        ensures { IfOk result (IsRead (stage_of start) bytes.now) }
    {
        let none = Frames {
            frames: Vec::new(alloc),
            taken: 0,
            stage: start,
            fault: None,
        };
        none.then(alloc, bytes)
    }

    /// The same of bytes in two parts, where the first part is whole frames; nothing where it is not.
    pub(crate) fn of_both(
        alloc: Global,
        start: Stage,
        first: &[u8],
        second: &[u8],
    ) -> Result<Option<Frames>, NoMemory>
        requires { length first.now + length second.now < 2 ^ 64 }
        ensures { IfOk result (λ found. IfSome found (λ read. IsRead (stage_of start) (first.now ++ second.now) read × (length first.now ≤ read.taken))) }
    {
        let read = Frames::of(alloc, start, first)?;
        if read.taken < first.len() {
            return Ok(None);
        }
        Ok(Some(read.then(alloc, second)?))
    }

    /// These frames, and then all whole frames at the front of the bytes behind them.
    fn then(self, alloc: Global, bytes: &[u8]) -> Result<Frames, NoMemory>
        requires { self.taken + length bytes.now < 2 ^ 64 }
        ensures read { IfOk result (IsReadOn self bytes.now) }
        ensures more { IfOk result (λ read. self.taken ≤ read.taken) }
    {
        let Frames {
            mut frames,
            taken: before,
            mut stage,
            fault: _,
        } = self;
        let mut taken = 0;
        'frames: while stage != Stage::LoggedOut {
            let (_, rest) = bytes.split_at(taken);
            let passed = take_messages(alloc, stage, &mut frames, rest)?;
            taken += passed;
            let (_, rest) = bytes.split_at(taken);
            match Front::of(alloc, stage, rest)? {
                Front::Whole { frame, taken: more } => {
                    stage = Stage::behind(&frame);
                    frames.push(frame)?;
                    taken += more;
                }
                Front::Partial => return Ok(Frames {
                    frames,
                    taken: before + taken,
                    stage,
                    fault: None,
                }),
                Front::Bad(why) => return Ok(Frames {
                    frames,
                    taken: before + taken,
                    stage,
                    fault: Some(why),
                }),
            }
        }
        Ok(Frames {
            frames,
            taken: before + taken,
            stage,
            fault: None,
        })
    }

    /// The frames or, where there are none, the fault that follows, of a frame at this place.
    pub(crate) fn answer(self, at: u64) -> Result<Vec<ClientFrame>, FrameRefused>
        ensures frames { IfOk result (λ frames. frames.items ≡ self.frames.items) }
        ensures told { IfOk result (λ frames. frames.items ≡ [] → self.fault ≡ None) }
        ensures refused { IfErr result (IsReportedFault self at) }
    {
        match self.fault {
            Some(why) if self.frames.is_empty() => Err(FrameRefused::BadFrame { at, why }),
            _ => Ok(self.frames),
        }
    }
}
