//! The frame at the front of bytes.
ghost use Rattle.std.specs.Prelude.{◌≡◌, ◌<◌, ◌≢◌, IfOk, IfSome, IfNone, length};
ghost use Rattle.dk_model.specs.Frames.{States};
ghost use Rattle.dk_frame.specs.Meanings.{stage_of};
ghost use Rattle.dk_frame.specs.Fronts.{IsFront};

use crate::fields::frame_of;
use crate::frame::{ClientFrame, FrameFault};
use crate::limits::{FRAME_LENGTH_MOST_BYTES, LENGTH_BYTES};
use crate::stage::Stage;
use dk_types::NoMemory;
use dk_wire::Reader;
use std::alloc::Global;

/// What stands at the front of bytes.
#[derive(Drop)]
pub(crate) enum Front {
    /// A frame, which takes so many bytes.
    Whole { frame: ClientFrame, taken: usize },
    /// Less than a frame.
    Partial,
    Bad(FrameFault),
}

impl Front {
    /// What stands at the front of these bytes, where `stage` says what may come.
    pub(crate) fn of(alloc: Global, stage: Stage, bytes: &[u8]) -> Result<Front, NoMemory>
        ensures { IfOk result (IsFront (stage_of stage) bytes.now) }
    {
        let Some((len, behind)) = length_of(bytes) else {
            return Ok(Front::Partial);
        };
        if len == 0 || len > FRAME_LENGTH_MOST_BYTES {
            return Ok(Front::Bad(FrameFault::Length));
        }
        let Some((opcode, fields)) = behind.split_first() else {
            return Ok(Front::Partial);
        };
        if !stage.admits(*opcode) {
            return Ok(Front::Bad(FrameFault::Opcode));
        }
        let len = len as usize;
        if behind.len() < len {
            return Ok(Front::Partial);
        }
        match frame_of(alloc, *opcode, &fields[..len - 1])? {
            Some(frame) => Ok(Front::Whole {
                frame,
                taken: LENGTH_BYTES + len,
            }),
            None => Ok(Front::Bad(FrameFault::Field)),
        }
    }
}

/// The length at the front, and what stands behind it; nothing where there are fewer than four bytes.
pub(crate) fn length_of(bytes: &[u8]) -> Option<(u32, &[u8])>
    ensures found { IfSome result (λ found. States bytes.now found.0 found.1.now) }
    ensures none { IfNone result (length bytes.now < 4) }
{
    let mut reader = Reader::new(bytes);
    match reader.take_u32() {
        Ok(len) => {
            let (_, behind) = bytes.split_at(LENGTH_BYTES);
            Some((len, behind))
        }
        Err(_) => None,
    }
}
