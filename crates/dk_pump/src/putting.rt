//! Messages as the bytes of their frames.
ghost use Rattle.std.specs.Prelude.{◌≡◌, All};
ghost use Rattle.dk_model.specs.Lawful.{HasShortBody};
ghost use Rattle.dk_pump.specs.Writing.{ArePut};

use dk_edge::Sink;
use dk_frame::encode_out;
use dk_types::{Failed, NoMemory, Out};
use std::alloc::Global;

/// Why not all frames were put.
pub(crate) enum PutRefused {
    /// The sink failed.
    Failed,
    NoMemory,
}

impl From<Failed> for PutRefused {
    ghost use Rattle.dk_pump.specs.declared.putting.PutRefused.TheVariants.{Failed as failed};

    ghost from_gives = { λ _ e. e ≡ failed };

    fn from(_: Failed) -> PutRefused {
        PutRefused::Failed
    }
}

impl From<NoMemory> for PutRefused {
    ghost use Rattle.dk_pump.specs.declared.putting.PutRefused.TheVariants.{NoMemory as no_memory};

    ghost from_gives = { λ _ e. e ≡ no_memory };

    fn from(_: NoMemory) -> PutRefused {
        PutRefused::NoMemory
    }
}

/// Puts the frames of messages, in order.
pub(crate) fn put_frames<K: Sink>(
    alloc: Global,
    sink: &mut K,
    outs: &[Out],
) -> Result<(), PutRefused>
    requires short { All HasShortBody outs.now }
    ensures put { ArePut result (K.contents sink.old) (K.contents sink.new) (K.counted sink.old) (K.counted sink.new) outs.now }
{
    for out in outs {
        let frame = encode_out(alloc, out)?;
        sink.put(frame.as_slice())?;
    }
    Ok(())
}
