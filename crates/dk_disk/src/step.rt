//! What a call on a file is to do.

/// A write with its bytes, a cut to a length, or a sync.
#[derive(Clone, Copy)]
pub(crate) enum Step<'a> {
    Write { at: usize, bytes: &'a [u8] },
    Cut { to: usize },
    Sync,
}

impl Step<'_> {
    ghost use Rattle.std.specs.Prelude.{◌≡◌, ◌<◌, ◌^◌};
    ghost use Rattle.dk_disk.specs.Step.{step_size};

    /// For how many bytes it needs room.
    pub(crate) fn size(&self) -> usize
        ensures size { result ≡ step_size self.now }
        ensures small { result < 2 ^ 63 }
    {
        match self {
            Step::Write { at: _, bytes } => bytes.len(),
            Step::Cut { to: _ } => 0,
            Step::Sync => 0,
        }
    }
}
