//! Where bytes come from.
ghost use Rattle.std.specs.Prelude.{◌≡◌, ◌<◌, ◌≤◌, ℕ, List, Option, length, OnOk, OnErr};
ghost use Rattle.dk_types.specs.Faults.{HasRisen, COUNT_END};
ghost use Rattle.dk_edge.specs.Streams.{Takes};

use dk_types::Failed;

/// A stream of bytes that is read from its front to its end.
pub trait Source {
    /// The bytes that are left, or `None` where the source does not tell them.
    ghost remaining: { Self → Option (List ℕ) };

    /// The count of faults. It never falls, and stays at 2^64 - 1.
    ghost counted: { Self → ℕ };

    /// Puts some of the bytes that are left at the front of `into`, and answers how many. Ok 0 is the
    /// end of the stream. A call that failed lost no byte.
    fn take(&mut self, into: &mut [u8]) -> Result<usize, Failed>
        requires { 0 < length into.old }
        ensures bytes { Takes (remaining self.old) (remaining self.new) into.new result }
        ensures steady { OnOk result (counted self.new ≡ counted self.old) }
        ensures cause { OnErr result (HasRisen (counted self.old) (counted self.new)) }
        ensures most { counted self.new ≤ COUNT_END };

    /// How often the source has failed.
    fn faults(&self) -> u64
        ensures { result ≡ counted self.now };
}
