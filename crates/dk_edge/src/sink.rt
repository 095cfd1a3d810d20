//! Where bytes go.
ghost use Rattle.std.specs.Prelude.{◌≡◌, ◌<◌, ◌≤◌, ℕ, List, Option, OnOk, OnErr};
ghost use Rattle.dk_types.specs.Faults.{HasRisen, COUNT_END};
ghost use Rattle.dk_edge.specs.Streams.{Puts};

use dk_types::Failed;

/// A stream of bytes that grows at its end.
pub trait Sink {
    /// The bytes that were put, or `None` where the sink does not tell them.
    ghost contents: { Self → Option (List ℕ) };

    /// The count of faults. It never falls, and stays at 2^64 - 1.
    ghost counted: { Self → ℕ };

    /// Appends all the bytes. A call that failed appended some of them, from the first on, or none.
    fn put(&mut self, bytes: &[u8]) -> Result<(), Failed>
        ensures bytes { Puts (contents self.old) (contents self.new) bytes.now result }
        ensures steady { OnOk result (counted self.new ≡ counted self.old) }
        ensures cause { OnErr result (HasRisen (counted self.old) (counted self.new)) }
        ensures most { counted self.new ≤ COUNT_END };

    /// How often the sink has failed.
    fn faults(&self) -> u64
        ensures { result ≡ counted self.now };
}
