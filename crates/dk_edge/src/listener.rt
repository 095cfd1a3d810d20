//! Where links come from.
ghost use Rattle.std.specs.Prelude.{◌≡◌, ◌≤◌, ℕ, IfOk, IfSome, OnOk, OnErr};
ghost use Rattle.dk_types.specs.Faults.{HasRisen, COUNT_END};
ghost use Rattle.dk_edge.specs.Listening.{Listening, IsUncalled, IsBound, after_accept};

use crate::link::Link;
use crate::sink::Sink;
use crate::source::Source;
use dk_types::Failed;

/// Whether a listener listens, and at which port.
#[derive(Clone, Copy, Debug, PartialEq, Eq)]
pub enum Binding {
    /// `bind` was not called.
    NotCalled,
    /// `bind` failed.
    Refused(u16),
    Bound(u16),
}

/// Listens at a port and gives the links that come, each with its counts at 0.
pub trait Listener {
    type In: Source;

    type Out: Sink;

    type Whole: Link;

    /// The port, how many links were given, and whether no more come.
    ghost listening: { Self → Listening };

    /// The count of faults. It never falls, and stays at 2^64 - 1.
    ghost counted: { Self → ℕ };

    /// Begins to listen. It is called once.
    fn bind(&mut self, port: u16) -> Result<(), Failed>
        requires { IsUncalled (listening self.old) }
        ensures ok { OnOk result (listening self.new ≡ record (listening self.old) { binding = Binding.Bound port }) }
        ensures refused { OnErr result (listening self.new ≡ record (listening self.old) { binding = Binding.Refused port }) }
        ensures steady { OnOk result (counted self.new ≡ counted self.old) }
        ensures cause { OnErr result (HasRisen (counted self.old) (counted self.new)) }
        ensures most { counted self.new ≤ COUNT_END };

    /// The next link as two streams, or none where no more come.
    fn accept(&mut self) -> Result<Option<(Self::In, Self::Out)>, Failed>
        requires { IsBound (listening self.old) }
        ensures given { IfOk result (λ link. listening self.new ≡ after_accept link (listening self.old)) }
        ensures fresh { IfOk result (λ link. IfSome link (λ p. (Self.In.counted p.0 ≡ 0) × (Self.Out.counted p.1 ≡ 0))) }
        ensures refused { OnErr result (listening self.new ≡ listening self.old) }
        ensures steady { OnOk result (counted self.new ≡ counted self.old) }
        ensures cause { OnErr result (HasRisen (counted self.old) (counted self.new)) }
        ensures most { counted self.new ≤ COUNT_END };

    /// The next link as one, or none where no more come.
    fn accept_link(&mut self) -> Result<Option<Self::Whole>, Failed>
        requires { IsBound (listening self.old) }
        ensures given { IfOk result (λ link. listening self.new ≡ after_accept link (listening self.old)) }
        ensures fresh { IfOk result (λ link. IfSome link (λ l. (Self.Whole.take_counted l ≡ 0) × (Self.Whole.put_counted l ≡ 0))) }
        ensures refused { OnErr result (listening self.new ≡ listening self.old) }
        ensures steady { OnOk result (counted self.new ≡ counted self.old) }
        ensures cause { OnErr result (HasRisen (counted self.old) (counted self.new)) }
        ensures most { counted self.new ≤ COUNT_END };

    /// How often the listener has failed.
    fn faults(&self) -> u64
        ensures { result ≡ counted self.now };
}
