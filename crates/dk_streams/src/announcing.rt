//! A listener that says on standard error when it listens.
ghost use Rattle.std.specs.Prelude.{◌≡◌};

use dk_edge::Listener;
use dk_types::Failed;
use std::io::Eprint;

/// A listener that does what another does, and says on standard error at which port it listens, and how many sessions were
/// served when it is told. Of what a player sends it says nothing.
#[derive(Drop)]
pub struct Announcing<'a, R, L: Listener> {
    rt: &'a R,
    inner: L,
    // At which port it listens.
    port: Option<u16>,
}

impl<'a, R: Eprint, L: Listener> Announcing<'a, R, L> {
    /// What this listener does is said by this runtime.
    pub fn new(rt: &'a R, inner: L) -> Announcing<'a, R, L>
        ensures { result.inner ≡ inner }
    {
        Announcing {
            rt,
            inner,
            port: None,
        }
    }

    /// Says how many sessions were served, if it listened.
    pub fn report_served(&self, number: u64) {
        if self.port.is_some() {
            let _ = eprintln!(self.rt; "darkstar: {number} sessions served");
        }
    }
}

impl<'a, R: Eprint, L: Listener> Listener for Announcing<'a, R, L> {
    type In = L::In;

    type Out = L::Out;

    type Whole = L::Whole;

    ghost listening = { λ l. L.listening l.inner };

    ghost counted = { λ l. L.counted l.inner };

    fn bind(&mut self, port: u16) -> Result<(), Failed> {
        self.inner.bind(port)?;
        self.port = Some(port);
        let _ = eprintln!(self.rt; "darkstar: listens at port {port}");
        Ok(())
    }

    fn accept(&mut self) -> Result<Option<(L::In, L::Out)>, Failed> {
        self.inner.accept()
    }

    fn accept_link(&mut self) -> Result<Option<L::Whole>, Failed> {
        self.inner.accept_link()
    }

    fn faults(&self) -> u64 {
        self.inner.faults()
    }
}
