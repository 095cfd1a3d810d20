//! A clock that stands still.
ghost use Rattle.std.specs.Prelude.{◌≡◌};

use crate::clock::Clock;

/// A clock that always gives one moment, in ms, and never waits.
#[derive(Clone, Copy, Debug)]
pub struct FixedClock {
    moment: u64,
}

impl FixedClock {
    /// A clock that stands at this moment, in ms.
    pub fn new(moment: u64) -> FixedClock
        ensures { result.moment ≡ moment }
    {
        FixedClock { moment }
    }
}

impl Clock for FixedClock {
    fn now(&self) -> u64
        ensures { result ≡ self.now.moment }
    {
        self.moment
    }

    fn pause(&self) {}
}
