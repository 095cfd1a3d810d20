//! The clock of the system.

use crate::clock::Clock;
use std::thread;
use std::time::{self, Duration, SystemTime};

/// The system's clock, which counts the ms since the beginning of 1970, so that what is due goes on being due over a
/// restart. It gives 0 where the system gives no moment.
#[derive(Drop)]
pub struct SystemClock<'a, R: time::Clock> {
    rt: &'a R,
}

/// How long a pause is.
const PAUSE_MS: u64 = 10;

impl<'a, R: time::Clock> SystemClock<'a, R> {
    /// The clock of this runtime's system.
    pub fn new(rt: &'a R) -> SystemClock<'a, R> {
        SystemClock { rt }
    }
}

impl<'a, R: time::Clock> Clock for SystemClock<'a, R> {
    fn now(&self) -> u64 {
        let Ok(moment) = SystemTime::now(self.rt) else {
            return 0;
        };
        match moment.duration_since(SystemTime::UNIX_EPOCH) {
            Ok(since) => u64::try_from(since.as_millis()).unwrap_or(0),
            Err(_) => 0,
        }
    }

    fn pause(&self) {
        thread::sleep(self.rt, Duration::from_millis(PAUSE_MS));
    }
}
