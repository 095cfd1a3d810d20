//! That one thread of the sessions runs jobs.

use std::sync::atomic::{AtomicBool, Ordering};

/// Whether a thread of a session runs jobs. One does at a time.
#[derive(Drop)]
pub(crate) struct Helping {
    taken: AtomicBool,
}

impl Helping {
    /// None does.
    pub(crate) fn new() -> Helping {
        Helping {
            taken: AtomicBool::new(false),
        }
    }

    /// Whether none did; then the caller does, until it leaves.
    pub(crate) fn enter(&self) -> bool {
        !self.taken.swap(true, Ordering::SeqCst)
    }

    /// Who entered runs jobs no more.
    pub(crate) fn leave(&self) {
        self.taken.store(false, Ordering::SeqCst);
    }
}
