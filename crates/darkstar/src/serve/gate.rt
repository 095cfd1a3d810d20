//! What hears of a server's commits, and of its end.

use super::verdict::ServeFault;
use dk_workers::{Gate, OpenGate};

/// A gate of a server.
pub trait ServerGate: Gate {
    /// Comes when a fault has ended whoever runs jobs. From then on no session is answered, and none ends whose end is still
    /// to be run.
    fn give_up(&self, _fault: ServeFault) {}
}

impl ServerGate for OpenGate {}
