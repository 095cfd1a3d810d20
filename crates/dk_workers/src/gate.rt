//! What hears of a worker's commits.

use crate::recipients::Recipients;
use dk_types::RunNo;

/// What stands between the runs of workers and their commits. A worker calls it; it may hold the worker up, and does
/// nothing to the world.
pub trait Gate {
    /// Comes before each try of a commit, also of a run that is tried again.
    fn before_commit(&self, worker: u32, run: RunNo);

    /// Comes after each commit that was answered Ok, with the connections that it sent messages to.
    fn after_commit(&self, worker: u32, run: RunNo, recipients: &Recipients);
}

/// A gate that holds nobody up.
#[derive(Clone, Copy, Debug)]
pub struct OpenGate;

impl Gate for OpenGate {
    fn before_commit(&self, _worker: u32, _run: RunNo) {}

    fn after_commit(&self, _worker: u32, _run: RunNo, _recipients: &Recipients) {}
}
