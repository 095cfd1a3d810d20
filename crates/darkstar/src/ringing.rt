//! A gate that wakes those to whom a commit sent messages, and says where nobody runs jobs any more.

use crate::serve::{ServeFault, ServerGate};
use crate::serve_command::served_status;
use dk_edge::Bells;
use dk_types::RunNo;
use dk_workers::{Gate, Recipients};
use std::io::Eprint;
use std::sync::atomic::{AtomicBool, Ordering};
use std::sync::{Arc, Wait};

/// A gate that holds nobody up, and rings for each connection that a commit sent messages to.
#[derive(Drop)]
pub struct RingingGate<'a, R: Wait + Eprint> {
    rt: &'a R,
    bells: Arc<Bells>,
    // Whether it was said that no session is answered any more.
    has_said: AtomicBool,
}

impl<'a, R: Wait + Eprint> RingingGate<'a, R> {
    /// A gate that rings these bells.
    pub fn new(rt: &'a R, bells: Arc<Bells>) -> RingingGate<'a, R> {
        RingingGate {
            rt,
            bells,
            has_said: AtomicBool::new(false),
        }
    }
}

impl<'a, R: Wait + Eprint> Gate for RingingGate<'a, R> {
    fn before_commit(&self, _worker: u32, _run: RunNo) {}

    fn after_commit(&self, _worker: u32, _run: RunNo, recipients: &Recipients) {
        match recipients.conns() {
            Some(conns) => self.bells.ring(self.rt, conns),
            None => self.bells.ring_all(self.rt),
        }
    }
}

impl<'a, R: Wait + Eprint> ServerGate for RingingGate<'a, R> {
    // The sessions that are open keep the server from coming back, so that it is said at once.
    fn give_up(&self, fault: ServeFault) {
        if self.has_said.swap(true, Ordering::SeqCst) {
            return;
        }
        let status = served_status(Err(fault));
        let _ = eprintln!(self.rt; "{status}");
        let _ = eprintln!(self.rt; "darkstar: no session is answered any more");
    }
}
