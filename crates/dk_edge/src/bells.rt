//! Bells: whoever has something for a connection wakes the thread that waits for its link.
//!
//! A thread that polls a link over a socket sleeps until the socket is ready. What comes for its session from elsewhere, a
//! message that another session's task sent, would find it asleep. So each such link hangs a bell, and whoever committed a
//! message for its connection rings it. A bell that is rung too often costs a poll, and one that is not rung is made up for
//! by the next poll; so no contract speaks of them.

use dk_types::ConnNo;
use mio::Waker;
use std::alloc::{AllocError, Global};
use std::sync::atomic::{AtomicBool, AtomicU64, Ordering};
use std::sync::{Arc, Mutex, Wait};

/// How many bells there are, and so for how many links at one time one can be hung.
pub const BELLS_COUNT: usize = 256;

// What stands for the connection of a bell that no link has, and of one whose link has no connection yet. Connections have
// numbers below 2^62.
const FREE: u64 = u64::MAX;

const UNNAMED: u64 = u64::MAX - 1;

// Of which connection a bell is, and what wakes its thread.
#[derive(Drop)]
struct Bell {
    conn: AtomicU64,
    // Whether its thread sleeps, or looks once more before it does.
    awaited: AtomicBool,
    waker: Mutex<Option<Waker>>,
}

impl Bell {
    // Whether the link is of this connection.
    fn is_of(&self, conn: ConnNo) -> bool {
        self.conn.load(Ordering::SeqCst) == conn.0
    }

    // Wakes who waits for the link; who is awake needs no ring.
    fn ring<R: Wait>(&self, rt: &R) {
        if !self.awaited.load(Ordering::SeqCst) {
            return;
        }
        if let Some(waker) = &*self.waker.lock(rt) {
            // One that the system refuses is made up for by the next poll.
            let _ = waker.wake();
        }
    }

    // Takes it, if no link has it.
    fn take(&self) -> bool {
        self.conn
            .compare_exchange(FREE, UNNAMED, Ordering::SeqCst, Ordering::SeqCst)
            .is_ok()
    }

    // Lets go of what wakes its thread, which is an open file. Where somebody rings it at this moment, who takes it next does.
    fn silence(&self) {
        if let Some(mut waker) = self.waker.try_lock() {
            *waker = None;
        }
    }
}

/// The bells of a server.
#[derive(Drop)]
pub struct Bells {
    bells: Vec<Bell>,
    // For each remainder of a connection's number, the place of the bell that was named last for a connection of it.
    places: Vec<AtomicU64>,
    // How many bells are of links whose threads are awake.
    awake: AtomicU64,
    // How many bells links have or had, which are the first ones.
    used: AtomicU64,
}

impl Bells {
    /// Bells that no link has.
    pub fn new(alloc: Global) -> Result<Bells, AllocError> {
        let mut bells = Vec::new(alloc);
        let mut places = Vec::new(alloc);
        for _bell in 0..BELLS_COUNT {
            bells.push(Bell {
                conn: AtomicU64::new(FREE),
                awaited: AtomicBool::new(false),
                waker: Mutex::new(None),
            })?;
            places.push(AtomicU64::new(0))?;
        }
        Ok(Bells {
            bells,
            places,
            awake: AtomicU64::new(0),
            used: AtomicU64::new(0),
        })
    }

    // The bells that links have or had, which are the first ones.
    fn used(&self) -> &[Bell] {
        let count = self.used.load(Ordering::SeqCst) as usize;
        match self.bells.get(..count) {
            Some(bells) => bells,
            None => self.bells.as_slice(),
        }
    }

    // Where the place of a connection's bell is kept, along with those of the other connections of its remainder.
    fn place(&self, conn: ConnNo) -> Option<&AtomicU64> {
        self.places.get(conn.0 as usize % BELLS_COUNT)
    }

    // The bell of a connection, if a link has it. Only where another connection of its remainder was named since, or none
    // has it, are all bells looked at.
    fn bell_of(&self, conn: ConnNo) -> Option<&Bell> {
        let at = self.place(conn)?.load(Ordering::SeqCst) as usize;
        match self.bells.get(at) {
            Some(bell) if bell.is_of(conn) => Some(bell),
            _ => self.used().iter().find(|bell| bell.is_of(conn)),
        }
    }

    /// Wakes who waits for the links of these connections.
    pub fn ring<R: Wait>(&self, rt: &R, conns: &[ConnNo]) {
        for conn in conns {
            if let Some(bell) = self.bell_of(*conn) {
                bell.ring(rt);
            }
        }
    }

    /// Wakes who waits for any link.
    pub fn ring_all<R: Wait>(&self, rt: &R) {
        for bell in self.used() {
            if bell.conn.load(Ordering::SeqCst) < UNNAMED {
                bell.ring(rt);
            }
        }
    }
}

/// A bell of a link, which nobody has once it is dropped.
pub(crate) struct HungBell {
    bells: Arc<Bells>,
    at: usize,
}

impl HungBell {
    // A bell that wakes by this waker, if there is one that no link has.
    pub(crate) fn hang<R: Wait>(rt: &R, bells: Arc<Bells>, waker: Waker) -> Option<HungBell> {
        let at = bells.bells.iter().position(Bell::take)?;
        *bells.bells.get(at)?.waker.lock(rt) = Some(waker);
        bells.awake.fetch_add(1, Ordering::SeqCst);
        bells
            .used
            .fetch_max((at as u64).saturating_add(1), Ordering::SeqCst);
        Some(HungBell { bells, at })
    }

    // How many links are polled by threads that are awake, this one among them where it is.
    pub(crate) fn awake_count(&self) -> u64 {
        self.bells.awake.load(Ordering::SeqCst)
    }

    // Its thread goes to sleep: it is rung from now on. Who awaits a ring looks once more before that, for what came before.
    pub(crate) fn await_ring(&self) {
        if let Some(bell) = self.bells.bells.get(self.at) {
            if !bell.awaited.swap(true, Ordering::SeqCst) {
                self.bells.awake.fetch_sub(1, Ordering::SeqCst);
            }
        }
    }

    // Its thread is awake, and needs no ring.
    pub(crate) fn has_woken(&self) {
        if let Some(bell) = self.bells.bells.get(self.at) {
            if bell.awaited.swap(false, Ordering::SeqCst) {
                self.bells.awake.fetch_add(1, Ordering::SeqCst);
            }
        }
    }

    // From now on it is of this connection.
    pub(crate) fn name(&self, conn: ConnNo) {
        if let Some(bell) = self.bells.bells.get(self.at) {
            bell.conn.store(conn.0, Ordering::SeqCst);
        }
        if let Some(place) = self.bells.place(conn) {
            place.store(self.at as u64, Ordering::SeqCst);
        }
    }
}

impl Drop for HungBell {
    fn drop(self) {
        let HungBell { bells, at } = self;
        if let Some(bell) = bells.bells.get(at) {
            if !bell.awaited.swap(false, Ordering::SeqCst) {
                bells.awake.fetch_sub(1, Ordering::SeqCst);
            }
            bell.silence();
            bell.conn.store(FREE, Ordering::SeqCst);
        }
    }
}
