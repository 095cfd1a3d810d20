//! How a thread waits for a lock that is held for less time than it takes to sleep and to be woken.

use std::sync::atomic::AtomicU64;
use std::sync::atomic::Ordering::SeqCst;
use std::sync::{Mutex, MutexGuard, Wait};

/// How many additions a thread makes between two looks at a lock: they take some hundred nanoseconds.
const LOOK_ADDITIONS: u32 = 16;

/// Lets some time pass, without sleep: so many additions, of some six nanoseconds each, to a word that no other thread sees.
pub fn pause(additions: u32) {
    let own = AtomicU64::new(0);
    for _ in 0..additions {
        own.fetch_add(1, SeqCst);
    }
}

/// Locks, and looks so often whether the lock is free before the thread sleeps. Each look takes the lock's word, and what
/// stands beside it, from the processor of the thread that has the lock; so there is a pause between two of them.
pub fn spin_then_lock<'a, T, R: Wait>(rt: &R, lock: &'a Mutex<T>, looks: u32) -> MutexGuard<'a, T> {
    for _ in 0..looks {
        if let Some(value) = lock.try_lock() {
            return value;
        }
        pause(LOOK_ADDITIONS);
    }
    lock.lock(rt)
}
