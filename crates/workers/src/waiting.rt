//! Waiting for the lock that the workers share, and for something to do.

use std::sync::{Mutex, MutexGuard, Wait};
use std::thread;

/// How often a lock that others hold is tried, before a worker sleeps until it is handed over.
const TRIES: u32 = 256;

/// The most yields between two tries.
const LONGEST_PAUSE: u32 = 64;

/// The lock, as soon as it is found free. Between two tries a worker pauses longer and longer:
/// sleeping and being woken at each turn, or trying at once again, takes several times as long as
/// a turn, and takes it from the worker that holds the lock.
pub(crate) fn lock_when_free<'a, T, R: Wait>(rt: &R, shared: &'a Mutex<T>) -> MutexGuard<'a, T> {
    for tried in 0..TRIES {
        if let Some(guard) = shared.try_lock() {
            return guard;
        }
        pause(tried);
    }
    shared.lock(rt)
}

/// Lets other threads run, the longer the more often nothing could be done.
pub(crate) fn pause(times: u32) {
    for _ in 0..times.min(LONGEST_PAUSE) {
        thread::yield_now();
    }
}
