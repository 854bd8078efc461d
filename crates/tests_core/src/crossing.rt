//! A gate that leads workers into a ring.

use crate::pace::Watch;
use std::sync::atomic::{AtomicU64, Ordering};
use std::time::Clock;
use workers::Gate;

/// A gate at which a worker whose thread has its first lock waits until that of another has one.
#[derive(Drop)]
pub struct Crossing<C: Clock> {
    clock: C,
    watch: Watch,
    /// How many threads have had a first lock.
    locked: AtomicU64,
}

impl<C: Clock> Crossing<C> {
    /// A gate that nobody has asked yet.
    pub fn new(clock: C) -> Crossing<C> {
        Crossing {
            clock,
            watch: Watch::new(),
            locked: AtomicU64::new(0),
        }
    }

    /// What the workers asked with.
    pub fn watch(&self) -> &Watch {
        &self.watch
    }
}

impl<C: Clock> Gate for Crossing<C> {
    fn before(&self, worker: u32, count: u64) -> bool {
        if count == 2 && self.watch.counts_of(worker as usize) == 2 {
            self.locked.fetch_add(1, Ordering::SeqCst);
        }
        self.watch.note(worker, count);
        if count == 2 {
            self.watch.await_number(&self.clock, &self.locked, 2);
        }
        true
    }
}
