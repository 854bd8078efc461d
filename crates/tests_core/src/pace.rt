//! Gates that note what workers ask them with, and one that makes workers overlap.

use std::sync::atomic::{AtomicBool, AtomicU64, Ordering};
use std::time::{Clock, Duration};
use std::{array, thread};
use workers::Gate;

/// How many entries workers have to make side by side.
pub const TOGETHER: u64 = 100;

/// How often a call looks again, at most.
const TURNS: u64 = 1_000;

/// How long it sleeps before, in milliseconds.
const TURN: u64 = 10;

/// What a worker asked with.
#[derive(Drop)]
struct Asked {
    /// One more than its last count; 0 before its first call.
    next: AtomicU64,
    /// How often its count was that of its call before.
    again: AtomicU64,
}

impl Asked {
    /// Nothing yet.
    fn new() -> Asked {
        Asked {
            next: AtomicU64::new(0),
            again: AtomicU64::new(0),
        }
    }
}

/// A gate that lets all workers go on, and notes what each of them asks with. The counts of a
/// worker begin with 0, never fall, and rise by one at most: else the test has failed.
#[derive(Drop)]
pub struct Watch {
    asked: [Asked; 64],
    failed: AtomicBool,
}

impl Watch {
    /// A gate that nobody has asked yet.
    pub fn new() -> Watch {
        Watch {
            asked: array::from_fn(|_worker: usize| Asked::new()),
            failed: AtomicBool::new(false),
        }
    }

    /// Whether the test has failed.
    pub fn has_failed(&self) -> bool {
        self.failed.load(Ordering::SeqCst)
    }

    /// The test has failed.
    pub fn fail(&self) {
        self.failed.store(true, Ordering::SeqCst);
    }

    /// With how many counts, 0 and those above it, a worker has asked.
    pub fn counts_of(&self, worker: usize) -> u64 {
        match self.asked.get(worker) {
            Some(asked) => asked.next.load(Ordering::SeqCst),
            None => 0,
        }
    }

    /// How often a worker asked with the count of its call before.
    pub fn repeats_of(&self, worker: usize) -> u64 {
        match self.asked.get(worker) {
            Some(asked) => asked.again.load(Ordering::SeqCst),
            None => 0,
        }
    }

    /// Whether each worker asked last with the count that it ended with.
    pub fn ended_with(&self, counts: &[u64]) -> bool {
        for worker in 0..counts.len() {
            if self.counts_of(worker) != counts[worker].saturating_add(1) {
                return false;
            }
        }
        !self.has_failed()
    }

    /// A worker asks.
    pub fn note(&self, worker: u32, count: u64) {
        let Some(asked) = self.asked.get(worker as usize) else {
            self.fail();
            return;
        };
        let next = count.saturating_add(1);
        let last = asked.next.swap(next, Ordering::SeqCst);
        if last == next {
            asked.again.fetch_add(1, Ordering::SeqCst);
        } else if last != count {
            self.fail();
        }
    }

    /// Waits until a worker has asked with so many counts.
    pub fn await_counts<C: Clock>(&self, clock: &C, worker: usize, counts: u64) {
        if let Some(asked) = self.asked.get(worker) {
            self.await_number(clock, &asked.next, counts);
        }
    }

    /// Waits until a worker has asked so often with the count of its call before.
    pub fn await_repeats<C: Clock>(&self, clock: &C, worker: usize, repeats: u64) {
        if let Some(asked) = self.asked.get(worker) {
            self.await_number(clock, &asked.again, repeats);
        }
    }

    /// Waits until a number is so large. Who waits in vain fails the test, and from then on nobody
    /// waits any more, so that the test comes to its end.
    pub fn await_number<C: Clock>(&self, clock: &C, number: &AtomicU64, least: u64) {
        for _turn in 0..TURNS {
            if number.load(Ordering::SeqCst) >= least || self.has_failed() {
                return;
            }
            thread::sleep(clock, Duration::from_millis(TURN));
        }
        self.fail();
    }
}

impl Gate for Watch {
    fn before(&self, worker: u32, count: u64) -> bool {
        self.note(worker, count);
        true
    }
}

/// A gate that makes workers overlap: a call with a count below a bound waits until each of the
/// other workers has asked with as much. So no thread can serve two of them.
#[derive(Drop)]
pub struct Pace<C: Clock> {
    clock: C,
    workers: usize,
    bound: u64,
    watch: Watch,
}

impl<C: Clock> Pace<C> {
    /// A gate for so many workers that nobody has asked yet.
    pub fn new(clock: C, workers: usize, bound: u64) -> Pace<C> {
        Pace {
            clock,
            workers,
            bound,
            watch: Watch::new(),
        }
    }

    /// The bound.
    pub fn bound(&self) -> u64 {
        self.bound
    }

    /// What the workers asked with.
    pub fn watch(&self) -> &Watch {
        &self.watch
    }

    /// Whether all workers asked with all counts below the bound, and none waited in vain.
    pub fn held(&self) -> bool {
        for worker in 0..self.workers {
            if self.watch.counts_of(worker) < self.bound {
                return false;
            }
        }
        !self.watch.has_failed()
    }
}

impl<C: Clock> Gate for Pace<C> {
    fn before(&self, worker: u32, count: u64) -> bool {
        self.watch.note(worker, count);
        if count < self.bound {
            for other in 0..self.workers {
                self.watch.await_counts(&self.clock, other, count + 1);
            }
        }
        true
    }
}
