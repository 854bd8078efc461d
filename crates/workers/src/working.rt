//! The work of one worker.

ghost use Rattle.std.specs.Prelude.{◌≡◌, ◌<◌, ◌≤◌, length, true};
ghost use Rattle.intake.specs.Ends.{AreTakersOf};
ghost use Rattle.intake.specs.declared.limits.TheConstants.{MAX_TAKERS};
ghost use Rattle.workers.specs.Turned.{EndsFor};

use crate::ending::End;
use crate::locked::{Beginning, Progress, Service};
use crate::waiting::{lock_when_free, pause};
use intake::Intake;
use std::sync::{Mutex, Wait};

/// Says before each turn of a worker whether it may go on.
pub trait Gate {
    /// Whether the worker of this number, which has counted so many entries, takes its turn now.
    fn before(&self, worker: u32, count: u64) -> bool;

    /// The same of a turn that follows an entry of this worker, for which it keeps the lock that
    /// all of them share: no other worker goes on meanwhile, so this must not wait for one. A turn
    /// that is refused here is asked for again by [`Gate::before`], without the lock.
    fn at_once(&self, _worker: u32, _count: u64) -> bool {
        false
    }
}

/// A gate that lets all workers go on.
#[derive(Drop)]
pub struct Open;

impl Gate for Open {
    fn before(&self, _worker: u32, _count: u64) -> bool
        ensures { result ≡ true }
    {
        true
    }

    fn at_once(&self, worker: u32, count: u64) -> bool
        ensures { result ≡ true }
    {
        self.before(worker, count)
    }
}

/// The most turns that a worker takes with the lock in one go: taking it costs as much as some of
/// a turn, and whoever waits for it should not wait for long.
const MOST_TURNS: u32 = 64;

/// A turn of a worker under the lock, and those that it takes at once behind it: the one place
/// where they are taken. Answers what the last one came to.
fn locked_turns<B: Beginning, G: Gate, R: Wait>(
    rt: &R,
    service: &Mutex<Service<B>>,
    intake: &Intake,
    gate: &G,
    number: usize,
) -> Progress
    requires number { number < length B.takers }
    requires few { length B.takers ≤ MAX_TAKERS }
    requires takers { AreTakersOf intake.now B.takers }
    ensures { EndsFor number result }
{
    let mut held = lock_when_free(rt, service);
    for _ in 1..MOST_TURNS {
        match held.turn(rt, intake, number) {
            Progress::Advanced(count) => {
                if !gate.at_once(number as u32, count) {
                    return Progress::Advanced(count);
                }
            }
            other => return other,
        }
    }
    held.turn(rt, intake, number)
}

/// The work of the worker of a number, up to its end.
pub(crate) fn work<B: Beginning, G: Gate, R: Wait>(
    rt: &R,
    service: &Mutex<Service<B>>,
    intake: &Intake,
    gate: &G,
    number: usize,
) -> End
    requires number { number < length B.takers }
    requires few { length B.takers ≤ MAX_TAKERS }
    requires takers { AreTakersOf intake.now B.takers }
    ensures { result ≡ number }
{
    let mut counted: u64 = 0;
    let mut stalled: u32 = 0;
    for _ in rt.forever() {
        if !gate.before(number as u32, counted) {
            continue;
        }
        match locked_turns(rt, service, intake, gate, number) {
            Progress::Advanced(count) => {
                counted = count;
                stalled = 0;
            }
            Progress::Stalled => {
                stalled = stalled.saturating_add(1);
                pause(stalled);
            }
            Progress::Over(end) => return end,
        }
    }
    unreachable!()
}
