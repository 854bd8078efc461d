//! That workers had nothing left to do.

ghost use Rattle.std.specs.Prelude.{◌≡◌, ◌<◌, ◌+◌, None, false, get_or, length, replicate};
ghost use Rattle.std.specs.Prelude.{slice_set, true};
ghost use Rattle.model.specs.declared.limits.TheConstants.{MAX_THREADS};
ghost use Rattle.hostcore.specs.Core.{world_of};
ghost use Rattle.workers.specs.Standing.{IsWaiting, StandStill};
ghost use Rattle.workers.specs.Turned.{IsNext};

use crate::locked::Beginning;
use crate::standing::Marks;
use hostcore::{Core, Seat};
use intake::{Drained, Intake};
use model::limits::MAX_THREADS;
use std::marker::Model;

/// Shows that a worker had nothing left to do, at a moment: its thread had nothing to do of itself
/// and the queue was empty after it was closed; or its thread waited, and no worker's thread went
/// on that was left; or the history was full. Contracts see the number of its thread.
#[derive(Drop)]
pub struct End {
    thread: usize,
}

impl Model for End {
    ghost use Rattle.std.specs.Prelude.{ℕ};

    ghost Value = { ℕ };

    ghost view = { λ e. e.thread };
}

impl End {
    /// The thread of a seat had nothing to do of itself, and the queue was drained.
    pub(crate) fn drained(_core: &Core, seat: &Seat, _intake: &Intake, _drained: Drained) -> End
        requires idle { IsNext (world_of _core.now) seat.now None }
        requires queue { _drained ≡ _intake.now }
        ensures { result ≡ seat.now }
    {
        End {
            thread: seat.thread() as usize,
        }
    }

    /// The thread of a worker waited, and of the threads of all workers none went on, but for those
    /// whose workers had ended likewise.
    pub(crate) fn stuck<B: Beginning>(_core: &Core, _gone: &Gone, number: usize) -> End
        requires waits { IsWaiting _core.now number }
        requires still { StandStill _core.now _gone.now (length B.takers) }
        ensures { result ≡ number }
    {
        End { thread: number }
    }

    /// The history was full.
    pub(crate) fn full(_core: &Core, number: usize) -> End
        requires full { length _core.now.history ≡ _core.now.log }
        ensures { result ≡ number }
    {
        End { thread: number }
    }
}

/// The threads of workers that have ended while these waited: no one steps them any more. Contracts
/// see a mark of each.
#[derive(Drop)]
pub struct Gone {
    marks: Marks,
}

impl Model for Gone {
    ghost use Rattle.std.specs.Prelude.{Bool, List};

    ghost Value = { List Bool };

    ghost view = { λ g. g.marks };
}

impl Gone {
    /// None has ended so.
    pub(crate) fn none() -> Gone
        ensures { result ≡ replicate MAX_THREADS false }
    {
        Gone {
            marks: [false; MAX_THREADS],
        }
    }

    /// A worker has ended so.
    pub(crate) fn add(&mut self, end: &End)
        requires { end.now < MAX_THREADS }
        ensures { self.new ≡ slice_set self.old end.now true }
    {
        self.marks[end.thread] = true;
    }

    /// Whether the worker of a thread has ended so.
    pub(crate) fn has(&self, thread: usize) -> bool
        requires { thread < MAX_THREADS }
        ensures { result ≡ get_or self.now thread false }
    {
        self.marks[thread]
    }
}

/// The ends of workers that were started, as they come in: that of the last one first. Contracts
/// see of how many of them, from the first one on, it is still missing.
#[derive(Drop)]
pub struct Ends {
    missing: usize,
    started: usize,
}

impl Model for Ends {
    ghost use Rattle.workers.specs.Ended.{EndsState};

    ghost Value = { EndsState };

    ghost view = { λ e. record { missing = e.missing; started = e.started } };
}

impl Ends {
    /// The ends of so many workers, of which none has come in.
    pub(crate) fn of(started: usize) -> Ends
        ensures { result ≡ record { missing = started; started = started } }
    {
        Ends {
            missing: started,
            started,
        }
    }

    /// The end of the last worker of which it is missing comes in.
    pub(crate) fn add(&mut self, end: End)
        requires next { self.old.missing ≡ end + 1 }
        ensures { self.new ≡ record self.old { missing = end } }
    {
        let End { thread } = end;
        self.missing = thread;
    }

    /// How many workers were started.
    pub fn started(&self) -> usize
        ensures { result ≡ self.now.started }
    {
        self.started
    }
}
