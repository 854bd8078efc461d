//! That a queue was closed, and that it was found empty after that.

ghost use Rattle.std.specs.Prelude.{◌≡◌, IfSome};
ghost use Rattle.intake.specs.Kept.{queue_of};

use crate::rule::Line;
use std::marker::Model;
use std::snapshot::Snapshot;
use std::sync::atomic::{AtomicBool, Ordering};

/// Shows that a queue was closed. Only the queue's flag makes one. Contracts see which queue it is.
#[derive(Drop)]
pub struct Closed {
    of: Snapshot<Line>,
}

impl Model for Closed {
    ghost use Rattle.atomic_table.specs.Seated.{TableId};
    ghost use Rattle.intake.specs.Kept.{queue_of};

    ghost Value = { TableId };

    ghost view = { λ c. queue_of c.of.value };
}

/// Whether a queue was closed.
#[derive(Drop)]
pub(crate) struct Flag {
    is_closed: AtomicBool,
}

impl Flag {
    /// The flag of a queue that is open.
    pub(crate) fn open() -> Flag {
        Flag {
            is_closed: AtomicBool::new(false),
        }
    }

    /// The queue is closed.
    pub(crate) fn close(&self, line: &Line) -> Closed
        ensures { result ≡ queue_of line.now }
    {
        self.is_closed.store(true, Ordering::SeqCst);
        Closed {
            of: Snapshot::of(line),
        }
    }

    /// What shows that the queue was closed, if it was.
    pub(crate) fn closing(&self, line: &Line) -> Option<Closed>
        ensures { IfSome result (λ closed. closed ≡ queue_of line.now) }
    {
        if self.is_closed.load(Ordering::SeqCst) {
            Some(Closed {
                of: Snapshot::of(line),
            })
        } else {
            None
        }
    }
}

/// Shows that a queue was found empty after it was closed. Contracts see which queue it is.
#[derive(Drop)]
pub struct Drained {
    closed: Closed,
}

impl Model for Drained {
    ghost use Rattle.atomic_table.specs.Seated.{TableId};

    ghost Value = { TableId };

    ghost view = { λ d. d.closed };
}

impl Drained {
    /// A queue of which this was had before it was found empty.
    pub(crate) fn after(closed: Closed) -> Drained
        ensures { result ≡ closed }
    {
        Drained { closed }
    }
}
