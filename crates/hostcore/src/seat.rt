//! The right to step one thread of a core.

use std::marker::Model;

/// The right to step one thread of the core that gave it. Contracts see the thread's number. It
/// can't be copied or dropped: it goes back to its core.
pub struct Seat {
    thread: u8,
}

impl Model for Seat {
    ghost use Rattle.std.specs.Prelude.{ℕ};

    ghost Value = { ℕ };

    ghost view = { λ s. s.thread };
}

impl Seat {
    ghost use Rattle.std.specs.Prelude.{◌≡◌};

    /// The seat of a thread.
    pub(crate) fn of(thread: u8) -> Seat
        ensures { result ≡ thread }
    {
        Seat { thread }
    }

    /// The number of its thread.
    pub fn thread(&self) -> u8
        ensures { result ≡ self.now }
    {
        self.thread
    }

    /// The seat is gone.
    pub(crate) fn into_thread(self) -> u8
        ensures { result ≡ self }
    {
        let Seat { thread } = self;
        thread
    }
}
