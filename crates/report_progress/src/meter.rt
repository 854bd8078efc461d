//! Progress at a terminal.

ghost use Rattle.std.specs.Prelude.{◌≡◌, false, None};

use crate::line::line;
use crate::progress::{Progress, Reached};
use std::alloc::Global;
use std::io::Write;
use std::time::{Clock, Instant};

/// A command that takes longer tells how far it has come, in seconds.
const PATIENCE: u64 = 1;

/// Moves to the start of a line of a terminal, and takes away what stands there.
const BLANK: &[u8] = b"\r\x1b[K";

/// Tells on a writer for errors how far a command has come, where that is a terminal, once the
/// command has taken a second.
#[derive(Drop)]
pub struct Meter<'r, R, W> {
    clock: &'r R,
    alloc: Global,
    errors: W,
    /// When the command began, if anything is told at all.
    began: Option<Instant>,
}

impl<'r, R: Clock, W: Write + Copy + Drop> Meter<'r, R, W> {
    /// A meter of a command that begins now.
    pub fn new(clock: &'r R, alloc: Global, errors: W, is_terminal: bool) -> Meter<'r, R, W>
        ensures silent { is_terminal ≡ false → result.began ≡ None }
    {
        let began = if is_terminal {
            Instant::now(clock).ok()
        } else {
            None
        };
        Meter {
            clock,
            alloc,
            errors,
            began,
        }
    }

    /// Whether it is time to tell something: never where nothing is told.
    fn is_due(&self) -> bool
        ensures { self.now.began ≡ None → result ≡ false }
    {
        let Some(began) = &self.began else {
            return false;
        };
        match began.elapsed(self.clock) {
            Ok(time) => time.as_secs() >= PATIENCE,
            Err(_unknown) => false,
        }
    }

    /// Writes to the writer for errors; there is no one left to tell where that fails.
    fn write(&self, text: &[u8]) {
        let mut errors = self.errors;
        let _ = errors.write_all(text);
    }
}

impl<R: Clock, W: Write + Copy + Drop> Progress for Meter<'_, R, W> {
    fn tell(&self, reached: Reached) {
        if !self.is_due() {
            return;
        }
        if let Ok(text) = line(self.alloc, reached) {
            self.write(BLANK);
            self.write(text.as_slice());
        }
    }

    fn clear(&self) {
        if self.is_due() {
            self.write(BLANK);
        }
    }
}
