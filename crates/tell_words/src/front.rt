//! The columns of events, made anew only where they differ from those of the events before.

use crate::line::add_front;
use checked::Checked;
use model::event::Event;
use std::alloc::{AllocError, Global};
use tell_names::blanks_behind;
use tell_uses::standing::thread_of;

/// How many columns are kept.
const KEPT: usize = 1_024;

/// What a mark is multiplied by.
const FACTOR: u64 = 0x9E37_79B9_7F4A_7C15;

/// What columns hang on.
#[derive(Clone, Copy)]
struct Cause {
    /// How many blanks stand before them.
    blanks: usize,
    /// The thread that the event is about.
    thread: Option<u8>,
    /// Which threads have frames, a bit for each.
    busy: u64,
}

impl Cause {
    /// Whether another is the same.
    fn is(self, other: Cause) -> bool {
        self.blanks == other.blanks && self.thread == other.thread && self.busy == other.busy
    }

    /// Where columns of this cause are kept, beside others that share the place.
    fn place(self) -> usize {
        let thread = match self.thread {
            Some(thread) => thread as u64 + 1,
            None => 0,
        };
        let few = thread.wrapping_mul(64).wrapping_add(self.blanks as u64);
        let mark = (self.busy.wrapping_mul(FACTOR) ^ few).wrapping_mul(FACTOR);
        (mark >> 32) as usize % KEPT
    }
}

/// Columns, and what they hang on: nothing, where none were made yet.
#[derive(Drop)]
struct Front {
    cause: Option<Cause>,
    columns: Vec<u8>,
}

/// Columns that were made.
#[derive(Drop)]
pub(crate) struct Fronts {
    fronts: Vec<Front>,
    /// Which were made last.
    last: usize,
}

impl Fronts {
    /// None.
    pub(crate) fn new(alloc: Global) -> Result<Fronts, AllocError> {
        let mut fronts = Vec::with_capacity(alloc, KEPT)?;
        for _place in 0..KEPT {
            fronts.push(Front {
                cause: None,
                columns: Vec::new(alloc),
            })?;
        }
        Ok(Fronts { fronts, last: 0 })
    }

    /// Makes those of an event behind a head of so many bytes, by the machine after it.
    pub(crate) fn make(
        &mut self,
        head: usize,
        event: &Event,
        machine: &Checked,
    ) -> Result<(), AllocError> {
        let cause = Cause {
            blanks: blanks_behind(head),
            thread: thread_of(event),
            busy: busy_threads(machine),
        };
        self.last = cause.place();
        let Some(front) = self.fronts.get_mut(self.last) else {
            return Ok(());
        };
        if let Some(kept) = front.cause {
            if kept.is(cause) {
                return Ok(());
            }
        }
        front.cause = None;
        front.columns.clear();
        add_front(&mut front.columns, cause.blanks, event, machine)?;
        front.cause = Some(cause);
        Ok(())
    }

    /// Those that were made last.
    pub(crate) fn last(&self) -> &[u8] {
        match self.fronts.get(self.last) {
            Some(front) => front.columns.as_slice(),
            None => &[],
        }
    }
}

/// Which threads have frames, a bit for each.
fn busy_threads(machine: &Checked) -> u64 {
    let mut busy = 0;
    let mut bit = 1_u64;
    for thread in machine.threads().iter() {
        if !thread.is_idle() {
            busy |= bit;
        }
        bit = bit.wrapping_mul(2);
    }
    busy
}
