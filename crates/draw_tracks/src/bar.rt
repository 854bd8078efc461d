//! The locks that a thread owned: each has a track below the thread's, with a span for as long as
//! it is owned.

use crate::mark::{Kind, Mark, Marks};
use crate::spans::{BELOW, place_of};
use draw_lanes::lock::{NamedLock, lock_of, owns};
use draw_lanes::seen::Seen;
use model::event::Lock;
use std::alloc::{AllocError, Global};
use tell_names::{Book, add_number};
use words::Words;

/// The first track of a lock.
const FIRST: u64 = 2_000;

/// A lock that a thread owned.
#[derive(Drop)]
struct Bar {
    thread: u8,
    lock: NamedLock,
    owned: bool,
}

/// The locks that threads owned.
#[derive(Drop)]
pub(crate) struct Bars {
    alloc: Global,
    bars: Vec<Bar>,
}

impl Bars {
    /// None.
    pub(crate) fn new(alloc: Global) -> Bars {
        Bars {
            alloc,
            bars: Vec::new(alloc),
        }
    }

    /// Follows the lock that the step of a thread is about.
    pub(crate) fn follow(
        &mut self,
        marks: &mut Marks,
        book: &Book<'_>,
        seen: Seen<'_>,
        thread: u8,
        at: u64,
    ) -> Result<(), AllocError> {
        let Some(acting) = &seen.moment.acting else {
            return Ok(());
        };
        let Some(lock) = lock_of(acting) else {
            return Ok(());
        };
        let owned = owns(seen.machine, thread, lock);
        let place = self.place_of(marks, book, thread, lock)?;
        self.turn(marks, place, owned, at)
    }

    /// Ends the spans that go on.
    pub(crate) fn end_all(&mut self, marks: &mut Marks, at: u64) -> Result<(), AllocError> {
        for place in 0..self.bars.len() {
            self.turn(marks, place, false, at)?;
        }
        Ok(())
    }

    /// The place of a thread's lock, which gets a track where it has none.
    fn place_of(
        &mut self,
        marks: &mut Marks,
        book: &Book<'_>,
        thread: u8,
        lock: Lock,
    ) -> Result<usize, AllocError> {
        let known = self
            .bars
            .iter()
            .position(|bar| bar.thread == thread && bar.lock.lock == lock);
        if let Some(place) = known {
            return Ok(place);
        }
        let place = self.bars.len();
        let lock = NamedLock::of(self.alloc, book, lock)?;
        call(marks, thread, lock.name.as_str(), track_at(place))?;
        self.bars.push(Bar {
            thread,
            lock,
            owned: false,
        })?;
        Ok(place)
    }

    /// A span begins or ends, unless it is so already.
    fn turn(
        &mut self,
        marks: &mut Marks,
        place: usize,
        owned: bool,
        at: u64,
    ) -> Result<(), AllocError> {
        let Some(bar) = self.bars.get_mut(place) else {
            return Ok(());
        };
        if bar.owned == owned {
            return Ok(());
        }
        bar.owned = owned;
        marks.add(Mark {
            kind: if owned { Kind::Begins } else { Kind::Ends },
            name: bar.lock.name.as_str(),
            at,
            track: track_at(place),
        })
    }
}

/// The track of a lock.
fn track_at(place: usize) -> u64 {
    (place as u64).saturating_add(FIRST)
}

/// Names the track of a thread's lock, and puts it below the thread's.
fn call(marks: &mut Marks, thread: u8, name: &str, track: u64) -> Result<(), AllocError> {
    let words = owner_words(marks.alloc(), thread, name)?;
    marks.add(Mark::called(track, words.as_str()))?;
    let below = track % BELOW + 1;
    marks.add(Mark::stands(track, place_of(thread).saturating_add(below)))
}

/// That a thread owns a lock, in words.
fn owner_words(alloc: Global, thread: u8, name: &str) -> Result<String, AllocError> {
    let mut words = Words::new(alloc);
    words.add("thread ");
    add_number(&mut words, u64::from(thread));
    words.add(" owns ");
    words.add(name);
    words.finish()
}
