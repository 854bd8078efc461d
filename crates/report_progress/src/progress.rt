//! What is told of how far a command has come.

/// How far a command has come.
#[derive(Clone, Copy)]
pub enum Reached {
    /// So many of all.
    Of { done: usize, all: usize },
    /// A search: so many worlds, in runs of up to so many events.
    Worlds { worlds: usize, events: usize },
}

/// What is told of how far a command has come. It is no part of an answer: a runtime has it beside
/// its threads, and no contract of a command speaks of it.
pub trait Progress {
    /// Tells how far it has come, if it is time to.
    fn tell(&self, reached: Reached);

    /// Takes away what was told last, before something else is written.
    fn clear(&self);
}

/// It is told how far a search has come each time that it has gone on from so many worlds.
const PACE: usize = 256;

/// Tells how far a search has come that goes on from the world of a number, if that is told of it:
/// so many worlds, in runs of up to so many events.
pub fn tell_at<P: Progress>(progress: &P, number: usize, worlds: usize, events: usize) {
    if number % PACE == 0 {
        progress.tell(Reached::Worlds { worlds, events });
    }
}

/// Tells nothing.
#[derive(Clone, Copy)]
pub struct Silent;

impl Progress for Silent {
    fn tell(&self, _reached: Reached) {}

    fn clear(&self) {}
}

/// A runtime, and what is told beside it.
impl<R, P: Progress> Progress for (R, P) {
    fn tell(&self, reached: Reached) {
        self.1.tell(reached);
    }

    fn clear(&self) {
        self.1.clear();
    }
}
