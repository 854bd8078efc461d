//! The rows of a picture.

use crate::sign::Sign;

/// Where a sign stands: on the line in a track of a lane, or at the lane's left.
#[derive(Clone, Copy)]
pub struct Spot {
    pub lane: usize,
    pub track: Option<usize>,
}

/// That a block of rows comes again: how many rows it has, and how many times more.
#[derive(Clone, Copy, PartialEq, Eq)]
pub struct Repeat {
    pub rows: usize,
    pub times: u64,
}

/// The row of an event, or of all events that repeat the rows before it.
#[derive(Drop)]
pub struct Row {
    /// The number of the event, of several ones the first.
    pub number: u64,
    /// How many events are folded between it and the row before, or into it.
    pub folded: u64,
    /// The lane of what acts.
    pub acts: Option<usize>,
    pub sign: Sign,
    pub spot: Option<Spot>,
    pub place: String,
    pub words: String,
    /// The rows that it stands for, where it is no event's.
    pub repeat: Option<Repeat>,
}

impl Row {
    /// Whether it says the same as another one, of what acts there.
    pub(crate) fn says_as(&self, other: &Row) -> bool {
        self.acts == other.acts
            && self.sign == other.sign
            && self.repeat == other.repeat
            && self.place.as_bytes() == other.place.as_bytes()
            && self.words.as_bytes() == other.words.as_bytes()
    }

    /// Becomes one of a block once more, with so many events.
    pub(crate) fn fold_more(&mut self, events: u64) {
        self.folded = self.folded.saturating_add(events);
        if let Some(repeat) = self.repeat {
            self.repeat = Some(Repeat {
                rows: repeat.rows,
                times: repeat.times.saturating_add(1),
            });
        }
    }

    /// How many events it stands for, with those that are folded before it.
    pub(crate) fn events(&self) -> u64 {
        match self.repeat {
            Some(_) => self.folded,
            None => self.folded.saturating_add(1),
        }
    }
}
