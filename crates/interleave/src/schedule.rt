//! What a schedule is, and what can be wrong with its text.

use crate::events::Events;
use std::fmt;
use thiserror::Error;

/// Threads of a run, and the events that happen, in order.
#[derive(Drop)]
pub struct Schedule {
    /// How many threads the run has, 1 to `MAX_THREADS`.
    pub threads: u8,
    /// At most `MAX_EVENTS` events.
    pub events: Events,
}

/// Events of a schedule, at most.
pub const MAX_EVENTS: usize = 1_000_000;

/// The kind of a fault, by its number. Of all that is wrong with a line the least kind is given.
#[derive(Clone, Copy, Debug, PartialEq, Eq)]
pub enum ScheduleKind {
    /// A byte that no text has, or a token of no form.
    Lex = 1,
    /// A line of no form: an unknown first word, wrong operands, or a line out of its place.
    UnknownWord = 2,
    /// A number outside the range of its operand.
    OutOfRange = 3,
    /// The events pass `MAX_EVENTS`.
    TooLong = 4,
    /// A growth was refused.
    Memory = 5,
}

/// The first fault of a schedule's text.
#[derive(Clone, Copy, Debug, PartialEq, Eq, Error)]
#[error("schedule fault {} line {line}", *.kind as u8)]
pub struct ScheduleFault {
    /// The line, counted from 1; one past the last line where no line says how many threads there
    /// are; 0 for `Memory`.
    pub line: u64,
    pub kind: ScheduleKind,
}
