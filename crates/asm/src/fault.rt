//! What is wrong with a driver text.

use thiserror::Error;

/// The kind of a fault, by its number.
#[derive(Clone, Copy, Debug, PartialEq, Eq)]
pub enum AsmKind {
    /// A byte that no text has, or a token of no form.
    Lex = 1,
    /// A line of no form: an unknown first word, wrong operands, or a line out of its place.
    UnknownWord = 2,
    /// A name, table entry or label that was given before.
    DuplicateName = 3,
    /// A name that nothing has.
    UnknownName = 4,
    /// A number outside the range of its operand.
    OutOfRange = 5,
    /// The text ends inside a driver or routine.
    Unclosed = 6,
    /// More drivers, devices, queues, routines or instructions than a set may have.
    OverLimit = 7,
    /// A growth was refused.
    Memory = 8,
}

/// The first fault of a driver text.
#[derive(Clone, Copy, Debug, PartialEq, Eq, Error)]
#[error("text fault {} line {line}", *.kind as u8)]
pub struct AsmFault {
    /// The line, counted from 1; one past the last line where the text ends too early; 0 for
    /// `Memory`.
    pub line: u64,
    pub kind: AsmKind,
}
