//! A fault of a schedule in words.

use crate::faulty::FaultyLine;
use crate::wording::{add_out_of_range, add_unknown_word};
use interleave::schedule::{ScheduleFault, ScheduleKind};
use std::alloc::{AllocError, Global};
use text_faults::advice::{add_expected, add_wrong};
use text_faults::lexing::add_lex;
use words::Words;

/// A fault of a schedule in words: where it stands, which token is at fault, what may stand in its
/// place, and what comes nearest. The fault is one that `parse_schedule` told of the text; of any
/// other the words say what they can.
///
/// # Errors
///
/// When memory runs out.
pub fn fault_words(alloc: Global, text: &[u8], fault: ScheduleFault) -> Result<String, AllocError> {
    let line = FaultyLine::of(alloc, text, fault.line)?;
    line_words(alloc, &line, fault.kind)
}

/// A line, and what is wrong with it.
fn line_words(
    alloc: Global,
    line: &FaultyLine<'_>,
    kind: ScheduleKind,
) -> Result<String, AllocError> {
    let mut words = Words::new(alloc);
    line.add_place(&mut words);
    match kind {
        ScheduleKind::Lex => add_lex(alloc, &mut words, line.text, line.spot),
        ScheduleKind::UnknownWord => add_unknown_word(&mut words, line),
        ScheduleKind::OutOfRange => add_out_of_range(&mut words, line),
        ScheduleKind::TooLong => add_too_long(&mut words),
        ScheduleKind::Memory => {}
    }
    words.finish()
}

/// Adds that there are too many events.
fn add_too_long(words: &mut Words) {
    add_wrong(words, "more events than a schedule has, up to this line");
    add_expected(
        words,
        "at most 1000000 events in all, each step one of them",
    )
}
