//! A fault of a scenario in words.

use crate::known::{Known, device_on, packets_before};
use crate::wording::add_misfit;
use interleave::schedule::{ScheduleFault, ScheduleKind};
use interleave_texts::faulty::FaultyLine;
use scenario_names::names::Names;
use std::alloc::{AllocError, Global};
use text::piece::Piece;
use text_faults::advice::{add_expected, add_wrong};
use text_faults::lexing::add_lex;
use words::Words;

/// A fault of a scenario in words: where it stands, which token is at fault, what may stand in its
/// place, and what comes nearest, with the names of its set's text. The fault is one that
/// `parse_scenario` told of the text; of any other the words say what they can.
///
/// # Errors
///
/// When memory runs out.
pub fn fault_words(
    alloc: Global,
    names: &Names<'_>,
    text: &[u8],
    fault: ScheduleFault,
) -> Result<String, AllocError> {
    let line = FaultyLine::of(alloc, text, fault.line)?;
    line_words(alloc, names, &line, fault)
}

/// A line, and what is wrong with it.
fn line_words(
    alloc: Global,
    names: &Names<'_>,
    line: &FaultyLine<'_>,
    fault: ScheduleFault,
) -> Result<String, AllocError> {
    let mut words = Words::new(alloc);
    line.add_place(&mut words);
    match fault.kind {
        ScheduleKind::Lex => add_lex(alloc, &mut words, line.text, line.spot),
        ScheduleKind::UnknownWord | ScheduleKind::OutOfRange => {
            match packets_before(alloc, line.text, fault.line) {
                Ok(packets) => add_among(&mut words, names, line, packets),
                Err(lack) => words.note(Err(lack)),
            }
        }
        ScheduleKind::TooLong => {
            add_wrong(
                &mut words,
                "more steps than a scenario has, up to this line",
            );
            add_expected(&mut words, "at most 65536 steps and expectations in all")
        }
        ScheduleKind::Memory => {}
    }
    words.finish()
}

/// Adds what is wrong with a line behind those that issue some packets.
fn add_among<'a>(
    words: &mut Words,
    names: &'a Names<'a>,
    line: &FaultyLine<'_>,
    packets: Vec<Piece<'a>>,
) {
    let known = Known {
        names,
        packets,
        device: device_on(names, line),
    };
    add_misfit(words, line, &known)
}
