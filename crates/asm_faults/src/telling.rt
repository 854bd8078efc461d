//! A fault of a driver text in words.

use crate::faulty::FaultyLine;
use crate::naming::{add_duplicate, add_unknown_name};
use crate::wording::{add_out_of_range, add_unknown_word};
use asm::{AsmFault, AsmKind};
use std::alloc::{AllocError, Global};
use text::class::is;
use text_faults::advice::{add_expected, add_wrong};
use text_faults::lexing::add_lex;
use words::Words;

/// A fault of a driver text in words: where it stands, which token is at fault, what may stand in
/// its place, and what comes nearest. The fault is one that `asm::assemble` told of the text; of
/// any other the words say what they can.
///
/// # Errors
///
/// When memory runs out.
pub fn fault_words(alloc: Global, text: &[u8], fault: AsmFault) -> Result<String, AllocError> {
    let line = FaultyLine::of(alloc, text, fault.line)?;
    line_words(alloc, &line, fault.kind)
}

/// A line, and what is wrong with it.
fn line_words(alloc: Global, line: &FaultyLine<'_>, kind: AsmKind) -> Result<String, AllocError> {
    let mut words = Words::new(alloc);
    line.add_place(&mut words);
    add_fault(alloc, &mut words, line, kind);
    words.finish()
}

/// Adds what is wrong with a line.
fn add_fault(alloc: Global, words: &mut Words, line: &FaultyLine<'_>, kind: AsmKind) {
    match kind {
        AsmKind::Lex => add_lex(alloc, words, line.text, line.spot),
        AsmKind::UnknownWord => add_unknown_word(words, line),
        AsmKind::DuplicateName => add_duplicate(alloc, words, line),
        AsmKind::UnknownName => add_unknown_name(alloc, words, line),
        AsmKind::OutOfRange => add_out_of_range(words, line),
        AsmKind::Unclosed => add_unclosed(words, line.scope.routine.is_some()),
        AsmKind::OverLimit => add_wrong(words, over_limit(line.parts.word_bytes())),
        AsmKind::Memory => {}
    }
}

/// Adds what isn't closed where the text ends.
fn add_unclosed(words: &mut Words, in_routine: bool) {
    if in_routine {
        add_wrong(words, "the text ends inside the routine");
        add_expected(words, "`endr`, and `endd` behind it")
    } else {
        add_wrong(words, "the text ends inside the driver");
        add_expected(words, "`endd`")
    }
}

/// Which limit a line with a word exceeds.
fn over_limit(word: &[u8]) -> &'static str {
    if is(word, b"driver") {
        "one driver too many: a set has at most 8"
    } else if is(word, b"device") {
        "one device too many: a set has at most 16"
    } else if is(word, b"routine") {
        "one routine too many: a driver has at most 32"
    } else if is(word, b"queue") {
        "one queue too many: a driver has at most 4"
    } else {
        "one instruction too many: a routine has at most 1024"
    }
}
