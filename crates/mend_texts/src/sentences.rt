//! Changes of a text in plain words.

use crate::label::{Label, add_bytes, add_label};
use crate::reasons::reason;
use crate::said::{Said, said_by};
use asm_line::status_text;
use driver_set::Instr;
use model::abs::Rule;
use std::alloc::{AllocError, Global};
use words::Words;

/// That lines are put in before the line of a number.
///
/// # Errors
///
/// When memory runs out.
pub fn inserted(
    alloc: Global,
    lines: &[String],
    before: u64,
    rule: Rule,
) -> Result<String, AllocError> {
    let mut words = Words::new(alloc);
    words.add("insert ");
    for (index, line) in lines.iter().enumerate() {
        words.add(if index > 0 { ", " } else { "" });
        add_quoted(&mut words, line.as_bytes());
    }
    add_before(&mut words, before);
    add_reason(&mut words, rule);
    words.finish()
}

/// That the words of a line are others.
///
/// # Errors
///
/// When memory runs out.
pub fn replaced(
    alloc: Global,
    number: u64,
    old: &[u8],
    new: &[u8],
    rule: Rule,
) -> Result<String, AllocError> {
    let mut words = about_line(alloc, "replace line ", number, old);
    words.add(" by ");
    add_quoted(&mut words, new);
    add_reason(&mut words, rule);
    words.finish()
}

/// That a line is taken out.
///
/// # Errors
///
/// When memory runs out.
pub fn taken_out(alloc: Global, number: u64, old: &[u8], rule: Rule) -> Result<String, AllocError> {
    let mut words = about_line(alloc, "take out line ", number, old);
    add_reason(&mut words, rule);
    words.finish()
}

/// That a line stands before the one of another number.
///
/// # Errors
///
/// When memory runs out.
pub fn moved(
    alloc: Global,
    number: u64,
    old: &[u8],
    before: u64,
    rule: Rule,
) -> Result<String, AllocError> {
    let mut words = about_line(alloc, "move line ", number, old);
    add_before(&mut words, before);
    add_reason(&mut words, rule);
    words.finish()
}

/// That a line has a label that is new.
///
/// # Errors
///
/// When memory runs out.
pub fn labels_line(
    alloc: Global,
    number: u64,
    label: Label<'_>,
    rule: Rule,
) -> Result<String, AllocError> {
    let mut words = Words::new(alloc);
    words.add("put the label \"");
    add_label(&mut words, label);
    words.add("\" on line ");
    words.add_number(number);
    add_reason(&mut words, rule);
    words.finish()
}

/// What is done with a line of these words.
fn about_line(alloc: Global, done: &str, number: u64, line: &[u8]) -> Words {
    let mut words = Words::new(alloc);
    words.add(done);
    words.add_number(number);
    words.add(" ");
    add_quoted(&mut words, line);
    words
}

/// Adds the words of a line.
fn add_quoted(words: &mut Words, line: &[u8]) {
    words.add("\"");
    add_bytes(words, line);
    words.add("\"")
}

/// Adds before which line.
fn add_before(words: &mut Words, number: u64) {
    words.add(" before line ");
    words.add_number(number)
}

/// Adds what is so then.
fn add_reason(words: &mut Words, rule: Rule) {
    words.add(": ");
    words.add(reason(rule))
}

/// What was guessed where an instruction was made up.
///
/// # Errors
///
/// When memory runs out.
pub fn guessed(alloc: Global, instr: Instr) -> Result<Option<String>, AllocError> {
    let mut words = Words::new(alloc);
    add_guess(&mut words, said_by(&instr));
    let guess = words.finish()?;
    Ok(Some(guess).filter(|guess| !guess.is_empty()))
}

/// Adds what may be a guess: a status or a number with what it is.
fn add_guess(words: &mut Words, said: Said) {
    match said {
        Said::Status(status) => {
            words.add("the status ");
            words.add(status_text(status))
        }
        Said::Number(number) => {
            words.add("the number ");
            words.add_number(number as u64)
        }
        Said::Turns => words.add("the number of turns"),
        Said::Condition => words.add("the condition"),
        Said::Queue(_) | Said::Routine(_) | Said::Nothing => {}
    }
}
