//! Instructions written with the names of a text.

use crate::label::{Label, add_bytes, add_label};
use crate::said::{Said, said_by};
use asm_line::Entry;
use driver_set::{Instr, QueueName};
use std::alloc::{AllocError, Global};
use text::cut::Lines;
use text::token::Tokens;
use verifier_names::Names;
use words::Words;

/// A word of an instruction that is a name.
#[derive(Clone, Copy)]
enum Named {
    Label,
    Queue(u8),
    Routine(u8),
    Nothing,
}

/// An instruction, which leads to this label if it is a jump.
///
/// # Errors
///
/// When memory runs out.
pub fn instruction_text(
    alloc: Global,
    names: Names<'_, '_>,
    instr: Instr,
    label: Option<Label<'_>>,
) -> Result<String, AllocError> {
    let mut listed = String::new(alloc);
    Entry::Step(None, instr).write(&mut listed)?;
    let mut prose = Words::new(alloc);
    if let Some(line) = Lines::of(listed.as_bytes()).next() {
        add_words(&mut prose, names, &instr, label, line)
    }
    prose.finish()
}

/// Adds the words of an instruction's line, one after another.
fn add_words(
    prose: &mut Words,
    names: Names<'_, '_>,
    instr: &Instr,
    label: Option<Label<'_>>,
    line: &[u8],
) {
    let count = count_of(line);
    let mut words = Tokens::of(line);
    let mut index: usize = 0;
    while let Some(word) = words.next() {
        prose.add(if index > 0 { " " } else { "" });
        let next = index.saturating_add(1);
        let named = name_at(instr, index, next == count);
        add_word(prose, names, named, label, word);
        index = next;
    }
}

/// How many words a line has.
fn count_of(line: &[u8]) -> usize {
    let mut words = Tokens::of(line);
    let mut count: usize = 0;
    while let Some(_word) = words.next() {
        count = count.saturating_add(1);
    }
    count
}

/// Adds a word, or the name that stands for it.
fn add_word(
    prose: &mut Words,
    names: Names<'_, '_>,
    named: Named,
    label: Option<Label<'_>>,
    word: &[u8],
) {
    match named {
        Named::Label => match label {
            Some(label) => add_label(prose, label),
            None => add_bytes(prose, word),
        },
        Named::Queue(number) => names.add_queue_alone(prose, QueueName::Declared(number)),
        Named::Routine(number) => names.add_routine_alone(prose, number),
        Named::Nothing => add_bytes(prose, word),
    }
}

/// What a word names: the last of a jump is its label, and a queue or a routine stands behind the
/// register.
fn name_at(instr: &Instr, index: usize, is_last: bool) -> Named {
    if is_last && instr.label().is_some() {
        return Named::Label;
    }
    if index != 2 {
        return Named::Nothing;
    }
    match said_by(instr) {
        Said::Queue(number) => Named::Queue(number),
        Said::Routine(number) => Named::Routine(number),
        Said::Status(_) | Said::Number(_) | Said::Turns | Said::Condition | Said::Nothing => {
            Named::Nothing
        }
    }
}
