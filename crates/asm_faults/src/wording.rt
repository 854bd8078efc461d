//! Lines of no form, and numbers out of their range.

use crate::faulty::FaultyLine;
use crate::form::Place;
use crate::line_form::{form_of, place_of};
use crate::operand::Operand;
use crate::token::Parts;
use text::class::{is, label_name};
use text_faults::advice::{
    add_at_fault, add_expected, add_meant, add_near, add_nearest, add_token, add_wrong,
};
use text_faults::fit::Fit;
use text_faults::forms::{Form, is_one_of, nearest_form};
use text_faults::misfits::{add_beyond, add_major, add_short, add_too_many, add_unwanted};
use words::Words;

/// Adds why a line has no form, or stands out of its place.
pub(crate) fn add_unknown_word(words: &mut Words, line: &FaultyLine<'_>) {
    let word = line.parts.word_bytes();
    let place = line.scope.place();
    if word.is_empty() {
        add_wrong(words, "a label with nothing behind it");
        return add_expected(words, "an instruction, on the same line");
    }
    match place.form_of(word) {
        Some(form) => add_misfit(words, &line.parts, form),
        None => add_out_of_place(words, word, place),
    }
}

/// Adds a first word that no line at a place has.
fn add_out_of_place(words: &mut Words, word: &[u8], place: Place) {
    match place_of(word) {
        Some(wanted) => add_misplaced(words, word, wanted, place),
        None => {
            add_at_fault(words, word, ", with which no line begins");
            add_beginnings(words, place);
            add_near(words, nearest_form(word, place.forms()))
        }
    }
}

/// Adds a line out of its place.
fn add_misplaced(words: &mut Words, word: &[u8], wanted: Place, place: Place) {
    words.add("at fault: ");
    add_token(words, word);
    words.add(", which stands ");
    words.add(wanted.words());
    words.add(", and this line is ");
    words.add(place.words());
    words.add("\n");
    add_beginnings(words, place)
}

/// Adds what lines at a place begin with.
fn add_beginnings(words: &mut Words, place: Place) {
    words.add("what may stand there: ");
    words.add(place.words());
    words.add(", ");
    words.add(place.beginnings());
    words.add("\n")
}

/// Adds which operand of a line has another form, is missing, or is one too many.
fn add_misfit(words: &mut Words, parts: &Parts<'_>, form: &Form<Operand>) {
    let operands = operands_behind(form, parts);
    let mut place: usize = 0;
    for operand in operands {
        match parts.operand(place) {
            Some(token) => {
                if let Fit::Other = operand.fit(token) {
                    return add_other(words, token, *operand);
                }
            }
            None => {
                if place < form.least() || operands.len() > form.operands.len() {
                    add_short(words, operand.words())
                }
                return;
            }
        }
        place = place.saturating_add(1);
    }
    match parts.operand(place) {
        Some(token) => add_too_many(words, token),
        None => add_wrong(words, "a label before a line that is no instruction"),
    }
}

/// What has to stand behind the word of a line; `ret lower` wants a register.
fn operands_behind(form: &Form<Operand>, parts: &Parts<'_>) -> &'static [Operand] {
    match parts.operand(0) {
        Some(first) if form.word == "ret" && is(first, b"lower") => {
            &[Operand::Returned, Operand::Register]
        }
        _ => form.operands,
    }
}

/// Adds an operand of another form than is wanted.
fn add_other(words: &mut Words, token: &[u8], wanted: Operand) {
    add_unwanted(words, token, wanted.words());
    match wanted {
        Operand::Status | Operand::Returned => add_status(words, token, wanted),
        Operand::Major => add_major(words, token),
        Operand::Label => add_label(words, token),
        _ => add_nearest(words, token, wanted.choices()),
    }
}

/// Adds the status that may be meant.
fn add_status(words: &mut Words, token: &[u8], wanted: Operand) {
    match token.strip_prefix(b"STATUS_".as_slice()) {
        Some(status) if is_one_of(status, Operand::Status.choices()) => add_meant(
            words,
            status,
            ": a status is written without `STATUS_`",
        ),
        _ => add_nearest(words, token, wanted.choices()),
    }
}

/// Adds the label that may be meant.
fn add_label(words: &mut Words, token: &[u8]) {
    if let Some(name) = label_name(token) {
        add_meant(words, name, ": where it is jumped to it has no colon")
    }
}

/// Adds the number that is out of its range.
pub(crate) fn add_out_of_range(words: &mut Words, line: &FaultyLine<'_>) {
    let Some(form) = form_of(line.parts.word_bytes()) else {
        return;
    };
    let mut place: usize = 0;
    for operand in operands_behind(form, &line.parts) {
        if let Some(token) = line.parts.operand(place) {
            if let Fit::OutOfRange = operand.fit(token) {
                return add_beyond(words, token, operand.words());
            }
        }
        place = place.saturating_add(1);
    }
}
