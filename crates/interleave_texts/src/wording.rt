//! Lines of no form, and numbers out of their range.

use crate::faulty::FaultyLine;
use crate::form::{EVENTS, Operand, THREADS, operands_of};
use text::class::is;
use text_faults::advice::{add_at_fault, add_expected, add_near, add_nearest, add_wrong};
use text_faults::fit::Fit;
use text_faults::forms::{Form, form_among, nearest_form};
use text_faults::misfits::{add_beyond, add_major, add_short, add_too_many, add_unwanted};
use words::Words;

/// The first line of a schedule.
const OPENING: &str = "`threads` and how many there are, 1 to 64: the first line of a schedule";

/// What later lines begin with.
const BEGINNINGS: &str = "`issue`, `cancel`, `interrupt`, `dpc`, `startio` or `step`";

/// Adds why a line has no form, or stands out of its place.
pub(crate) fn add_unknown_word(words: &mut Words, line: &FaultyLine<'_>) {
    let word = line.word();
    if line.tokens.is_empty() {
        add_wrong(words, "the schedule ends, and says of no thread");
        add_expected(words, OPENING)
    } else if line.opened {
        add_unknown_event(words, line, word)
    } else if is(word, b"threads") {
        add_misfit(words, line, &THREADS)
    } else {
        add_at_fault(words, word, ", with which no schedule begins");
        add_expected(words, OPENING);
        add_nearest(words, word, &["threads"])
    }
}

/// Adds the same of a line behind the first.
fn add_unknown_event(words: &mut Words, line: &FaultyLine<'_>, word: &[u8]) {
    if is(word, b"threads") {
        add_at_fault(words, word, ", which stands on the first line alone");
        return add_expected(words, BEGINNINGS);
    }
    match form_among(EVENTS.as_slice(), word) {
        Some(form) => add_misfit(words, line, form),
        None => {
            add_at_fault(words, word, ", with which no line begins");
            add_expected(words, BEGINNINGS);
            add_near(words, nearest_form(word, EVENTS.as_slice()))
        }
    }
}

/// Adds which operand of a line has another form, is missing, or is one too many.
fn add_misfit(words: &mut Words, line: &FaultyLine<'_>, form: &Form<Operand>) {
    let mut place: usize = 1;
    for operand in form.operands {
        match line.token(place) {
            Some(token) => {
                if let Fit::Other = operand.fit(token) {
                    return add_other(words, token, *operand);
                }
            }
            None => {
                if place <= form.least() {
                    add_short(words, operand.words())
                }
                return;
            }
        }
        place = place.saturating_add(1);
    }
    if let Some(token) = line.token(place) {
        add_too_many(words, token)
    }
}

/// Adds an operand of another form than is wanted.
fn add_other(words: &mut Words, token: &[u8], wanted: Operand) {
    add_unwanted(words, token, wanted.words());
    if let Operand::Major = wanted {
        add_major(words, token)
    }
}

/// Adds the number that is out of its range.
pub(crate) fn add_out_of_range(words: &mut Words, line: &FaultyLine<'_>) {
    let operands = operands_of(line.word());
    for (operand, token) in operands.iter().zip(line.tokens.iter().skip(1)) {
        let token = token.bytes();
        if let Fit::OutOfRange = operand.fit(token) {
            return add_beyond(words, token, operand.words());
        }
    }
}
