//! Lines of no form, and numbers out of their range.

use crate::form::{Form, LINES, STEPS, bound_form, expect_form, form_of};
use crate::known::Known;
use crate::operand::Operand;
use interleave_texts::faulty::FaultyLine;
use text::class::is;
use text::piece::Piece;
use text_faults::advice::{
    add_at_fault, add_expected, add_nearest, add_remedy, add_token, add_wrong,
};
use text_faults::fit::Fit;
use text_faults::misfits::{add_beyond, add_major, add_short, add_too_many, add_unwanted};
use words::Words;

/// The first line of a scenario.
const OPENING: &str = "`threads` and how many there are, 1 to 64: the first line of a scenario";

/// What later lines begin with.
const BEGINNINGS: &str = "`NAME = issue`, `run`, `step`, `interrupt`, `dpc`, `startio`, `cancel`, \
     `may` before one of these, `together`, `repeat`, `end`, or `expect`";

/// What stands behind `may`.
const GRANTED: &str = "`NAME = issue`, `run`, `step`, `interrupt`, `dpc`, `startio` or `cancel`";

/// What ends lines that are repeated.
const END: &str = "`end`, alone on a line behind those that are listed more than once";

/// What may be expected.
const EXPECTED: &str =
    "`clean`, `bug` and a number, `accepted`, `refused` and by which rule, `thread`, its number \
     and its state, a device or a packet and its state, a cell, a spin lock or a queue `of` a \
     device, `start list`, `device queue`, or `cancel lock`";

/// Adds why a line has no form, stands out of its place, or has a number out of its range.
pub(crate) fn add_misfit(words: &mut Words, line: &FaultyLine<'_>, known: &Known<'_>) {
    if line.tokens.is_empty() {
        add_ended(words, line.opened)
    } else if line.opened {
        add_misplaced(words, line, known)
    } else {
        add_misopened(words, line)
    }
}

/// Adds that a scenario ends too early.
fn add_ended(words: &mut Words, opened: bool) {
    if opened {
        add_wrong(words, "the scenario ends between `repeat` and `end`");
        add_expected(words, END)
    } else {
        add_wrong(words, "the scenario ends, and says of no thread");
        add_expected(words, OPENING)
    }
}

/// Adds the same of a line behind the first.
fn add_misplaced(words: &mut Words, line: &FaultyLine<'_>, known: &Known<'_>) {
    match why_misplaced(line, known) {
        Some(Misplaced { why, expected }) => {
            add_at_fault(words, line.word(), why);
            add_expected(words, expected)
        }
        None => add_misformed(words, line, known),
    }
}

/// Why a line may not stand where it does, and what may.
struct Misplaced {
    why: &'static str,
    expected: &'static str,
}

/// The same of a line behind the first, if it has a form.
fn why_misplaced(line: &FaultyLine<'_>, known: &Known<'_>) -> Option<Misplaced> {
    let word = line.word();
    if is(word, b"threads") {
        Some(Misplaced {
            why: ", which stands on the first line alone",
            expected: BEGINNINGS,
        })
    } else if is(word, b"repeat") && is_block(line, known) {
        Some(Misplaced {
            why: ", which may not stand before the `end` of another",
            expected: END,
        })
    } else if is(word, b"end") && line.token(1).is_none() {
        Some(Misplaced {
            why: ", before which no `repeat` is open",
            expected: BEGINNINGS,
        })
    } else {
        None
    }
}

/// Adds why a line behind the first has no form, or a number out of its range.
fn add_misformed(words: &mut Words, line: &FaultyLine<'_>, known: &Known<'_>) {
    let word = line.word();
    if is(word, b"expect") {
        match expect_form(line) {
            Some(form) => add_unfit(words, line, known, form),
            None => add_short(words, EXPECTED),
        }
    } else if is(word, b"together") {
        add_misjoined(words, line, known)
    } else {
        add_misstep(words, line, known, is(word, b"may") as usize)
    }
}

/// Whether a line has the form of one that opens a block.
fn is_block(line: &FaultyLine<'_>, known: &Known<'_>) -> bool {
    match (line.token(1), line.token(2)) {
        (Some(count), None) => match Operand::Times.fit(known, count) {
            Fit::Fits => true,
            Fit::OutOfRange | Fit::Other => false,
        },
        _ => false,
    }
}

/// Adds the same of the first line.
fn add_misopened(words: &mut Words, line: &FaultyLine<'_>) {
    let word = line.word();
    if is(word, b"threads") {
        match line.token(1) {
            Some(token) => add_unwanted(words, token, OPENING),
            None => add_short(words, OPENING),
        }
    } else {
        add_at_fault(words, word, ", with which no scenario begins");
        add_expected(words, OPENING);
        add_nearest(words, word, &["threads"])
    }
}

/// Adds the same of a step, from a place on.
fn add_misstep(words: &mut Words, line: &FaultyLine<'_>, known: &Known<'_>, place: usize) {
    match form_of(line, place) {
        Some(form) => add_unfit(words, line, known, form),
        None => add_no_step(words, line.token(place), place),
    }
}

/// Adds a word at a place with which no step begins, or that there is none.
fn add_no_step(words: &mut Words, word: Option<&[u8]>, place: usize) {
    match word {
        Some(word) => add_unknown(words, word, place),
        None => add_short(words, GRANTED),
    }
}

/// Adds a word at a place with which no step begins.
fn add_unknown(words: &mut Words, word: &[u8], place: usize) {
    if is(word, b"issue") {
        add_at_fault(words, b"issue", ", whose packet has no name");
        add_remedy(
            words,
            "write a name and `=` before it, as `a = issue 0 d0 READ 7`",
        )
    } else if place > 0 {
        add_unwanted(words, word, GRANTED);
        add_nearest(words, word, &STEPS)
    } else {
        add_at_fault(words, word, ", with which no line begins");
        add_expected(words, BEGINNINGS);
        add_nearest(words, word, &LINES)
    }
}

/// Adds the same of `together`.
fn add_misjoined(words: &mut Words, line: &FaultyLine<'_>, known: &Known<'_>) {
    for place in 1..line.tokens.len() {
        let token = line.token(place).unwrap_or(&[]);
        if is(token, b"up") && place > 1 {
            return add_unfit(words, line, known, bound_form(place));
        }
        if !is_fit(words, known, token, Operand::Named) {
            return;
        }
    }
    add_short(words, Operand::Named.words())
}

/// Whether a token is what stands there; adds what is wrong with it where it isn't.
fn is_fit(words: &mut Words, known: &Known<'_>, token: &[u8], wanted: Operand) -> bool {
    match wanted.fit(known, token) {
        Fit::Fits => true,
        Fit::OutOfRange => {
            add_beyond(words, token, wanted.words());
            false
        }
        Fit::Other => {
            add_other(words, known, token, wanted);
            false
        }
    }
}

/// Adds which operand of a line has another form, is out of its range, missing, or one too many.
fn add_unfit(words: &mut Words, line: &FaultyLine<'_>, known: &Known<'_>, form: Form) {
    let mut count: usize = 0;
    for _ in 0..form.most() {
        let Some(operand) = form.operand(count) else {
            break;
        };
        let Some(token) = line.token(form.first.saturating_add(count)) else {
            if count < form.least {
                add_short(words, operand.words())
            }
            return;
        };
        if !is_fit(words, known, token, operand) {
            return;
        }
        count = count.saturating_add(1);
    }
    if let Some(token) = line.token(form.first.saturating_add(count)) {
        add_too_many(words, token)
    }
}

/// Adds an operand of another form than is wanted.
fn add_other(words: &mut Words, known: &Known<'_>, token: &[u8], wanted: Operand) {
    add_unwanted(words, token, wanted.words());
    let names = known.names;
    match wanted {
        Operand::Major => add_major(words, token),
        Operand::Device => add_names(words, "the devices are", names.devices.as_slice()),
        Operand::Packet => add_names(words, "the packets are", known.packets.as_slice()),
        _ => add_nearest(words, token, wanted.choices()),
    }
}

/// Adds the names that there are.
fn add_names(words: &mut Words, before: &str, names: &[Piece<'_>]) {
    if !names.is_empty() {
        words.add(before);
        let mut count: usize = 0;
        for name in names {
            words.add(if count > 0 { ", " } else { ": " });
            add_token(words, name.bytes());
            count = count.saturating_add(1);
        }
        words.add("\n")
    }
}
