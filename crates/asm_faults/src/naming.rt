//! Names that were given before, and names that nothing has.

use crate::faulty::FaultyLine;
use crate::line_form::form_of;
use crate::names::{Given, Thing, names_of};
use std::alloc::{AllocError, Global};
use text::class::is;
use text::token::Tokens;
use text_faults::advice::{add_at_fault, add_expected, add_near, add_token};
use text_faults::nearest::nearer;
use words::Words;

/// Names that are listed, at most.
const LISTED: usize = 12;

/// Adds which name was given before, and where.
pub(crate) fn add_duplicate(alloc: Global, words: &mut Words, line: &FaultyLine<'_>) {
    let word = line.parts.word_bytes();
    if let Some(label) = &line.parts.label {
        return add_given_before(alloc, words, line, Thing::Label, label.bytes());
    }
    match (Thing::begun_by(word), line.parts.operand(0)) {
        (Some(thing), Some(name)) => add_given_before(alloc, words, line, thing, name),
        (None, Some(entry)) if is(word, b"dispatch") => {
            add_at_fault(words, entry, ", which has a routine already");
            add_expected(words, "a major function that has none")
        }
        _ => add_at_fault(words, word, ", of which the driver has a line already"),
    }
}

/// Adds a name that an earlier line gave.
fn add_given_before(
    alloc: Global,
    words: &mut Words,
    line: &FaultyLine<'_>,
    thing: Thing,
    name: &[u8],
) {
    words.add("at fault: ");
    add_token(words, name);
    match given_on(alloc, line, thing, name) {
        Ok(Some(number)) if number < line.spot.number => {
            words.add(", which line ");
            words.add_number(number);
            words.add(" gave")
        }
        Ok(_) => words.add(", which was given"),
        Err(lack) => words.note(Err(lack)),
    }
    words.add(" to a ");
    words.add(thing.word());
    words.add(" before\nwhat may stand there: a name that no other ");
    words.add(thing.word());
    words.add(" has\n")
}

/// The number of the line that gives a name to a thing, if one does.
fn given_on(
    alloc: Global,
    line: &FaultyLine<'_>,
    thing: Thing,
    name: &[u8],
) -> Result<Option<u64>, AllocError> {
    let names = names_of(alloc, thing, line)?;
    match found(&names, name) {
        Some(given) => Ok(Some(given.number)),
        None => Ok(None),
    }
}

/// Adds which name nothing has, and which names there are.
pub(crate) fn add_unknown_name(alloc: Global, words: &mut Words, line: &FaultyLine<'_>) {
    let Some(form) = form_of(line.parts.word_bytes()) else {
        return;
    };
    let mut place: usize = 0;
    for operand in form.operands {
        if let (Some(thing), Some(name)) = (Thing::of(*operand), line.parts.operand(place)) {
            if add_if_unknown(alloc, words, line, thing, name) {
                return;
            }
        }
        place = place.saturating_add(1);
    }
    add_wrong_sort(alloc, words, line)
}

/// Adds a name if nothing has it, and answers whether no more can be told.
fn add_if_unknown(
    alloc: Global,
    words: &mut Words,
    line: &FaultyLine<'_>,
    thing: Thing,
    name: &[u8],
) -> bool {
    match names_of(alloc, thing, line) {
        Ok(names) => {
            let is_unknown = found(&names, name).is_none();
            if is_unknown {
                add_unknown(words, thing, name, &names)
            }
            is_unknown
        }
        Err(lack) => {
            words.note(Err(lack));
            true
        }
    }
}

/// The thing of a name, if it has been given.
fn found<'n, 'a>(names: &'n Vec<Given<'a>>, name: &[u8]) -> Option<&'n Given<'a>> {
    for given in names {
        if is(given.name.bytes(), name) {
            return Some(given);
        }
    }
    None
}

/// Adds a name that nothing has.
fn add_unknown(words: &mut Words, thing: Thing, name: &[u8], names: &Vec<Given<'_>>) {
    words.add("at fault: ");
    add_token(words, name);
    words.add(", the name of no ");
    add_within_reach(words, thing);
    words.add("\nwhat may stand there: ");
    if names.is_empty() {
        words.add("nothing yet, since there is no ");
        add_within_reach(words, thing);
        words.add("\n")
    } else {
        words.add("a ");
        add_within_reach(words, thing);
        words.add(": ");
        add_list(words, names);
        words.add("\n");
        add_near(words, nearest_name(name, names))
    }
}

/// Adds what has a name, and where such names are known.
fn add_within_reach(words: &mut Words, thing: Thing) {
    words.add(thing.word());
    words.add(" ");
    words.add(thing.reach())
}

/// Adds names, one after another.
fn add_list(words: &mut Words, names: &Vec<Given<'_>>) {
    let mut count: usize = 0;
    for given in names {
        if count == LISTED {
            return words.add(", ..");
        }
        words.add(if count > 0 { ", " } else { "" });
        add_token(words, given.name.bytes());
        count = count.saturating_add(1);
    }
}

/// The nearest name, where one is near.
fn nearest_name<'a>(token: &[u8], names: &Vec<Given<'a>>) -> Option<&'a [u8]> {
    let mut best = None;
    for given in names {
        best = nearer(token, best, given.name.bytes());
    }
    best
}

/// Adds that a routine is of another sort than the line takes.
fn add_wrong_sort(alloc: Global, words: &mut Words, line: &FaultyLine<'_>) {
    match wrong_place(alloc, line.parts.word_bytes(), line) {
        Ok(place) => add_sort_wanted(words, line, place),
        Err(lack) => words.note(Err(lack)),
    }
}

/// Adds the routine at a place, and of which sort it has to be.
fn add_sort_wanted(words: &mut Words, line: &FaultyLine<'_>, place: usize) {
    if let Some(routine) = line.parts.operand(place) {
        add_at_fault(
            words,
            routine,
            ", a routine of another sort than this line takes",
        );
        add_expected(words, sort_behind(line.parts.word_bytes(), place))
    }
}

/// The place of the routine that is of another sort than the line takes. A `startio` line may name
/// two: where the first is of its sort, it is the second.
fn wrong_place(alloc: Global, word: &[u8], line: &FaultyLine<'_>) -> Result<usize, AllocError> {
    if is(word, b"queue") {
        Ok(2)
    } else if is(word, b"dispatch") || is(word, b"call") {
        Ok(1)
    } else if is(word, b"startio") && begins_packets(alloc, line)? {
        Ok(1)
    } else {
        Ok(0)
    }
}

/// Whether the routine that a line names first is of sort `startio`.
fn begins_packets(alloc: Global, line: &FaultyLine<'_>) -> Result<bool, AllocError> {
    let Some(name) = line.parts.operand(0) else {
        return Ok(false);
    };
    let names = names_of(alloc, Thing::Routine, line)?;
    match found(&names, name) {
        Some(given) => Ok(is_startio(given.line.bytes())),
        None => Ok(false),
    }
}

/// Whether a `routine` line is of sort `startio`.
fn is_startio(line: &[u8]) -> bool {
    let mut tokens = Tokens::of(line);
    let (_, _) = (tokens.next(), tokens.next());
    match tokens.next() {
        Some(sort) => is(sort, b"startio"),
        None => false,
    }
}

/// Which routines a line takes at a place.
fn sort_behind(word: &[u8], place: usize) -> &'static str {
    if is(word, b"dispatch") {
        "a routine of sort `dispatch`"
    } else if is(word, b"startio") && place == 0 {
        "a routine of sort `startio`"
    } else if is(word, b"dpc") {
        "a routine of sort `dpc`"
    } else if is(word, b"queue") || is(word, b"startio") {
        "a routine of sort `cancel`"
    } else {
        "a routine of sort `propagate` or `hold`"
    }
}
