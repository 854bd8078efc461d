//! What is quoted of a set: lines of the text that names it, or of its listing.

use crate::names::Names;
use text::{Spot, add_excerpt};
use words::Words;

/// What a set was read from, which is quoted.
#[derive(Clone, Copy)]
pub enum Origin<'a> {
    /// A text, which names what is in the set.
    Text(&'a [u8]),
    /// An image: the listing of the set is quoted.
    Image,
}

/// A text that is quoted.
#[derive(Drop)]
pub enum Source<'a> {
    /// The one that names the set.
    Text(&'a [u8]),
    /// Lines of the set's listing.
    Listing(String),
}

impl Source<'_> {
    /// Its bytes.
    pub fn bytes(&self) -> &[u8] {
        match self {
            Source::Text(text) => *text,
            Source::Listing(text) => text.as_bytes(),
        }
    }
}

/// Adds the names of a driver and of a routine of it, behind an empty line.
pub fn add_title(words: &mut Words, names: Names<'_, '_>, driver: u8, routine: u8) {
    words.add("\nin ");
    names.add_driver(words, driver);
    words.add(", ");
    names.add_routine(words, routine)
}

/// Adds a position, and the lines round the one that has it.
pub fn add_lines(words: &mut Words, text: &[u8], at: u16, line: Option<Spot>) {
    words.add(", position ");
    words.add_number(at as u64);
    match line {
        Some(line) => {
            words.add(", line ");
            words.add_number(line.number);
            words.add(":\n");
            let done = add_excerpt(&mut words.text, text, line);
            words.note(done)
        }
        None => words.add("\n"),
    }
}
