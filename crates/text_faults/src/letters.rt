//! Letters that aren't ASCII, and files that aren't of plain bytes.

use crate::quoting::add_excerpt;
use text::Spot;
use words::Words;

/// How a file is encoded that no text is, by its first bytes.
#[derive(Clone, Copy)]
pub(crate) enum Encoding {
    /// UTF-8 behind a byte order mark.
    Marked,
    /// UTF-16.
    Wide,
}

impl Encoding {
    /// That of a text, if it is such a one.
    pub(crate) fn of(text: &[u8]) -> Option<Encoding> {
        if text.starts_with(&[0xEF, 0xBB, 0xBF]) {
            Some(Encoding::Marked)
        } else if text.starts_with(&[0xFF, 0xFE]) || text.starts_with(&[0xFE, 0xFF]) {
            Some(Encoding::Wide)
        } else {
            None
        }
    }

    /// What is wrong with it.
    pub(crate) fn wrong(self) -> &'static str {
        match self {
            Encoding::Marked => "the file begins with a byte order mark",
            Encoding::Wide => "the file is UTF-16",
        }
    }

    /// What to do about it.
    pub(crate) fn remedy(self) -> &'static str {
        match self {
            Encoding::Marked => "save it as UTF-8 without BOM (or ASCII)",
            Encoding::Wide => "save it as ASCII or UTF-8",
        }
    }
}

/// Adds the number of a line, and it with two lines round it, unless the text is UTF-16, whose
/// lines can't be shown.
pub fn add_line(words: &mut Words, text: &[u8], spot: Spot) {
    words.add("line ");
    words.add_number(spot.number);
    words.add(":\n");
    match Encoding::of(text) {
        Some(Encoding::Wide) => {}
        _ => add_excerpt(words, text, spot),
    }
}

/// The letter that bytes begin with, if they begin with one of UTF-8 that isn't ASCII.
pub(crate) fn letter_at(bytes: &[u8]) -> Option<&str> {
    let count = match bytes.first() {
        Some(0xC0..=0xDF) => 2,
        Some(0xE0..=0xEF) => 3,
        Some(0xF0..=0xF7) => 4,
        _ => return None,
    };
    str::from_utf8(bytes.get(..count)?).ok()
}
