//! Bytes of a text as a person can read them.

use crate::letters::letter_at;
use text::{PlacedLines, Spot};
use words::Words;

/// How many letters of a line or of a token are shown.
const SHOWN: usize = 160;

/// Adds bytes of a text: letters as they are, other bytes by their numbers, and at most so many of
/// both. How many bytes are left out is told then.
pub(crate) fn add_shown(words: &mut Words, bytes: &[u8]) {
    let mut rest = bytes;
    for _ in 0..SHOWN {
        let Some(first) = rest.first() else {
            break;
        };
        let count = add_letter(words, rest, *first);
        rest = rest.get(count..).unwrap_or(&[]);
    }
    if !rest.is_empty() {
        words.add(" .. and ");
        words.add_number(rest.len() as u64);
        words.add(" bytes more")
    }
}

/// Adds the letter that bytes begin with, or else the number of their first, and answers how many
/// bytes were shown.
fn add_letter(words: &mut Words, bytes: &[u8], first: u8) -> usize {
    match letter_at(bytes) {
        Some(letter) => {
            words.add(letter);
            letter.len()
        }
        None => {
            add_byte(words, first);
            1
        }
    }
}

/// Adds a byte as it is, or its number.
fn add_byte(words: &mut Words, byte: u8) {
    let done = if byte == b'\t' || (b' '..=b'~').contains(&byte) {
        words.text.push(char::from(byte))
    } else {
        write!(words.text, "\\x{byte:02X}")
    };
    words.note(done)
}

/// Adds a line and two lines round it, with their numbers; the line itself is marked.
pub(crate) fn add_excerpt(words: &mut Words, text: &[u8], spot: Spot) {
    let mut left = PlacedLines::of(text.get(spot.earlier..).unwrap_or(&[]));
    let first = spot.number.saturating_sub(2).max(1);
    for number in first..spot.number.saturating_add(3) {
        let Some(line) = left.next() else {
            break;
        };
        words.add(if number == spot.number {
            "  > "
        } else {
            "    "
        });
        words.add_number(number);
        words.add("  ");
        add_shown(words, without_return(line));
        words.add("\n");
    }
}

/// A line without the carriage return that may end it.
fn without_return(line: &[u8]) -> &[u8] {
    match line.split_last() {
        Some((b'\r', shown)) => shown,
        _ => line,
    }
}
