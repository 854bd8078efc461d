//! Bytes and tokens of no form.

use crate::advice::{add_at_fault, add_expected, add_meant, add_remedy, add_wrong};
use crate::letters::{Encoding, letter_at};
use std::alloc::{AllocError, Global};
use text::class::{is_name, is_token};
use text::cut::is_clean;
use text::token::Tokens;
use text::{Spot, line_at};
use words::Words;

/// What a token is, in words.
const TOKENS: &str = "a name (small letters, digits and `_`, at most 32, not beginning with a \
     digit), a word in capitals, a number, or a name with a colon";

/// What bytes lines are of, in words.
const BYTES: &str = "tab, space, and the letters, digits and signs of ASCII; in a comment too";

/// Adds why bytes or tokens of a line are of no form: how the file is encoded, or the first byte
/// that no text has, or the first token of no form.
pub fn add_lex(alloc: Global, words: &mut Words, text: &[u8], spot: Spot) {
    match encoding_at(text, spot) {
        Some(encoding) => {
            add_wrong(words, encoding.wrong());
            add_remedy(words, encoding.remedy())
        }
        None => add_formless(alloc, words, line_at(text, spot).unwrap_or(&[])),
    }
}

/// How the file is encoded, if no text is, and its first line is at fault for it.
fn encoding_at(text: &[u8], spot: Spot) -> Option<Encoding> {
    if spot.number == 1 {
        Encoding::of(text)
    } else {
        None
    }
}

/// Adds the first byte of a line that no text has, or the first token of no form.
fn add_formless(alloc: Global, words: &mut Words, line: &[u8]) {
    let mut column: usize = 0;
    for byte in line {
        if !is_clean(&[*byte]) {
            return add_unclean(words, line, column);
        }
        column = column.saturating_add(1);
    }
    add_token_of_no_form(alloc, words, line)
}

/// Adds the byte or the letter behind so many, which no text has.
fn add_unclean(words: &mut Words, line: &[u8], before: usize) {
    let rest = line.get(before..).unwrap_or(&[]);
    let byte = rest.first().copied().unwrap_or(0);
    words.add("at fault: ");
    let why = add_byte_or_letter(words, rest, byte);
    words.add(" at column ");
    words.add_number(before.saturating_add(1) as u64);
    words.add(why);
    words.add("\n");
    add_expected(words, BYTES);
    if !byte.is_ascii() {
        add_remedy(words, "write it with letters of ASCII, or leave it out")
    }
}

/// Adds the letter that bytes begin with, or else their first byte, and answers what is wrong with
/// it.
fn add_byte_or_letter(words: &mut Words, bytes: &[u8], first: u8) -> &'static str {
    match letter_at(bytes) {
        Some(letter) => {
            words.add("`");
            words.add(letter);
            words.add("`");
            ", a letter that isn't ASCII"
        }
        None => {
            words.add("the byte ");
            words.add_number(u64::from(first));
            if first.is_ascii() {
                ", which no text has"
            } else {
                ", of a letter that isn't ASCII"
            }
        }
    }
}

/// Adds the first token of no form.
fn add_token_of_no_form(alloc: Global, words: &mut Words, line: &[u8]) {
    let mut tokens = Tokens::of(line);
    while let Some(token) = tokens.next() {
        if !is_token(token) {
            add_at_fault(words, token, ", which has the form of no token");
            add_expected(words, TOKENS);
            return add_small(alloc, words, token);
        }
    }
}

/// Adds the token in small letters, where that is a name.
fn add_small(alloc: Global, words: &mut Words, token: &[u8]) {
    match small(alloc, token) {
        Ok(name) => {
            if is_name(name.as_slice()) {
                add_meant(words, name.as_slice(), ": a name has no capitals")
            }
        }
        Err(lack) => words.note(Err(lack)),
    }
}

/// The token in small letters.
fn small(alloc: Global, token: &[u8]) -> Result<Vec<u8>, AllocError> {
    let mut small = Vec::new(alloc);
    for byte in token {
        small.push(byte.to_ascii_lowercase())?;
    }
    Ok(small)
}
