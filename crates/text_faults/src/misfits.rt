//! What is wrong with the operands of a line.

use crate::advice::{add_at_fault, add_expected, add_meant, add_nearest, add_wrong};
use crate::forms::is_one_of;
use words::Words;

/// The words of major functions.
pub const MAJORS: [&str; 3] = ["READ", "WRITE", "CONTROL"];

/// Adds that a line ends before an operand.
pub fn add_short(words: &mut Words, expected: &str) {
    add_wrong(words, "the line ends too early");
    add_expected(words, expected)
}

/// Adds a token behind all operands of a line.
pub fn add_too_many(words: &mut Words, token: &[u8]) {
    add_at_fault(words, token, ", which is one token too many")
}

/// Adds a token that is another than is wanted.
pub fn add_unwanted(words: &mut Words, token: &[u8], expected: &str) {
    add_at_fault(words, token, ", which may not stand there");
    add_expected(words, expected)
}

/// Adds a token whose number is another than is wanted.
pub fn add_beyond(words: &mut Words, token: &[u8], expected: &str) {
    add_at_fault(words, token, ", whose number is out of range");
    add_expected(words, expected)
}

/// Adds the major function that may be meant.
pub fn add_major(words: &mut Words, token: &[u8]) {
    match token.strip_prefix(b"IRP_MJ_".as_slice()) {
        Some(major) if is_one_of(major, &MAJORS) => add_meant(
            words,
            major,
            ": a major function is written without `IRP_MJ_`",
        ),
        _ => add_nearest(words, token, &MAJORS),
    }
}
