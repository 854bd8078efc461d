//! The sentences of what is told.

use crate::nearest::nearest;
use crate::quoting::add_shown;
use words::Words;

/// Adds the token that is at fault, and what is wrong with it.
pub fn add_at_fault(words: &mut Words, token: &[u8], why: &str) {
    words.add("at fault: ");
    add_token(words, token);
    words.add(why);
    words.add("\n")
}

/// Adds what is wrong, where no token is at fault.
pub fn add_wrong(words: &mut Words, why: &str) {
    words.add("at fault: ");
    words.add(why);
    words.add("\n")
}

/// Adds what may stand there.
pub fn add_expected(words: &mut Words, expected: &str) {
    words.add("what may stand there: ");
    words.add(expected);
    words.add("\n")
}

/// Adds what to do about it.
pub fn add_remedy(words: &mut Words, remedy: &str) {
    words.add("what to do: ");
    words.add(remedy);
    words.add("\n")
}

/// Adds what may be meant, and a word on it.
pub fn add_meant(words: &mut Words, meant: &[u8], because: &str) {
    words.add("did you mean: ");
    add_token(words, meant);
    words.add(because);
    words.add("\n")
}

/// Adds a token, marked as one.
pub fn add_token(words: &mut Words, token: &[u8]) {
    words.add("`");
    add_shown(words, token);
    words.add("`")
}

/// Adds the nearest of some words, where one is near.
pub fn add_nearest(words: &mut Words, token: &[u8], known: &[&str]) {
    add_near(words, nearest(token, known))
}

/// Adds a word that is near, if there is one.
pub fn add_near(words: &mut Words, near: Option<&[u8]>) {
    if let Some(word) = near {
        add_meant(words, word, "")
    }
}
