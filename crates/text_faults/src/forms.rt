//! Forms of lines: the word that one begins with, and what has to stand behind it.

use crate::nearest::nearer;
use text::class::is;

/// The form of the lines that begin with a word.
pub struct Form<O: 'static> {
    pub word: &'static str,
    /// What stands behind the word.
    pub operands: &'static [O],
    /// Whether the last of these may be left out.
    pub open: bool,
}

impl<O: 'static> Form<O> {
    /// How many operands have to stand there.
    pub fn least(&self) -> usize {
        self.operands.len().saturating_sub(self.open as usize)
    }
}

/// That of the lines that begin with a word, if there are such.
pub fn form_among<'f, O>(forms: &'f [Form<O>], word: &[u8]) -> Option<&'f Form<O>> {
    for form in forms {
        if is(word, form.word.as_bytes()) {
            return Some(form);
        }
    }
    None
}

/// The nearest of the words that lines begin with, where one is near.
pub fn nearest_form<'f, O>(token: &[u8], forms: &'f [Form<O>]) -> Option<&'f [u8]> {
    let mut best = None;
    for form in forms {
        best = nearer(token, best, form.word.as_bytes());
    }
    best
}

/// Whether a token is one of some words.
pub fn is_one_of(token: &[u8], words: &[&str]) -> bool {
    for word in words {
        if is(token, word.as_bytes()) {
            return true;
        }
    }
    false
}
