//! Labels by their names.

use words::Words;

/// The name of a label.
#[derive(Clone, Copy)]
pub enum Label<'a> {
    /// One that the text has.
    Given(&'a [u8]),
    /// One of a number that it hasn't.
    Made(u16),
}

/// Adds the name of a label.
pub fn add_label(words: &mut Words, label: Label<'_>) {
    match label {
        Label::Given(name) => add_bytes(words, name),
        Label::Made(number) => {
            words.add("new");
            words.add_number(number as u64)
        }
    }
}

/// Adds bytes of a text.
pub(crate) fn add_bytes(words: &mut Words, bytes: &[u8]) {
    let done = text::add_bytes(&mut words.text, bytes);
    words.note(done)
}
