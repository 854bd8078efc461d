//! Threads that wait in a ring, in words.

use crate::change::add_awaited;
use checked::Checked;
use std::alloc::{AllocError, Global};
use tell_names::{Book, add_number};
use tell_uses::standing::top_frame;
use words::Words;

/// What is told of threads that wait in a ring, with the names and the lines of the text of their
/// set: a line for each.
///
/// # Errors
///
/// When memory runs out.
pub fn ring_words(
    alloc: Global,
    text: &[u8],
    machine: &Checked,
    ringed: &[u8],
) -> Result<String, AllocError> {
    let book = Book::of(alloc, text)?;
    let mut words = Words::new(alloc);
    add_ringed(&mut words, &book, machine, ringed);
    words.finish()
}

/// Adds a line for each thread that waits in a ring.
pub fn add_ringed(words: &mut Words, book: &Book<'_>, machine: &Checked, ringed: &[u8]) {
    for thread in ringed {
        words.add("thread ");
        add_number(words, u64::from(*thread));
        words.add(" waits in a ring");
        if let Some(top) = top_frame(machine, *thread) {
            words.add(" at ");
            book.add_spot(words, top.view());
        }
        add_awaited(words, book, machine, *thread);
        words.add("\n");
    }
}
