//! A faulty line in its text.

use crate::scope::{Opened, Scope};
use crate::token::Parts;
use std::alloc::{AllocError, Global};
use text::{Spot, add_bytes, line_at};
use text_faults::add_line;
use words::Words;

/// A faulty line in its text.
#[derive(Drop)]
pub(crate) struct FaultyLine<'a> {
    pub(crate) text: &'a [u8],
    pub(crate) scope: Scope<'a>,
    /// Where it stands; behind the last line where the text ends too early.
    pub(crate) spot: Spot,
    pub(crate) parts: Parts<'a>,
}

impl<'a> FaultyLine<'a> {
    /// The line of a number in a text.
    pub(crate) fn of(
        alloc: Global,
        text: &'a [u8],
        number: u64,
    ) -> Result<FaultyLine<'a>, AllocError> {
        let mut scope = Scope::new(alloc);
        let spot = scope.pass_lines(text, number)?;
        let parts = Parts::of(alloc, line_at(text, spot).unwrap_or(&[]))?;
        Ok(FaultyLine {
            text,
            scope,
            spot,
            parts,
        })
    }

    /// Adds where it stands, and the lines round it.
    pub(crate) fn add_place(&self, words: &mut Words) {
        words.add("\nin ");
        add_opened(words, "driver ", &self.scope.driver);
        add_opened(words, "routine ", &self.scope.routine);
        add_line(words, self.text, self.spot)
    }
}

/// Adds the name of what is open.
fn add_opened(words: &mut Words, thing: &str, opened: &Option<Opened<'_>>) {
    if let Some(opened) = opened {
        words.add(thing);
        let done = add_bytes(&mut words.text, opened.name.bytes());
        words.note(done);
        words.add(", ")
    }
}
