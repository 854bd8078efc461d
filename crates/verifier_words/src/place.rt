//! Where a refusal stands.

use model::abs::Refusal;
use model::set::Sort;
use text::{Spot, Spots, add_line};
use verifier_names::{Names, SetNames, Source, add_lines, add_title};
use words::Words;

/// A routine that is refused, as its text has it.
#[derive(Drop)]
pub(crate) struct Scene<'a> {
    pub(crate) refusal: Refusal,
    pub(crate) sort: Sort,
    /// What has its lines.
    pub(crate) source: Source<'a>,
    pub(crate) names: SetNames<'a>,
    /// Where the lines of its instructions stand.
    pub(crate) lines: Spots,
    /// What has other lines, those of all devices among them, and where they stand.
    pub(crate) others: Source<'a>,
    pub(crate) outline: Spots,
}

impl<'a> Scene<'a> {
    /// What the driver and the things in it are called.
    pub(crate) fn names(&self) -> Names<'_, 'a> {
        self.names.in_driver(self.refusal.driver)
    }

    /// Where the line stands that has the instruction of a position.
    pub(crate) fn line_at(&self, at: u16) -> Option<Spot> {
        self.lines.get(at as usize)
    }

    /// Adds a position with its line.
    pub(crate) fn add_position(&self, words: &mut Words, at: u16) {
        words.add("at ");
        words.add_number(at as u64);
        if let Some(line) = self.line_at(at) {
            words.add(", line ");
            words.add_number(line.number);
            words.add(": ");
            let done = add_line(&mut words.text, self.source.bytes(), line);
            words.note(done)
        }
    }

    /// Adds the names of the driver and the routine, and the lines round the place.
    pub(crate) fn add_place(&self, words: &mut Words) {
        let Refusal {
            driver,
            routine,
            at,
            rule: _,
        } = self.refusal;
        add_title(words, self.names(), driver, routine);
        words.add(" (");
        words.add(self.sort.as_str());
        words.add(")");
        add_lines(words, self.source.bytes(), at, self.line_at(at))
    }
}
