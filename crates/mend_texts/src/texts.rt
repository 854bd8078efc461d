//! A mended text.

use crate::labels::Labels;
use crate::layout::line_of;
use crate::page::{Page, Thing};
use crate::rendering::{Edited, render};
use crate::rows::Rows;
use crate::tables::render_lines;
use crate::tracing::{Trace, code_of};
use asm_line::{Body, read_line};
use driver_set::{DriverSet, Instr};
use mend_changes::edit::Edit;
use mend_edits::Change;
use model::abs::Rule;
use model::items::Items;
use std::alloc::{AllocError, Global};

/// Edits of a set, one after another, and the rule that was broken without them.
#[derive(Clone, Copy)]
pub struct Mend<'a> {
    pub rule: Rule,
    pub edits: &'a [Edit],
}

/// What mends make of a text.
#[derive(Drop)]
pub struct Mended {
    /// The changes of its lines, in order.
    pub changes: Vec<Change>,
    /// A sentence for each edit, or for several that make one change.
    pub sentences: Vec<String>,
    /// What was guessed for them, in words.
    pub guesses: Vec<String>,
}

/// Mends in the making: what is made of a text, and whether something of it is missing.
#[derive(Drop)]
pub(crate) struct Making {
    pub alloc: Global,
    mended: Mended,
    lacks: bool,
}

impl Making {
    /// No changes.
    fn none(alloc: Global) -> Making {
        Making {
            alloc,
            mended: Mended {
                changes: Vec::new(alloc),
                sentences: Vec::new(alloc),
                guesses: Vec::new(alloc),
            },
            lacks: false,
        }
    }

    /// What was made, if nothing of it is missing.
    fn finish(self) -> Result<Mended, AllocError> {
        if self.lacks {
            return Err(AllocError);
        }
        Ok(self.mended)
    }

    /// Notes whether something could be done.
    pub(crate) fn note(&mut self, done: Result<(), AllocError>) {
        if done.is_err() {
            self.lacks = true;
        }
    }

    /// Takes a text that was made, or notes that it is missing.
    pub(crate) fn taken(&mut self, made: Result<String, AllocError>) -> Option<String> {
        if made.is_err() {
            self.lacks = true;
        }
        made.ok()
    }

    /// Adds a sentence.
    pub(crate) fn tell(&mut self, told: Result<String, AllocError>) {
        let done = push_made(&mut self.mended.sentences, told);
        self.note(done)
    }

    /// Adds a guess, if there is one.
    pub(crate) fn guess(&mut self, guess: Result<Option<String>, AllocError>) {
        let done = push_guess(&mut self.mended.guesses, guess);
        self.note(done)
    }

    /// Takes out the line of an index.
    pub(crate) fn delete(&mut self, index: usize) {
        let done = self.mended.delete(self.alloc, index);
        self.note(done)
    }

    /// Puts a line in before the one of an index.
    pub(crate) fn insert(&mut self, index: usize, line: Items<u8>) {
        let done = self.mended.insert(self.alloc, index, line);
        self.note(done)
    }

    /// Puts a line in that was made.
    pub(crate) fn insert_made(&mut self, index: usize, line: Result<String, AllocError>) {
        if let Some(line) = self.taken(line) {
            self.insert(index, line_of(line))
        }
    }

    /// Puts a copy of a line in.
    pub(crate) fn insert_copy(&mut self, index: usize, line: &[u8]) {
        match Vec::from_slice(self.alloc, line) {
            Ok(copy) => self.insert(index, Items::of(copy)),
            Err(_) => self.lacks = true,
        }
    }
}

/// Adds a text that was made to others.
pub(crate) fn push_made(
    all: &mut Vec<String>,
    made: Result<String, AllocError>,
) -> Result<(), AllocError> {
    all.push(made?)?;
    Ok(())
}

/// Adds a guess to others, if there is one.
fn push_guess(
    all: &mut Vec<String>,
    guess: Result<Option<String>, AllocError>,
) -> Result<(), AllocError> {
    match guess? {
        Some(guess) => push_made(all, Ok(guess)),
        None => Ok(()),
    }
}

impl Mended {
    /// Takes out the line of an index.
    fn delete(&mut self, alloc: Global, index: usize) -> Result<(), AllocError> {
        let place = self.place_at(index);
        if let Some(change) = self.changes.get_mut(place) {
            change.taken = change.taken.saturating_add(1);
            return Ok(());
        }
        self.add(Change {
            before: index,
            taken: 1,
            lines: Vec::new(alloc),
        })
    }

    /// Puts a line in before the one of an index.
    fn insert(&mut self, alloc: Global, index: usize, line: Items<u8>) -> Result<(), AllocError> {
        let place = self.place_at(index);
        if let Some(change) = self.changes.get_mut(place) {
            change.lines.push(line)?;
            return Ok(());
        }
        let mut lines = Vec::new(alloc);
        lines.push(line)?;
        self.add(Change {
            before: index,
            taken: 0,
            lines,
        })
    }

    /// The place of the change that ends before the line of an index; behind all if there is none.
    fn place_at(&self, index: usize) -> usize {
        for (place, change) in self.changes.iter().enumerate() {
            if change.before.saturating_add(change.taken) == index {
                return place;
            }
        }
        self.changes.len()
    }

    /// Adds a change in its place.
    fn add(&mut self, change: Change) -> Result<(), AllocError> {
        let later = self
            .changes
            .iter()
            .position(|other| other.before > change.before);
        match later {
            Some(place) => self.changes.insert(place, change)?,
            None => self.changes.push(change)?,
        }
        Ok(())
    }
}

/// What mends of the set that a text names make of the text, one after another, if each edit of
/// theirs can be made.
///
/// # Errors
///
/// When memory runs out.
pub fn mend_text(
    alloc: Global,
    text: &[u8],
    set: &DriverSet,
    mends: &[Mend<'_>],
) -> Result<Option<Mended>, AllocError> {
    let mut trace = Trace::of(alloc, set)?;
    if !follow_all(alloc, &mut trace, mends)? {
        return Ok(None);
    }
    Ok(Some(rendered(alloc, text, set, &trace)?))
}

/// Follows mends, one after another; whether each edit of theirs could be made.
fn follow_all(alloc: Global, trace: &mut Trace, mends: &[Mend<'_>]) -> Result<bool, AllocError> {
    for mend in mends {
        if !trace.follow(alloc, mend.rule, mend.edits)? {
            return Ok(false);
        }
    }
    Ok(true)
}

/// What edits that were followed make of a text.
fn rendered(
    alloc: Global,
    text: &[u8],
    set: &DriverSet,
    trace: &Trace,
) -> Result<Mended, AllocError> {
    let page = Page::of(alloc, text)?;
    let mut making = Making::none(alloc);
    for rows in trace.routines.iter() {
        render_routine(&page, set, &trace.set, rows, &mut making);
    }
    render_lines(&page, trace.lines.as_slice(), &mut making);
    making.finish()
}

/// Adds what edits make of a routine.
fn render_routine(
    page: &Page<'_>,
    before: &DriverSet,
    behind: &DriverSet,
    rows: &Rows,
    making: &mut Making,
) {
    let (driver, routine) = (rows.driver, rows.routine);
    let start = page.line_of(Thing::Routine(driver, routine));
    let end = page.line_of(Thing::RoutineEnd(driver, routine));
    if let (Some(start), Some(end)) = (start, end) {
        let olds = code_of(before, driver, routine);
        let news = code_of(behind, driver, routine);
        let done = render_between(page, olds, news, rows, (start, end), making);
        making.note(done)
    }
}

/// Adds what edits make of a routine between two lines.
fn render_between(
    page: &Page<'_>,
    olds: &[Instr],
    news: &[Instr],
    rows: &Rows,
    lines: (usize, usize),
    making: &mut Making,
) -> Result<(), AllocError> {
    let (start, end) = lines;
    let places = places_in(making.alloc, page, start, end)?;
    let had = labels_on(making.alloc, page, places.as_slice())?;
    let labels = Labels::of(making.alloc, had, olds, news, rows.rows.as_slice())?;
    let edited = Edited {
        alloc: making.alloc,
        page,
        names: page.names.in_driver(rows.driver),
        rule: rows.rule,
        places: places.as_slice(),
        end,
        olds,
        news,
        rows: rows.rows.as_slice(),
        labels: &labels,
    };
    render(edited, making);
    Ok(())
}

/// The indices of the lines between two that have instructions.
fn places_in(
    alloc: Global,
    page: &Page<'_>,
    start: usize,
    end: usize,
) -> Result<Vec<usize>, AllocError> {
    let mut places = Vec::new(alloc);
    for index in start..end {
        if step_on(page.line(index)).is_some() {
            places.push(index)?;
        }
    }
    Ok(places)
}

/// The labels on lines with instructions.
fn labels_on<'a>(
    alloc: Global,
    page: &Page<'a>,
    places: &[usize],
) -> Result<Vec<Option<&'a [u8]>>, AllocError> {
    let mut labels = Vec::new(alloc);
    for place in places {
        labels.push(step_on(page.line(*place)).unwrap_or(None))?;
    }
    Ok(labels)
}

/// The label on a line, if there is one, where the line has an instruction.
fn step_on(raw: &[u8]) -> Option<Option<&[u8]>> {
    let Ok(line) = read_line(raw) else {
        return None;
    };
    let Body::Step(..) = line.body else {
        return None;
    };
    match line.label {
        Some(label) => Some(Some(label.bytes())),
        None => Some(None),
    }
}
