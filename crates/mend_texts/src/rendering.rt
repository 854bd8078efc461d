//! An edited routine as changes of lines, with a sentence for each.

use crate::label::add_bytes;
use crate::labels::Labels;
use crate::layout::{Parts, add_name, laid_out, parts_of};
use crate::page::{Page, number_of};
use crate::rows::{How, Row};
use crate::texts::{Making, push_made};
use crate::{Label, guessed, inserted, instruction_text, labels_line, moved, replaced, taken_out};
use driver_set::Instr;
use model::abs::Rule;
use std::alloc::{AllocError, Global};
use verifier_names::Names;
use words::Words;

/// A routine before and behind edits.
#[derive(Clone, Copy)]
pub(crate) struct Edited<'w, 'a> {
    pub alloc: Global,
    pub page: &'w Page<'a>,
    pub names: Names<'w, 'a>,
    pub rule: Rule,
    /// The indices of the lines of its instructions, and of its end.
    pub places: &'w [usize],
    pub end: usize,
    pub olds: &'w [Instr],
    pub news: &'w [Instr],
    pub rows: &'w [Row],
    pub labels: &'w Labels<'a>,
}

/// How far the lines of a routine have been gone through.
#[derive(Drop)]
struct Walk {
    /// The index of the next line.
    next: usize,
    /// The words of lines that were put in last.
    put: Vec<String>,
}

/// Adds the changes that edits make of the lines of a routine.
pub(crate) fn render(edited: Edited<'_, '_>, making: &mut Making) {
    let mut walk = Walk {
        next: match edited.places.first() {
            Some(first) => *first,
            None => edited.end,
        },
        put: Vec::new(edited.alloc),
    };
    for (position, row) in edited.rows.iter().enumerate() {
        match edited.place_of(row) {
            Some(line) => go_on(edited, &mut walk, position, line, making),
            None => put_in(edited, &mut walk, position, making),
        }
    }
    tell_put(edited, &mut walk, edited.end, making);
    pass_to(edited, &mut walk, edited.end, making)
}

impl<'w, 'a> Edited<'w, 'a> {
    /// The line of an instruction that stood in the routine.
    fn place_of(&self, row: &Row) -> Option<usize> {
        self.places.get(row.origin? as usize).copied()
    }

    /// Whether an edit moved the instruction at a position.
    fn is_moved(&self, position: usize) -> bool {
        self.rows
            .get(position)
            .is_some_and(|row| row.how == How::Moved)
    }

    /// Whether one stands for the instruction at a position that stood in the routine.
    fn is_replaced(&self, position: usize) -> bool {
        self.rows
            .get(position)
            .is_some_and(|row| row.how == How::Replaced)
    }

    /// The words on the line of an index.
    fn body(&self, line: usize) -> &'a [u8] {
        parts_of(self.page.line(line)).body
    }

    /// The words on the line of an index, behind a label.
    fn behind(&self, label: Option<Label<'_>>, line: usize) -> Result<String, AllocError> {
        let mut words = Words::new(self.alloc);
        if let Some(label) = label {
            add_name(&mut words, label);
            words.add(" ");
        }
        add_bytes(&mut words, self.body(line));
        words.finish()
    }

    /// The label at a position, if the line of the instruction there has it already.
    fn kept_label(&self, position: usize, line: usize) -> Option<Label<'a>> {
        let label = self.labels.at(position);
        if is_same(label, parts_of(self.page.line(line)).label) {
            label
        } else {
            None
        }
    }

    /// Where the instruction at a position stood in the routine, if it stood there.
    fn origin_of(&self, position: usize) -> Option<u16> {
        self.rows.get(position)?.origin
    }

    /// The instruction at a position in words, if they are others than they were, since it is
    /// another one or its label has another name.
    fn renamed(&self, position: usize) -> Result<Option<String>, AllocError> {
        let Some(origin) = self.origin_of(position) else {
            return Ok(None);
        };
        let old = self.words_before(origin as usize)?;
        let new = self.words(position)?;
        if old.as_bytes() == new.as_bytes() {
            return Ok(None);
        }
        Ok(Some(new))
    }

    /// The instruction at a position behind the edits, in words.
    fn words(&self, position: usize) -> Result<String, AllocError> {
        let Some(instr) = self.news.get(position) else {
            return Ok(String::new(self.alloc));
        };
        let label = match instr.label() {
            Some(to) => self.labels.at(to as usize),
            None => None,
        };
        instruction_text(self.alloc, self.names, *instr, label)
    }

    /// The instruction that stood at a position, in words.
    fn words_before(&self, position: usize) -> Result<String, AllocError> {
        let Some(instr) = self.olds.get(position) else {
            return Ok(String::new(self.alloc));
        };
        let label = match instr.label() {
            Some(to) => self.labels.before(to as usize),
            None => None,
        };
        instruction_text(self.alloc, self.names, *instr, label)
    }

    /// The line of the first instruction from a position on that stood in the routine, or its end.
    fn line_from(&self, position: usize) -> usize {
        for row in self.rows.iter().skip(position) {
            if let Some(line) = self.place_of(row) {
                return line;
            }
        }
        self.end
    }

    /// How a line without a label is laid out that stands near a position.
    fn bare_near(&self, position: usize) -> Parts<'a> {
        let near = match self.unlabelled(position) {
            Some(parts) => parts,
            None => match self.unlabelled(0) {
                Some(parts) => parts,
                None => parts_of(self.page.line(self.line_from(position))),
            },
        };
        near.bare()
    }

    /// The first line without a label of an instruction from a position on.
    fn unlabelled(&self, position: usize) -> Option<Parts<'a>> {
        for row in self.rows.iter().skip(position) {
            if let Some(line) = self.place_of(row) {
                let parts = parts_of(self.page.line(line));
                if parts.label.is_none() {
                    return Some(parts);
                }
            }
        }
        None
    }

    /// The line of an instruction that stood in the routine, if it is written otherwise now.
    fn written_anew(&self, position: usize, line: usize) -> Result<Option<String>, AllocError> {
        let parts = parts_of(self.page.line(line));
        let label = self.labels.at(position);
        let as_line = self.layout(position, parts);
        match self.renamed(position)? {
            Some(new) => Ok(Some(laid_out(self.alloc, as_line, label, new.as_bytes())?)),
            None if is_same(label, parts.label) || self.origin_of(position).is_none() => Ok(None),
            None => Ok(Some(laid_out(self.alloc, as_line, label, parts.body)?)),
        }
    }

    /// How a line is laid out that is written anew: one that loses its label begins where lines
    /// without one do.
    fn layout(&self, position: usize, parts: Parts<'a>) -> Parts<'a> {
        if self.labels.at(position).is_none() && parts.label.is_some() {
            let lead = self.bare_near(position).lead;
            return Parts { lead, ..parts };
        }
        parts
    }
}

/// Goes on to the line of an instruction that stood in the routine.
fn go_on(
    edited: Edited<'_, '_>,
    walk: &mut Walk,
    position: usize,
    line: usize,
    making: &mut Making,
) {
    tell_put(edited, walk, line, making);
    if line < walk.next || edited.is_moved(position) {
        put_elsewhere(edited, walk, position, line, making)
    } else {
        pass_to(edited, walk, line, making);
        walk.next = line.saturating_add(1);
        let anew = edited.written_anew(position, line);
        if !matches!(anew, Ok(None)) {
            making.delete(line);
            making.insert_made(walk.next, whole(anew));
            tell_replaced(edited, position, line, making);
            tell_label(edited, position, line, making)
        }
    }
}

/// A line that is there, where it could be made.
fn whole(line: Result<Option<String>, AllocError>) -> Result<String, AllocError> {
    match line {
        Ok(Some(line)) => Ok(line),
        _ => Err(AllocError),
    }
}

/// Puts the line of an instruction elsewhere.
fn put_elsewhere(
    edited: Edited<'_, '_>,
    walk: &Walk,
    position: usize,
    line: usize,
    making: &mut Making,
) {
    if edited.is_moved(position) {
        making.tell(moved_words(edited, position, line));
    }
    tell_label(edited, position, line, making);
    match edited.written_anew(position, line) {
        Ok(None) => making.insert_copy(walk.next, edited.page.line(line)),
        anew => making.insert_made(walk.next, whole(anew)),
    }
}

/// That a line is moved.
fn moved_words(edited: Edited<'_, '_>, position: usize, line: usize) -> Result<String, AllocError> {
    let before = edited.line_from(position.saturating_add(1));
    let words = edited.behind(edited.kept_label(position, line), line)?;
    moved(
        edited.alloc,
        number_of(line),
        words.as_bytes(),
        number_of(before),
        edited.rule,
    )
}

/// Puts a line in for an instruction that is new.
fn put_in(edited: Edited<'_, '_>, walk: &mut Walk, position: usize, making: &mut Making) {
    if let Some(words) = making.taken(edited.words(position)) {
        let label = edited.labels.at(position);
        let as_line = edited.bare_near(position);
        let line = laid_out(edited.alloc, as_line, label, words.as_bytes());
        making.insert_made(walk.next, line);
        let put = push_made(&mut walk.put, labelled(edited.alloc, label, words));
        making.note(put);
        note_guess(edited, position, making)
    }
}

/// Words behind the label that their line has, if it has one.
fn labelled(alloc: Global, label: Option<Label<'_>>, words: String) -> Result<String, AllocError> {
    match label {
        Some(label) => behind_label(alloc, label, words.as_str()),
        None => Ok(words),
    }
}

/// Words behind a label.
fn behind_label(alloc: Global, label: Label<'_>, words: &str) -> Result<String, AllocError> {
    let mut line = Words::new(alloc);
    add_name(&mut line, label);
    line.add(" ");
    line.add(words);
    line.finish()
}

/// Tells which lines were put in before a line.
fn tell_put(edited: Edited<'_, '_>, walk: &mut Walk, line: usize, making: &mut Making) {
    if !walk.put.is_empty() {
        let put = walk.put.as_slice();
        making.tell(inserted(edited.alloc, put, number_of(line), edited.rule));
        walk.put.clear()
    }
}

/// Tells that the words of a line are others, where an edit or a label made them so.
fn tell_replaced(edited: Edited<'_, '_>, position: usize, line: usize, making: &mut Making) {
    if edited.is_replaced(position) {
        making.tell(replaced_words(edited, line, edited.words(position)));
        note_guess(edited, position, making)
    } else {
        match edited.renamed(position) {
            Ok(None) => {}
            new => making.tell(replaced_words(edited, line, whole(new))),
        }
    }
}

/// That the words of a line are others.
fn replaced_words(
    edited: Edited<'_, '_>,
    line: usize,
    new: Result<String, AllocError>,
) -> Result<String, AllocError> {
    let new = new?;
    let old = edited.body(line);
    replaced(
        edited.alloc,
        number_of(line),
        old,
        new.as_bytes(),
        edited.rule,
    )
}

/// Tells that a line has a label that it hadn't: one that is new, or that of a line which is taken
/// out or moved.
fn tell_label(edited: Edited<'_, '_>, position: usize, line: usize, making: &mut Making) {
    if edited.kept_label(position, line).is_none() {
        if let Some(label) = edited.labels.at(position) {
            making.tell(labels_line(edited.alloc, number_of(line), label, edited.rule))
        }
    }
}

/// Notes what was guessed of an instruction that is new.
fn note_guess(edited: Edited<'_, '_>, position: usize, making: &mut Making) {
    if let Some(instr) = edited.news.get(position) {
        making.guess(guessed(edited.alloc, *instr))
    }
}

/// Passes lines up to one: those of instructions are taken out, which were or stand elsewhere.
fn pass_to(edited: Edited<'_, '_>, walk: &mut Walk, line: usize, making: &mut Making) {
    for passed in walk.next..line {
        if let Some(origin) = edited.places.iter().position(|place| *place == passed) {
            making.delete(passed);
            if !edited.rows.iter().any(|row| is_from(row, origin)) {
                making.tell(taken_words(edited, origin, passed));
            }
        }
    }
    walk.next = walk.next.max(line)
}

/// That the line of an instruction is taken out, with its label where no line has that now.
fn taken_words(edited: Edited<'_, '_>, origin: usize, line: usize) -> Result<String, AllocError> {
    let words = edited.behind(edited.labels.gone(origin), line)?;
    taken_out(edited.alloc, number_of(line), words.as_bytes(), edited.rule)
}

/// Whether an instruction stood at a position.
fn is_from(row: &Row, position: usize) -> bool {
    match row.origin {
        Some(origin) => origin as usize == position,
        None => false,
    }
}

/// Whether a label is the one that a line has.
fn is_same(label: Option<Label<'_>>, had: Option<&[u8]>) -> bool {
    match (label, had) {
        (None, None) => true,
        (Some(Label::Given(name)), Some(had)) => name == had,
        _ => false,
    }
}
