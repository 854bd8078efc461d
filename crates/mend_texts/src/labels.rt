//! Which labels stand where behind edits: old ones are kept where that can be.

use crate::rows::{How, Row};
use crate::{Label, add_label};
use driver_set::Instr;
use std::alloc::{AllocError, Global};
use words::Words;

/// The labels of a routine behind edits, by positions.
#[derive(Drop)]
pub(crate) struct Labels<'a> {
    /// Those that the text has, by the positions where they stood.
    pub old: Vec<Option<&'a [u8]>>,
    /// Which of them stand somewhere.
    used: Vec<bool>,
    pub new: Vec<Option<Label<'a>>>,
}

impl<'a> Labels<'a> {
    /// Puts the labels that a routine had to the positions that are jumped to behind edits.
    pub fn of(
        alloc: Global,
        old: Vec<Option<&'a [u8]>>,
        olds: &[Instr],
        news: &[Instr],
        rows: &[Row],
    ) -> Result<Labels<'a>, AllocError> {
        let mut labels = Labels::none(alloc, old, news.len())?;
        labels.follow_jumps(olds, news, rows);
        labels.stay_at_targets(news, rows);
        labels.make_missing(alloc, news)?;
        labels.stay_unused(rows);
        Ok(labels)
    }

    /// No label at so many positions.
    fn none(
        alloc: Global,
        old: Vec<Option<&'a [u8]>>,
        count: usize,
    ) -> Result<Labels<'a>, AllocError> {
        let used = vec![in alloc; false; old.len()]?;
        let new = vec![in alloc; None; count]?;
        Ok(Labels { old, used, new })
    }

    /// The label at a position.
    pub fn at(&self, position: usize) -> Option<Label<'a>> {
        match self.new.get(position) {
            Some(label) => *label,
            None => None,
        }
    }

    /// The label that stood at a position.
    pub fn before(&self, position: usize) -> Option<Label<'a>> {
        match self.old.get(position) {
            Some(Some(name)) => Some(Label::Given(*name)),
            _ => None,
        }
    }

    /// The label that stood at a position, if it stands nowhere now.
    pub fn gone(&self, position: usize) -> Option<Label<'a>> {
        match self.used.get(position) {
            Some(false) => self.before(position),
            _ => None,
        }
    }

    /// A label goes with the first jump that led to it, but not with one that is another now.
    fn follow_jumps(&mut self, olds: &[Instr], news: &[Instr], rows: &[Row]) {
        for (row, now) in rows.iter().zip(news.iter()) {
            if row.how != How::Replaced {
                if let (Some(from), Some(to)) = (label_before(olds, row), now.label()) {
                    self.put(from as usize, to as usize);
                }
            }
        }
    }

    /// A position that is jumped to keeps the label that it had.
    fn stay_at_targets(&mut self, news: &[Instr], rows: &[Row]) {
        for now in news {
            if let Some(to) = now.label() {
                if let Some(
                    Row {
                        origin: Some(origin),
                        ..
                    },
                ) = rows.get(to as usize)
                {
                    self.put(*origin as usize, to as usize);
                }
            }
        }
    }

    /// A position that is jumped to and has none gets one of its own.
    fn make_missing(&mut self, alloc: Global, news: &[Instr]) -> Result<(), AllocError> {
        let mut number = 0;
        for now in news {
            if let Some(to) = now.label() {
                if let Some(None) = self.new.get(to as usize) {
                    number = self.next_free(alloc, number)?;
                    if let Some(place) = self.new.get_mut(to as usize) {
                        *place = Some(Label::Made(number));
                    }
                }
            }
        }
        Ok(())
    }

    /// One that no jump leads to stays where its instruction is.
    fn stay_unused(&mut self, rows: &[Row]) {
        for (position, row) in rows.iter().enumerate() {
            if let Some(origin) = row.origin {
                self.put(origin as usize, position);
            }
        }
    }

    /// Puts the label that stood at a position to another, if both are free.
    fn put(&mut self, from: usize, to: usize) {
        let Some(Label::Given(name)) = self.before(from) else {
            return;
        };
        if let (Some(used), Some(place)) = (self.used.get_mut(from), self.new.get_mut(to)) {
            if !*used && place.is_none() {
                *used = true;
                *place = Some(Label::Given(name));
            }
        }
    }

    /// The next number whose label the text hasn't.
    fn next_free(&self, alloc: Global, number: u16) -> Result<u16, AllocError> {
        for next in number.saturating_add(1)..u16::MAX {
            if !self.has(made_name(alloc, next)?.as_bytes()) {
                return Ok(next);
            }
        }
        Ok(u16::MAX)
    }

    /// Whether the text has a label of this name.
    fn has(&self, name: &[u8]) -> bool {
        self.old.iter().any(|label| match label {
            Some(label) => *label == name,
            None => false,
        })
    }
}

/// The name of the label of a number that the text hasn't.
fn made_name(alloc: Global, number: u16) -> Result<String, AllocError> {
    let mut name = Words::new(alloc);
    add_label(&mut name, Label::Made(number));
    name.finish()
}

/// Where the jump led that an instruction was.
fn label_before(olds: &[Instr], row: &Row) -> Option<u16> {
    let before = olds.get(row.origin? as usize)?;
    before.label()
}
