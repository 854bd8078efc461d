//! The instructions of a routine as edits move them, by where they stood.

use mend_changes::edit::Change;
use model::abs::Rule;
use std::alloc::{AllocError, Global};

/// What became of an instruction.
#[derive(Clone, Copy, PartialEq, Eq)]
pub(crate) enum How {
    Stays,
    Inserted,
    Replaced,
    Moved,
}

/// An instruction, by the position where it stood, if it stood in the routine.
#[derive(Clone, Copy)]
pub(crate) struct Row {
    pub origin: Option<u16>,
    pub how: How,
}

/// The instructions of a routine that is edited because a rule was broken in it.
#[derive(Drop)]
pub(crate) struct Rows {
    pub driver: u8,
    pub routine: u8,
    pub rule: Rule,
    pub rows: Vec<Row>,
}

impl Rows {
    /// A routine of so many instructions, before it is edited.
    pub fn of(
        alloc: Global,
        driver: u8,
        routine: u8,
        rule: Rule,
        count: usize,
    ) -> Result<Rows, AllocError> {
        let mut rows = Vec::new(alloc);
        for position in 0..count {
            rows.push(Row {
                origin: u16::try_from(position).ok(),
                how: How::Stays,
            })?;
        }
        Ok(Rows {
            driver,
            routine,
            rule,
            rows,
        })
    }

    /// Follows an edit at a position.
    pub fn follow(&mut self, at: u16, change: &Change) -> Result<(), AllocError> {
        let place = at as usize;
        match *change {
            Change::Insert(..) if place <= self.rows.len() => {
                self.rows.insert(
                    place,
                    Row {
                        origin: None,
                        how: How::Inserted,
                    },
                )?;
            }
            Change::Delete if place < self.rows.len() => {
                let _row = self.rows.remove(place);
            }
            Change::Replace(_) => self.set(place, How::Replaced),
            Change::Move(to, _) => self.put(place, to as usize)?,
            _ => {}
        }
        Ok(())
    }

    /// Notes what becomes of an instruction that stood in the routine.
    fn set(&mut self, place: usize, how: How) {
        if let Some(row) = self.rows.get_mut(place) {
            if row.origin.is_some() {
                row.how = how;
            }
        }
    }

    /// Puts an instruction before another one.
    fn put(&mut self, place: usize, to: usize) -> Result<(), AllocError> {
        self.set(place, How::Moved);
        let to = if to > place { to.saturating_sub(1) } else { to };
        if place < self.rows.len() {
            let row = self.rows.remove(place);
            if to <= self.rows.len() {
                self.rows.insert(to, row)?;
            }
        }
        Ok(())
    }
}
