//! Edits of a set followed, routine by routine.

use crate::rows::Rows;
use driver_set::{DriverSet, Instr};
use mend_changes::apply::edited;
use mend_changes::edit::{Change, Edit};
use model::abs::Rule;
use std::alloc::{AllocError, Global};

/// An edit of a line that is no instruction's, because a rule was broken.
#[derive(Clone, Copy)]
pub(crate) struct LineEdit {
    pub rule: Rule,
    pub edit: Edit,
}

/// What edits have made of a set.
#[derive(Drop)]
pub(crate) struct Trace {
    pub set: DriverSet,
    pub routines: Vec<Rows>,
    pub lines: Vec<LineEdit>,
}

impl Trace {
    /// A set, before it is edited.
    pub fn of(alloc: Global, set: &DriverSet) -> Result<Trace, AllocError> {
        let Ok(set) = set.copy(alloc) else {
            return Err(AllocError);
        };
        Ok(Trace {
            set,
            routines: Vec::new(alloc),
            lines: Vec::new(alloc),
        })
    }

    /// Follows edits that are made because a rule was broken; whether each could be made.
    pub fn follow(
        &mut self,
        alloc: Global,
        rule: Rule,
        edits: &[Edit],
    ) -> Result<bool, AllocError> {
        for edit in edits {
            let Some(next) = edited(alloc, &self.set, edit)? else {
                return Ok(false);
            };
            self.note(alloc, rule, edit)?;
            self.set = next;
        }
        Ok(true)
    }

    /// Notes an edit, before it is made.
    fn note(&mut self, alloc: Global, rule: Rule, edit: &Edit) -> Result<(), AllocError> {
        match edit.change {
            Change::Insert(..) | Change::Delete | Change::Replace(_) | Change::Move(..) => {
                self.note_code(alloc, rule, edit)
            }
            _ => {
                self.lines.push(LineEdit { rule, edit: *edit })?;
                Ok(())
            }
        }
    }

    /// Notes an edit of a routine's code.
    fn note_code(&mut self, alloc: Global, rule: Rule, edit: &Edit) -> Result<(), AllocError> {
        let known = self.routines.iter().any(|rows| is_of(rows, edit));
        if !known {
            let count = code_of(&self.set, edit.driver, edit.routine).len();
            let rows = Rows::of(alloc, edit.driver, edit.routine, rule, count)?;
            self.routines.push(rows)?;
        }
        for rows in self.routines.iter_mut() {
            if is_of(rows, edit) {
                rows.follow(edit.at, &edit.change)?;
            }
        }
        Ok(())
    }
}

/// Whether these are the rows of the routine that is edited.
fn is_of(rows: &Rows, edit: &Edit) -> bool {
    rows.driver == edit.driver && rows.routine == edit.routine
}

/// The code of the routine of a number in the driver of a number.
pub(crate) fn code_of(set: &DriverSet, driver: u8, routine: u8) -> &[Instr] {
    let Some(found) = set.drivers().get(driver as usize) else {
        return &[];
    };
    match found.routines.as_slice().get(routine as usize) {
        Some(routine) => routine.code.as_slice(),
        None => &[],
    }
}
