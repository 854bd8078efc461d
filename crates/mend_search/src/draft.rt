//! A routine's code while it is edited.

use driver_set::Instr;
use mend_changes::{Change, Edit, edit_code};
use mend_reading::Placed;
use std::alloc::{AllocError, Global};

/// Code with edits.
#[derive(Drop)]
pub(crate) struct Draft {
    pub(crate) code: Vec<Instr>,
    /// Which instructions were put there or changed.
    pub(crate) touched: Vec<bool>,
    spare: Vec<Instr>,
}

impl Draft {
    pub(crate) fn new(alloc: Global) -> Draft {
        Draft {
            code: Vec::new(alloc),
            touched: Vec::new(alloc),
            spare: Vec::new(alloc),
        }
    }

    /// Takes this code.
    pub(crate) fn take_code(&mut self, code: &[Instr]) -> Result<(), AllocError> {
        self.code.clear();
        self.code.extend_from_slice(code)
    }

    /// Takes this code, of which nothing is touched.
    pub(crate) fn take(&mut self, code: &[Instr]) -> Result<(), AllocError> {
        self.take_code(code)?;
        self.touched.clear();
        self.touched.resize(code.len(), false)?;
        Ok(())
    }

    /// Makes changes of code, and answers whether each has a place. Others are passed.
    pub(crate) fn apply(&mut self, changes: &[Placed]) -> Result<bool, AllocError> {
        for placed in changes {
            if is_line(&placed.change) {
                continue;
            }
            if !edit_code(
                self.code.as_slice(),
                placed.at,
                &placed.change,
                &mut self.spare,
            )? {
                return Ok(false);
            }
            std::mem::swap(&mut self.code, &mut self.spare);
        }
        Ok(true)
    }

    /// The same, and notes what they touch.
    pub(crate) fn follow(&mut self, changes: &[Placed]) -> Result<bool, AllocError> {
        let have_places = self.apply(changes)?;
        if have_places {
            self.touch(changes)?;
        }
        Ok(have_places)
    }

    /// Notes which instructions changes of code touch.
    fn touch(&mut self, changes: &[Placed]) -> Result<(), AllocError> {
        for placed in changes {
            self.touch_one(placed.at as usize, &placed.change)?;
        }
        Ok(())
    }

    fn touch_one(&mut self, at: usize, change: &Change) -> Result<(), AllocError> {
        match *change {
            Change::Insert(..) if at <= self.touched.len() => self.touched.insert(at, true)?,
            Change::Delete if at < self.touched.len() => {
                let _gone = self.touched.remove(at);
            }
            Change::Replace(_) => {
                if let Some(touched) = self.touched.get_mut(at) {
                    *touched = true;
                }
            }
            Change::Move(to, _) if at < self.touched.len() => {
                let _gone = self.touched.remove(at);
                let to = to as usize;
                let to = if at < to { to.saturating_sub(1) } else { to };
                if to <= self.touched.len() {
                    self.touched.insert(to, true)?;
                }
            }
            _ => {}
        }
        Ok(())
    }
}

/// Whether a change is of a line that is no instruction.
fn is_line(change: &Change) -> bool {
    !matches!(
        *change,
        Change::Insert(..) | Change::Delete | Change::Replace(_) | Change::Move(..)
    )
}

/// Whether one of the changes is of a position.
pub(crate) fn changes_at(changes: &[Placed], at: u16) -> bool {
    for placed in changes {
        if placed.at == at {
            return true;
        }
    }
    false
}

/// Whether one of them is of a line that is no instruction.
pub fn has_line(edits: &[Edit]) -> bool {
    for edit in edits {
        if is_line(&edit.change) {
            return true;
        }
    }
    false
}

/// The first position whose instruction changes, labels apart, or before which one is put.
pub(crate) fn first_changed(changes: &[Placed]) -> u16 {
    let mut first = u16::MAX;
    for placed in changes {
        let at = match placed.change {
            Change::Move(to, _) => placed.at.min(to),
            _ => placed.at,
        };
        first = first.min(at);
    }
    first
}

/// Where an instruction is behind changes, if it is still there as it was.
pub(crate) fn followed(changes: &[Placed], at: u16) -> Option<u16> {
    let mut place = at;
    for placed in changes {
        place = followed_one(placed, place)?;
    }
    Some(place)
}

fn followed_one(placed: &Placed, place: u16) -> Option<u16> {
    let at = placed.at;
    match placed.change {
        Change::Insert(..) => Some(if at <= place {
            place.saturating_add(1)
        } else {
            place
        }),
        Change::Delete if at == place => None,
        Change::Delete => Some(if at < place {
            place.saturating_sub(1)
        } else {
            place
        }),
        Change::Move(..) if at == place => None,
        Change::Move(to, _) => {
            let to = if at < to { to.saturating_sub(1) } else { to };
            let place = if at < place {
                place.saturating_sub(1)
            } else {
                place
            };
            Some(if to <= place {
                place.saturating_add(1)
            } else {
                place
            })
        }
        _ => Some(place),
    }
}
