//! What a search is about: a routine of a set, and the part of it that is searched.

use crate::aim::size_of;
use crate::cut::Cut;
use driver_set::{DriverSet, Instr};
use mend_reading::Subject;
use mend_reading::usual::Usual;
use std::alloc::{AllocError, Global};

/// The routine that is mended, by number, the part of it that is searched, what is usual in its
/// set, and how many instructions that has.
#[derive(Drop)]
pub(crate) struct Task {
    pub(crate) alloc: Global,
    pub(crate) driver: u8,
    pub(crate) routine: u8,
    pub(crate) cut: Cut,
    pub(crate) code: Vec<Instr>,
    pub(crate) usual: Usual,
    pub(crate) size: usize,
}

impl Task {
    /// The task of mending a routine, if it is there.
    pub(crate) fn of(
        alloc: Global,
        set: &DriverSet,
        driver: u8,
        routine: u8,
    ) -> Result<Option<Task>, AllocError> {
        match Subject::of(set, driver, routine) {
            Some(subject) => Ok(Some(Task::on(alloc, set, &subject)?)),
            None => Ok(None),
        }
    }

    /// The task of mending a routine of a set.
    fn on(alloc: Global, set: &DriverSet, subject: &Subject) -> Result<Task, AllocError> {
        let whole = code_of(subject);
        let cut = Cut::of(alloc, subject, whole)?;
        Ok(Task {
            alloc,
            driver: subject.driver,
            routine: subject.routine,
            cut,
            code: cut.code(alloc, whole)?,
            usual: Usual::of(alloc, set)?,
            size: size_of(set),
        })
    }

    /// The part of the routine that is searched, in a set.
    pub(crate) fn subject<'s>(&self, set: &'s DriverSet) -> Option<Subject<'s>> {
        let subject = Subject::of(set, self.driver, self.routine)?;
        Some(self.cut.subject(subject))
    }
}

/// The code of a routine.
fn code_of<'s>(subject: &Subject<'s>) -> &'s [Instr] {
    let Some(driver) = subject.set.drivers().get(subject.driver as usize) else {
        return &[];
    };
    match driver.routines.as_slice().get(subject.routine as usize) {
        Some(routine) => routine.code.as_slice(),
        None => &[],
    }
}
