//! Answers in colour.

ghost use Rattle.std.specs.Prelude.{◌≡◌, IfOk};
ghost use Rattle.drvhost_many.specs.Painted.{IsShown};

use answer::content::Named;
use answer::job::Job;
use drvhost_devices::coloring::Coloring;
use drvhost_devices::paint::paint;
use drvhost_devices::told::Told;
use std::alloc::{AllocError, Global};

/// A job whose answer is in colour, where that is always chosen.
#[derive(Drop)]
pub struct InColor<J> {
    pub job: J,
    pub coloring: Coloring,
}

impl<J: Job> Job for InColor<J> {
    ghost use Rattle.drvhost_many.specs.Painted.{IsShown};

    ghost right = { λ shown file. IsShown shown.coloring (J.right shown.job file) };

    fn answer(&self, alloc: Global, set: &Named<'_>) -> Result<Told, AllocError> {
        let told = self.job.answer(alloc, set)?;
        colored(alloc, self.coloring, told)
    }
}

/// An answer, its output painted where colour is always chosen: with the paint taken out it is the
/// same.
///
/// # Errors
///
/// When memory runs out.
pub fn colored(alloc: Global, coloring: Coloring, told: Told) -> Result<Told, AllocError>
    ensures { IfOk result (IsShown coloring (λ answer. answer ≡ told)) }
{
    match coloring {
        Coloring::Always => {
            let output = paint(alloc, told.output())?;
            Ok(told.with_output(output))
        }
        Coloring::Auto => Ok(told),
        Coloring::Never => Ok(told),
    }
}
