//! The steps in which a text is edited.

ghost use Rattle.std.specs.Prelude.{◌≡◌, ◌++◌, [], IfOk, OnOk};
ghost use Rattle.text.specs.Cut.{lines_of};
ghost use Rattle.mend_edits.specs.Patch.{all_kept};

use model::items::Items;
use std::alloc::{AllocError, Global};
use text::cut::Lines;

/// What is done with the next line of a text, or before it.
#[derive(Drop)]
pub enum Step {
    /// The line stays.
    Keep,
    /// The line is taken out.
    Delete,
    /// This line, without its LF, is put before it.
    Insert(Items<u8>),
}

impl Step {
    /// The same step, in memory of its own.
    ///
    /// # Errors
    ///
    /// When memory runs out.
    pub fn copy(&self, alloc: Global) -> Result<Step, AllocError>
        ensures { IfOk result (λ copy. copy ≡ self.now) }
    {
        match self {
            Step::Keep => Ok(Step::Keep),
            Step::Delete => Ok(Step::Delete),
            Step::Insert(line) => Ok(Step::Insert(Items::of(Vec::from_slice(
                alloc,
                line.as_slice(),
            )?))),
        }
    }
}

/// The steps that keep each line of a text.
///
/// # Errors
///
/// When memory runs out.
pub fn all_kept(alloc: Global, text: &[u8]) -> Result<Items<Step>, AllocError>
    ensures { IfOk result (λ steps. steps ≡ all_kept (lines_of text.now)) }
{
    let mut left = Lines::of(text);
    let mut steps = Vec::new(alloc);
    while let Some(_line) = left.next() {
        steps.push(Step::Keep)?;
    }
    Ok(Items::of(steps))
}
