//! Changes of a text, as steps.

use crate::step::Step;
use model::items::Items;
use std::alloc::{AllocError, Global};
use text::cut::Lines;

/// Lines that are put in place of others.
#[derive(Drop)]
pub struct Change {
    /// How many lines of the text stand before the place.
    pub before: usize,
    /// How many lines from there on are taken out.
    pub taken: usize,
    /// The lines that are put there, each without its LF.
    pub lines: Vec<Items<u8>>,
}

/// The steps that make changes of a text, each of which begins where the one before it ends, or
/// later. One that begins earlier is made where that one ends.
///
/// # Errors
///
/// When memory runs out.
pub fn steps_of(alloc: Global, text: &[u8], changes: &[Change]) -> Result<Items<Step>, AllocError> {
    let mut left = Lines::of(text);
    let mut steps = Vec::new(alloc);
    let mut passed: usize = 0;
    for change in changes {
        let kept = change.before.saturating_sub(passed);
        make(alloc, &mut steps, &mut left, kept, change)?;
        passed = passed.saturating_add(kept).saturating_add(change.taken);
    }
    keep(&mut steps, &mut left, usize::MAX)?;
    Ok(Items::of(steps))
}

/// Adds the steps that make a change behind so many lines.
fn make(
    alloc: Global,
    steps: &mut Vec<Step>,
    left: &mut Lines<'_>,
    kept: usize,
    change: &Change,
) -> Result<(), AllocError> {
    keep(steps, left, kept)?;
    delete(steps, left, change.taken)?;
    add_lines(alloc, steps, change.lines.as_slice())
}

/// Adds steps that keep so many lines, or all that are left.
fn keep(steps: &mut Vec<Step>, left: &mut Lines<'_>, count: usize) -> Result<(), AllocError> {
    for _ in 0..count {
        if left.next().is_none() {
            return Ok(());
        }
        steps.push(Step::Keep)?;
    }
    Ok(())
}

/// Adds steps that take out so many lines, or all that are left.
fn delete(steps: &mut Vec<Step>, left: &mut Lines<'_>, count: usize) -> Result<(), AllocError> {
    for _ in 0..count {
        if left.next().is_none() {
            return Ok(());
        }
        steps.push(Step::Delete)?;
    }
    Ok(())
}

/// Adds the steps that put lines in.
fn add_lines(alloc: Global, steps: &mut Vec<Step>, lines: &[Items<u8>]) -> Result<(), AllocError> {
    for line in lines {
        let line = Items::of(Vec::from_slice(alloc, line.as_slice())?);
        steps.push(Step::Insert(line))?;
    }
    Ok(())
}
