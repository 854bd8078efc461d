//! A hunt through the runs of a driver set, whose find is told as a scenario.

ghost use Rattle.std.specs.Prelude.{◌≡◌, IfOk};
ghost use Rattle.answer_scenarios.specs.Scenarios.{names_in};
ghost use Rattle.answer_hunts.specs.Find.{IsShown, IsWritten, unshown_line};

use crate::hunt::{Hunting, end_told, hunted_by};
use answer::as_text::{Text, ended};
use answer::content::Given;
use answer::set::OnAnySet;
use answer_scenarios::finding::scenario_of;
use drvhost_devices::told::Told;
use hunt_schedule::telling::Told as Hunted;
use image::DriverSet;
use interleave_texts::appending::add;
use report_progress::progress::Progress;
use std::alloc::{AllocError, Global};

/// The job of a hunt that writes a scenario in place of the schedule of a run that was found: it
/// makes the run's events happen, and fails at its last line, which expects that nothing is amiss.
/// A line says so where no scenario shows the run, as one that is stuck. The exit status is that of
/// the hunt.
#[derive(Drop)]
pub struct Finding<'p, P> {
    pub hunting: Hunting<'p, P>,
}

impl<P: Progress> OnAnySet<Text> for Finding<'_, P> {
    ghost use Rattle.answer_hunts.specs.Find.{IsFindBy};

    ghost right = { λ finding _ _. IsFindBy finding.hunting.way finding.hunting.reach };

    fn on(
        &self,
        _form: &Text,
        alloc: Global,
        given: &Given<'_>,
        set: &DriverSet,
    ) -> Result<Told, AllocError> {
        let hunted = hunted_by(alloc, &self.hunting, set, given.bytes)?;
        let end = end_told(&hunted);
        let text = text_written(alloc, given.bytes, set, hunted)?;
        Ok(ended(alloc, end, text))
    }
}

/// What is written of a hunt.
fn text_written(
    alloc: Global,
    bytes: &[u8],
    set: &DriverSet,
    hunted: Hunted,
) -> Result<Vec<u8>, AllocError>
    ensures { IfOk result
        (λ text. IsWritten (names_in bytes.now) set.now hunted text.items) }
{
    match hunted {
        Hunted::Found(schedule) => text_shown(alloc, bytes, set, schedule.as_slice()),
        Hunted::Unlisted(line) => Ok(line),
        Hunted::All { line, .. } => Ok(line),
        Hunted::More { line, .. } => Ok(line),
    }
}

/// The scenario of a run whose schedule a text lists, or that there is none.
fn text_shown(
    alloc: Global,
    bytes: &[u8],
    set: &DriverSet,
    schedule: &[u8],
) -> Result<Vec<u8>, AllocError>
    ensures { IfOk result
        (λ text. IsShown (names_in bytes.now) set.now schedule.now text.items) }
{
    match scenario_of(alloc, bytes, set, schedule)? {
        Some(text) => Ok(text),
        None => unshown_line(alloc),
    }
}

/// That no scenario shows a run that was found.
fn unshown_line(alloc: Global) -> Result<Vec<u8>, AllocError>
    ensures { IfOk result (λ text. text.items ≡ unshown_line) }
{
    let mut text = Vec::new(alloc);
    add(
        &mut text,
        b"; a run was found that no scenario shows: hunt without --scenario for its schedule\n",
    )?;
    Ok(text)
}
