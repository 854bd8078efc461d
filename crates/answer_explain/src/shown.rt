//! A refusal, shown: the path to its place, and why the rule is broken.

ghost use Rattle.std.specs.Prelude.{◌≡◌, All, IfOk, Some, option_map};
ghost use Rattle.text.specs.Places.{IsIn, numbers};
ghost use Rattle.answer_explain.specs.Faults.{IsFaultOf};
ghost use Rattle.answer_explain.specs.Shown.{AreStepsBy, AreStepsOf, IsShown, IsShownBy};
ghost use Rattle.answer_explain.specs.Shown.{other_path, path_of, place_by, step_place};

use crate::faults::evidence_of_fault;
use crate::region::{position_lines, region_by};
use driver_set::DriverSet;
use model::abs::Refusal;
use report_sarif::log::Step;
use std::alloc::{AllocError, Global};
use text::Spots;
use verifier_evidence::{Evidence, Path, Step as PathStep};
use verifier_names::Origin;
use verifier_words::{RefusedRoutine, set_refused};

/// What shows a refusal: the path to its place, if there is one, and the other one where two
/// differ; and in words why the rule is broken, and how to mend it.
#[derive(Drop)]
pub struct Shown {
    pub path: Vec<Step>,
    pub other: Vec<Step>,
    pub why: String,
}

/// Shows a fault of the set that the bytes of a file are, by its evidence.
///
/// # Errors
///
/// When memory runs out.
pub fn show_fault(
    alloc: Global,
    origin: Origin<'_>,
    bytes: &[u8],
    set: &DriverSet,
    refusal: &Refusal,
) -> Result<Shown, AllocError>
    requires { IsFaultOf set.now refusal.now }
    ensures { IfOk result (IsShown bytes.now set.now refusal.now) }
{
    let evidence = evidence_of_fault(alloc, set, refusal)?;
    show(alloc, origin, bytes, set, refusal, &evidence)
}

/// Shows a refusal by its evidence.
fn show(
    alloc: Global,
    origin: Origin<'_>,
    bytes: &[u8],
    set: &DriverSet,
    refusal: &Refusal,
    evidence: &Option<Evidence>,
) -> Result<Shown, AllocError>
    ensures { IfOk result (IsShownBy bytes.now refusal.now evidence.now) }
{
    let Some(evidence) = evidence else {
        return Ok(Shown {
            path: Vec::new(alloc),
            other: Vec::new(alloc),
            why: set_refused(alloc, refusal.rule)?,
        });
    };
    let routine = RefusedRoutine::of(alloc, origin, set, refusal)?;
    let lines = position_lines(alloc, bytes, refusal.driver, refusal.routine)?;
    Ok(Shown {
        path: steps_of(alloc, &routine, bytes, &lines, path_of(evidence))?,
        other: steps_of(alloc, &routine, bytes, &lines, other_path(evidence))?,
        why: routine.why(alloc, set, evidence)?,
    })
}

/// The path that evidence has.
fn path_of(evidence: &Evidence) -> Option<&Path>
    ensures { option_map (λ path. path.now) result ≡ path_of (Some evidence.now) }
{
    match evidence {
        Evidence::Misplaced | Evidence::Unreached | Evidence::NotEntered => None,
        Evidence::Broken(path) | Evidence::TooLong(path, _) => Some(path),
        Evidence::Differing(path, _) | Evidence::Unlike(path, _) => Some(path),
    }
}

/// The other one, where it has two.
fn other_path(evidence: &Evidence) -> Option<&Path>
    ensures { option_map (λ path. path.now) result ≡ other_path (Some evidence.now) }
{
    match evidence {
        Evidence::Differing(_, other) | Evidence::Unlike(_, other) => Some(other),
        _ => None,
    }
}

/// The steps of a path of a routine, if there is one.
fn steps_of(
    alloc: Global,
    routine: &RefusedRoutine<'_>,
    bytes: &[u8],
    lines: &Spots,
    path: Option<&Path>,
) -> Result<Vec<Step>, AllocError>
    requires { All (IsIn 0 bytes.now) lines.now }
    ensures { IfOk result (λ steps. AreStepsOf bytes.now (numbers lines.now) steps.items
        (option_map (λ path. path.now) path.entry)) }
{
    match path {
        Some(path) => steps_along(alloc, routine, bytes, lines, path),
        None => Ok(Vec::new(alloc)),
    }
}

/// The steps of a path of a routine, from its start on.
fn steps_along(
    alloc: Global,
    routine: &RefusedRoutine<'_>,
    bytes: &[u8],
    lines: &Spots,
    path: &Path,
) -> Result<Vec<Step>, AllocError>
    requires { All (IsIn 0 bytes.now) lines.now }
    ensures { IfOk result
        (λ steps. AreStepsBy bytes.now (numbers lines.now) steps.items path.now) }
{
    let mut steps = Vec::new(alloc);
    for step in path.before.as_slice() {
        steps.push(step_of(alloc, routine, bytes, lines, step)?)?;
    }
    steps.push(step_of(alloc, routine, bytes, lines, &path.last)?)?;
    Ok(steps)
}

/// A step of it.
fn step_of(
    alloc: Global,
    routine: &RefusedRoutine<'_>,
    bytes: &[u8],
    lines: &Spots,
    step: &PathStep,
) -> Result<Step, AllocError>
    requires { All (IsIn 0 bytes.now) lines.now }
    ensures { IfOk result (λ shown.
        step_place shown ≡ place_by bytes.now (numbers lines.now) step.now.at) }
{
    Ok(Step {
        position: step.at,
        region: region_by(bytes, lines, step.at),
        known: routine.known(alloc, &step.state)?,
    })
}
