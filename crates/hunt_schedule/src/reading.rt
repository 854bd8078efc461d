//! Texts that are read back: whether the run of what one lists ends as its first line tells.

ghost use Rattle.std.specs.Prelude.{◌≤◌, IfOk, IfSome, IsTrue, length};
ghost use Rattle.hunt_schedule.specs.Telling.{IsListed, IsWithin, TellsEnd, TellsItsEnd};
ghost use Rattle.model.specs.declared.limits.TheConstants.{MAX_THREADS};

use crate::headline::headline;
use driver_set::DriverSet;
use hunt_facts::bounds::Bounds;
use hunt_search::search::is_wanted;
use interleave::parse::parse_schedule;
use interleave::schedule::ScheduleKind;
use interleave_texts::reading::events_of;
use model::event::Event;
use std::alloc::{AllocError, Global};
use tell_audit::ending::ending_of;

/// The threads and the events that a text lists.
#[derive(Drop)]
pub(crate) struct Listed {
    pub(crate) threads: u8,
    pub(crate) run: Vec<Event>,
}

/// What a text lists, if it lists a schedule.
pub(crate) fn read_back(alloc: Global, text: &[u8]) -> Result<Option<Listed>, AllocError>
    ensures { IfOk result (λ found. IfSome found (IsListed text.now)) }
{
    let schedule = match parse_schedule(alloc, text) {
        Ok(schedule) => schedule,
        Err(fault) if fault.kind == ScheduleKind::Memory => return Err(AllocError),
        Err(_fault) => return Ok(None),
    };
    let run = events_of(alloc, &schedule.events)?;
    let threads = schedule.threads;
    Ok(Some(Listed { threads, run }))
}

/// Whether a text lists a schedule within the bounds of a hunt, and begins with the line of how its
/// run ends.
///
/// # Errors
///
/// When memory runs out.
pub fn tells_its_end(
    alloc: Global,
    set: &DriverSet,
    bounds: Bounds,
    text: &[u8],
) -> Result<bool, AllocError>
    requires some { 1 ≤ bounds.threads }
    requires few { bounds.threads ≤ MAX_THREADS }
    ensures { IfOk result (λ tells. IsTrue tells → TellsItsEnd set.now bounds text.now) }
{
    match read_back(alloc, text)? {
        Some(listed) => tells_listed(alloc, set, bounds, &listed, text),
        None => Ok(false),
    }
}

/// Whether what a text lists is within the bounds of a hunt, and the text begins with the line of
/// how its run ends.
fn tells_listed(
    alloc: Global,
    set: &DriverSet,
    bounds: Bounds,
    listed: &Listed,
    text: &[u8],
) -> Result<bool, AllocError>
    requires some { 1 ≤ bounds.threads }
    requires few { bounds.threads ≤ MAX_THREADS }
    ensures { IfOk result (λ tells. IsTrue tells → IsListed text.now listed.now
        → TellsItsEnd set.now bounds text.now) }
{
    let run = listed.run.as_slice();
    if listed.threads != bounds.threads {
        return Ok(false);
    }
    if !is_within(bounds.events, run) {
        return Ok(false);
    }
    let Some((last, before)) = run.split_last() else {
        return Ok(false);
    };
    tells_end(alloc, set, bounds, before, last, text)
}

/// Whether a bound on events, if there is one, lets a run have these.
fn is_within(bound: Option<u64>, run: &[Event]) -> bool
    ensures { IsTrue result → IsWithin bound (length run.now) }
{
    match bound {
        Some(most) => run.len() as u64 <= most,
        None => true,
    }
}

/// Whether a text begins with the line of how the run of these events and a last one ends, if a
/// hunt looks for such an end.
fn tells_end(
    alloc: Global,
    set: &DriverSet,
    bounds: Bounds,
    before: &[Event],
    last: &Event,
    text: &[u8],
) -> Result<bool, AllocError>
    requires some { 1 ≤ bounds.threads }
    requires few { bounds.threads ≤ MAX_THREADS }
    ensures { IfOk result
        (λ tells. IsTrue tells → TellsEnd set.now bounds before.now last.now text.now) }
{
    let Some(ending) = ending_of(alloc, set, bounds.threads, before, last)? else {
        return Ok(false);
    };
    if !is_wanted(bounds.goal, &ending) {
        return Ok(false);
    }
    let line = headline(alloc, &ending)?;
    Ok(text.starts_with(line.as_slice()))
}
