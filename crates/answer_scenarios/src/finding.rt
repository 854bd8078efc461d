//! Runs that were found, as scenarios.

ghost use Rattle.std.specs.Prelude.{◌≡◌, ◌≤◌, IfOk, IfSome, IsTrue};
ghost use Rattle.model.specs.declared.limits.TheConstants.{MAX_THREADS};
ghost use Rattle.scenario_text.specs.Listing.{scenario_in};
ghost use Rattle.scenario_run.specs.Playing.{begun};
ghost use Rattle.answer_scenarios.specs.Finding.{ComesAmiss, FailsAtLast, FailsFor, FailsFound};
ghost use Rattle.answer_scenarios.specs.Finding.{IsAmiss};
ghost use Rattle.answer_scenarios.specs.Scenarios.{listed, names_in};

use crate::telling::names_in;
use crate::writing::write_scenario;
use image::DriverSet;
use interleave::parse::parse_schedule;
use interleave::schedule::{Schedule, ScheduleKind};
use interleave_texts::listing::listing;
use interleave_texts::reading;
use model::event::Event;
use scenario_expected::expectation::Expectation;
use scenario_names::names::Names;
use scenario_run::holding::{events_of, holds};
use scenario_run::play::play;
use scenario_run::playing::Playing;
use scenario_steps::scenario::{Action, Scenario, Step};
use scenario_steps::steps::Steps;
use scenario_text::parse::parse_scenario;
use std::alloc::{AllocError, Global};

/// A run that was found, with a line that tells how it ends.
#[derive(Clone, Copy)]
pub(crate) struct Find<'f> {
    pub(crate) headline: &'f [u8],
    pub(crate) threads: u8,
    pub(crate) events: &'f [Event],
}

/// The scenario of a run of a set that was found, whose schedule a text lists: it makes the events
/// of the run happen, and fails at its last line, which expects that nothing is amiss. It has the
/// names that the bytes of the set's file give. None where the text lists no schedule, or what was
/// written, read back, plays otherwise, as where nothing is amiss in the run.
///
/// # Errors
///
/// When memory runs out.
pub fn scenario_of(
    alloc: Global,
    bytes: &[u8],
    set: &DriverSet,
    schedule: &[u8],
) -> Result<Option<Vec<u8>>, AllocError>
    ensures { IfOk result (λ text. IfSome text (λ text.
        FailsFound (names_in bytes.now) set.now schedule.now text.items)) }
{
    match parse_schedule(alloc, schedule) {
        Ok(parsed) => scenario_for(alloc, bytes, set, headline_of(schedule), &parsed),
        Err(fault) if fault.kind == ScheduleKind::Memory => Err(AllocError),
        Err(_fault) => Ok(None),
    }
}

/// The same of a schedule that was read, behind a line that tells how its run ends.
fn scenario_for(
    alloc: Global,
    bytes: &[u8],
    set: &DriverSet,
    headline: &[u8],
    schedule: &Schedule,
) -> Result<Option<Vec<u8>>, AllocError>
    requires some { 1 ≤ schedule.now.threads }
    requires few { schedule.now.threads ≤ MAX_THREADS }
    ensures { IfOk result (λ text. IfSome text (λ text. FailsFor (names_in bytes.now) set.now
        schedule.now.threads schedule.now.events text.items)) }
{
    let events = reading::events_of(alloc, &schedule.events)?;
    let names = names_in(alloc, bytes)?;
    let find = Find {
        headline,
        threads: schedule.threads,
        events: events.as_slice(),
    };
    find_scenario(alloc, &names, set, find)
}

/// The first line of a text with its line feed, if it is a comment.
fn headline_of(text: &[u8]) -> &[u8] {
    if !text.starts_with(b";") {
        return &[];
    }
    match text.iter().position(|byte| *byte == b'\n') {
        Some(place) => &text[..place + 1],
        None => &[],
    }
}

/// The scenario of a run: its last event may stop the run, if the scenario fails else.
fn find_scenario(
    alloc: Global,
    names: &Names<'_>,
    set: &DriverSet,
    find: Find<'_>,
) -> Result<Option<Vec<u8>>, AllocError>
    requires some { 1 ≤ find.threads }
    requires few { find.threads ≤ MAX_THREADS }
    ensures { IfOk result (λ text. IfSome text (λ text. FailsFor names.now set.now
        find.entry.threads find.entry.events.now text.items)) }
{
    match try_scenario(alloc, names, set, find, "")? {
        Some(text) => Ok(Some(text)),
        None => try_scenario(alloc, names, set, find, "may "),
    }
}

/// The scenario of a run with a word before the line of its last event, if it plays so.
fn try_scenario(
    alloc: Global,
    names: &Names<'_>,
    set: &DriverSet,
    find: Find<'_>,
    word: &str,
) -> Result<Option<Vec<u8>>, AllocError>
    requires some { 1 ≤ find.threads }
    requires few { find.threads ≤ MAX_THREADS }
    ensures { IfOk result (λ text. IfSome text (λ text. FailsFor names.now set.now
        find.entry.threads find.entry.events.now text.items)) }
{
    let text = write_scenario(alloc, names, find, word)?;
    if fails_read(alloc, names, set, find, text.as_slice())? {
        Ok(Some(text))
    } else {
        Ok(None)
    }
}

/// Whether the scenario of a run that a text lists plays so.
fn fails_read(
    alloc: Global,
    names: &Names<'_>,
    set: &DriverSet,
    find: Find<'_>,
    text: &[u8],
) -> Result<bool, AllocError>
    requires some { 1 ≤ find.threads }
    requires few { find.threads ≤ MAX_THREADS }
    ensures { IfOk result (λ fails. IsTrue fails → FailsFor names.now set.now
        find.entry.threads find.entry.events.now text.now) }
{
    match parse_scenario(alloc, names, text) {
        Ok(scenario) => fails_at_last(alloc, set, find, scenario),
        Err(fault) if fault.kind == ScheduleKind::Memory => Err(AllocError),
        Err(_fault) => Ok(false),
    }
}

/// Whether a scenario makes the events of a run happen, and fails at its last step, which expects
/// that nothing is amiss.
fn fails_at_last(
    alloc: Global,
    set: &DriverSet,
    find: Find<'_>,
    mut scenario: Scenario,
) -> Result<bool, AllocError>
    requires some { 1 ≤ find.threads }
    requires few { find.threads ≤ MAX_THREADS }
    ensures { IfOk result (λ fails. IsTrue fails → FailsAtLast set.now find.entry.threads
        find.entry.events.now (listed scenario)) }
{
    if scenario.threads != find.threads {
        return Ok(false);
    }
    let Some(last) = scenario.steps.pop() else {
        return Ok(false);
    };
    begins_amiss(alloc, set, find, &scenario.steps, &last)
}

/// Whether steps make the events of a run happen from its beginning, and then a step expects that
/// nothing is amiss where something is.
fn begins_amiss(
    alloc: Global,
    set: &DriverSet,
    find: Find<'_>,
    steps: &Steps,
    last: &Step,
) -> Result<bool, AllocError>
    requires some { 1 ≤ find.threads }
    requires few { find.threads ≤ MAX_THREADS }
    ensures { IfOk result (λ amiss. IsTrue amiss → ComesAmiss (begun set.now find.entry.threads)
        steps.now find.entry.events.now last.now) }
{
    let mut playing = Playing::new(alloc, set, find.threads)?;
    comes_amiss(alloc, &mut playing, steps, find.events, last)
}

/// The same from where a scenario stands.
fn comes_amiss(
    alloc: Global,
    playing: &mut Playing,
    steps: &Steps,
    events: &[Event],
    last: &Step,
) -> Result<bool, AllocError>
    ensures { IfOk result (λ amiss. IsTrue amiss
        → ComesAmiss playing.old steps.now events.now last.now) }
{
    if play(alloc, playing, steps)?.is_some() {
        return Ok(false);
    }
    if !has_happened(alloc, playing, events)? {
        return Ok(false);
    }
    is_amiss(alloc, playing, last)
}

/// Whether these are the events that have happened.
fn has_happened(alloc: Global, playing: &Playing, events: &[Event]) -> Result<bool, AllocError>
    ensures { IfOk result (λ yes. IsTrue yes → playing.now.events ≡ events.now) }
{
    let happened = events_of(alloc, playing.past())?;
    list_alike(alloc, playing.threads(), happened.as_slice(), events)
}

/// Whether one text lists these events and others.
fn list_alike(
    alloc: Global,
    threads: u8,
    some: &[Event],
    others: &[Event],
) -> Result<bool, AllocError>
    ensures { IfOk result (λ yes. IsTrue yes → some.now ≡ others.now) }
{
    let one = listing(alloc, threads, some)?;
    let other = listing(alloc, threads, others)?;
    match (one, other) {
        (Some(one), Some(other)) => Ok(one.as_slice() == other.as_slice()),
        _ => Ok(false),
    }
}

/// Whether a step expects that nothing is amiss, and something is.
fn is_amiss(alloc: Global, playing: &Playing, step: &Step) -> Result<bool, AllocError>
    ensures { IfOk result (λ amiss. IsTrue amiss → IsAmiss playing.now step.now) }
{
    match step.action {
        Action::Expect(Expectation::Clean) => {
            let clean = holds(alloc, playing, &Expectation::Clean)?;
            Ok(!clean && !step.may)
        }
        _ => Ok(false),
    }
}
