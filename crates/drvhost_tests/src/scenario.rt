//! The tests of scenarios that were read.

ghost use Rattle.std.specs.Prelude.{◌≡◌, ◌↔◌, IfOk, IsTrue};
ghost use Rattle.std.specs.List.{All, AllZip, list_any};
ghost use Rattle.answer_scenarios.specs.Scenarios.{names_in};
ghost use Rattle.drvhost_tests.specs.Tests.{IsHeldTold, IsKept, IsScenarioShown, IsScenarioTold};
ghost use Rattle.drvhost_tests.specs.Tests.{IsShown, IsTestHeld, is_held_of_verdict};
ghost use Rattle.drvhost_tests.specs.Tests.{is_of_verdict};
ghost use Rattle.drvhost_tests.specs.Told.{asked_of, tested_of};
ghost use Rattle.scenario_text.specs.Listing.{scenario_in};

use crate::case::Case;
use crate::running::with_run;
use crate::telling::{answer_of, tell_refused, tell_schedule_fault, tell_unread};
use crate::test::Suite;
use answer_scenarios::telling::{Asked, names_in, tell_text};
use drvhost_devices::fault::Fault;
use drvhost_devices::told::Told;
use drvhost_files::reading::{Contents, Held};
use image::DriverSet;
use interleave::schedule::ScheduleKind;
use model::abs::Refusal;
use rayon::prelude::*;
use scenario_faults::fault_words;
use scenario_names::names::Names;
use scenario_steps::judging::expect_verdict_alone;
use scenario_text::parse::parse_scenario;
use std::alloc::{AllocError, Global};
use std::thread::Threads;

/// What is tested: a driver set, the bytes of its file, and why it isn't run, if it isn't.
#[derive(Clone, Copy)]
pub(crate) struct Subject<'s> {
    pub bytes: &'s [u8],
    pub set: &'s DriverSet,
    pub refusal: Option<Refusal>,
}

/// What is answered for scenarios that were read, each played over a set, by so many jobs at once:
/// in order, where there was memory for it.
pub(crate) fn test_each<R: Threads + Sync>(
    rt: &R,
    suite: Suite<'_>,
    subject: Subject<'_>,
    held: &[Held<'_>],
) -> Result<Vec<Result<Told, AllocError>>, AllocError>
    ensures { IfOk result (λ told. AllZip
        (λ one answer. IfOk answer (IsHeldTold (asked_of suite.entry.tests)
        (tested_of subject.entry) one)) held.now told.items) }
{
    held.par_iter()
        .with_min_len(share(held.len(), suite.tests.jobs))
        .map(
            |one: &Held<'_>| -> Result<Told, AllocError>
                ensures { IfOk result (IsHeldTold (asked_of suite.entry.tests)
                    (tested_of subject.entry) one.now) }
            { test_held(suite, subject, one) },
        )
        .collect::<Vec<_>>(rt, suite.alloc)
}

/// How many of so many scenarios a job takes at least.
fn share(count: usize, jobs: u8) -> usize {
    count.div_ceil((jobs as usize).max(1)).max(1)
}

/// What is answered for a scenario that was read, played over a set.
fn test_held(suite: Suite<'_>, subject: Subject<'_>, held: &Held<'_>) -> Result<Told, AllocError>
    ensures { IfOk result (IsHeldTold (asked_of suite.entry.tests) (tested_of subject.entry)
        held.now) }
{
    match &held.contents {
        Contents::Whole(text) => test_shown(suite, subject, held.name, text.as_slice()),
        Contents::Unread | Contents::Unopened => match subject.refusal {
            Some(refusal) => tell_refused(suite.alloc, &refusal),
            None => tell_unread(suite.alloc, held.name),
        },
        Contents::Lacking => Err(AllocError),
    }
}

/// What is answered for the scenario of this name that a text lists: that the set is refused, where
/// it isn't run and the scenario expects more than a verdict.
fn test_shown(
    suite: Suite<'_>,
    subject: Subject<'_>,
    name: &str,
    text: &[u8],
) -> Result<Told, AllocError>
    ensures { IfOk result (IsShown suite.entry.tests.verbosity (tested_of subject.entry) name.now
        (scenario_in (names_in subject.entry.bytes.now) text.now)) }
{
    match subject.refusal {
        Some(refusal) => {
            let names = names_in(suite.alloc, subject.bytes)?;
            if is_of_verdict(suite.alloc, &names, text)? {
                test_text(suite, subject, name, text)
            } else {
                tell_refused(suite.alloc, &refusal)
            }
        }
        None => test_text(suite, subject, name, text),
    }
}

/// Whether the scenario that a text lists expects nothing but a verdict on the set.
fn is_of_verdict(alloc: Global, names: &Names<'_>, text: &[u8]) -> Result<bool, AllocError>
    ensures { IfOk result (λ yes. yes ≡ is_of_verdict (scenario_in names.now text.now)) }
{
    match parse_scenario(alloc, names, text) {
        Ok(scenario) => Ok(expect_verdict_alone(&scenario.steps)),
        Err(fault) if fault.kind == ScheduleKind::Memory => Err(AllocError),
        Err(_fault) => Ok(false),
    }
}

/// Whether there was memory for what was to be read of each.
pub(crate) fn are_kept(held: &[Held<'_>]) -> bool
    ensures { IsTrue result → All IsKept held.now }
{
    held.iter().all(|one| is_kept(one))
}

fn is_kept(held: &Held<'_>) -> bool
    ensures { IsTrue result ↔ IsKept held.now }
{
    match &held.contents {
        Contents::Whole(_) | Contents::Unread | Contents::Unopened => true,
        Contents::Lacking => false,
    }
}

/// Whether one of the scenarios that were read expects nothing but a verdict on the set.
pub(crate) fn any_of_verdict(
    alloc: Global,
    bytes: &[u8],
    held: &[Held<'_>],
) -> Result<bool, AllocError>
    ensures { IfOk result (λ any.
        any ≡ list_any (is_held_of_verdict (names_in bytes.now)) held.now) }
{
    let names = names_in(alloc, bytes)?;
    let mut any = false;
    for one in held {
        let this = is_held_of_verdict(alloc, &names, one)?;
        any = any || this;
    }
    Ok(any)
}

/// Whether this one is.
fn is_held_of_verdict(alloc: Global, names: &Names<'_>, held: &Held<'_>) -> Result<bool, AllocError>
    ensures { IfOk result (λ yes. yes ≡ is_held_of_verdict names.now held.now) }
{
    match &held.contents {
        Contents::Whole(text) => is_of_verdict(alloc, names, text.as_slice()),
        Contents::Unread | Contents::Unopened | Contents::Lacking => Ok(false),
    }
}

/// What is answered for the scenario of this name that a text lists, with its run where it fails
/// and that is wanted.
fn test_text(
    suite: Suite<'_>,
    subject: Subject<'_>,
    name: &str,
    text: &[u8],
) -> Result<Told, AllocError>
    ensures { IfOk result (IsScenarioShown suite.entry.tests.verbosity subject.entry.bytes.now
        name.now subject.entry.set.now
        (scenario_in (names_in subject.entry.bytes.now) text.now)) }
{
    let alloc = suite.alloc;
    let Subject { bytes, set, .. } = subject;
    let told = test_alone(alloc, bytes, set, name, text)?;
    with_run(alloc, suite.tests.verbosity, bytes, set, text, told)
}

/// The tests of scenarios that were read, for which these were answered.
pub(crate) fn cases_of<'t>(
    suite: Suite<'_>,
    subject: Subject<'_>,
    held: &'t [Held<'_>],
    told: &'t [Result<Told, AllocError>],
) -> Result<Vec<Case<'t>>, AllocError>
    requires told { AllZip
        (λ one answer. IfOk answer (IsHeldTold (asked_of suite.tests) (tested_of subject) one))
        held.now told.now }
    ensures { IfOk result (λ cases. AllZip (IsTestHeld (asked_of suite.entry.tests)
        (tested_of subject.entry)) held.now cases.items) }
{
    let mut cases = Vec::new(suite.alloc);
    for i in 0..held.len() {
        let Ok(answer) = &told[i] else {
            return Err(AllocError);
        };
        cases.push(Case::of(held[i].name, answer))?;
    }
    Ok(cases)
}

/// What is answered for the scenario that a text lists.
fn test_alone(
    alloc: Global,
    bytes: &[u8],
    set: &DriverSet,
    name: &str,
    text: &[u8],
) -> Result<Told, AllocError>
    ensures { IfOk result
        (IsScenarioTold name.now set.now (scenario_in (names_in bytes.now) text.now)) }
{
    match tell_text(alloc, Asked::Test(name), bytes, set, text) {
        Ok(told) => Ok(answer_of(alloc, told)),
        Err(Fault::Schedule(fault)) => {
            let names = names_in(alloc, bytes)?;
            let words = fault_words(alloc, &names, text, fault)?;
            tell_schedule_fault(alloc, name, fault, words.as_bytes())
        }
        Err(_) => Err(AllocError),
    }
}
