//! Refusals explained.

ghost use Rattle.std.specs.Prelude.{◌≡◌, ◌++◌, ◌⊎◌, IfOk, IsSome, OnOk, Some, option_map};
ghost use Rattle.std.specs.Prelude.{option_to_list, slice_get};
ghost use Rattle.verifier_evidence.specs.Path.{member_of};
ghost use Rattle.verifier_words.specs.Faults.{AddsFaults, AreFaults, IsFound, own_fault, refusals};
ghost use Rattle.model.specs.Sound.{DriverFits};
ghost use Rattle.model.specs.Typable.{IsFirstFault, IsFirstFaultOf, at_start};

use crate::devices::{add_devices, add_queue_line};
use crate::history::{add_blanking, add_lock_history, add_loops, add_token};
use crate::path::add_path;
use crate::place::Scene;
use crate::refused::set_refused;
use crate::state::{add_differences, add_state, kind_of_difference};
use asm_places::{RoutineSource, routine_source};
use driver_set::DriverSet;
use model::abs::{Abs, Refusal, Rule};
use model::instr::Instr;
use model::set::{Driver, Routine, Sort};
use std::alloc::{AllocError, Global};
use verifier_evidence::{Evidence, Path, Subject, evidence_at, evidence_of};
use verifier_names::{
    Lesson, ListedPart, Origin, SetNames, Source, listed_devices, listed_routine, malformed,
    not_entered, of_meetings, too_long, unreached,
};
use verifier_reasons::{Case, lesson_of};
use words::Words;

/// A refusal of a set, told in words: where it stands in the text, the path that
/// leads there with the state that arrives, and why the rule is broken.
///
/// # Errors
///
/// When memory runs out.
pub fn explanation(
    alloc: Global,
    origin: Origin<'_>,
    set: &DriverSet,
    refusal: &Refusal,
) -> Result<String, AllocError>
    requires { (refusal.now ≡ at_start Rule.Memory) ⊎ IsFirstFault set.now refusal.now }
{
    match evidence_of(alloc, set, refusal)? {
        Some(evidence) => explained(alloc, origin, set, refusal, &evidence),
        None => set_refused(alloc, refusal.rule),
    }
}

/// A refusal of the evidence in words, where it has a routine.
fn explained(
    alloc: Global,
    origin: Origin<'_>,
    set: &DriverSet,
    refusal: &Refusal,
    evidence: &Evidence,
) -> Result<String, AllocError> {
    match routine_of(set, refusal) {
        Some(routine) => refusal_words(alloc, origin, set, routine, refusal, evidence),
        None => Ok(String::new(alloc)),
    }
}

/// A refusal of a routine in words.
fn refusal_words(
    alloc: Global,
    origin: Origin<'_>,
    set: &DriverSet,
    routine: &Routine,
    refusal: &Refusal,
    evidence: &Evidence,
) -> Result<String, AllocError> {
    let scene = scene_of(alloc, origin, set, refusal, routine)?;
    evidence_words(alloc, &scene, set, routine, evidence)
}

/// Where a refusal stands, what leads there, and why the rule is broken.
fn evidence_words(
    alloc: Global,
    scene: &Scene<'_>,
    set: &DriverSet,
    routine: &Routine,
    evidence: &Evidence,
) -> Result<String, AllocError> {
    let mut words = Words::new(alloc);
    scene.add_place(&mut words);
    add_arrivals(&mut words, scene, evidence);
    add_reasons(alloc, &mut words, scene, set, routine, evidence);
    words.finish()
}

/// A refusal, and what is told of it.
#[derive(Drop)]
pub struct Told {
    pub refusal: Refusal,
    pub words: String,
}

/// The first fault of each routine of a set, told in words as [`explanation`]
/// tells a refusal: the set's own first, if it has no device, and then in order.
///
/// # Errors
///
/// When memory runs out.
pub fn explanations(
    alloc: Global,
    origin: Origin<'_>,
    set: &DriverSet,
) -> Result<Vec<Told>, AllocError>
    ensures { IfOk result (λ all. AreFaults set.now (refusals all.items)) }
{
    let mut all = own_fault(alloc, set)?;
    for (number, driver) in set.drivers().iter().enumerate() {
        add_faults(alloc, &mut all, origin, set, number as u8, driver)?;
    }
    Ok(all)
}

/// The fault of a set without devices.
fn own_fault(alloc: Global, set: &DriverSet) -> Result<Vec<Told>, AllocError>
    ensures { IfOk result (λ all. refusals all.items ≡ own_fault set.now) }
{
    let mut all = Vec::new(alloc);
    if set.devices().is_empty() {
        let words = set_refused(alloc, Rule::Malformed)?;
        all.push(Told {
            refusal: at_start(Rule::Malformed),
            words,
        })?;
    }
    Ok(all)
}

/// The refusal of a set that isn't about one of its routines.
fn at_start(rule: Rule) -> Refusal
    ensures { result ≡ at_start rule }
{
    Refusal {
        driver: 0,
        routine: 0,
        at: 0,
        rule,
    }
}

/// Adds the first fault of each routine of the driver of a number.
fn add_faults(
    alloc: Global,
    all: &mut Vec<Told>,
    origin: Origin<'_>,
    set: &DriverSet,
    number: u8,
    driver: &Driver,
) -> Result<(), AllocError>
    requires driver { slice_get set.now.drivers number ≡ Some driver.now }
    requires fits { DriverFits driver.now }
    ensures { OnOk result
        (AddsFaults set.now number (Some driver.now) all.old.items all.new.items) }
{
    let routines = driver.routines.as_slice();
    for (place, routine) in routines.iter().enumerate() {
        let found = fault_told(alloc, origin, set, number, place as u8, routine)?;
        add_told(all, found)?;
    }
    Ok(())
}

/// Adds what is told of a fault, if there is one.
fn add_told(all: &mut Vec<Told>, found: Option<Told>) -> Result<(), AllocError>
    ensures { OnOk result (refusals all.new.items ≡ refusals all.old.items
        ++ option_to_list (option_map (λ told. told.refusal) found)) }
{
    if let Some(told) = found {
        all.push(told)?;
    }
    Ok(())
}

/// The first fault of the routine of a number, of the driver of a number, if it has one.
fn fault_told(
    alloc: Global,
    origin: Origin<'_>,
    set: &DriverSet,
    number: u8,
    place: u8,
    routine: &Routine,
) -> Result<Option<Told>, AllocError>
    requires { IsSome (member_of set.now number place) }
    ensures { IfOk result (λ found. IsFound (member_of set.now number place) number place
        (option_map (λ told. told.refusal) found)) }
{
    let Some(subject) = Subject::of(set, number, place) else {
        unreachable!()
    };
    let Some(fault) = subject.first_fault(alloc)? else {
        return Ok(None);
    };
    let refusal = Refusal {
        driver: number,
        routine: place,
        at: fault.at,
        rule: fault.rule,
    };
    let words = fault_words(alloc, origin, set, subject, routine, &refusal)?;
    Ok(Some(Told { refusal, words }))
}

/// The first fault of a routine in words.
fn fault_words(
    alloc: Global,
    origin: Origin<'_>,
    set: &DriverSet,
    subject: Subject<'_>,
    routine: &Routine,
    refusal: &Refusal,
) -> Result<String, AllocError>
    requires { IsFirstFaultOf subject refusal.now.at refusal.now.rule }
{
    let evidence = evidence_at(alloc, subject, refusal.at, refusal.rule)?;
    refusal_words(alloc, origin, set, routine, refusal, &evidence)
}

/// The routine of a refusal.
pub(crate) fn routine_of<'s>(set: &'s DriverSet, refusal: &Refusal) -> Option<&'s Routine> {
    let driver = set.drivers().get(refusal.driver as usize)?;
    driver.routines.as_slice().get(refusal.routine as usize)
}

/// The routine of a refusal as its text has it.
pub(crate) fn scene_of<'t>(
    alloc: Global,
    origin: Origin<'t>,
    set: &DriverSet,
    refusal: &Refusal,
    routine: &Routine,
) -> Result<Scene<'t>, AllocError> {
    match origin {
        Origin::Text(text) => {
            let found = routine_source(alloc, text, refusal.driver, refusal.routine)?;
            text_scene(alloc, text, refusal, routine.sort, found)
        }
        Origin::Image => {
            let listed = listed_routine(alloc, set, refusal.driver, refusal.routine)?;
            listed_scene(alloc, set, refusal, routine.sort, listed)
        }
    }
}

/// The routine of a refusal, with its lines in a text.
fn text_scene<'t>(
    alloc: Global,
    text: &'t [u8],
    refusal: &Refusal,
    sort: Sort,
    found: RoutineSource,
) -> Result<Scene<'t>, AllocError> {
    let names = SetNames::of(alloc, text, &found.outline)?;
    Ok(Scene {
        refusal: *refusal,
        sort,
        source: Source::Text(text),
        names,
        lines: found.lines,
        others: Source::Text(text),
        outline: found.outline,
    })
}

/// The routine of a refusal, with its lines in the listing of its set.
fn listed_scene<'t>(
    alloc: Global,
    set: &DriverSet,
    refusal: &Refusal,
    sort: Sort,
    listed: ListedPart,
) -> Result<Scene<'t>, AllocError> {
    let devices = listed_devices(alloc, set)?;
    Ok(Scene {
        refusal: *refusal,
        sort,
        source: Source::Listing(listed.text),
        names: SetNames::Listed,
        lines: listed.spots,
        others: Source::Listing(devices.text),
        outline: devices.spots,
    })
}

/// Adds the paths that lead there, and what is known where they arrive.
fn add_arrivals(words: &mut Words, scene: &Scene<'_>, evidence: &Evidence) {
    match evidence {
        Evidence::Misplaced | Evidence::Unreached | Evidence::NotEntered => {}
        Evidence::Broken(path) | Evidence::TooLong(path, _) => {
            add_arrival(words, scene, "a path there:\n", path)
        }
        Evidence::Differing(one, other) => {
            add_arrival(words, scene, "one path there:\n", one);
            add_arrival(words, scene, "another path there:\n", other)
        }
        Evidence::Unlike(start, end) => {
            add_arrival(words, scene, "the path to the loop:\n", start);
            add_arrival(words, scene, "the path to its end:\n", end)
        }
    }
}

/// Adds why the rule is broken, and what led to it.
pub(crate) fn add_reasons(
    alloc: Global,
    words: &mut Words,
    scene: &Scene<'_>,
    set: &DriverSet,
    routine: &Routine,
    evidence: &Evidence,
) {
    match evidence {
        Evidence::NotEntered => add_not_entered(words, scene, set),
        Evidence::Broken(path) => add_breach(words, scene, set, routine, path),
        Evidence::Misplaced => add_lesson(words, scene, malformed(instr_at(scene, routine))),
        Evidence::Unreached => add_lesson(words, scene, unreached()),
        Evidence::TooLong(path, count) => add_length(alloc, words, scene, routine, path, *count),
        Evidence::Differing(one, other) | Evidence::Unlike(one, other) => {
            add_meeting(words, scene, routine, &one.last.state, &other.last.state)
        }
    }
}

/// Adds a lesson.
fn add_lesson(words: &mut Words, scene: &Scene<'_>, lesson: Lesson) {
    lesson.add(words, scene.names())
}

/// Adds why the routine can't be entered.
fn add_not_entered(words: &mut Words, scene: &Scene<'_>, set: &DriverSet) {
    let driver = set.drivers().get(scene.refusal.driver as usize);
    add_lesson(words, scene, not_entered(driver, scene.refusal.routine))
}

/// Adds the loops that make a path so long, and that it may not be.
fn add_length(
    alloc: Global,
    words: &mut Words,
    scene: &Scene<'_>,
    routine: &Routine,
    path: &Path,
    count: u32,
) {
    words.add("up to there: ");
    words.add_number(count as u64);
    words.add(" instructions, by these loops:\n");
    add_loops(alloc, words, scene, routine.code.as_slice(), path.last.at);
    add_lesson(words, scene, too_long())
}

/// Adds what differs between the states that arrive along two paths, and that it may not.
fn add_meeting(words: &mut Words, scene: &Scene<'_>, routine: &Routine, one: &Abs, other: &Abs) {
    add_differences(words, scene.names(), one, other);
    let lesson = of_meetings(instr_at(scene, routine), kind_of_difference(one, other));
    add_lesson(words, scene, lesson)
}

/// The instruction at the place of a refusal, if there is one.
fn instr_at<'r>(scene: &Scene<'_>, routine: &'r Routine) -> Option<&'r Instr> {
    routine.code.as_slice().get(scene.refusal.at as usize)
}

/// Adds what the instruction at the end of a path breaks there, and what led to it.
fn add_breach(
    words: &mut Words,
    scene: &Scene<'_>,
    set: &DriverSet,
    routine: &Routine,
    path: &Path,
) {
    let code = routine.code.as_slice();
    if let Some(instr) = code.get(path.last.at as usize) {
        let case = Case {
            rule: scene.refusal.rule,
            driver: scene.refusal.driver,
            set,
            sort: routine.sort,
            code,
            path,
            instr,
        };
        add_details(words, scene, &case);
        lesson_of(&case).add(words, scene.names())
    }
}

/// Adds what led to it that a rule is broken: where a register went blank, a lock was acquired or
/// a token spent, and which queue or devices the rule is about.
fn add_details(words: &mut Words, scene: &Scene<'_>, case: &Case<'_>) {
    match case.rule {
        Rule::WrongKind | Rule::DoubleCompletion => add_blanking(words, scene, case),
        Rule::CancelSpinLock | Rule::SpinLock | Rule::LockHeld => {
            add_lock_history(words, scene, case)
        }
        Rule::Guard => {
            add_queue_line(words, scene, case);
            add_lock_history(words, scene, case)
        }
        Rule::Token => add_token(words, scene, case),
        Rule::StackTooSmall | Rule::NoLower => add_devices(words, scene, case),
        Rule::Malformed
        | Rule::Unreachable
        | Rule::StatesDiffer
        | Rule::MarkIrpPending
        | Rule::Level
        | Rule::CancelState
        | Rule::Dropped
        | Rule::Sort
        | Rule::Completion
        | Rule::TooLong
        | Rule::Memory => {}
    }
}

/// Adds a path and the state that arrives along it.
fn add_arrival(words: &mut Words, scene: &Scene<'_>, title: &str, path: &Path) {
    words.add(title);
    add_path(words, scene, path);
    words.add("what is known where it arrives:\n");
    add_state(words, scene.names(), &path.last.state)
}
