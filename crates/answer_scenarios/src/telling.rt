//! A scenario that is played, and what is told of it.

ghost use Rattle.std.specs.Prelude.{◌≡◌, ◌≢◌, ◌≤◌, ◌+◌, ◌⊎◌, IfErr, IfOk, Some, option_map};
ghost use Rattle.drvhost_devices.specs.Answer.{IsIfAccepted, IsOfFile, IsTraced, ended};
ghost use Rattle.drvhost_devices.specs.Device.{Bytes, CanCount};
ghost use Rattle.drvhost_devices.specs.Ends.{HoldsRun};
ghost use Rattle.drvhost_devices.specs.Fault.{reads_failed, writes_failed};
ghost use Rattle.model.specs.declared.limits.TheConstants.{MAX_THREADS};
ghost use Rattle.model.specs.Typable.{IsTypable};
ghost use Rattle.report.specs.Verdict.{refusal_line};
ghost use Rattle.scenario_text.specs.Listing.{scenario_in};
ghost use Rattle.answer_scenarios.specs.Scenarios.{IsFound, IsOfScenario, IsPlayedOf, PlaysJudged};
ghost use Rattle.answer_scenarios.specs.Scenarios.{listed, names_in, right_of, right_of_play};
ghost use Rattle.answer_scenarios.specs.Telling.{Tells};

use crate::listing::tell_schedule;
use crate::outcome::tell_outcome;
use drvhost_devices::device::Source;
use drvhost_devices::fault::{End, Fault, of_schedule};
use drvhost_devices::reading::{begins_image, set_of, source_of};
use drvhost_devices::transfer::read_whole;
use drvhost_devices::verification::Verification;
use image::DriverSet;
use model::abs::{Refusal, Rule};
use report::lines::Lines;
use scenario_names::names::Names;
use scenario_run::playing::Playing;
use scenario_steps::judging::judged;
use scenario_steps::scenario::{Scenario, Step};
use scenario_steps::steps::{Kind, Steps};
use scenario_text::parse::parse_scenario;
use scenario_together::play::{Failure, Played, play};
use std::alloc::{AllocError, Global};
use verifier::verify;

/// What is asked of a scenario.
#[derive(Clone, Copy)]
pub enum Asked<'n> {
    /// Whether all that the one of this name expects holds.
    Test(&'n str),
    /// The plain schedule of what it makes happen.
    Schedule,
}

/// A scenario that is to be played: what is asked of it, and over which sets.
#[derive(Clone, Copy)]
pub struct Plan<'n> {
    pub asked: Asked<'n>,
    pub verification: Verification,
}

/// A text, and how the job ends of which it tells.
#[derive(Drop)]
pub struct Told {
    pub text: Vec<u8>,
    pub end: End,
}

/// What is told for the bytes of a set's file, and the scenario that a source has.
pub(crate) fn tell_file<P: Source>(
    alloc: Global,
    plan: Plan<'_>,
    bytes: &[u8],
    scenario: &mut P,
) -> Result<Told, Fault>
    requires { CanCount (P.failures scenario.old) }
    ensures tells { Tells (IsOfFile (IsTraced plan.entry.verification
        (IsPlayedOf (right_of plan.entry.asked) bytes.now (P.supply scenario.old))) bytes.now)
        result }
    ensures unread { (scenario.new ≡ scenario.old)
        ⊎ HoldsRun plan.entry.verification (Bytes bytes.now) }
    ensures reads { P.failures scenario.new ≡ P.failures scenario.old + reads_failed result }
    ensures writes { writes_failed result ≡ 0 }
{
    let set = set_of(alloc, bytes)?;
    match plan.verification {
        Verification::Required => tell_verified(alloc, plan.asked, bytes, set, scenario),
        Verification::Skipped => tell_set(alloc, plan.asked, bytes, &set, scenario),
    }
}

/// What is told for a set that has to be accepted.
fn tell_verified<P: Source>(
    alloc: Global,
    asked: Asked<'_>,
    bytes: &[u8],
    set: DriverSet,
    scenario: &mut P,
) -> Result<Told, Fault>
    requires { CanCount (P.failures scenario.old) }
    ensures tells { Tells (IsIfAccepted
        (IsPlayedOf (right_of asked.entry) bytes.now (P.supply scenario.old)) set) result }
    ensures unread { (scenario.new ≡ scenario.old) ⊎ IsTypable set }
    ensures reads { P.failures scenario.new ≡ P.failures scenario.old + reads_failed result }
    ensures writes { writes_failed result ≡ 0 }
{
    match verify(alloc, set) {
        Ok(accepted) => tell_set(alloc, asked, bytes, accepted.set(), scenario),
        Err((_set, refusal)) => tell_refusal(alloc, &refusal),
    }
}

/// The line of a refusal; one for want of memory is no verdict.
pub fn tell_refusal(alloc: Global, refusal: &Refusal) -> Result<Told, Fault>
    ensures refused { IfOk result (λ told. (refusal.now.rule ≢ Rule.Memory)
        × (told.end ≡ End.Stopped) × (told.text.items ≡ refusal_line refusal.now)) }
    ensures memory { IfErr result (λ fault. fault ≡ Fault.Memory) }
{
    if refusal.rule == Rule::Memory {
        return Err(Fault::Memory);
    }
    let mut lines = Lines::new(alloc)?;
    lines.refusal(refusal);
    let mut text = Vec::new(alloc);
    text.extend_from_slice(lines.bytes())?;
    Ok(Told {
        text,
        end: End::Stopped,
    })
}

/// What is told of the scenario that a source has, played over a set.
fn tell_set<P: Source>(
    alloc: Global,
    asked: Asked<'_>,
    bytes: &[u8],
    set: &DriverSet,
    scenario: &mut P,
) -> Result<Told, Fault>
    requires { CanCount (P.failures scenario.old) }
    ensures tells { Tells
        (IsPlayedOf (right_of asked.entry) bytes.now (P.supply scenario.old) set.now) result }
    ensures reads { P.failures scenario.new ≡ P.failures scenario.old + reads_failed result }
    ensures writes { writes_failed result ≡ 0 }
{
    let text = read_whole(alloc, scenario)?;
    tell_text(alloc, asked, bytes, set, text.as_slice())
}

/// What is told of the scenario that a text lists, played over a set whose file has these bytes.
pub fn tell_text(
    alloc: Global,
    asked: Asked<'_>,
    bytes: &[u8],
    set: &DriverSet,
    text: &[u8],
) -> Result<Told, Fault>
    ensures tells { Tells (IsOfScenario (right_of asked.entry) set.now
        (scenario_in (names_in bytes.now) text.now)) result }
    ensures reads { reads_failed result ≡ 0 }
    ensures writes { writes_failed result ≡ 0 }
{
    let names = names_in(alloc, bytes)?;
    match parse_scenario(alloc, &names, text) {
        Ok(scenario) => tell_played(alloc, asked, bytes, text, set, &scenario),
        Err(fault) => Err(of_schedule(fault)),
    }
}

/// What the bytes of a file name.
pub fn names_in<'a>(alloc: Global, bytes: &'a [u8]) -> Result<Names<'a>, AllocError>
    ensures { IfOk result (λ names. names ≡ names_in bytes.now) }
{
    if begins_image(bytes) {
        return Ok(Names::new(alloc));
    }
    Names::of(alloc, bytes)
}

/// What is told of a scenario, played over a set, whose file has these bytes.
fn tell_played(
    alloc: Global,
    asked: Asked<'_>,
    bytes: &[u8],
    text: &[u8],
    set: &DriverSet,
    scenario: &Scenario,
) -> Result<Told, Fault>
    requires some { 1 ≤ scenario.now.threads }
    requires few { scenario.now.threads ≤ MAX_THREADS }
    ensures tells { IfOk result (λ told. right_of asked.entry set.now (listed scenario.now)
        (ended told.end told.text.items)) }
    ensures memory { IfErr result (λ fault. fault ≡ Fault.Memory) }
{
    let source = source_of(alloc, bytes, set)?;
    let source = source.as_slice();
    match tell_play(alloc, asked, source, text, set, scenario) {
        Ok(told) => Ok(told),
        Err(AllocError) => Err(Fault::Memory),
    }
}

/// What is told of it, with the names of a text that names the set.
#[tactic(auto, using(crate::proofs::Told::play_told))]
fn tell_play(
    alloc: Global,
    asked: Asked<'_>,
    source: &[u8],
    text: &[u8],
    set: &DriverSet,
    scenario: &Scenario,
) -> Result<Told, AllocError>
    requires some { 1 ≤ scenario.now.threads }
    requires few { scenario.now.threads ≤ MAX_THREADS }
    ensures { IfOk result (λ told. right_of asked.entry set.now (listed scenario.now)
        (ended told.end told.text.items)) }
{
    let playing = Playing::new(alloc, set, scenario.threads)?;
    let played = play_judged(alloc, playing, &scenario.steps)?;
    let failed = step_of(&played.failed);
    tell_asked(alloc, asked, source, text, &played.now, failed)
}

/// How steps play, with what the verdict on the set found, where one of them expects a verdict.
#[tactic(auto, using(crate::proofs::Judging::none_judged, crate::proofs::Judging::found_judged))]
fn play_judged(alloc: Global, playing: Playing, steps: &Steps) -> Result<Played, AllocError>
    ensures { IfOk result (λ played. PlaysJudged playing steps.now played.now played.failed) }
{
    if !steps.has(Kind::Verdict) {
        return play(alloc, playing, steps);
    }
    let found = find_fault(alloc, playing.machine().set())?;
    let known = judged(alloc, steps, found)?;
    play(alloc, playing, &known)
}

/// What the verdict on a set finds: its first fault, or none.
#[tactic(auto, using(crate::proofs::Judging::fault_found))]
fn find_fault(alloc: Global, set: &DriverSet) -> Result<Option<Refusal>, AllocError>
    ensures { IfOk result (IsFound set.now) }
{
    let Ok(copy) = set.copy(alloc) else {
        return Err(AllocError);
    };
    match verify(alloc, copy) {
        Ok(_accepted) => Ok(None),
        Err((_set, refusal)) => known_fault(refusal),
    }
}

/// The fault of a refusal; one for want of memory is no verdict.
fn known_fault(refusal: Refusal) -> Result<Option<Refusal>, AllocError>
    ensures { IfOk result (λ found. (refusal.rule ≢ Rule.Memory) × (found ≡ Some refusal)) }
{
    if refusal.rule == Rule::Memory {
        Err(AllocError)
    } else {
        Ok(Some(refusal))
    }
}

/// The step that fails, if one does.
fn step_of(failed: &Option<Failure>) -> Option<Step>
    ensures { result ≡ option_map (λ failure. failure.step) failed.now }
{
    match failed {
        Some(failure) => Some(failure.step),
        None => None,
    }
}

/// What is told of a scenario that has played, up to a step that fails, if one does.
fn tell_asked(
    alloc: Global,
    asked: Asked<'_>,
    source: &[u8],
    text: &[u8],
    playing: &Playing,
    failed: Option<Step>,
) -> Result<Told, AllocError>
    ensures { IfOk result (λ told. right_of_play asked.entry
        (record { now = playing.now; failed = failed }) (ended told.end told.text.items)) }
{
    match asked {
        Asked::Test(name) => tell_outcome(alloc, name, source, text, playing, failed),
        Asked::Schedule => tell_schedule(alloc, playing, failed),
    }
}
