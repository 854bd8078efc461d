//! The run of a scenario that fails, in words.

ghost use Rattle.std.specs.Prelude.{◌≡◌, IfOk};
ghost use Rattle.drvhost_devices.specs.Device.{Bytes};
ghost use Rattle.answer_scenarios.specs.Scenarios.{IsOfScenario, names_in, right_of};
ghost use Rattle.answer_scenarios.specs.declared.telling.Asked.TheVariants.{Schedule};
ghost use Rattle.answer_views.specs.Told.{IsTellOf};
ghost use Rattle.drvhost_tests.specs.Tests.{IsRunOf, IsRunTold, IsToldWith, usual};
ghost use Rattle.scenario_text.specs.Listing.{scenario_in};

use answer::as_text::Text;
use answer::run::ToRun;
use answer_scenarios::telling::{Asked, tell_text};
use answer_views::tell::InWords;
use drvhost_devices::manner::{Detail, Manner, Strictness};
use drvhost_devices::told::Told;
use drvhost_devices::verbosity::Verbosity;
use drvhost_devices::verification::Verification;
use image::DriverSet;
use std::alloc::{AllocError, Global};

/// How a run is told that fails a test.
const USUAL: Manner = Manner {
    detail: Detail::Usual,
    strictness: Strictness::Lenient,
};

/// What is told of a scenario, with the run up to where it fails behind that, if it is wanted.
pub(crate) fn with_run(
    alloc: Global,
    verbosity: Verbosity,
    bytes: &[u8],
    set: &DriverSet,
    text: &[u8],
    told: Told,
) -> Result<Told, AllocError>
    ensures { IfOk result (IsToldWith verbosity bytes.now set.now
        (scenario_in (names_in bytes.now) text.now) told) }
{
    match verbosity {
        Verbosity::Brief => Ok(told),
        Verbosity::Verbose => with_failed_run(alloc, bytes, set, text, told),
    }
}

/// The same where it is wanted.
fn with_failed_run(
    alloc: Global,
    bytes: &[u8],
    set: &DriverSet,
    text: &[u8],
    told: Told,
) -> Result<Told, AllocError>
    ensures { IfOk result (IsToldWith Verbosity.Verbose bytes.now set.now
        (scenario_in (names_in bytes.now) text.now) told) }
{
    if told.status() == 1 {
        add_run(alloc, bytes, set, text, told)
    } else {
        Ok(told)
    }
}

/// What is told of a scenario, with its run behind that.
fn add_run(
    alloc: Global,
    bytes: &[u8],
    set: &DriverSet,
    text: &[u8],
    mut told: Told,
) -> Result<Told, AllocError>
    ensures { IfOk result (IsRunTold bytes.now set.now
        (scenario_in (names_in bytes.now) text.now) told) }
{
    let run = run_of(alloc, bytes, set, text)?;
    told.add(&run)?;
    Ok(told)
}

/// The run of the scenario that a text lists, as it is told.
fn run_of(alloc: Global, bytes: &[u8], set: &DriverSet, text: &[u8]) -> Result<Told, AllocError>
    ensures { IfOk result (IsRunOf bytes.now set.now
        (scenario_in (names_in bytes.now) text.now)) }
{
    match tell_text(alloc, Asked::Schedule, bytes, set, text) {
        Ok(listed) => tell_listed(alloc, bytes, listed.text.as_slice()),
        Err(_) => Err(AllocError),
    }
}

/// The run of a set by a schedule, of whose files these are the bytes.
fn tell_listed(alloc: Global, bytes: &[u8], schedule: &[u8]) -> Result<Told, AllocError>
    ensures { IfOk result (IsTellOf Verification.Skipped usual (Bytes bytes.now)
        (Bytes schedule.now)) }
{
    let run = ToRun {
        job: InWords { manner: USUAL },
        form: Text,
        verification: Verification::Skipped,
        set: "",
        input: "",
    };
    run.answer(alloc, bytes, schedule)
}
