//! The tests of the set of a file.

ghost use Rattle.std.specs.Prelude.{◌≡◌, ◌<◌, ◌≤◌, ◌^◌, IfOk};
ghost use Rattle.drvhost_tests.specs.Reports.{alone};
ghost use Rattle.drvhost_tests.specs.Tests.{AreEntries, AreJudgedBy, AreOfBytes, AreOfFile};
ghost use Rattle.drvhost_tests.specs.Tests.{AreTested, AreToldBy, Gathers, refused};
ghost use Rattle.drvhost_tests.specs.Told.{asked_of, tested_of};
ghost use Rattle.drvhost_files.specs.Kept.{OnlyReads};
ghost use Rattle.drvhost_files.specs.Ready.{CanOpenMany};

use crate::reporting::{alone, reported};
use crate::scenario::{Subject, any_of_verdict, are_kept, cases_of, test_each};
use crate::telling::{tell_image_fault, tell_refused, tell_text_fault, tell_unread_set};
use crate::test::Suite;
use drvhost_devices::fault::Fault;
use drvhost_devices::reading::set_of;
use drvhost_devices::told::Told;
use drvhost_devices::transfer::read_whole;
use drvhost_devices::verification::Verification;
use drvhost_files::files::Files;
use drvhost_files::reading::{Held, Way};
use image::DriverSet;
use model::abs::{Refusal, Rule};
use std::alloc::AllocError;
use std::thread::Threads;
use verifier::verify;

/// What is answered for the scenarios of files, played over the set of another.
pub(crate) fn test_set<R: Threads + Sync, F: Files>(
    rt: &R,
    suite: Suite<'_>,
    files: &mut F,
) -> Result<Told, AllocError>
    requires files { CanOpenMany F.Files files.old }
    ensures gathers { Gathers (AreOfFile (asked_of suite.entry.tests)
        suite.entry.names.now (F.supply files.old))
        (F.opened files.old) (F.opened files.new) (F.failures files.old) (F.failures files.new)
        result }
    ensures kept { OnlyReads F.Files files.old files.new }
{
    let mut file = files.open(suite.tests.set);
    let read = read_whole(suite.alloc, &mut file);
    files.close(file);
    match read {
        Ok(bytes) => test_bytes(rt, suite, bytes.as_slice(), files),
        Err(fault) => tell_unread_set(suite.alloc, suite.tests, fault),
    }
}

/// What is answered for them where these are the bytes of the set's file.
fn test_bytes<R: Threads + Sync, F: Files>(
    rt: &R,
    suite: Suite<'_>,
    bytes: &[u8],
    files: &mut F,
) -> Result<Told, AllocError>
    requires opened { F.opened files.old ≤ 2 ^ 63 }
    requires files { F.failures files.old ≤ 2 ^ 63 }
    ensures gathers { Gathers (AreOfBytes (asked_of suite.entry.tests)
        suite.entry.names.now (F.supply files.old)
        bytes.now) (F.opened files.old) (F.opened files.new) (F.failures files.old)
        (F.failures files.new) result }
    ensures kept { OnlyReads F.Files files.old files.new }
{
    match set_of(suite.alloc, bytes) {
        Ok(set) => test_judged(rt, suite, bytes, set, files),
        Err(Fault::Text(fault)) => tell_text_fault(suite.alloc, suite.tests, fault),
        Err(Fault::Image(fault)) => tell_image_fault(suite.alloc, suite.tests, fault),
        Err(_) => Err(AllocError),
    }
}

/// What is answered for them where this is the set, accepted or not.
fn test_judged<R: Threads + Sync, F: Files>(
    rt: &R,
    suite: Suite<'_>,
    bytes: &[u8],
    set: DriverSet,
    files: &mut F,
) -> Result<Told, AllocError>
    requires opened { F.opened files.old ≤ 2 ^ 63 }
    requires files { F.failures files.old ≤ 2 ^ 63 }
    ensures gathers { Gathers (AreJudgedBy suite.entry.tests.verification
        (asked_of suite.entry.tests) suite.entry.names.now
        (F.supply files.old) bytes.now set) (F.opened files.old) (F.opened files.new)
        (F.failures files.old) (F.failures files.new) result }
    ensures kept { OnlyReads F.Files files.old files.new }
{
    match suite.tests.verification {
        Verification::Required => test_verified(rt, suite, bytes, set, files),
        Verification::Skipped => {
            let subject = Subject {
                bytes,
                set: &set,
                refusal: None,
            };
            test_all(rt, suite, subject, files)
        }
    }
}

/// What is answered for scenarios of a set that has to be accepted.
fn test_verified<R: Threads + Sync, F: Files>(
    rt: &R,
    suite: Suite<'_>,
    bytes: &[u8],
    set: DriverSet,
    files: &mut F,
) -> Result<Told, AllocError>
    requires opened { F.opened files.old ≤ 2 ^ 63 }
    requires files { F.failures files.old ≤ 2 ^ 63 }
    ensures gathers { Gathers (AreJudgedBy Verification.Required
        (asked_of suite.entry.tests) suite.entry.names.now
        (F.supply files.old) bytes.now set) (F.opened files.old) (F.opened files.new)
        (F.failures files.old) (F.failures files.new) result }
    ensures kept { OnlyReads F.Files files.old files.new }
{
    match verify(suite.alloc, set) {
        Ok(accepted) => {
            let set = accepted.set();
            let refusal = None;
            test_all(
                rt,
                suite,
                Subject {
                    bytes,
                    set,
                    refusal,
                },
                files,
            )
        }
        Err((_set, refusal)) if refusal.rule == Rule::Memory => Err(AllocError),
        Err((set, refusal)) => {
            let subject = Subject {
                bytes,
                set: &set,
                refusal: Some(refusal),
            };
            test_all(rt, suite, subject, files)
        }
    }
}

/// What is answered for scenarios that are played over a set: all are read, then tested.
fn test_all<R: Threads + Sync, F: Files>(
    rt: &R,
    suite: Suite<'_>,
    subject: Subject<'_>,
    files: &mut F,
) -> Result<Told, AllocError>
    requires opened { F.opened files.old ≤ 2 ^ 63 }
    requires files { F.failures files.old ≤ 2 ^ 63 }
    ensures gathers { Gathers (AreTested (asked_of suite.entry.tests) suite.entry.names.now
        (F.supply files.old) (tested_of subject.entry))
        (F.opened files.old) (F.opened files.new) (F.failures files.old) (F.failures files.new)
        result }
    ensures kept { OnlyReads F.Files files.old files.new }
{
    let way = Way {
        alloc: suite.alloc,
        is_told: false,
        jobs: suite.tests.jobs,
    };
    let Ok(held) = files.read_each(rt, way, suite.names) else {
        return Err(AllocError);
    };
    tell_held(rt, suite, subject, held.as_slice())
}

/// What is answered for scenarios that were read: for each; or once that the set is refused, where
/// it isn't run and none of them expects nothing but a verdict on it.
fn tell_held<R: Threads + Sync>(
    rt: &R,
    suite: Suite<'_>,
    subject: Subject<'_>,
    held: &[Held<'_>],
) -> Result<Told, AllocError>
    ensures { IfOk result (AreToldBy subject.entry.refusal (asked_of suite.entry.tests)
        (tested_of subject.entry) held.now) }
{
    match subject.refusal {
        Some(_) if !are_kept(held) => Err(AllocError),
        Some(refusal) => {
            if any_of_verdict(suite.alloc, subject.bytes, held)? {
                tell_each(rt, suite, subject, held)
            } else {
                tell_unplayed(suite, &refusal)
            }
        }
        None => tell_each(rt, suite, subject, held),
    }
}

/// That the set is refused, as the one test that there is.
fn tell_unplayed(suite: Suite<'_>, refusal: &Refusal) -> Result<Told, AllocError>
    ensures { IfOk result (λ told. told ≡ alone suite.entry.tests.report suite.entry.tests.set.now
        (refused refusal.now)) }
{
    let told = tell_refused(suite.alloc, refusal)?;
    alone(suite.alloc, suite.tests.report, suite.tests.set, &told)
}

/// What is answered for each of them, in order.
fn tell_each<R: Threads + Sync>(
    rt: &R,
    suite: Suite<'_>,
    subject: Subject<'_>,
    held: &[Held<'_>],
) -> Result<Told, AllocError>
    ensures { IfOk result (AreEntries (asked_of suite.entry.tests) (tested_of subject.entry)
        held.now) }
{
    let told = test_each(rt, suite, subject, held)?;
    let cases = cases_of(suite, subject, held, told.as_slice())?;
    reported(
        suite.alloc,
        suite.tests.report,
        suite.tests.set,
        cases.as_slice(),
    )
}
