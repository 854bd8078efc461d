//! How what tests answer is reported.

ghost use Rattle.std.specs.Prelude.{◌≡◌, IfOk};
ghost use Rattle.drvhost_tests.specs.Reports.{all_answers, alone, reported};

use crate::case::{Case, all_answers};
use crate::junit::suite;
use crate::tap::tap;
use cli::job::Report;
use drvhost_devices::told::Told;
use std::alloc::{AllocError, Global};

/// The answer to the tests of a set, as it is reported.
pub(crate) fn reported(
    alloc: Global,
    report: Report,
    set: &str,
    cases: &[Case<'_>],
) -> Result<Told, AllocError>
    ensures { IfOk result (λ whole. whole ≡ reported report set.now cases.now) }
{
    match report {
        Report::Lines => all_answers(alloc, cases),
        Report::Tap13 => with_output(alloc, cases, tap(alloc, 13, cases)?),
        Report::Tap14 => with_output(alloc, cases, tap(alloc, 14, cases)?),
        Report::JUnit => with_output(alloc, cases, suite(alloc, set, cases)?),
    }
}

/// The answers to tests as one, with another output.
fn with_output(alloc: Global, cases: &[Case<'_>], output: Vec<u8>) -> Result<Told, AllocError>
    ensures { IfOk result (λ whole.
        whole ≡ record (all_answers cases.now) { output = output.items }) }
{
    let whole = all_answers(alloc, cases)?;
    Ok(whole.with_output(output))
}

/// A set that isn't played, as the one test that there is.
pub(crate) fn alone(
    alloc: Global,
    report: Report,
    set: &str,
    told: &Told,
) -> Result<Told, AllocError>
    ensures { IfOk result (λ whole. whole ≡ alone report set.now told.now) }
{
    let cases = [Case::of(set, told)];
    reported(alloc, report, set, &cases)
}
