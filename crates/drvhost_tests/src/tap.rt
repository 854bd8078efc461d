//! Tests in the form of TAP.

ghost use Rattle.std.specs.Prelude.{◌≡◌, ◌++◌, IfOk, false, string_bytes};
ghost use Rattle.text.specs.Cut.{lines_of};
ghost use Rattle.drvhost_tests.specs.Reports.{comments, tap, tap_lines, test_point, test_points};
ghost use Rattle.drvhost_tests.specs.Reports.{verdict};

use crate::case::{Case, add_answer};
use crate::written::{Place, add_written};
use drvhost_devices::told::Told;
use std::alloc::{AllocError, Global};
use words::Words;

/// What stands before each line of an answer.
const COMMENT: &str = "# drvhost: ";

/// Tests as a version of TAP has them: that version, the plan, and a test point for each.
pub(crate) fn tap(alloc: Global, version: u64, cases: &[Case<'_>]) -> Result<Vec<u8>, AllocError>
    ensures text { IfOk result (λ text. text.items ≡ tap version cases.now) }
    ensures lines { IfOk result (λ text. lines_of text.items ≡ tap_lines version cases.now) }
{
    let mut words = Words::new(alloc);
    words.add("TAP version ");
    words.add_number(version);
    words.add("\n1..");
    words.add_number(cases.len() as u64);
    words.add("\n");
    add_points(&mut words, cases);
    Ok(words.finish()?.into_bytes())
}

/// Adds the test points of tests, in order.
fn add_points(words: &mut Words, cases: &[Case<'_>])
    ensures { words.new.lacks ≡ false → (words.old.lacks ≡ false)
        × (string_bytes words.new.text
        ≡ string_bytes words.old.text ++ test_points 1 cases.now) }
{
    for (place, case) in cases.iter().enumerate() {
        add_point(words, place as u64 + 1, case);
    }
}

/// Adds the test point of a number.
fn add_point(words: &mut Words, number: u64, case: &Case<'_>)
    ensures { words.new.lacks ≡ false → (words.old.lacks ≡ false)
        × (string_bytes words.new.text
        ≡ string_bytes words.old.text ++ test_point number case.now) }
{
    words.add(verdict(case.told()));
    words.add_number(number);
    words.add(" - ");
    add_written(words, Place::Description, case.name().as_bytes());
    words.add("\n");
    add_comments(words, case.told());
}

/// Whether a test went well.
fn verdict(told: &Told) -> &'static str
    ensures { result.now ≡ verdict told.now }
{
    if told.status() == 0 { "ok " } else { "not ok " }
}

/// Adds what was answered to a test that didn't go well.
fn add_comments(words: &mut Words, told: &Told)
    ensures { words.new.lacks ≡ false → (words.old.lacks ≡ false)
        × (string_bytes words.new.text ≡ string_bytes words.old.text ++ comments told.now) }
{
    if told.status() != 0 {
        add_answer(words, Place::Comment, COMMENT, told);
    }
}
