//! Tests in the form of JUnit.

ghost use Rattle.std.specs.Prelude.{◌≡◌, ◌<◌, ◌+◌, ◌^◌, ◌++◌, [], IfOk, OnOk, Some, bytes_eq};
ghost use Rattle.std.specs.Prelude.{count_by, false, string_bytes};
ghost use Rattle.indexmap.specs.IndexMap.{Updates};
ghost use Rattle.text.specs.Cut.{lines_of};
ghost use Rattle.drvhost_tests.specs.Counts.{times_in};
ghost use Rattle.drvhost_tests.specs.Reports.{first_line, first_of, is_error, is_failure};
ghost use Rattle.drvhost_tests.specs.Reports.{outcome, problem, suite, suite_head, test_case};
ghost use Rattle.drvhost_tests.specs.Reports.{test_cases, turn};

use crate::case::{Case, add_answer};
use crate::written::{Place, add_written};
use drvhost_devices::told::Told;
use indexmap::IndexMap;
use std::alloc::{AllocError, Global};
use text::cut::Lines;
use text::piece::Piece;
use words::Words;

/// What stands before the name of a set.
const SUITE: &str = "<?xml version=\"1.0\" encoding=\"UTF-8\"?>\n<testsuite name=\"";

/// The tests of a set as a suite of JUnit.
pub(crate) fn suite(alloc: Global, set: &str, cases: &[Case<'_>]) -> Result<Vec<u8>, AllocError>
    ensures { IfOk result (λ text. text.items ≡ suite set.now cases.now) }
{
    let mut words = Words::new(alloc);
    add_head(&mut words, set, cases);
    add_cases(alloc, &mut words, set, cases)?;
    words.add("</testsuite>\n");
    Ok(words.finish()?.into_bytes())
}

/// Adds what stands before the tests of a set.
fn add_head(words: &mut Words, set: &str, cases: &[Case<'_>])
    ensures { words.new.lacks ≡ false → (words.old.lacks ≡ false)
        × (string_bytes words.new.text
        ≡ string_bytes words.old.text ++ suite_head set.now cases.now) }
{
    words.add(SUITE);
    add_written(words, Place::Xml, set.as_bytes());
    words.add("\" tests=\"");
    words.add_number(cases.len() as u64);
    words.add("\" failures=\"");
    words.add_number(failures(cases) as u64);
    words.add("\" errors=\"");
    words.add_number(errors(cases) as u64);
    words.add("\" skipped=\"0\" time=\"0\">\n");
}

/// How many tests have a step that fails, or a set that is refused.
fn failures(cases: &[Case<'_>]) -> usize
    ensures { result ≡ count_by is_failure cases.now }
{
    cases
        .iter()
        .filter(|case| case.told().status() == 1)
        .count()
}

/// How many have a file that is faulty or can't be read.
fn errors(cases: &[Case<'_>]) -> usize
    ensures { result ≡ count_by is_error cases.now }
{
    cases.iter().filter(|case| case.told().status() > 1).count()
}

/// Adds the test cases of a set, in order.
fn add_cases(
    alloc: Global,
    words: &mut Words,
    set: &str,
    cases: &[Case<'_>],
) -> Result<(), AllocError>
    ensures { OnOk result (words.new.lacks ≡ false → (words.old.lacks ≡ false)
        × (string_bytes words.new.text
        ≡ string_bytes words.old.text ++ test_cases set.now [] cases.now)) }
{
    let mut counts = IndexMap::new(alloc);
    for case in cases {
        let times = count(&mut counts, case.name())?;
        add_case(words, set, times, case);
    }
    Ok(())
}

/// Counts a name that comes once more, and answers how often it has come.
fn count<'t>(counts: &mut IndexMap<Piece<'t>, u64>, name: &'t str) -> Result<u64, AllocError>
    requires { times_in counts.old name.now < 2 ^ 63 }
    ensures { IfOk result (λ times. (times ≡ times_in counts.old name.now + 1)
        × Updates bytes_eq counts.old counts.new name.now (Some times)) }
{
    let name = Piece::of(name.as_bytes());
    let times = counts.get(&name).copied().unwrap_or(0) + 1;
    let _before = counts.insert(name, times)?;
    Ok(times)
}

/// Adds a test case, with the turn of its name.
fn add_case(words: &mut Words, set: &str, times: u64, case: &Case<'_>)
    ensures { words.new.lacks ≡ false → (words.old.lacks ≡ false)
        × (string_bytes words.new.text
        ≡ string_bytes words.old.text ++ test_case set.now times case.now) }
{
    words.add("<testcase classname=\"");
    add_written(words, Place::Xml, set.as_bytes());
    words.add("\" name=\"");
    add_written(words, Place::Xml, case.name().as_bytes());
    add_turn(words, times);
    words.add("\" time=\"0\">");
    add_outcome(words, case.told());
    words.add("</testcase>\n");
}

/// Adds which of the tests of a name one is, unless it is the first.
fn add_turn(words: &mut Words, times: u64)
    ensures { words.new.lacks ≡ false → (words.old.lacks ≡ false)
        × (string_bytes words.new.text ≡ string_bytes words.old.text ++ turn times) }
{
    if times > 1 {
        words.add(" %#");
        words.add_number(times);
    }
}

/// Adds what was answered to a test that didn't go well.
fn add_outcome(words: &mut Words, told: &Told)
    ensures { words.new.lacks ≡ false → (words.old.lacks ≡ false)
        × (string_bytes words.new.text ≡ string_bytes words.old.text ++ outcome told.now) }
{
    if told.status() != 0 {
        let kind = problem(told.status());
        words.add("<");
        words.add(kind);
        words.add(" message=\"");
        add_written(words, Place::Xml, first_line(told));
        words.add("\">");
        add_answer(words, Place::Xml, "", told);
        words.add("</");
        words.add(kind);
        words.add(">");
    }
}

/// What went wrong, by its exit status.
fn problem(status: u8) -> &'static str
    ensures { result.now ≡ problem status }
{
    if status == 1 { "failure" } else { "error" }
}

/// The first line of an answer, if it has one.
fn first_line(told: &Told) -> &[u8]
    ensures { result.now ≡ first_line told.now }
{
    first_of(told.output(), first_of(told.told(), &[]))
}

/// The first line of a text, or another one where it has none.
fn first_of<'t>(text: &'t [u8], other: &'t [u8]) -> &'t [u8]
    ensures { result.now ≡ first_of (lines_of text.now) other.now }
{
    match Lines::of(text).next() {
        Some(line) => line,
        None => other,
    }
}
