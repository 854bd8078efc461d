//! What the options of a command line choose.

ghost use Rattle.std.specs.Prelude.{◌≡◌, ◌≤◌, IfNone, IfSome, option_map};
ghost use Rattle.cli.specs.Given.{given_by};
ghost use Rattle.cli.specs.Choices.{IsReach, answer_format_of, any_number, coloring_of, detail_of};
ghost use Rattle.cli.specs.Choices.{extent_of, figure_of, form_of, jobs_of, manner_of, number_or};
ghost use Rattle.cli.specs.Choices.{report_of, tries_of, verdict_format_of, verification_of};
ghost use Rattle.cli.specs.Choices.{wanted_of};

use crate::job::{Form, Report};
use crate::matches::{argument, by_flag, is_given};
use clap::ArgMatches;
use drvhost_devices::coloring::Coloring;
use drvhost_devices::extent::Extent;
use drvhost_devices::figure::Figure;
use drvhost_devices::jobs::MAX_JOBS;
use drvhost_devices::manner::{Detail, Manner, Strictness};
use drvhost_devices::tries::{MAX_TRIES, USUAL_TRIES};
use drvhost_devices::verification::Verification;
use drvhost_devices::wanted::{MAX_OFFERS, Wanted};
use hunt_facts::bounds::{Bounds, Goal};
use hunt_facts::reach::{
    MAX_PACKETS, MAX_WORLDS, Reach, USUAL_PACKETS, USUAL_THREADS, USUAL_WORLDS,
};
use interleave::read::number_within;
use model::limits::MAX_THREADS;

/// How an answer is written.
#[derive(Clone, Copy)]
pub(crate) enum Format {
    Text,
    Json,
    Sarif,
}

/// How an answer is to be written, as text or in JSON, if there is a format of that name.
pub(crate) fn answer_format(matches: &ArgMatches<'_>) -> Option<Format>
    ensures { result ≡ answer_format_of (given_by matches.now) }
{
    match argument(matches, "format") {
        None => Some(Format::Text),
        Some("text") => Some(Format::Text),
        Some("json") => Some(Format::Json),
        Some(_) => None,
    }
}

/// The same of verdicts, which may be written in a log of SARIF too.
pub(crate) fn verdict_format(matches: &ArgMatches<'_>) -> Option<Format>
    ensures { result ≡ verdict_format_of (given_by matches.now) }
{
    match argument(matches, "format") {
        None => Some(Format::Text),
        Some("text") => Some(Format::Text),
        Some("json") => Some(Format::Json),
        Some("sarif") => Some(Format::Sarif),
        Some(_) => None,
    }
}

/// As what a run is to be drawn, if there is such a format.
pub(crate) fn figure(matches: &ArgMatches<'_>) -> Option<Figure>
    ensures { result ≡ figure_of (given_by matches.now) }
{
    match argument(matches, "format") {
        None => Some(Figure::Picture),
        Some("svg") => Some(Figure::Picture),
        Some("perfetto") => Some(Figure::Tracks),
        Some(_) => None,
    }
}

/// How what came of commands is to be written, if there is such a format.
pub(crate) fn form(matches: &ArgMatches<'_>) -> Option<Form>
    ensures { result ≡ form_of (given_by matches.now) }
{
    match argument(matches, "format") {
        None => Some(Form::Lines),
        Some("text") => Some(Form::Lines),
        Some("json") => Some(Form::Json),
        Some(_) => None,
    }
}

/// How tests are to be reported, if there is such a format.
pub(crate) fn report(matches: &ArgMatches<'_>) -> Option<Report>
    ensures { result ≡ report_of (given_by matches.now) }
{
    match argument(matches, "format") {
        None => Some(Report::Lines),
        Some("text") => Some(Report::Lines),
        Some("tap") => Some(Report::Tap13),
        Some("tap14") => Some(Report::Tap14),
        Some("junit") => Some(Report::JUnit),
        Some(_) => None,
    }
}

/// Whether an answer is to be painted, if there is such a choice.
pub(crate) fn coloring(matches: &ArgMatches<'_>) -> Option<Coloring>
    ensures { result ≡ coloring_of (given_by matches.now) }
{
    match argument(matches, "color") {
        None => Some(Coloring::Auto),
        Some("auto") => Some(Coloring::Auto),
        Some("always") => Some(Coloring::Always),
        Some("never") => Some(Coloring::Never),
        Some(_) => None,
    }
}

/// Of which faults words are asked for.
pub(crate) fn extent(matches: &ArgMatches<'_>) -> Extent
    ensures { result ≡ extent_of (given_by matches.now) }
{
    by_flag(matches, "all", Extent::Each, Extent::First)
}

/// Whether the set of a run has to be accepted.
pub(crate) fn verification(matches: &ArgMatches<'_>) -> Verification
    ensures { result ≡ verification_of (given_by matches.now) }
{
    by_flag(
        matches,
        "unchecked",
        Verification::Skipped,
        Verification::Required,
    )
}

/// How a run is to be told, unless two levels are asked for.
pub(crate) fn manner(matches: &ArgMatches<'_>) -> Option<Manner>
    ensures { result ≡ manner_of (given_by matches.now) }
{
    let detail = detail(is_given(matches, "quiet"), is_given(matches, "every"))?;
    let strictness = by_flag(matches, "strict", Strictness::Strict, Strictness::Lenient);
    Some(Manner { detail, strictness })
}

/// How much is to be told.
fn detail(quiet: bool, every: bool) -> Option<Detail>
    ensures { result ≡ detail_of quiet every }
{
    match (quiet, every) {
        (true, true) => None,
        (true, false) => Some(Detail::Quiet),
        (false, true) => Some(Detail::Every),
        (false, false) => Some(Detail::Usual),
    }
}

/// How often mends are to be tried.
pub(crate) fn tries(matches: &ArgMatches<'_>) -> Option<u64>
    ensures { result ≡ tries_of (given_by matches.now) }
{
    number_or(USUAL_TRIES, MAX_TRIES, argument(matches, "tries"))
}

/// Which mend is to be applied, or none, unless its number is none that an offer has.
pub(crate) fn wanted(matches: &ArgMatches<'_>) -> Option<Option<Wanted>>
    ensures { result ≡ wanted_of (given_by matches.now) }
{
    match argument(matches, "nth") {
        Some(text) => {
            let number = number_within(1, MAX_OFFERS, text.as_bytes())?;
            Some(Some(Wanted::Number(number)))
        }
        None if is_given(matches, "apply") => Some(Some(Wanted::Sure)),
        None => Some(None),
    }
}

/// How many jobs are to share the files, or none where nothing is said of it, unless they are too
/// many.
pub(crate) fn jobs(matches: &ArgMatches<'_>) -> Option<Option<u64>>
    ensures { result ≡ jobs_of (given_by matches.now) }
{
    any_number(1, MAX_JOBS, argument(matches, "jobs"))
}

/// How far a hunt is to go, and what it looks for, if each of its numbers is one within its limits.
pub(crate) fn reach(matches: &ArgMatches<'_>) -> Option<Reach>
    ensures some { IfSome result (IsReach (given_by matches.now)) }
    ensures none { IfNone result
        ((bounds : Bounds) → IsReach (given_by matches.now) bounds → ⊥) }
{
    let threads = number_or(
        USUAL_THREADS,
        MAX_THREADS as u64,
        argument(matches, "threads"),
    )?;
    let packets = number_or(USUAL_PACKETS, MAX_PACKETS, argument(matches, "packets"))?;
    let worlds = number_or(USUAL_WORLDS, MAX_WORLDS, argument(matches, "states"))?;
    let events = any_number(0, u64::MAX, argument(matches, "events"))?;
    let argument = any_number(0, u64::MAX, argument(matches, "argument"))?;
    Some(Reach::of(Bounds {
        threads: threads as u8,
        packets: packets as usize,
        worlds: worlds as usize,
        events,
        argument,
        goal: by_flag(matches, "stuck", Goal::AmissOrStuck, Goal::Amiss),
    }))
}

/// The number of an option's value, from 1 up to the most, or the usual one where none is given.
fn number_or(usual: u64, most: u64, value: Option<&str>) -> Option<u64>
    requires least { 1 ≤ usual }
    requires most { usual ≤ most }
    ensures number { result ≡ number_or usual most (option_map (λ text. text.now) value.entry) }
    ensures within { IfSome result (λ n. (1 ≤ n) × (n ≤ most)) }
{
    match value {
        Some(text) => number_within(1, most, text.as_bytes()),
        None => Some(usual),
    }
}

/// The number of an option's value, within limits, or none where none is given.
fn any_number(least: u64, most: u64, value: Option<&str>) -> Option<Option<u64>>
    ensures { result ≡ any_number least most (option_map (λ text. text.now) value.entry) }
{
    match value {
        Some(text) => Some(Some(number_within(least, most, text.as_bytes())?)),
        None => Some(None),
    }
}
