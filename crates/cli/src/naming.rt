//! Which job the matches of a command line name.

ghost use Rattle.std.specs.Prelude.{◌≡◌, codes, map, option_map, IfNone, IfOk, IfSome, None, Some};
ghost use Rattle.clap.specs.Words.{all_of, first_of, subcommand_rows_of};
ghost use Rattle.cli.specs.Given.{given_by};
ghost use Rattle.cli.specs.declared.job.Job.TheVariants.{OnPaths};
ghost use Rattle.cli.specs.declared.job.FileNames.{FileNames};
ghost use Rattle.cli.specs.CommandLine.{HasBoth, IsNamed, IsPageOf, Names};
ghost use Rattle.cli.specs.CommandLine.{NamesJudged, NamesOf};

use crate::choices::{
    Format, answer_format, coloring, extent, figure, form, jobs, manner, reach, report, tries,
    verdict_format, verification, wanted,
};
use crate::job::{
    FileNames, Form, Job, Judged, Judging, Keeping, Page, Serving, Task, Testing, Way, Workers,
};
use crate::matches::{argument, arguments, by_flag, is_given};
use crate::table::{Subcommand, command_named};
use clap::ArgMatches;
use drvhost_devices::extent::Extent;
use drvhost_devices::logging::{Account, Logging, Passes};
use drvhost_devices::manner::Detail;
use drvhost_devices::verbosity::Verbosity;
use report::rule::rule_named;
use std::alloc::{AllocError, Global};

/// The job that a parsed command line names.
pub(crate) fn named<'a>(
    alloc: Global,
    matches: &ArgMatches<'a>,
) -> Result<Option<Job<'a>>, AllocError>
    ensures { IfOk result (λ named. IsNamed named (Names (subcommand_rows_of matches.now))) }
{
    match matches.subcommand() {
        Some((name, inner)) => match command_named(name) {
            Some(command) => job_named(alloc, command, inner),
            None => Ok(None),
        },
        None => Ok(None),
    }
}

/// The one that the matches of a command name.
fn job_named<'a>(
    alloc: Global,
    command: Subcommand,
    matches: &ArgMatches<'a>,
) -> Result<Option<Job<'a>>, AllocError>
    ensures { IfOk result (λ named. IsNamed named (NamesOf command (given_by matches.now))) }
{
    match command {
        Subcommand::Check => sets_to_check(alloc, matches),
        Subcommand::Explain => explain_named(alloc, matches),
        Subcommand::Mend => Ok(mend_named(matches)),
        Subcommand::Trace => Ok(trace_named(matches)),
        Subcommand::Tell => Ok(tell_named(matches)),
        Subcommand::Draw => Ok(draw_named(matches)),
        Subcommand::Test => test_named(alloc, matches),
        Subcommand::Schedule => Ok(schedule_named(matches)),
        Subcommand::Hunt => Ok(hunt_named(matches)),
        Subcommand::Host => Ok(host_named(matches)),
        Subcommand::Stats => Ok(stats_named(matches)),
        Subcommand::List => Ok(list_named(matches)),
        Subcommand::Rewrite => Ok(rewrite_named(matches)),
        Subcommand::Version => Ok(Some(Job::Page(Page::Version))),
    }
}

/// What is made of sets that are judged, by the format of the answer.
#[derive(Clone, Copy)]
pub(crate) struct Judgement {
    text: Judging,
    json: Judging,
    /// In a log of SARIF.
    log: Account,
}

fn sets_to_check<'a>(alloc: Global, matches: &ArgMatches<'a>) -> Result<Option<Job<'a>>, AllocError>
    ensures { IfOk result (λ named.
        IsNamed named (NamesOf Subcommand.Check (given_by matches.now))) }
{
    let judgement = Judgement {
        text: Judging::Check,
        json: Judging::CheckJson,
        log: Account::Verdict,
    };
    sets_to_judge(alloc, judgement, matches)
}

/// Sets are explained, or where a rule is named its page is.
fn explain_named<'a>(alloc: Global, matches: &ArgMatches<'a>) -> Result<Option<Job<'a>>, AllocError>
    ensures { IfOk result (λ named.
        IsNamed named (NamesOf Subcommand.Explain (given_by matches.now))) }
{
    match argument(matches, "RULE") {
        Some(word) => Ok(page_named(word, matches)),
        None => sets_to_explain(alloc, matches),
    }
}

fn sets_to_explain<'a>(
    alloc: Global,
    matches: &ArgMatches<'a>,
) -> Result<Option<Job<'a>>, AllocError>
    requires { first_of (codes "RULE") (given_by matches.now) ≡ None }
    ensures { IfOk result (λ named.
        IsNamed named (NamesOf Subcommand.Explain (given_by matches.now))) }
{
    let Some(coloring) = coloring(matches) else {
        return Ok(None);
    };
    let extent = extent(matches);
    let judgement = Judgement {
        text: Judging::Explain(extent, coloring),
        json: Judging::ExplainJson(extent),
        log: Account::Explanation(extent),
    };
    sets_to_judge(alloc, judgement, matches)
}

/// The page of a rule, or of the warning on the order of locks, as text, if no set is to be
/// explained beside it.
fn page_named<'a>(word: &str, matches: &ArgMatches<'a>) -> Option<Job<'a>>
    requires { first_of (codes "RULE") (given_by matches.now) ≡ Some word.now }
    ensures { IsNamed result (NamesOf Subcommand.Explain (given_by matches.now)) }
{
    match (
        argument(matches, "PATH"),
        extent(matches),
        verdict_format(matches)?,
        coloring(matches)?,
    ) {
        (None, Extent::First, Format::Text, _coloring) => {
            let page = page_of(word)?;
            Some(Job::Page(page))
        }
        _ => None,
    }
}

/// The page of a word.
fn page_of(word: &str) -> Option<Page>
    ensures some { IfSome result (IsPageOf word.now) }
    ensures none { IfNone result ((page : Page) → IsPageOf word.now page → ⊥) }
{
    if word == "LockOrder" {
        return Some(Page::LockOrder);
    }
    let rule = rule_named(word)?;
    Some(Page::Rule(rule))
}

/// The sets that paths stand for are judged, or one log of them is written.
fn sets_to_judge<'a>(
    alloc: Global,
    judgement: Judgement,
    matches: &ArgMatches<'a>,
) -> Result<Option<Job<'a>>, AllocError>
    ensures { IfOk result (λ named.
        IsNamed named (NamesJudged judgement (given_by matches.now))) }
{
    let Some(format) = verdict_format(matches) else {
        return Ok(None);
    };
    let Some(paths) = values(alloc, matches, "PATH")? else {
        return Ok(None);
    };
    Ok(match format {
        Format::Text => sets_by_jobs(paths, judgement.text, jobs(matches)),
        Format::Json => sets_by_jobs(paths, judgement.json, jobs(matches)),
        Format::Sarif => {
            let account = judgement.log;
            let passes = by_flag(matches, "pass", Passes::Listed, Passes::Omitted);
            Some(Job::Log {
                paths,
                logging: Logging { account, passes },
            })
        }
    })
}

/// The sets that paths stand for are judged by so many jobs, if there may be as many.
fn sets_by_jobs<'a>(
    paths: Vec<&'a str>,
    judging: Judging,
    jobs: Option<Option<u64>>,
) -> Option<Job<'a>>
    ensures { result ≡ option_map (λ count.
        OnPaths (record { paths = paths.entry; judging = judging; jobs = count })) jobs }
{
    let jobs = jobs?;
    Some(Job::OnPaths(Judged {
        paths,
        judging,
        jobs,
    }))
}

/// The values of an argument, in a list of their own.
fn values<'a>(
    alloc: Global,
    matches: &ArgMatches<'a>,
    id: &str,
) -> Result<Option<Vec<&'a str>>, AllocError>
    ensures { IfOk result (λ values. option_map (λ list. map (λ value. value.now) list.items) values
        ≡ all_of id.now (given_by matches.now)) }
{
    let Some(given) = arguments(matches, id) else {
        return Ok(None);
    };
    let mut values = Vec::new(alloc);
    values.extend_from_slice(given)?;
    Ok(Some(values))
}

/// Mends are looked for, or one of them is applied.
/// Mends are told, or one of them is applied: not to the standard input, which no text can be
/// written to.
fn mend_named<'a>(matches: &ArgMatches<'a>) -> Option<Job<'a>>
    ensures { IsNamed result (NamesOf Subcommand.Mend (given_by matches.now)) }
{
    let set = argument(matches, "FILE")?;
    let tries = tries(matches)?;
    match (wanted(matches)?, form(matches)?) {
        (Some(wanted), Form::Lines) if set != "-" => Some(Job::Apply { set, tries, wanted }),
        (Some(_), Form::Lines | Form::Json) => None,
        (None, form) => Some(Job::OnSet {
            set,
            task: Task::Mend(tries, form),
        }),
    }
}

/// The names of the file of a set, and of that of an argument, by which it is run.
fn files_named<'a>(matches: &ArgMatches<'a>, input: &str) -> Option<FileNames<'a>>
    ensures some { IfSome result (HasBoth input.now (given_by matches.now)) }
    ensures none { IfNone result ((names : FileNames)
        → HasBoth input.now (given_by matches.now) names → ⊥) }
{
    let set = argument(matches, "FILE")?;
    let input = argument(matches, input)?;
    Some(FileNames { set, input })
}

fn trace_named<'a>(matches: &ArgMatches<'a>) -> Option<Job<'a>>
    ensures { IsNamed result (NamesOf Subcommand.Trace (given_by matches.now)) }
{
    let names = files_named(matches, "SCHEDULE")?;
    let verification = verification(matches);
    let way = match answer_format(matches)? {
        Format::Text => Way::Trace(verification),
        Format::Json => Way::TraceJson(verification),
        Format::Sarif => return None,
    };
    Some(Job::OnRun { names, way })
}

fn tell_named<'a>(matches: &ArgMatches<'a>) -> Option<Job<'a>>
    ensures { IsNamed result (NamesOf Subcommand.Tell (given_by matches.now)) }
{
    let names = files_named(matches, "SCHEDULE")?;
    let manner = manner(matches)?;
    let coloring = coloring(matches)?;
    let verification = verification(matches);
    let way = match (answer_format(matches)?, manner.detail) {
        (Format::Text, _) => Way::Tell(verification, manner, coloring),
        (Format::Json, Detail::Usual) => Way::TellJson(verification, manner.strictness),
        _ => return None,
    };
    Some(Job::OnRun { names, way })
}

fn draw_named<'a>(matches: &ArgMatches<'a>) -> Option<Job<'a>>
    ensures { IsNamed result (NamesOf Subcommand.Draw (given_by matches.now)) }
{
    let names = files_named(matches, "SCHEDULE")?;
    let figure = figure(matches)?;
    let way = Way::Draw(verification(matches), figure);
    Some(Job::OnRun { names, way })
}

fn schedule_named<'a>(matches: &ArgMatches<'a>) -> Option<Job<'a>>
    ensures { IsNamed result (NamesOf Subcommand.Schedule (given_by matches.now)) }
{
    let names = files_named(matches, "SCENARIO")?;
    let way = Way::Schedule(verification(matches));
    Some(Job::OnRun { names, way })
}

/// A set is tested by scenarios.
fn test_named<'a>(alloc: Global, matches: &ArgMatches<'a>) -> Result<Option<Job<'a>>, AllocError>
    ensures { IfOk result (λ named.
        IsNamed named (NamesOf Subcommand.Test (given_by matches.now))) }
{
    let Some(set) = argument(matches, "FILE") else {
        return Ok(None);
    };
    let (Some(report), Some(jobs)) = (report(matches), jobs(matches)) else {
        return Ok(None);
    };
    let Some(scenarios) = values(alloc, matches, "SCENARIO")? else {
        return Ok(None);
    };
    Ok(Some(Job::Test(Testing {
        set,
        scenarios,
        verification: verification(matches),
        report,
        verbosity: by_flag(matches, "verbose", Verbosity::Verbose, Verbosity::Brief),
        jobs,
    })))
}

fn hunt_named<'a>(matches: &ArgMatches<'a>) -> Option<Job<'a>>
    ensures { IsNamed result (NamesOf Subcommand.Hunt (given_by matches.now)) }
{
    let set = argument(matches, "FILE")?;
    let reach = reach(matches)?;
    let task = match (
        is_given(matches, "exact"),
        is_given(matches, "stuck"),
        is_given(matches, "scenario"),
        form(matches)?,
    ) {
        (true, true, _, _) | (_, _, true, Form::Json) => return None,
        (true, false, true, Form::Lines) => Task::FindExactly(reach),
        (true, false, false, form) => Task::HuntExactly(reach, form),
        (false, _, true, Form::Lines) => Task::Find(reach),
        (false, _, false, form) => Task::Hunt(reach, form),
    };
    Some(Job::OnSet { set, task })
}

/// A script is served, and where a file is named for it, the history is written besides.
fn host_named<'a>(matches: &ArgMatches<'a>) -> Option<Job<'a>>
    ensures { IsNamed result (NamesOf Subcommand.Host (given_by matches.now)) }
{
    let names = files_named(matches, "SCRIPT")?;
    let workers = Workers::of(argument(matches, "workers")?)?;
    match (form(matches)?, argument(matches, "OUT")) {
        (form, None) => Some(Job::Host(Serving {
            names,
            workers,
            form,
        })),
        (Form::Lines, Some(output)) => Some(Job::Keep(Keeping {
            names,
            workers,
            output,
        })),
        (Form::Json, Some(_)) => None,
    }
}

fn stats_named<'a>(matches: &ArgMatches<'a>) -> Option<Job<'a>>
    ensures { IsNamed result (NamesOf Subcommand.Stats (given_by matches.now)) }
{
    let set = argument(matches, "FILE")?;
    let task = Task::Stats(form(matches)?);
    Some(Job::OnSet { set, task })
}

fn list_named<'a>(matches: &ArgMatches<'a>) -> Option<Job<'a>>
    ensures { IsNamed result (NamesOf Subcommand.List (given_by matches.now)) }
{
    let set = argument(matches, "FILE")?;
    let task = Task::List(form(matches)?);
    Some(Job::OnSet { set, task })
}

fn rewrite_named<'a>(matches: &ArgMatches<'a>) -> Option<Job<'a>>
    ensures { IsNamed result (NamesOf Subcommand.Rewrite (given_by matches.now)) }
{
    let set = argument(matches, "FILE")?;
    let output = argument(matches, "OUT")?;
    Some(Job::Rewrite { set, output })
}
