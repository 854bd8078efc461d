//! What is told of words that the command line takes, and that name no job.

use crate::choices::{answer_format, coloring, form, verdict_format};
use crate::job::Form;
use crate::matches::{argument, is_given};
use crate::program::{NAME, command_of};
use crate::table::{COMMANDS, Entry, Subcommand, entry_named};
use clap::ArgMatches;
use clap::error::ErrorKind;
use report::rule::rule_named;
use std::alloc::{AllocError, Global};
use std::fmt;
use words::Words;

/// How the program is used, where there is nothing better to say.
pub(crate) const USAGE: &str = "Usage: drvhost <COMMAND>";

/// The formats of verdicts and explanations, those of other answers, those of drawn runs, and those
/// in which tests are reported.
const VERDICTS: &str = "text, json or sarif";

const ANSWERS: &str = "text or json";

const FIGURES: &str = "svg or perfetto";

const REPORTS: &str = "text, tap, tap14 or junit";

/// Why words of a command name no job.
#[derive(Clone, Copy)]
enum Misfit<'a> {
    /// There is no such format: those that there are.
    Format(&'static str),
    /// There is no such colour.
    Color,
    /// Two options don't go together.
    Conflict(&'static str, &'static str),
    /// A mend is to be written to the standard input.
    FromInput,
    /// `explain` isn't told what to explain.
    Unexplained,
    /// It is told to explain a rule that there isn't.
    NoRule(&'a str),
    /// It is told to explain one beside something else.
    RuleBeside,
    /// Something else.
    Other,
}

/// What is told of words that the command line takes, and that name no job.
pub(crate) fn unnamed(alloc: Global, matches: &ArgMatches<'_>) -> Result<String, AllocError> {
    let Some((name, inner)) = matches.subcommand() else {
        return plain(alloc);
    };
    let Some(entry) = entry_named(&COMMANDS, name) else {
        return plain(alloc);
    };
    match signed(entry, inner) {
        Some((option, word)) => unnumbered(alloc, option, word),
        None => unfitting(alloc, entry, inner),
    }
}

/// What is told of words of a command in which each number is good.
fn unfitting(
    alloc: Global,
    entry: &Entry<'_>,
    matches: &ArgMatches<'_>,
) -> Result<String, AllocError> {
    match misfit_of(entry.command, matches) {
        Misfit::Other => plain(alloc),
        misfit => {
            let message = message(alloc, misfit, matches)?;
            with_usage(alloc, entry, message.as_str())
        }
    }
}

/// Why words of a command name no job, where each number of theirs is good.
fn misfit_of<'a>(command: Subcommand, matches: &ArgMatches<'a>) -> Misfit<'a> {
    match command {
        Subcommand::Explain | Subcommand::Tell if coloring(matches).is_none() => Misfit::Color,
        Subcommand::Explain if verdict_format(matches).is_some() => unexplained(matches),
        Subcommand::Check | Subcommand::Explain => Misfit::Format(VERDICTS),
        Subcommand::Tell if answer_format(matches).is_some() => untold(matches),
        Subcommand::Trace | Subcommand::Tell | Subcommand::Stats | Subcommand::List => {
            Misfit::Format(ANSWERS)
        }
        Subcommand::Draw => Misfit::Format(FIGURES),
        Subcommand::Test => Misfit::Format(REPORTS),
        Subcommand::Hunt if is_given(matches, "exact") && is_given(matches, "stuck") => {
            Misfit::Conflict("--exact", "--stuck")
        }
        Subcommand::Host | Subcommand::Hunt | Subcommand::Mend if form(matches).is_none() => {
            Misfit::Format(ANSWERS)
        }
        Subcommand::Mend if is_from_input(matches) => Misfit::FromInput,
        Subcommand::Hunt if is_given(matches, "scenario") => {
            Misfit::Conflict("--scenario", "--format json")
        }
        Subcommand::Mend if is_given(matches, "apply") => {
            Misfit::Conflict("--apply", "--format json")
        }
        Subcommand::Mend if argument(matches, "nth").is_some() => {
            Misfit::Conflict("--nth <nth>", "--format json")
        }
        Subcommand::Host if argument(matches, "OUT").is_some() => {
            Misfit::Conflict("--history <OUT>", "--format json")
        }
        _ => Misfit::Other,
    }
}

/// Whether a set is read from the standard input, of which mends are told as text.
fn is_from_input(matches: &ArgMatches<'_>) -> bool {
    match (argument(matches, "FILE"), form(matches)) {
        (Some("-"), Some(Form::Lines)) => true,
        _ => false,
    }
}

/// `explain` isn't told what to explain.
fn unexplained<'a>(matches: &ArgMatches<'a>) -> Misfit<'a> {
    match argument(matches, "RULE") {
        None => Misfit::Unexplained,
        Some(word) if rule_named(word).is_none() => Misfit::NoRule(word),
        Some(_) => Misfit::RuleBeside,
    }
}

/// `tell` is asked for two levels, or in JSON for one.
fn untold<'a>(matches: &ArgMatches<'a>) -> Misfit<'a> {
    match (is_given(matches, "quiet"), is_given(matches, "every")) {
        (true, true) => Misfit::Conflict("--quiet", "--every"),
        (true, false) => Misfit::Conflict("--quiet", "--format json"),
        (false, _) => Misfit::Conflict("--every", "--format json"),
    }
}

/// The words on it.
fn message(
    alloc: Global,
    misfit: Misfit<'_>,
    matches: &ArgMatches<'_>,
) -> Result<String, AllocError> {
    let mut words = Words::new(alloc);
    match misfit {
        Misfit::Format(formats) => {
            let word = argument(matches, "format").unwrap_or("");
            add_quoted(&mut words, "there is no format '", word, "': it is ");
            words.add(formats);
        }
        Misfit::Color => {
            let word = argument(matches, "color").unwrap_or("");
            add_quoted(&mut words, "there is no color '", word, "': it is ");
            words.add("auto, always or never");
        }
        Misfit::Conflict(one, other) => {
            add_quoted(&mut words, "the argument '", one, "' cannot be used");
            add_quoted(&mut words, " with '", other, "'");
        }
        Misfit::NoRule(word) => {
            add_quoted(&mut words, "there is no rule '", word, "': the rules are\n");
            add_rules(alloc, &mut words);
        }
        Misfit::FromInput => {
            words.add(
                "no mend is written to the standard input: name a file, or leave out '--apply'",
            );
        }
        Misfit::RuleBeside => {
            words.add("'--rule' goes with no PATH, no '--all', no JSON and no SARIF");
        }
        Misfit::Unexplained | Misfit::Other => {
            words.add("a PATH is wanted, or a rule by '--rule'");
        }
    }
    words.finish()
}

/// Adds a word between two pieces.
fn add_quoted(words: &mut Words, before: &str, word: &str, after: &str) {
    words.add(before);
    words.add(word);
    words.add(after);
}

/// Adds a line for each rule, with the words by which it is asked for.
fn add_rules(alloc: Global, words: &mut Words) {
    for number in 1..=20u8 {
        let done = add_rule(alloc, number, &mut words.text);
        words.note(done);
    }
}

fn add_rule(alloc: Global, number: u8, text: &mut String) -> Result<(), AllocError> {
    let word = format!(in alloc; "V{number}")?;
    match rule_named(word.as_str()) {
        Some(rule) => write!(text, "\n  {}", rule.as_str()),
        None => Ok(()),
    }
}

/// A message, with how a command is used behind it.
fn with_usage(alloc: Global, entry: &Entry<'_>, message: &str) -> Result<String, AllocError> {
    let name = entry.name;
    let name = format!(in alloc; "{NAME} {name}")?;
    let mut command = command_of(alloc, entry)?.bin_name(name.as_str())?;
    command
        .error(ErrorKind::ValueValidation, message)?
        .to_string(alloc)
}

/// How the program is used.
fn plain(alloc: Global) -> Result<String, AllocError> {
    format!(in alloc; "{USAGE}\n\nFor more information, try '--help'.\n")
}

/// The first option whose number has a sign, and that number: the command line takes it, and no job
/// does.
fn signed<'e, 'a>(entry: &Entry<'e>, matches: &ArgMatches<'a>) -> Option<(&'e str, &'a str)> {
    for one in entry.arguments {
        if let Some(option) = one.numbered() {
            match argument(matches, option) {
                Some(word) if word.starts_with("+") => return Some((option, word)),
                _ => {}
            }
        }
    }
    None
}

/// What is told of it.
fn unnumbered(alloc: Global, option: &str, word: &str) -> Result<String, AllocError> {
    format!(in alloc;
        "error: invalid value '{word}' for '--{option} <{option}>': a number has no sign\n\n\
        For more information, try '--help'.\n"
    )
}
