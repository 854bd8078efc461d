//! What the program can be asked for, and what of it a command line asks for.

ghost use Rattle.std.specs.Prelude.{◌≡◌, ◌≤◌, map, IfErr, IfOk, true};
ghost use Rattle.clap.specs.Words.{subcommand_of, takes};
ghost use Rattle.drvhost_devices.specs.Device.{CanCount, Says};
ghost use Rattle.interleave.specs.Line.{number_within};
ghost use Rattle.model.specs.declared.limits.TheConstants.{MAX_THREADS};
ghost use Rattle.cli.specs.CommandLine.{job_fault_status, job_fault_told, program};
ghost use Rattle.cli.specs.CommandLine.{usage, Names, NamesJob};

use crate::naming::named;
use crate::parsing::{Unmatched, matches_of};
use crate::usage::{USAGE, unnamed};
use drvhost_devices::coloring::Coloring;
use drvhost_devices::device::Sink;
use drvhost_devices::extent::Extent;
use drvhost_devices::fault::say;
use drvhost_devices::figure::Figure;
use drvhost_devices::logging::Logging;
use drvhost_devices::manner::{Manner, Strictness};
use drvhost_devices::verbosity::Verbosity;
use drvhost_devices::verification::Verification;
use drvhost_devices::wanted::Wanted;
use hunt_facts::reach::Reach;
use interleave::read::number_within;
use model::abs::Rule;
use model::limits::MAX_THREADS;
use report::fault::OUT_OF_MEMORY;
use std::alloc::{AllocError, Global};
use std::convert::AsStr;
use std::fmt;
use std::marker::Model;
use thiserror::Error;

/// What the program is to do, with the names of its files.
#[derive(Drop)]
pub enum Job<'a> {
    /// A page that stands in the program.
    Page(Page),
    /// `help`, `help COMMAND`, `--help` or `-h`: the text that tells how the program or a command of
    /// it is used
    Help(String),
    /// Driver sets are judged, with `--jobs N` by so many jobs at once, and else by one for each
    /// processor.
    OnPaths(Judged<'a>),
    /// `check PATH.. --format sarif [--pass]`, or `explain PATH.. [--all] --format sarif [--pass]`:
    /// one log of the driver sets that paths stand for
    Log {
        paths: Vec<&'a str>,
        logging: Logging,
    },
    /// `test FILE SCENARIO.. [--unchecked] [--format tap|tap14|junit] [--verbose] [--jobs N]`
    Test(Testing<'a>),
    /// `rewrite FILE OUT`
    Rewrite {
        set: &'a str,
        output: &'a str,
    },
    /// `mend FILE [--tries N] --apply`, or with `--nth K`
    Apply {
        set: &'a str,
        tries: u64,
        wanted: Wanted,
    },
    /// A task with the driver set of a file.
    OnSet {
        set: &'a str,
        task: Task,
    },
    /// A run of the driver set of a file by the input of another one.
    OnRun {
        names: FileNames<'a>,
        way: Way,
    },
    /// `host FILE SCRIPT --workers N [--format json]`
    Host(Serving<'a>),
    /// `host FILE SCRIPT --workers N --history OUT`
    Keep(Keeping<'a>),
}

/// Driver sets that are judged: those that paths stand for.
#[derive(Drop)]
pub struct Judged<'a> {
    pub paths: Vec<&'a str>,
    pub judging: Judging,
    /// How many jobs are to share them, or none where nothing is said of it.
    pub jobs: Option<u64>,
}

/// A driver set that is tested by the scenarios that paths stand for.
#[derive(Drop)]
pub struct Testing<'a> {
    pub set: &'a str,
    pub scenarios: Vec<&'a str>,
    pub verification: Verification,
    pub report: Report,
    pub verbosity: Verbosity,
    /// How many jobs are to share them, or none where nothing is said of it.
    pub jobs: Option<u64>,
}

/// The names of two files: that of a driver set, and that of what it is run by.
#[derive(Clone, Copy)]
pub struct FileNames<'a> {
    pub set: &'a str,
    pub input: &'a str,
}

/// Workers that serve the script of a file on the set of another one, and how what comes of it is
/// written.
#[derive(Clone, Copy)]
pub struct Serving<'a> {
    pub names: FileNames<'a>,
    pub workers: Workers,
    pub form: Form,
}

/// Such workers, and the name of the file for their history.
#[derive(Clone, Copy)]
pub struct Keeping<'a> {
    pub names: FileNames<'a>,
    pub workers: Workers,
    pub output: &'a str,
}

/// A page that stands in the program.
#[derive(Clone, Copy)]
pub enum Page {
    /// `explain --rule RULE`
    Rule(Rule),
    /// `explain --rule LockOrder`
    LockOrder,
    /// `version`, or `--version`
    Version,
}

/// What is written of driver sets that are judged.
#[derive(Clone, Copy)]
pub enum Judging {
    /// `check PATH..`, as text
    Check,
    /// `check PATH.. --format json`
    CheckJson,
    /// `explain PATH.. [--all] [--color WHEN]`, as text
    Explain(Extent, Coloring),
    /// `explain PATH.. [--all] --format json`
    ExplainJson(Extent),
}

/// How an answer is written.
#[derive(Clone, Copy)]
pub enum Form {
    /// In lines of text.
    Lines,
    /// In lines of JSON.
    Json,
}

/// How tests are reported.
#[derive(Clone, Copy)]
pub enum Report {
    /// In a line each.
    Lines,
    /// In the form of TAP, version 13.
    Tap13,
    /// In that of its version 14.
    Tap14,
    /// In the form of JUnit.
    JUnit,
}

/// What is done with a driver set alone.
#[derive(Clone, Copy)]
pub enum Task {
    /// `mend FILE [--tries N] [--format json]`
    Mend(u64, Form),
    /// `list FILE [--format json]`
    List(Form),
    /// `stats FILE [--format json]`
    Stats(Form),
    /// `hunt FILE [--threads N] [--packets N] [--states N] [--events N] [--argument N] [--stuck]
    /// [--format json]`
    Hunt(Reach, Form),
    /// The same with `--exact`, which doesn't go with `--stuck`.
    HuntExactly(Reach, Form),
    /// As `Hunt`, with `--scenario`, as text.
    Find(Reach),
    /// As `HuntExactly`, with `--scenario`, as text.
    FindExactly(Reach),
}

/// How a driver set is run by an input.
#[derive(Clone, Copy)]
pub enum Way {
    /// `trace FILE SCHEDULE [--unchecked]`, as text
    Trace(Verification),
    /// `trace FILE SCHEDULE [--unchecked] --format json`
    TraceJson(Verification),
    /// `tell FILE SCHEDULE [--unchecked] [--quiet | --every] [--strict] [--color WHEN]`, as text
    Tell(Verification, Manner, Coloring),
    /// `tell FILE SCHEDULE [--unchecked] [--strict] --format json`
    TellJson(Verification, Strictness),
    /// `draw FILE SCHEDULE [--unchecked] [--format svg|perfetto]`
    Draw(Verification, Figure),
    /// `schedule FILE SCENARIO [--unchecked]`
    Schedule(Verification),
}

/// How many workers serve the commands of a script, 1 to `MAX_THREADS`.
#[derive(Clone, Copy)]
pub struct Workers {
    count: u8,
}

impl Model for Workers {
    ghost use Rattle.std.specs.Prelude.{◌≤◌, ℕ};
    ghost use Rattle.model.specs.declared.limits.TheConstants.{MAX_THREADS};

    ghost Value = { ℕ };

    ghost view = { λ w. w.count };

    ghost invariant = { λ w. (1 ≤ w.count) × (w.count ≤ MAX_THREADS) };

    ghost inverse = { λ n. record { count = n } };
}

impl Workers {
    /// As many as a text says in the numbers of a script, if that is within the limits.
    pub(crate) fn of(text: &str) -> Option<Workers>
        ensures { result ≡ number_within 1 MAX_THREADS text.now }
    {
        let count = number_within(1, MAX_THREADS as u64, text.as_bytes())?;
        Some(Workers { count: count as u8 })
    }

    /// How many they are.
    pub fn count(self) -> u8
        ensures count { result ≡ self }
        ensures some { 1 ≤ result }
        ensures few { result ≤ MAX_THREADS }
    {
        self.count
    }
}

/// Why there is no job.
#[derive(Debug, Drop, Error)]
pub enum JobFault {
    /// The words name none: the text for the user.
    #[error("{0}")]
    Usage(String),
    /// A growth was refused.
    #[error("out of memory")]
    Memory,
}

impl From<AllocError> for JobFault {
    ghost use Rattle.cli.specs.declared.job.JobFault.TheVariants.{Memory};

    ghost from_gives = { λ _ fault. fault ≡ Memory };

    fn from(_refused: AllocError) -> JobFault {
        JobFault::Memory
    }
}

impl JobFault {
    /// The text for the user, which isn't empty.
    fn told(&self) -> &str
        ensures { result.now ≡ job_fault_told self.now }
    {
        match self {
            JobFault::Usage(text) if text.is_empty() => USAGE,
            JobFault::Usage(text) => text.as_str(),
            JobFault::Memory => OUT_OF_MEMORY,
        }
    }

    /// The exit status.
    fn status(&self) -> u8
        ensures { result ≡ job_fault_status self.now }
    {
        match self {
            JobFault::Usage(_) => 2,
            JobFault::Memory => 3,
        }
    }
}

impl<'a> Job<'a> {
    /// The job that the words of a command line name, without the program's own name.
    ///
    /// # Errors
    ///
    /// `Usage` where they name none, `Memory` when memory runs out.
    pub fn of<S: AsStr>(alloc: Global, words: &'a [S]) -> Result<Job<'a>, JobFault>
        ensures task { IfOk result (NamesJob (map S.text words.entry.now)) }
        ensures refused { IfErr result (λ fault.
            takes program (map S.text words.entry.now) ≡ true
            → (job : Job) → Names (subcommand_of program (map S.text words.entry.now)) job
            → fault ≡ JobFault.Memory) }
    {
        match matches_of(alloc, words) {
            Ok(matches) => match named(alloc, &matches)? {
                Some(job) => Ok(job),
                None => Err(JobFault::Usage(unnamed(alloc, &matches)?)),
            },
            Err(Unmatched::Version) => Ok(Job::Page(Page::Version)),
            Err(Unmatched::Help(text)) => Ok(Job::Help(text)),
            Err(Unmatched::Usage(text)) => Err(JobFault::Usage(text)),
            Err(Unmatched::Memory) => Err(JobFault::Memory),
        }
    }
}

/// Answers words that name no job: writes the text for the user, which isn't empty, and gives the
/// exit status, 2 for a wrong command line and 3 where memory ran out.
pub fn refuse_words<E: Sink>(fault: &JobFault, err: &mut E) -> u8
    requires { CanCount (E.failures err.old) }
    ensures status { result ≡ job_fault_status fault.now }
    ensures told { Says (E.failures err.old) (E.failures err.new) (E.contents err.old)
        (E.contents err.new) (job_fault_told fault.now) }
{
    say(err, fault.told().as_bytes());
    fault.status()
}

/// Answers words of which nothing is known, since some of them aren't text, as wrong ones.
pub fn refuse_unknown_words<E: Sink>(err: &mut E) -> u8
    requires { CanCount (E.failures err.old) }
    ensures status { result ≡ 2 }
    ensures told { Says (E.failures err.old) (E.failures err.new) (E.contents err.old)
        (E.contents err.new) usage }
{
    say(err, USAGE.as_bytes());
    2
}
