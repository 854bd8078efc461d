//! The table of the program's commands.

ghost use Rattle.std.specs.Prelude.{◌≡◌, map};
ghost use Rattle.cli.specs.Choices.{named_in};
ghost use Rattle.cli.specs.Program.{command_named};
ghost use Rattle.cli.specs.Table.{command_by, word_for};

use crate::argument::Argument;
use drvhost_devices::jobs::MAX_JOBS;
use drvhost_devices::tries::MAX_TRIES;
use drvhost_devices::wanted::MAX_OFFERS;
use hunt_facts::reach::{MAX_PACKETS, MAX_WORLDS};
use model::limits::MAX_THREADS;

/// A command of the program.
#[derive(Clone, Copy)]
pub(crate) enum Subcommand {
    Check,
    Explain,
    Mend,
    Trace,
    Tell,
    Draw,
    Test,
    Schedule,
    Hunt,
    Host,
    Stats,
    List,
    Rewrite,
    Version,
}

/// A command: its name, what it does and how it is used in the texts of help, and its arguments.
#[derive(Clone, Copy)]
pub(crate) struct Entry<'a> {
    pub(crate) command: Subcommand,
    pub(crate) name: &'a str,
    pub(crate) about: &'a str,
    pub(crate) usage: Option<&'a str>,
    pub(crate) arguments: &'a [Argument<'a>],
}

/// The one of a name, in a table.
pub(crate) fn entry_named<'t, 'a>(entries: &'t [Entry<'a>], name: &str) -> Option<&'t Entry<'a>>
    ensures { command_by result ≡ named_in (map word_for entries.now) name.now }
{
    for entry in entries {
        if name == entry.name {
            return Some(entry);
        }
    }
    None
}

/// The command of a name.
pub(crate) fn command_named(name: &str) -> Option<Subcommand>
    ensures { result ≡ command_named name.now }
{
    let entry = entry_named(&COMMANDS, name)?;
    Some(entry.command)
}

/// How `explain` is used.
const EXPLAIN_USAGE: &str =
    "drvhost explain [OPTIONS] <PATH>...\n       drvhost explain --rule <RULE>";

/// What two commands do, in lines that are too long for the table.
const HUNT: &str =
    "Looks for a shortest run of a driver set that ends amiss, and writes it as a schedule";

const HOST: &str =
    "Has workers serve a script over one locked core, and writes what came of each command";

const SET: Argument<'static> = Argument::File("FILE", "The text or the image of the driver set");

/// What the paths are of which the driver sets are judged.
const PATHS: &str = "Texts or images of driver sets, or folders with such files";

const SCHEDULE: Argument<'static> = Argument::File("SCHEDULE", "The threads and the events");

/// What stands in a scenario.
const PLAYED: &str = "What is made to happen, and what is expected of it";

const UNCHECKED: Argument<'static> = Argument::Flag(
    "unchecked",
    "Runs the set whether or not it is accepted",
);

const FORMAT: Argument<'static> = Argument::Choice(
    "format",
    "How the answer is written, text or json; text where none is given",
);

const VERDICT_FORMAT: Argument<'static> = Argument::Choice(
    "format",
    "How the answer is written, text, json or sarif; text where none is given",
);

const PASS: Argument<'static> = Argument::Flag("pass", "Tells accepted sets in a log of SARIF too");

const JOBS: Argument<'static> = Argument::Number(
    "jobs",
    MAX_JOBS as i64,
    "Jobs that share the files, 1 to 64; one for each processor where none is given",
);

const COLOR: Argument<'static> = Argument::Choice(
    "color",
    "Whether the answer is painted, auto, always or never; auto where none is given",
);

/// All commands, in the order of the texts of help.
pub(crate) const COMMANDS: [Entry<'static>; 14] = [
    Entry {
        command: Subcommand::Check,
        name: "check",
        about: "Accepts or refuses driver sets",
        usage: None,
        arguments: &[Argument::Files("PATH", PATHS), VERDICT_FORMAT, PASS, JOBS],
    },
    Entry {
        command: Subcommand::Explain,
        name: "explain",
        about: "Accepts or refuses driver sets, and says in words why; or says a rule in words",
        usage: Some(EXPLAIN_USAGE),
        arguments: &[
            Argument::AnyFiles("PATH", PATHS),
            Argument::Flag("all", "Explains the first fault of each routine"),
            VERDICT_FORMAT,
            PASS,
            JOBS,
            COLOR,
            Argument::Value(
                "RULE",
                "rule",
                "Says this rule in words, V1 to V20 or by its name, or LockOrder, with an example",
            ),
        ],
    },
    Entry {
        command: Subcommand::Mend,
        name: "mend",
        about: "Looks for mends of a refused driver set, and writes them as diffs",
        usage: None,
        arguments: &[
            SET,
            Argument::Number(
                "tries",
                MAX_TRIES as i64,
                "Tries for each faulty routine, 1 to 1000000; 20000 where none is given",
            ),
            Argument::Flag(
                "apply",
                "Writes the text with the first mend, if it is sure",
            ),
            Argument::Number(
                "nth",
                MAX_OFFERS as i64,
                "Writes the text with the mend of a number, 1 to 3",
            ),
            FORMAT,
        ],
    },
    Entry {
        command: Subcommand::Trace,
        name: "trace",
        about: "Runs a driver set by a schedule, and writes a line for each event",
        usage: None,
        arguments: &[SET, SCHEDULE, UNCHECKED, FORMAT],
    },
    Entry {
        command: Subcommand::Tell,
        name: "tell",
        about: "Runs a driver set by a schedule, and tells in words what happens and what is left",
        usage: None,
        arguments: &[
            SET,
            SCHEDULE,
            UNCHECKED,
            Argument::Flag(
                "quiet",
                "Leaves out every event that only steps or finds nothing to do",
            ),
            Argument::Flag("every", "Leaves out no event"),
            Argument::Flag("strict", "Answers 1 also where an event was refused"),
            FORMAT,
            COLOR,
        ],
    },
    Entry {
        command: Subcommand::Draw,
        name: "draw",
        about: "Runs a driver set by a schedule, and draws the run, in SVG or for Perfetto",
        usage: None,
        arguments: &[
            SET,
            SCHEDULE,
            UNCHECKED,
            Argument::Choice(
                "format",
                "As what it is drawn, svg or perfetto; svg where none is given",
            ),
        ],
    },
    Entry {
        command: Subcommand::Test,
        name: "test",
        about: "Runs a driver set by scenarios, and says whether all is as each expects",
        usage: None,
        arguments: &[
            SET,
            Argument::Files("SCENARIO", PLAYED),
            UNCHECKED,
            Argument::Choice(
                "format",
                "How it is reported, text, tap, tap14 or junit; text where none is given",
            ),
            Argument::Flag(
                "verbose",
                "Tells the run of each test that fails up to there",
            ),
            JOBS,
        ],
    },
    Entry {
        command: Subcommand::Schedule,
        name: "schedule",
        about: "Runs a driver set by a scenario, and writes what happens as a schedule",
        usage: None,
        arguments: &[SET, Argument::File("SCENARIO", PLAYED), UNCHECKED],
    },
    Entry {
        command: Subcommand::Hunt,
        name: "hunt",
        about: HUNT,
        usage: None,
        arguments: &[
            SET,
            Argument::Number(
                "threads",
                MAX_THREADS as i64,
                "Threads of the runs, 1 to 64; 2 where none is given",
            ),
            Argument::Number(
                "packets",
                MAX_PACKETS as i64,
                "Packets that live at once, 1 to 4096; 2 where none is given",
            ),
            Argument::Number(
                "states",
                MAX_WORLDS as i64,
                "Worlds that are kept; 1000000 where none is given",
            ),
            Argument::AnyNumber(
                "events",
                "Events of a run, at most; as many as there are where none is given",
            ),
            Argument::AnyNumber(
                "argument",
                "An argument with which each request is tried besides",
            ),
            Argument::Flag(
                "stuck",
                "Looks besides for a run from whose end nothing comes to rest",
            ),
            Argument::Flag(
                "exact",
                "Takes no world for another one, and bounds the packets that a run issues in all",
            ),
            Argument::Flag(
                "scenario",
                "Writes the run as a scenario that fails by it, in place of a schedule",
            ),
            FORMAT,
        ],
    },
    Entry {
        command: Subcommand::Host,
        name: "host",
        about: HOST,
        usage: None,
        arguments: &[
            SET,
            Argument::File("SCRIPT", "The requests, cancels and interrupts"),
            Argument::WantedNumber(
                "workers",
                MAX_THREADS as i64,
                "How many workers serve it, 1 to 64",
            ),
            FORMAT,
            Argument::Value(
                "OUT",
                "history",
                "Writes what the workers did to this file, as a schedule",
            ),
        ],
    },
    Entry {
        command: Subcommand::Stats,
        name: "stats",
        about: "Tells the routines, the lock orders and the sizes of an accepted driver set",
        usage: None,
        arguments: &[SET, FORMAT],
    },
    Entry {
        command: Subcommand::List,
        name: "list",
        about: "Writes a driver set as a text",
        usage: None,
        arguments: &[SET, FORMAT],
    },
    Entry {
        command: Subcommand::Rewrite,
        name: "rewrite",
        about: "Writes a driver set as an image",
        usage: None,
        arguments: &[SET, Argument::File("OUT", "The file for the image")],
    },
    Entry {
        command: Subcommand::Version,
        name: "version",
        about: "Writes the program's name and its version",
        usage: None,
        arguments: &[],
    },
];
