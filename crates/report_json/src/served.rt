//! The commands of a script that workers served, and their history.

ghost use Rattle.std.specs.Prelude.{◌≡◌, ◌++◌, OnOk};
ghost use Rattle.json.specs.Tree.{items_tokens, members_tokens};
ghost use Rattle.report_json.specs.Served.{numbers_json, outcome_members, outcome_name};

use crate::event::{reply_name, write_reply};
use crate::member::{put_number, put_text};
use crate::to_json::ToJson;
use json::Writer;
use model::event::Reply;
use std::alloc::AllocError;

/// The names of the shapes of a command and of a history, and their editions.
const COMMAND: &str = "pafteis.command/1";

const HISTORY: &str = "pafteis.history/1";

/// What is told of the command of a number, from 0: nothing where it was left.
#[derive(Clone, Copy)]
pub struct ServedCommand {
    pub number: u64,
    pub told: Option<Reply>,
}

impl ToJson for ServedCommand {
    ghost use Rattle.report_json.specs.Served.{command_json};
    ghost use Rattle.report_json.specs.Nesting.{command_nests};

    ghost json = { λ served. command_json served.number served.told };

    fn write(&self, out: &mut Writer) -> Result<(), AllocError> {
        out.begin_object()?;
        put_text(out, "format", COMMAND)?;
        put_number(out, "command", self.number)?;
        put_text(out, "outcome", outcome_name(self.told))?;
        write_outcome(out, self.told)
    }

    ghost nests = { λ served. command_nests served.number served.told };
}

/// The word of what is told of a command.
fn outcome_name(told: Option<Reply>) -> &'static str
    ensures { result.now ≡ outcome_name told }
{
    match told {
        Some(reply) => reply_name(reply),
        None => "left",
    }
}

/// Writes what follows that word, to the end of the object.
fn write_outcome(out: &mut Writer, told: Option<Reply>) -> Result<(), AllocError>
    ensures before { out.new.before ≡ out.old.before }
    ensures tokens { OnOk result
        (out.new.tokens ≡ out.old.tokens ++ members_tokens (outcome_members told)) }
{
    match told {
        Some(reply) => write_reply(out, reply),
        None => out.end_object(),
    }
}

/// A history of so many entries, with which the run of its events agrees, and the threads that wait
/// in a ring after it.
#[derive(Clone, Copy)]
pub struct ServedHistory<'a> {
    pub entries: u64,
    pub ringed: &'a [u8],
}

impl ToJson for ServedHistory<'_> {
    ghost use Rattle.report_json.specs.Served.{history_json};
    ghost use Rattle.report_json.specs.Nesting.{history_nests};

    ghost json = { λ history. history_json history.entries history.ringed.now };

    fn write(&self, out: &mut Writer) -> Result<(), AllocError> {
        out.begin_object()?;
        put_text(out, "format", HISTORY)?;
        put_number(out, "entries", self.entries)?;
        put_text(out, "verdict", "agrees")?;
        out.key("ring")?;
        out.begin_array()?;
        write_threads(out, self.ringed)?;
        out.end_object()
    }

    ghost nests = { λ history. history_nests history.entries history.ringed.now };
}

/// Writes the numbers of threads, to the end of the array.
///
/// # Errors
///
/// When memory runs out.
pub fn write_threads(out: &mut Writer, threads: &[u8]) -> Result<(), AllocError>
    ensures before { out.new.before ≡ out.old.before }
    ensures tokens { OnOk result
        (out.new.tokens ≡ out.old.tokens ++ items_tokens (numbers_json threads.now)) }
{
    for thread in threads {
        out.u64(*thread as u64)?;
    }
    out.end_array()
}
