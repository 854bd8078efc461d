//! An event of a run that is told.

ghost use Rattle.std.specs.Prelude.{◌≡◌, ◌++◌, ◌∷◌, OnOk};
ghost use Rattle.json.specs.Token.{key};
ghost use Rattle.json.specs.Tree.{json_tokens};
ghost use Rattle.report_json.specs.Told.{number_json};

use crate::event::{reply_name, write_reply};
use crate::member::{put_number, put_text};
use crate::to_json::ToJson;
use crate::verdict::put_name;
use json::Writer;
use model::event::Reply;
use std::alloc::AllocError;

/// The name of the shape of an event that is told, and its edition.
const FORMAT: &str = "pafteis.told/1";

/// The circumstances of an event: the thread that it is about, the name of the routine that acts
/// and the number of the line of its instruction, if there are such; and words on what changed.
#[derive(Drop)]
pub struct Circumstances {
    pub thread: Option<u64>,
    pub routine: Option<String>,
    pub line: Option<u64>,
    pub changed: String,
}

/// The event of a number, from 0, what the run answered to it, and its circumstances.
#[derive(Clone, Copy)]
pub struct ToldEvent<'a> {
    pub number: u64,
    pub reply: Reply,
    pub around: &'a Circumstances,
}

impl ToJson for ToldEvent<'_> {
    ghost use Rattle.report_json.specs.Told.{told_json};
    ghost use Rattle.report_json.specs.Nesting.{told_nests};

    ghost json = { λ told. told_json told.number told.reply told.around.now };

    fn write(&self, out: &mut Writer) -> Result<(), AllocError> {
        out.begin_object()?;
        put_text(out, "format", FORMAT)?;
        put_number(out, "event", self.number)?;
        put_optional(out, "thread", self.around.thread)?;
        put_name(out, "routine", &self.around.routine)?;
        put_optional(out, "line", self.around.line)?;
        put_text(out, "changed", self.around.changed.as_str())?;
        put_text(out, "reply", reply_name(self.reply))?;
        write_reply(out, self.reply)
    }

    ghost nests = { λ told. told_nests told.number told.reply told.around.now };
}

/// Adds a member that is a number which there may be.
pub fn put_optional(out: &mut Writer, name: &str, number: Option<u64>) -> Result<(), AllocError>
    ensures before { out.new.before ≡ out.old.before }
    ensures tokens { OnOk result (out.new.tokens
        ≡ out.old.tokens ++ key name.now ∷ json_tokens (number_json number)) }
{
    out.key(name)?;
    match number {
        Some(number) => out.u64(number),
        None => out.null(),
    }
}
