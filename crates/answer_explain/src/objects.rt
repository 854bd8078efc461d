//! The objects of verdicts that are explained.

ghost use Rattle.std.specs.Prelude.{◌≡◌, ◌++◌, ◌∷◌, OnOk, Some, codes};
ghost use Rattle.json.specs.Json.{array};
ghost use Rattle.json.specs.Token.{key};
ghost use Rattle.json.specs.Tree.{items_tokens, json_tokens};
ghost use Rattle.answer_explain.specs.Explanation.{edit_json, edits_json, region_json, step_json};
ghost use Rattle.answer_explain.specs.Explanation.{steps_json};

use crate::shown::Shown;
use json::Writer;
use mend_edits::LineEdit;
use model::abs::Refusal;
use report_json::member::{begin, put_number, put_text};
use report_json::to_json::ToJson;
use report_json::verdict::{CertifiedRoutine, put_place, write_routines};
use report_sarif::log::{Region, Step};
use std::alloc::AllocError;

/// The name of the shape of an explanation, and its edition.
const FORMAT: &str = "pafteis.explanation/1";

/// That the set of a file is accepted, with its routines, and words on them and on the order of
/// locks.
#[derive(Clone, Copy)]
pub(crate) struct ExplainedAcceptance<'a> {
    pub(crate) file: &'a str,
    pub(crate) routines: &'a [CertifiedRoutine],
    pub(crate) words: &'a str,
}

impl ToJson for ExplainedAcceptance<'_> {
    ghost use Rattle.answer_explain.specs.Explanation.{acceptance_explained_json};
    ghost use Rattle.answer_explain.specs.Nesting.{accepted_nests};

    ghost json = { λ told. acceptance_explained_json told.file.now told.routines.now told.words.now };

    fn write(&self, out: &mut Writer) -> Result<(), AllocError> {
        begin(out, FORMAT, self.file)?;
        put_text(out, "verdict", "accepted")?;
        out.key("routines")?;
        out.begin_array()?;
        write_routines(out, self.routines)?;
        put_text(out, "words", self.words)?;
        out.end_object()
    }

    ghost nests = { λ told. accepted_nests told.file.now told.routines.now told.words.now };
}

/// That the set of a file is refused, where, what shows it, why, and how to mend it.
#[derive(Clone, Copy)]
pub(crate) struct ExplainedRefusal<'a> {
    pub(crate) file: &'a str,
    pub(crate) refusal: Refusal,
    pub(crate) region: Option<Region>,
    pub(crate) shown: &'a Shown,
    pub(crate) why: &'a str,
    pub(crate) fix: &'a str,
    /// What the mend does to the lines of the file, if that was judged.
    pub(crate) edits: &'a [LineEdit],
}

impl ToJson for ExplainedRefusal<'_> {
    ghost use Rattle.answer_explain.specs.Explanation.{refusal_explained_json};
    ghost use Rattle.answer_explain.specs.Nesting.{explained_nests};

    ghost json = { λ told. refusal_explained_json told.file.now told.refusal told.region
        told.shown.now
        (record { why = told.why.now; fix = told.fix.now; edits = told.edits.now }) };

    fn write(&self, out: &mut Writer) -> Result<(), AllocError> {
        begin(out, FORMAT, self.file)?;
        put_text(out, "verdict", "refused")?;
        put_place(out, self.refusal)?;
        put_region(out, self.region)?;
        put_steps(out, "path", self.shown.path.as_slice())?;
        put_steps(out, "other_path", self.shown.other.as_slice())?;
        put_text(out, "why", self.why)?;
        put_text(out, "fix", self.fix)?;
        put_edits(out, self.edits)?;
        out.end_object()
    }

    ghost nests = { λ told. explained_nests told.file.now told.refusal told.region told.shown.now
        (record { why = told.why.now; fix = told.fix.now; edits = told.edits.now }) };
}

/// Adds where something stands in a text.
fn put_region(out: &mut Writer, region: Option<Region>) -> Result<(), AllocError>
    ensures before { out.new.before ≡ out.old.before }
    ensures tokens { OnOk result (out.new.tokens
        ≡ out.old.tokens ++ key (codes "region") ∷ json_tokens (region_json region)) }
{
    out.key("region")?;
    match region {
        Some(region) => write_region(out, region),
        None => out.null(),
    }
}

/// Writes a region of a text.
fn write_region(out: &mut Writer, region: Region) -> Result<(), AllocError>
    ensures before { out.new.before ≡ out.old.before }
    ensures tokens { OnOk result
        (out.new.tokens ≡ out.old.tokens ++ json_tokens (region_json (Some region))) }
{
    out.begin_object()?;
    put_number(out, "line", region.line)?;
    put_number(out, "column", region.start)?;
    put_number(out, "end", region.end)?;
    out.end_object()
}

/// Adds the steps of a path.
fn put_steps(out: &mut Writer, name: &str, steps: &[Step]) -> Result<(), AllocError>
    ensures before { out.new.before ≡ out.old.before }
    ensures tokens { OnOk result (out.new.tokens
        ≡ out.old.tokens ++ key name.now ∷ json_tokens (array (steps_json steps.now))) }
{
    out.key(name)?;
    out.begin_array()?;
    write_steps(out, steps)
}

/// Writes steps, to the end of the array.
fn write_steps(out: &mut Writer, steps: &[Step]) -> Result<(), AllocError>
    ensures before { out.new.before ≡ out.old.before }
    ensures tokens { OnOk result
        (out.new.tokens ≡ out.old.tokens ++ items_tokens (steps_json steps.now)) }
{
    for step in steps {
        write_step(out, step)?;
    }
    out.end_array()
}

/// Writes a step.
fn write_step(out: &mut Writer, step: &Step) -> Result<(), AllocError>
    ensures before { out.new.before ≡ out.old.before }
    ensures tokens { OnOk result
        (out.new.tokens ≡ out.old.tokens ++ json_tokens (step_json step.now)) }
{
    out.begin_object()?;
    put_number(out, "position", step.position as u64)?;
    put_region(out, step.region)?;
    put_text(out, "known", step.known.as_str())?;
    out.end_object()
}

/// Adds edits of lines.
fn put_edits(out: &mut Writer, edits: &[LineEdit]) -> Result<(), AllocError>
    ensures before { out.new.before ≡ out.old.before }
    ensures tokens { OnOk result (out.new.tokens
        ≡ out.old.tokens ++ key (codes "edits") ∷ json_tokens (array (edits_json edits.now))) }
{
    out.key("edits")?;
    out.begin_array()?;
    write_edits(out, edits)
}

/// Writes edits of lines, to the end of the array.
fn write_edits(out: &mut Writer, edits: &[LineEdit]) -> Result<(), AllocError>
    ensures before { out.new.before ≡ out.old.before }
    ensures tokens { OnOk result
        (out.new.tokens ≡ out.old.tokens ++ items_tokens (edits_json edits.now)) }
{
    for edit in edits {
        write_edit(out, edit)?;
    }
    out.end_array()
}

/// Writes an edit of lines.
fn write_edit(out: &mut Writer, edit: &LineEdit) -> Result<(), AllocError>
    ensures before { out.new.before ≡ out.old.before }
    ensures tokens { OnOk result
        (out.new.tokens ≡ out.old.tokens ++ json_tokens (edit_json edit.now)) }
{
    out.begin_object()?;
    put_number(out, "start", edit.start)?;
    put_number(out, "end", edit.end)?;
    put_text(out, "text", edit.text.as_str())?;
    out.end_object()
}
