//! The verdict on the set of a file.

ghost use Rattle.std.specs.Prelude.{◌≡◌, ◌++◌, ◌∷◌, [], OnOk, codes, decimal};
ghost use Rattle.json.specs.Json.{Members};
ghost use Rattle.json.specs.Token.{key, number, string};
ghost use Rattle.json.specs.Tree.{items_tokens, json_tokens, members_tokens};
ghost use Rattle.model.specs.Words.{rule_word};
ghost use Rattle.report.specs.Rule.{rule_name};
ghost use Rattle.report_json.specs.Verdict.{name_json, routine_json, routine_members};
ghost use Rattle.report_json.specs.Verdict.{routines_json};

use crate::member::{begin, put_number, put_text};
use crate::to_json::ToJson;
use json::Writer;
use model::abs::{Refusal, Rule};
use model::set::Sort;
use std::alloc::AllocError;

/// The name of the shape of a verdict, and its edition.
const FORMAT: &str = "pafteis.verdict/1";

/// A routine of an accepted set: its driver's number and its own, its name, which one of an image
/// hasn't, its sort, and its certificate.
#[derive(Drop)]
pub struct CertifiedRoutine {
    pub driver: u8,
    pub routine: u8,
    pub name: Option<String>,
    pub sort: Sort,
    pub certificate: u32,
}

/// That the set of a file is accepted, with its routines.
#[derive(Clone, Copy)]
pub struct Acceptance<'a> {
    pub file: &'a str,
    pub routines: &'a [CertifiedRoutine],
}

impl ToJson for Acceptance<'_> {
    ghost use Rattle.report_json.specs.Verdict.{acceptance_json};
    ghost use Rattle.report_json.specs.Nesting.{acceptance_nests};

    ghost json = { λ told. acceptance_json told.file.now told.routines.now };

    fn write(&self, out: &mut Writer) -> Result<(), AllocError> {
        begin(out, FORMAT, self.file)?;
        put_text(out, "verdict", "accepted")?;
        out.key("routines")?;
        out.begin_array()?;
        write_routines(out, self.routines)?;
        out.end_object()
    }

    ghost nests = { λ told. acceptance_nests told.file.now told.routines.now };
}

/// Writes routines, to the end of the array.
pub fn write_routines(out: &mut Writer, routines: &[CertifiedRoutine]) -> Result<(), AllocError>
    ensures before { out.new.before ≡ out.old.before }
    ensures tokens { OnOk result
        (out.new.tokens ≡ out.old.tokens ++ items_tokens (routines_json routines.now)) }
{
    for routine in routines {
        write_routine(out, routine)?;
    }
    out.end_array()
}

/// Writes a routine.
fn write_routine(out: &mut Writer, routine: &CertifiedRoutine) -> Result<(), AllocError>
    ensures before { out.new.before ≡ out.old.before }
    ensures tokens { OnOk result
        (out.new.tokens ≡ out.old.tokens ++ json_tokens (routine_json routine.now)) }
{
    out.begin_object()?;
    put_routine(out, routine)?;
    out.end_object()
}

/// Adds the members of a routine.
pub fn put_routine(out: &mut Writer, routine: &CertifiedRoutine) -> Result<(), AllocError>
    ensures before { out.new.before ≡ out.old.before }
    ensures tokens { OnOk result ((others : Members) → out.new.tokens ++ members_tokens others
        ≡ out.old.tokens ++ members_tokens (routine_members routine.now others)) }
{
    put_number(out, "driver", routine.driver as u64)?;
    put_number(out, "routine", routine.routine as u64)?;
    put_name(out, "name", &routine.name)?;
    put_text(out, "sort", routine.sort.as_str())?;
    put_number(out, "certificate", routine.certificate as u64)
}

/// Adds a member that is a name which there may be.
pub fn put_name(out: &mut Writer, member: &str, name: &Option<String>) -> Result<(), AllocError>
    ensures before { out.new.before ≡ out.old.before }
    ensures tokens { OnOk result (out.new.tokens
        ≡ out.old.tokens ++ key member.now ∷ json_tokens (name_json name.now)) }
{
    out.key(member)?;
    match name {
        Some(name) => out.string(name.as_str()),
        None => out.null(),
    }
}

/// That the set of a file is refused.
#[derive(Clone, Copy)]
pub struct FileRefusal<'a> {
    pub file: &'a str,
    pub refusal: Refusal,
}

impl ToJson for FileRefusal<'_> {
    ghost use Rattle.report_json.specs.Verdict.{refusal_json};
    ghost use Rattle.report_json.specs.Nesting.{refusal_nests};

    ghost json = { λ told. refusal_json told.file.now told.refusal };

    fn write(&self, out: &mut Writer) -> Result<(), AllocError> {
        begin(out, FORMAT, self.file)?;
        put_text(out, "verdict", "refused")?;
        put_place(out, self.refusal)?;
        out.end_object()
    }

    ghost nests = { λ told. refusal_nests told.file.now told.refusal };
}

/// Adds a rule, and the place where it is broken, by numbers.
pub fn put_place(out: &mut Writer, refusal: Refusal) -> Result<(), AllocError>
    ensures before { out.new.before ≡ out.old.before }
    ensures tokens { OnOk result (out.new.tokens ≡ out.old.tokens ++ key (codes "rule")
        ∷ string (rule_word refusal.rule) ∷ key (codes "rule_name")
        ∷ string (rule_name refusal.rule) ∷ key (codes "driver")
        ∷ number (decimal refusal.driver) ∷ key (codes "routine")
        ∷ number (decimal refusal.routine) ∷ key (codes "position")
        ∷ number (decimal refusal.at) ∷ []) }
{
    put_rule(out, refusal.rule)?;
    put_number(out, "driver", refusal.driver as u64)?;
    put_number(out, "routine", refusal.routine as u64)?;
    put_number(out, "position", refusal.at as u64)
}

/// Adds a rule by its number, as `V1`, and by its name.
fn put_rule(out: &mut Writer, rule: Rule) -> Result<(), AllocError>
    ensures before { out.new.before ≡ out.old.before }
    ensures tokens { OnOk result (out.new.tokens ≡ out.old.tokens ++ key (codes "rule")
        ∷ string (rule_word rule) ∷ key (codes "rule_name") ∷ string (rule_name rule) ∷ []) }
{
    let Some((word, name)) = rule.as_str().split_once(' ') else {
        unreachable!()
    };
    put_text(out, "rule", word)?;
    put_text(out, "rule_name", name)
}
