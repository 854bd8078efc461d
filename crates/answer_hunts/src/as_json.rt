//! What comes of a hunt, as a line of JSON.

ghost use Rattle.std.specs.Prelude.{◌≡◌, ◌++◌, ◌∷◌, IfOk, OnOk, codes, option_map, string_bytes};
ghost use Rattle.std.specs.Str.Lossy.{utf8_lossy};
ghost use Rattle.json.specs.Token.{key};
ghost use Rattle.json.specs.Tree.{json_tokens};
ghost use Rattle.answer_hunts.specs.Json.{bounds_json, events_told, first_line, goal_name};
ghost use Rattle.answer_hunts.specs.Json.{limit_json, line_told, outcome_name, schedule_told};
ghost use Rattle.answer_hunts.specs.Json.{way_name, worlds_told};
ghost use Rattle.text.specs.Cut.{lines_of};

use crate::hunt::{Hunting, Way, end_told, hunted_by, text_told};
use answer::as_json::{Json, line_of};
use answer::as_text::ended;
use answer::content::Given;
use answer::set::OnAnySet;
use drvhost_devices::told::Told;
use hunt_facts::bounds::{Bounds, Goal};
use hunt_schedule::telling::Told as Hunted;
use image::DriverSet;
use json::Writer;
use report_json::member::{begin, put_number, put_text};
use report_json::to_json::ToJson;
use report_json::told::put_optional;
use report_json::verdict::put_name;
use report_progress::progress::Progress;
use std::alloc::{AllocError, Global};
use text::cut::Lines;

/// The name of the shape of a hunt, and its edition.
const FORMAT: &str = "pafteis.hunt/1";

impl<P: Progress> OnAnySet<Json> for Hunting<'_, P> {
    ghost use Rattle.answer_hunts.specs.Json.{IsHuntJsonBy};

    ghost right = { λ hunting _ name _. IsHuntJsonBy hunting.way hunting.reach name };

    fn on(
        &self,
        _form: &Json,
        alloc: Global,
        given: &Given<'_>,
        set: &DriverSet,
    ) -> Result<Told, AllocError> {
        let hunted = hunted_by(alloc, self, set, given.bytes)?;
        let line = line_told(alloc, &hunted)?;
        let schedule = schedule_told(alloc, &hunted)?;
        let told = HuntTold {
            file: given.name,
            way: self.way,
            bounds: self.reach.bounds(),
            hunted: &hunted,
            line: line.as_str(),
            schedule: &schedule,
        };
        Ok(ended(alloc, end_told(&hunted), line_of(alloc, &told)?))
    }
}

/// The first line of what is written of a hunt.
fn line_told(alloc: Global, hunted: &Hunted) -> Result<String, AllocError>
    ensures { IfOk result (λ line. string_bytes line ≡ utf8_lossy (line_told hunted.now)) }
{
    Ok(String::from_utf8_lossy(alloc, first_line(text_told(hunted)))?)
}

/// The first line of a text, if it has one.
fn first_line(text: &[u8]) -> &[u8]
    ensures { result.now ≡ first_line (lines_of text.now) }
{
    let mut lines = Lines::of(text);
    match lines.next() {
        Some(line) => line,
        None => &[],
    }
}

/// The schedule that is written of a hunt, if one is.
fn schedule_told(alloc: Global, hunted: &Hunted) -> Result<Option<String>, AllocError>
    ensures { IfOk result
        (λ schedule. option_map string_bytes schedule ≡ schedule_told hunted.now) }
{
    match hunted {
        Hunted::Found(text) => {
            let schedule = String::from_utf8_lossy(alloc, text.as_slice())?;
            Ok(Some(schedule))
        }
        Hunted::Unlisted(_) | Hunted::All { .. } | Hunted::More { .. } => Ok(None),
    }
}

/// What comes of a hunt in the set of a file.
#[derive(Clone, Copy)]
struct HuntTold<'a> {
    file: &'a str,
    way: Way,
    bounds: Bounds,
    hunted: &'a Hunted,
    line: &'a str,
    schedule: &'a Option<String>,
}

impl ToJson for HuntTold<'_> {
    ghost use Rattle.answer_hunts.specs.Json.{hunt_json};
    ghost use Rattle.answer_hunts.specs.Nesting.{hunt_nests};

    ghost json = { λ told. hunt_json told.file.now told.way told.bounds told.hunted.now
        told.line.now told.schedule.now };

    fn write(&self, out: &mut Writer) -> Result<(), AllocError> {
        begin(out, FORMAT, self.file)?;
        put_text(out, "way", way_name(self.way))?;
        put_bounds(out, self.bounds)?;
        put_text(out, "outcome", outcome_name(self.hunted))?;
        put_text(out, "line", self.line)?;
        put_name(out, "schedule", self.schedule)?;
        put_optional(out, "worlds", worlds_told(self.hunted))?;
        put_optional(out, "events", events_told(self.hunted))?;
        out.end_object()
    }

    ghost nests = { λ told. hunt_nests told.file.now told.way told.bounds told.hunted.now
        told.line.now told.schedule.now };
}

/// Adds the bounds of a hunt.
fn put_bounds(out: &mut Writer, bounds: Bounds) -> Result<(), AllocError>
    ensures before { out.new.before ≡ out.old.before }
    ensures tokens { OnOk result (out.new.tokens
        ≡ out.old.tokens ++ key (codes "bounds") ∷ json_tokens (bounds_json bounds)) }
{
    out.key("bounds")?;
    out.begin_object()?;
    put_number(out, "threads", bounds.threads as u64)?;
    put_number(out, "packets", bounds.packets as u64)?;
    put_number(out, "worlds", bounds.worlds as u64)?;
    put_limit(out, "events", bounds.events)?;
    put_limit(out, "argument", bounds.argument)?;
    put_text(out, "goal", goal_name(bounds.goal))?;
    out.end_object()
}

/// Adds a member that is a number which there may be, and may be more than readers of JSON keep.
fn put_limit(out: &mut Writer, name: &str, limit: Option<u64>) -> Result<(), AllocError>
    ensures before { out.new.before ≡ out.old.before }
    ensures tokens { OnOk result
        (out.new.tokens ≡ out.old.tokens ++ key name.now ∷ json_tokens (limit_json limit)) }
{
    out.key(name)?;
    match limit {
        Some(limit) => out.quoted_u64(limit),
        None => out.null(),
    }
}

/// The name of what is looked for.
fn goal_name(goal: Goal) -> &'static str
    ensures { result.now ≡ goal_name goal }
{
    match goal {
        Goal::Amiss => "amiss",
        Goal::AmissOrStuck => "amiss_or_stuck",
    }
}

/// The name of a way to search.
fn way_name(way: Way) -> &'static str
    ensures { result.now ≡ way_name way }
{
    match way {
        Way::Quick => "quick",
        Way::Exact => "exact",
    }
}

/// The name of what came of a hunt.
fn outcome_name(hunted: &Hunted) -> &'static str
    ensures { result.now ≡ outcome_name hunted.now }
{
    match hunted {
        Hunted::Found(_) => "found",
        Hunted::Unlisted(_) => "unlisted",
        Hunted::All { .. } => "none",
        Hunted::More { .. } => "more",
    }
}

/// How many worlds were seen, where none of them was looked for.
fn worlds_told(hunted: &Hunted) -> Option<u64>
    ensures { result ≡ worlds_told hunted.now }
{
    match hunted {
        Hunted::Found(_) | Hunted::Unlisted(_) => None,
        Hunted::All { worlds, .. } | Hunted::More { worlds, .. } => Some(*worlds as u64),
    }
}

/// Up to how many events of a run, where there are more worlds.
fn events_told(hunted: &Hunted) -> Option<u64>
    ensures { result ≡ events_told hunted.now }
{
    match hunted {
        Hunted::Found(_) | Hunted::Unlisted(_) | Hunted::All { .. } => None,
        Hunted::More { events, .. } => Some(*events as u64),
    }
}
