//! The verdict on a driver set explained, in lines of JSON.

ghost use Rattle.std.specs.Prelude.{◌≡◌, ◌++◌, List, ℕ, IfOk, OnOk};
ghost use Rattle.mend_offers.specs.Offers.{AreOffersOf};
ghost use Rattle.model.specs.declared.abs.Refusal.{Refusal as RefusalValue};
ghost use Rattle.model.specs.Typable.{IsFirstFault};
ghost use Rattle.report_json.specs.Line.{json_line};
ghost use Rattle.verifier_words.specs.Faults.{AreFaults};
ghost use Rattle.answer_explain.specs.Faults.{IsFaultOf};
ghost use Rattle.answer_explain.specs.Regions.{refusal_region};
ghost use Rattle.answer_mends.specs.Fix.{IsFix};
ghost use Rattle.answer_explain.specs.Explain.{AreLinesOf, AreRefusalLines, IsRefusalLine};
ghost use Rattle.answer_explain.specs.Explanation.{Lesson, refusal_explained_json};

use crate::advising::{Advised, Advisor, why_and_mend};
use crate::objects::{ExplainedAcceptance, ExplainedRefusal};
use crate::region::refusal_region;
use crate::shown::{Shown, show_fault};
use answer::as_json::{Json, line_of};
use answer::as_text::ended;
use answer::certified::certified_routines;
use answer::content::Given;
use answer::form::Form;
use answer::names::routine_names;
use answer::origin::origin_of;
use answer_mends::fixing::fix_by;
use drvhost_devices::extent::Extent;
use drvhost_devices::fault::End;
use drvhost_devices::told::Told;
use image::DriverSet;
use model::abs::Refusal;
use report_json::fault::InputFault;
use report_json::json_lines::JsonLines;
use std::alloc::{AllocError, Global};
use verifier::Accepted;
use verifier_warnings::acceptance;
use verifier_words::explanations;

/// Answers as lines of JSON, explained: one for an accepted set, with words on its routines and on
/// the order in which its drivers take their locks; or for the first fault of a refused one, and,
/// if asked for, for that of each other routine, with its place, the paths that lead there and what
/// is known at each of their steps, why the rule is broken, and how to mend it, for the first fault
/// with the edits of lines that do it, if they were judged; or for the fault of its text or its
/// image.
#[derive(Clone, Copy)]
pub struct ExplainedJson {
    pub extent: Extent,
}

impl Form for ExplainedJson {
    ghost use Rattle.std.specs.Prelude.{◌≡◌, codes};
    ghost use Rattle.report_json.specs.declared.fault.InputFault.{InputFault};
    ghost use Rattle.drvhost_devices.specs.Answer.{faulty};
    ghost use Rattle.answer.specs.Told.{IsFaultIn, IsUnopenedJson, fault_answer};
    ghost use Rattle.answer_explain.specs.Explain.{IsAcceptanceExplained, IsRefusalExplained};

    ghost is_unopened = { λ _ name. IsUnopenedJson name };

    ghost is_unread = { λ _ _ answer. answer ≡ faulty (codes "read failed\n") };

    ghost is_faulty = { λ _ name bytes answer.
        (fault : InputFault) × IsFaultIn bytes fault × (answer ≡ fault_answer name fault) };

    ghost is_refused = { λ form name bytes set. IsRefusalExplained form.extent name bytes set };

    ghost is_accepted = { λ _ name bytes set. IsAcceptanceExplained name bytes set };

    fn unopened(&self, alloc: Global, name: &str) -> Result<Told, AllocError> {
        Json.unopened(alloc, name)
    }

    fn unread(&self, alloc: Global, name: &str) -> Result<Told, AllocError> {
        Json.unread(alloc, name)
    }

    fn faulty(
        &self,
        alloc: Global,
        name: &str,
        bytes: &[u8],
        fault: InputFault,
    ) -> Result<Told, AllocError> {
        Json.faulty(alloc, name, bytes, fault)
    }

    fn refused(
        &self,
        alloc: Global,
        name: &str,
        bytes: &[u8],
        set: &DriverSet,
        refusal: &Refusal,
    ) -> Result<Told, AllocError> {
        let mut lines = JsonLines::new(alloc);
        let file = Given { name, bytes };
        add_faults(alloc, self.extent, file, set, refusal, &mut lines)?;
        Ok(ended(alloc, End::Stopped, lines.into_bytes()))
    }

    fn accepted(
        &self,
        alloc: Global,
        name: &str,
        bytes: &[u8],
        accepted: &Accepted,
    ) -> Result<Told, AllocError> {
        let words = acceptance(alloc, origin_of(bytes), accepted)?;
        let names = routine_names(alloc, bytes)?;
        let routines = certified_routines(alloc, accepted, names)?;
        let told = ExplainedAcceptance {
            file: name,
            routines: routines.as_slice(),
            words: words.as_str(),
        };
        Ok(ended(alloc, End::Complete, line_of(alloc, &told)?))
    }
}

/// Adds a line for the first fault of a set, or for that of each routine.
fn add_faults(
    alloc: Global,
    extent: Extent,
    file: Given<'_>,
    set: &DriverSet,
    refusal: &Refusal,
    lines: &mut JsonLines,
) -> Result<(), AllocError>
    requires { IsFirstFault set.now refusal.now }
    ensures { OnOk result ((text : List ℕ)
        × AreLinesOf extent file.entry.name.now file.entry.bytes.now set.now refusal.now text
        × (lines.new ≡ lines.old ++ text)) }
{
    let advisor = Advisor::of(alloc, extent, origin_of(file.bytes), set, refusal)?;
    match extent {
        Extent::First => add_refusal(alloc, file, set, &advisor, refusal, lines),
        Extent::Each => add_each(alloc, file, set, &advisor, lines),
    }
}

/// Adds a line for the first fault of each routine, the set's own first.
fn add_each(
    alloc: Global,
    file: Given<'_>,
    set: &DriverSet,
    advisor: &Advisor<'_>,
    lines: &mut JsonLines,
) -> Result<(), AllocError>
    requires { AreOffersOf set.now advisor.now.offers }
    ensures { OnOk result ((all : List RefusalValue) × (text : List ℕ) × AreFaults set.now all
        × AreRefusalLines file.entry.name.now file.entry.bytes.now set.now all text
        × (lines.new ≡ lines.old ++ text)) }
{
    let all = explanations(alloc, origin_of(file.bytes), set)?;
    for told in all.as_slice() {
        add_refusal(alloc, file, set, advisor, &told.refusal, lines)?;
    }
    Ok(())
}

/// Adds the line of a refusal.
fn add_refusal(
    alloc: Global,
    file: Given<'_>,
    set: &DriverSet,
    advisor: &Advisor<'_>,
    refusal: &Refusal,
    lines: &mut JsonLines,
) -> Result<(), AllocError>
    requires fault { IsFaultOf set.now refusal.now }
    requires offers { AreOffersOf set.now advisor.now.offers }
    ensures { OnOk result ((line : List ℕ)
        × IsRefusalLine file.entry.name.now file.entry.bytes.now set.now refusal.now line
        × (lines.new ≡ lines.old ++ line)) }
{
    let shown = show_fault(alloc, origin_of(file.bytes), file.bytes, set, refusal)?;
    let advised = advisor.advised_with(alloc, set, refusal, shown.why.as_str())?;
    add_shown(alloc, file, refusal, &shown, &advised, lines)
}

/// Adds the line of a refusal that is shown, with how it is mended.
fn add_shown(
    alloc: Global,
    file: Given<'_>,
    refusal: &Refusal,
    shown: &Shown,
    advised: &Advised,
    lines: &mut JsonLines,
) -> Result<(), AllocError>
    ensures { OnOk result ((lesson : Lesson) × IsFix refusal.now file.entry.bytes.now lesson.edits
        × (lines.new ≡ lines.old ++ json_line (refusal_explained_json file.entry.name.now
        refusal.now (refusal_region file.entry.bytes.now refusal.now) shown.now lesson))) }
{
    let region = refusal_region(alloc, file.bytes, refusal)?;
    let (why, fix) = why_and_mend(advised.words.as_str());
    let edits = fix_by(alloc, file.bytes, refusal, advised.changes.as_slice())?;
    lines.add(&ExplainedRefusal {
        file: file.name,
        refusal: *refusal,
        region,
        shown,
        why,
        fix,
        edits: edits.as_slice(),
    })
}
