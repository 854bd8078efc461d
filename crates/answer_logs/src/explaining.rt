//! The faults of a refused set, explained, as results of SARIF.

ghost use Rattle.std.specs.Prelude.{◌≡◌, ◌++◌, ◌∷◌, IfOk, List, string_bytes};
ghost use Rattle.std.specs.List.{AllZip};
ghost use Rattle.mend_offers.specs.Offers.{AreOffersOf};
ghost use Rattle.model.specs.declared.abs.Refusal.{Refusal as RefusalValue};
ghost use Rattle.model.specs.Typable.{IsFirstFault};
ghost use Rattle.verifier_words.specs.Faults.{AreFaults};
ghost use Rattle.answer_explain.specs.Faults.{IsFaultOf};
ghost use Rattle.answer_explain.specs.Regions.{text_end};
ghost use Rattle.answer_logs.specs.Found.{AreExplained, IsExplained, IsRefusal, refusal_words};

use crate::finding::{ReadFile, of_refusal};
use crate::found::only;
use answer::origin::origin_of;
use answer_explain::advising::Advisor;
use answer_explain::region::text_end;
use answer_explain::shown::{Shown, show_fault};
use answer_mends::fixing::fix_by;
use drvhost_devices::extent::Extent;
use image::DriverSet;
use mend_edits::LineEdit;
use model::abs::Refusal;
use model::items::Items;
use report_sarif::log::Finding;
use std::alloc::{AllocError, Global};
use verifier_words::explanations;

/// The first fault of a refused set, or that of each routine, explained.
pub(crate) fn explained(
    alloc: Global,
    extent: Extent,
    file: ReadFile<'_>,
    set: &DriverSet,
    refusal: &Refusal,
) -> Result<Vec<Finding>, AllocError>
    requires { IsFirstFault set.now refusal.now }
    ensures { IfOk result (λ findings. AreExplained extent file.entry.name.now
        file.entry.bytes.now set.now refusal.now findings.items) }
{
    let advisor = Advisor::of(alloc, extent, origin_of(file.bytes), set, refusal)?;
    match extent {
        Extent::First => {
            let finding = explain(alloc, file, set, &advisor, refusal)?;
            only(alloc, finding)
        }
        Extent::Each => explain_each(alloc, file, set, &advisor),
    }
}

/// The first fault of each routine, explained, the set's own first.
fn explain_each(
    alloc: Global,
    file: ReadFile<'_>,
    set: &DriverSet,
    advisor: &Advisor<'_>,
) -> Result<Vec<Finding>, AllocError>
    requires { AreOffersOf set.now advisor.now.offers }
    ensures { IfOk result (λ findings. (all : List RefusalValue) × AreFaults set.now all
        × AllZip (IsExplained file.entry.name.now file.entry.bytes.now set.now) all
        findings.items) }
{
    let all = explanations(alloc, origin_of(file.bytes), set)?;
    let mut findings = Vec::new(alloc);
    for told in all.as_slice() {
        let finding = explain(alloc, file, set, advisor, &told.refusal)?;
        findings.push(finding)?;
    }
    Ok(findings)
}

/// A fault, explained: behind its place in words why the rule is broken and how to mend it, the
/// paths to it, and of the first one the edits that mend it, if they were judged.
fn explain(
    alloc: Global,
    file: ReadFile<'_>,
    set: &DriverSet,
    advisor: &Advisor<'_>,
    refusal: &Refusal,
) -> Result<Finding, AllocError>
    requires fault { IsFaultOf set.now refusal.now }
    requires offers { AreOffersOf set.now advisor.now.offers }
    ensures { IfOk result
        (IsExplained file.entry.name.now file.entry.bytes.now set.now refusal.now) }
{
    let shown = show_fault(alloc, origin_of(file.bytes), file.bytes, set, refusal)?;
    let advised = advisor.advised_with(alloc, set, refusal, shown.why.as_str())?;
    let fix = fix_by(alloc, file.bytes, refusal, advised.changes.as_slice())?;
    of_shown(
        alloc,
        file,
        refusal,
        shown,
        fix,
        advised.words.as_str().trim_end(),
    )
}

/// The result of a refusal, with the paths that show it, edits that mend it, and words behind its
/// place.
fn of_shown(
    alloc: Global,
    file: ReadFile<'_>,
    refusal: &Refusal,
    shown: Shown,
    fix: Items<LineEdit>,
    words: &str,
) -> Result<Finding, AllocError>
    ensures result { IfOk result
        (IsRefusal file.entry.name.now file.entry.bytes.now refusal.now) }
    ensures message { IfOk result (λ finding.
        string_bytes finding.message ≡ refusal_words refusal.now ++ 10 ∷ words.now) }
    ensures path { IfOk result (λ finding. finding.path.items ≡ shown.path.items) }
    ensures other { IfOk result (λ finding. finding.other.items ≡ shown.other.items) }
    ensures fix { IfOk result (λ finding. finding.fix ≡ fix) }
    ensures end { IfOk result (λ finding. finding.end ≡ text_end file.entry.bytes.now) }
{
    let Shown { path, other, .. } = shown;
    let mut finding = of_refusal(alloc, file, refusal)?;
    finding.message.push('\n')?;
    finding.message.push_str(words)?;
    finding.path = path;
    finding.other = other;
    finding.fix = fix;
    finding.end = text_end(file.bytes);
    Ok(finding)
}
