//! What is found in a file, as results of SARIF.

ghost use Rattle.std.specs.Prelude.{◌≡◌, ◌⊎◌, IfOk, string_bytes};
ghost use Rattle.model.specs.Typable.{IsFirstFault, at_start};
ghost use Rattle.model.specs.Words.{rule_word};
ghost use Rattle.report.specs.Rule.{rule_name};
ghost use Rattle.report_sarif.specs.declared.log.Region.{Region as PlacedRegion};
ghost use Rattle.answer_logs.specs.Found.{AreTold, IsFault, IsFaultFound, IsFoundIn, IsPass};
ghost use Rattle.answer_logs.specs.Found.{IsPassed, IsRefused, IsRefusalFound, IsSaid};
ghost use Rattle.answer_logs.specs.Found.{IsTextFaultFound, IsVerdictFound, refusal_print};
ghost use Rattle.answer_logs.specs.Found.{refusal_words};

use crate::copying::Copier;
use crate::explaining::explained;
use crate::found::{Found, only};
use answer_explain::region::{fault_region, refusal_region};
use asm::AsmFault;
use asm_faults::fault_words;
use drvhost_devices::fault::Fault;
use drvhost_devices::logging::{Account, Logging, Passes};
use drvhost_devices::reading::set_of;
use image::DriverSet;
use model::abs::{Refusal, Rule};
use model::items::Items;
use report::fault::{image_fault_name, text_kind_name};
use report_sarif::log::{Finding, Kind, Place, Region};
use std::alloc::{AllocError, Global};
use verifier::verify;

/// The word under which an accepted set stands.
pub(crate) const ACCEPTED: &str = "Accepted";

/// Where an empty text ends, and each other begins.
const START: Place = Place { line: 1, column: 1 };

/// A file that was read: its name, and its bytes.
#[derive(Clone, Copy)]
pub(crate) struct ReadFile<'a> {
    pub(crate) name: &'a str,
    pub(crate) bytes: &'a [u8],
}

/// What is found in a file.
pub(crate) fn found_in(
    alloc: Global,
    logging: Logging,
    file: ReadFile<'_>,
) -> Result<Found, AllocError>
    ensures { IfOk result (IsFoundIn logging file.entry.name.now file.entry.bytes.now) }
{
    match set_of(alloc, file.bytes) {
        Ok(set) => judged(alloc, logging, file, set),
        Err(Fault::Text(fault)) => text_fault_in(alloc, logging.account, file, fault),
        Err(Fault::Image(fault)) => fault_in(alloc, file.name, image_fault_name(fault), "", None),
        Err(_) => Err(AllocError),
    }
}

/// What is found in the set that a file is.
fn judged(
    alloc: Global,
    logging: Logging,
    file: ReadFile<'_>,
    set: DriverSet,
) -> Result<Found, AllocError>
    ensures { IfOk result (IsVerdictFound logging file.entry.name.now file.entry.bytes.now set) }
{
    match verify(alloc, set) {
        Ok(_accepted) => passed(alloc, logging.passes, file.name),
        Err((set, refusal)) => refused(alloc, logging.account, file, &set, &refusal),
    }
}

/// What is found in an accepted set.
fn passed(alloc: Global, passes: Passes, name: &str) -> Result<Found, AllocError>
    ensures { IfOk result (IsPassed passes name.now) }
{
    match passes {
        Passes::Omitted => Ok(Found::new(alloc)),
        Passes::Listed => {
            let finding = of_pass(alloc, name)?;
            Found::one(alloc, 0, finding)
        }
    }
}

/// The result of an accepted set.
fn of_pass(alloc: Global, name: &str) -> Result<Finding, AllocError>
    ensures { IfOk result (IsPass name.now) }
{
    let mut texts = Copier::new(alloc);
    let finding = Finding {
        file: texts.copy(name),
        kind: Kind::Pass,
        rule: texts.copy(ACCEPTED),
        message: texts.copy("the set is accepted"),
        region: None,
        path: Vec::new(alloc),
        other: Vec::new(alloc),
        fix: Items::of(Vec::new(alloc)),
        end: START,
        fingerprint: texts.copy(ACCEPTED),
    };
    texts.finish(finding)
}

/// What is found in a refused set; one that is refused for want of memory is none.
fn refused(
    alloc: Global,
    account: Account,
    file: ReadFile<'_>,
    set: &DriverSet,
    refusal: &Refusal,
) -> Result<Found, AllocError>
    requires { (refusal.now ≡ at_start Rule.Memory) ⊎ IsFirstFault set.now refusal.now }
    ensures { IfOk result (IsRefused account file.entry.name.now file.entry.bytes.now set.now) }
{
    if refusal.rule == Rule::Memory {
        return Err(AllocError);
    }
    let findings = told(alloc, account, file, set, refusal)?;
    Ok(Found {
        status: 1,
        findings,
    })
}

/// What is told of a refused set.
fn told(
    alloc: Global,
    account: Account,
    file: ReadFile<'_>,
    set: &DriverSet,
    refusal: &Refusal,
) -> Result<Vec<Finding>, AllocError>
    requires { IsFirstFault set.now refusal.now }
    ensures { IfOk result (λ findings. AreTold account file.entry.name.now file.entry.bytes.now
        set.now refusal.now findings.items) }
{
    match account {
        Account::Verdict => {
            let finding = of_refusal(alloc, file, refusal)?;
            only(alloc, finding)
        }
        Account::Explanation(extent) => explained(alloc, extent, file, set, refusal),
    }
}

/// The result of a refusal.
pub(crate) fn of_refusal(
    alloc: Global,
    file: ReadFile<'_>,
    refusal: &Refusal,
) -> Result<Finding, AllocError>
    ensures { IfOk result
        (IsRefusalFound file.entry.name.now file.entry.bytes.now refusal.now) }
{
    let region = refusal_region(alloc, file.bytes, refusal)?;
    let (word, _name) = words_of(refusal.rule);
    let mut texts = Copier::new(alloc);
    let finding = Finding {
        file: texts.copy(file.name),
        kind: Kind::Fail,
        rule: texts.copy(word),
        message: texts.made(place_words(alloc, refusal)),
        region,
        path: Vec::new(alloc),
        other: Vec::new(alloc),
        fix: Items::of(Vec::new(alloc)),
        end: START,
        fingerprint: texts.made(place_print(alloc, refusal)),
    };
    texts.finish(finding)
}

/// The place of a refusal, in words.
fn place_words(alloc: Global, refusal: &Refusal) -> Result<String, AllocError>
    ensures { IfOk result (λ words. string_bytes words ≡ refusal_words refusal.now) }
{
    let Refusal {
        driver,
        routine,
        at,
        rule,
    } = *refusal;
    let text = rule.as_str();
    format!(in alloc; "{text}: driver {driver}, routine {routine}, position {at}")
}

/// The place of a refusal, as a fingerprint.
fn place_print(alloc: Global, refusal: &Refusal) -> Result<String, AllocError>
    ensures { IfOk result (λ print. string_bytes print ≡ refusal_print refusal.now) }
{
    let Refusal {
        driver,
        routine,
        at,
        rule,
    } = *refusal;
    let (word, _name) = words_of(rule);
    format!(in alloc; "{word}/{driver}/{routine}/{at}")
}

/// The number of a rule, as `V1`, and its name.
pub(crate) fn words_of(rule: Rule) -> (&'static str, &'static str)
    ensures word { result.0.now ≡ rule_word rule }
    ensures name { result.1.now ≡ rule_name rule }
{
    let Some(words) = rule.as_str().split_once(' ') else {
        unreachable!()
    };
    words
}

/// What is found in a faulty text: its first fault, at its line. Where verdicts are explained, so
/// is that, in the words with which `explain` tells it.
fn text_fault_in(
    alloc: Global,
    account: Account,
    file: ReadFile<'_>,
    fault: AsmFault,
) -> Result<Found, AllocError>
    ensures { IfOk result
        (IsTextFaultFound account file.entry.name.now file.entry.bytes.now fault) }
{
    let said = said_of(alloc, account, file.bytes, fault)?;
    let region = fault_region(file.bytes, fault.line);
    fault_in(
        alloc,
        file.name,
        text_kind_name(fault.kind),
        said.as_str(),
        region,
    )
}

/// What is said of the fault of a text behind its kind: where verdicts are explained, in lines of
/// their own, the words on it.
fn said_of(
    alloc: Global,
    account: Account,
    text: &[u8],
    fault: AsmFault,
) -> Result<String, AllocError>
    ensures { IfOk result (λ said. IsSaid account (string_bytes said)) }
{
    match account {
        Account::Verdict => Ok(String::new(alloc)),
        Account::Explanation(_extent) => {
            let words = fault_words(alloc, text, fault)?;
            let mut said = String::from_str(alloc, "\n")?;
            said.push_str(words.as_str().trim())?;
            Ok(said)
        }
    }
}

/// That the file of a name has a fault of a kind, with what is said of it behind.
pub(crate) fn fault_in(
    alloc: Global,
    name: &str,
    kind: &str,
    said: &str,
    region: Option<Region>,
) -> Result<Found, AllocError>
    ensures { IfOk result (IsFaultFound name.now kind.now said.now region) }
{
    let finding = of_fault(alloc, name, kind, said, region)?;
    Found::one(alloc, 2, finding)
}

/// The result of a fault.
fn of_fault(
    alloc: Global,
    name: &str,
    kind: &str,
    said: &str,
    region: Option<Region>,
) -> Result<Finding, AllocError>
    ensures { IfOk result (IsFault name.now kind.now said.now region) }
{
    let mut texts = Copier::new(alloc);
    let finding = Finding {
        file: texts.copy(name),
        kind: Kind::Fail,
        rule: texts.copy(kind),
        message: texts.made(format!(in alloc; "the file is faulty: {kind}{said}")),
        region,
        path: Vec::new(alloc),
        other: Vec::new(alloc),
        fix: Items::of(Vec::new(alloc)),
        end: START,
        fingerprint: texts.copy(kind),
    };
    texts.finish(finding)
}
