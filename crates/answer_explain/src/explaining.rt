//! The verdict on a driver set, explained.

ghost use Rattle.std.specs.Prelude.{◌≡◌, ◌++◌, ℕ, List, [], ◌∷◌, IfOk, OnOk};
ghost use Rattle.model.specs.Typable.{IsFirstFault};
ghost use Rattle.drvhost_devices.specs.Device.{Bytes};
ghost use Rattle.mend_offers.specs.Offers.{AreOffersOf};
ghost use Rattle.verifier_words.specs.Faults.{refusals};
ghost use Rattle.report.specs.Verdict.{refusal_line};
ghost use Rattle.answer.specs.Told.{IsFaultIn};
ghost use Rattle.answer_explain.specs.Explained.{AreWordsOf, AreWordsOn, IsBlock, IsExplainedOf};

use crate::advising::Advisor;
use crate::image_words::image_words;
use crate::joining::{joined, with_words};
use answer::as_text::{Text, faulty};
use answer::check::Judgement;
use answer::deliver::answer_to;
use answer::form::Form;
use answer::judged::Judged;
use answer::origin::origin_of;
use asm_faults::fault_words;
use drvhost_devices::extent::Extent;
use drvhost_devices::told::Told;
use image::DriverSet;
use model::abs::Refusal;
use report::lines::Lines;
use report_json::fault::InputFault;
use std::alloc::{AllocError, Global};
use verifier::Accepted;
use verifier_names::Origin;
use verifier_warnings::acceptance;
use verifier_words::{Told as Explained, explanation, explanations};

/// Answers as text, with words behind a verdict and behind the fault of a file: the names of the
/// routines of an accepted set, and in which order or cycle each driver takes its locks, with what
/// follows for threads that run them; or what leads to the place of a refusal, why the rule is
/// broken there, and how to mend it, by a mend that was tried where one is sure; and, if asked for,
/// the same of the first fault of each other routine.
#[derive(Clone, Copy)]
pub struct ExplainedText {
    pub extent: Extent,
}

impl Form for ExplainedText {
    ghost use Rattle.std.specs.Prelude.{◌≡◌, codes};
    ghost use Rattle.drvhost_devices.specs.Answer.{IsUnopened, faulty};
    ghost use Rattle.answer_explain.specs.Explained.{IsAcceptanceExplained, IsFaultExplained};
    ghost use Rattle.answer_explain.specs.Explained.{IsRefusalExplained};

    ghost is_unopened = { λ _ name. IsUnopened name };

    ghost is_unread = { λ _ _ answer. answer ≡ faulty (codes "read failed\n") };

    ghost is_faulty = { λ _ _ bytes. IsFaultExplained bytes };

    ghost is_refused = { λ form _ _ set. IsRefusalExplained form.extent set };

    ghost is_accepted = { λ _ _ _ set. IsAcceptanceExplained set };

    fn unopened(&self, alloc: Global, name: &str) -> Result<Told, AllocError> {
        Text.unopened(alloc, name)
    }

    fn unread(&self, alloc: Global, name: &str) -> Result<Told, AllocError> {
        Text.unread(alloc, name)
    }

    fn faulty(
        &self,
        alloc: Global,
        name: &str,
        bytes: &[u8],
        fault: InputFault,
    ) -> Result<Told, AllocError> {
        let words = words_on_fault(alloc, bytes, fault)?;
        let told = Text.faulty(alloc, name, bytes, fault)?;
        let line = joined(alloc, told.told(), words.as_bytes())?;
        Ok(faulty(alloc, line))
    }

    fn refused(
        &self,
        alloc: Global,
        name: &str,
        bytes: &[u8],
        set: &DriverSet,
        refusal: &Refusal,
    ) -> Result<Told, AllocError> {
        let words = refusal_words(alloc, self.extent, origin_of(bytes), set, refusal)?;
        let told = Text.refused(alloc, name, bytes, set, refusal)?;
        Ok(with_words(alloc, told, words.as_slice())?)
    }

    fn accepted(
        &self,
        alloc: Global,
        name: &str,
        bytes: &[u8],
        accepted: &Accepted,
    ) -> Result<Told, AllocError> {
        let words = acceptance(alloc, origin_of(bytes), accepted)?;
        let told = Text.accepted(alloc, name, bytes, accepted)?;
        Ok(with_words(alloc, told, words.as_bytes())?)
    }
}

/// The verdict on the set that bytes name, explained as text.
///
/// # Errors
///
/// When memory runs out.
pub fn explain(alloc: Global, extent: Extent, bytes: &[u8]) -> Result<Told, AllocError>
    ensures { IfOk result (IsExplainedOf extent (Bytes bytes.now)) }
{
    let judged = Judged {
        job: Judgement,
        form: ExplainedText { extent },
    };
    Ok(answer_to(&judged, alloc, "", bytes)?)
}

/// Words on a fault of the file of a set.
fn words_on_fault(alloc: Global, bytes: &[u8], fault: InputFault) -> Result<String, AllocError>
    requires { IsFaultIn bytes.now fault }
{
    match fault {
        InputFault::Text(fault) => fault_words(alloc, bytes, fault),
        InputFault::Image(fault) => image_words(alloc, bytes, fault),
        InputFault::Schedule(_) | InputFault::Script(_) | InputFault::Unreadable => unreachable!(),
    }
}

/// What is told of a refused set behind the line of its refusal: on which faults, and in the terms
/// of what it was read from.
fn refusal_words(
    alloc: Global,
    extent: Extent,
    origin: Origin<'_>,
    set: &DriverSet,
    refusal: &Refusal,
) -> Result<Vec<u8>, AllocError>
    requires { IsFirstFault set.now refusal.now }
    ensures { IfOk result (λ words. AreWordsOf extent set.now words.items) }
{
    let advisor = Advisor::of(alloc, extent, origin, set, refusal)?;
    match extent {
        Extent::First => {
            let told = explanation(alloc, origin, set, refusal)?;
            let words = advisor.advised(alloc, set, refusal, told.as_str())?;
            one_block(alloc, words.as_bytes())
        }
        Extent::Each => {
            let all = explanations(alloc, origin, set)?;
            one_by_one(alloc, &advisor, set, all.as_slice())
        }
    }
}

/// The words on one refusal.
fn one_block(alloc: Global, told: &[u8]) -> Result<Vec<u8>, AllocError>
    ensures { IfOk result (λ words. IsBlock words.items) }
{
    let mut words = Vec::new(alloc);
    add_block(&mut words, told)?;
    Ok(words)
}

/// The words on several refusals. The line of the first stands before them; before the words on
/// each other stands its own, behind an empty one.
fn one_by_one(
    alloc: Global,
    advisor: &Advisor<'_>,
    set: &DriverSet,
    all: &[Explained],
) -> Result<Vec<u8>, AllocError>
    requires { AreOffersOf set.now advisor.now.offers }
    ensures { IfOk result (λ words. AreWordsOn (refusals all.now) words.items) }
{
    let Some((first, others)) = all.split_first() else {
        return Ok(Vec::new(alloc));
    };
    let told = advisor.advised(alloc, set, &first.refusal, first.words.as_str())?;
    let mut words = one_block(alloc, told.as_bytes())?;
    let mut line = Lines::new(alloc)?;
    for other in others {
        let told = advisor.advised(alloc, set, &other.refusal, other.words.as_str())?;
        add_further(&mut words, &mut line, &other.refusal, told.as_bytes())?;
    }
    Ok(words)
}

/// Adds an empty line, the line of a refusal, and the words on it.
fn add_further(
    words: &mut Vec<u8>,
    line: &mut Lines,
    refusal: &Refusal,
    told: &[u8],
) -> Result<(), AllocError>
    ensures { OnOk result ((block : List ℕ) × IsBlock block
        × (words.new.items ≡ words.old.items ++ ((0x0A ∷ refusal_line refusal.now) ++ block))) }
{
    line.clear();
    line.refusal(refusal);
    words.push(b'\n')?;
    words.extend_from_slice(line.bytes())?;
    add_block(words, told)
}

/// Adds the words on one refusal, with a line feed at their end.
fn add_block(words: &mut Vec<u8>, told: &[u8]) -> Result<(), AllocError>
    ensures { OnOk result ((block : List ℕ) × IsBlock block
        × (words.new.items ≡ words.old.items ++ block)) }
{
    words.extend_from_slice(unbroken(told))?;
    words.push(b'\n')?;
    Ok(())
}

/// Words up to an empty line that doesn't begin them, without the line feed at their end. By an
/// empty line the words on one refusal can be told from those on the next: they have none.
fn unbroken(words: &[u8]) -> &[u8]
    ensures { IsBlock (result.now ++ 0x0A ∷ []) }
{
    for end in 0..words.len() {
        let next = words.get(end + 1).unwrap_or(&b'\n');
        if words[end] == b'\n' && *next == b'\n' {
            return &words[..end];
        }
    }
    words
}
