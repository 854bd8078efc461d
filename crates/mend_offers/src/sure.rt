//! The first offer for a fault, in words.

ghost use Rattle.std.specs.Prelude.{◌≡◌, IfOk, IfSome, IsTrue};
ghost use Rattle.mend_offers.specs.Offers.{AreOffersOf};
ghost use Rattle.mend_offers.specs.Advice.{IsAdvised};

use crate::offers::{Mending, Offer, Standing};
use driver_set::DriverSet;
use mend_edits::Change;
use mend_texts::{Mend, mend_text, reason};
use model::abs::{Refusal, Rule};
use std::alloc::{AllocError, Global};
use words::Words;

/// An offer that is most likely what was meant, in words and as changes of the text.
#[derive(Drop)]
pub struct Advice<'o> {
    pub offer: &'o Offer,
    pub words: String,
    pub changes: Vec<Change>,
}

/// The first offer for a refusal, if it is sure: mendings are of the set that a text names, and the
/// words are about the lines of that.
///
/// # Errors
///
/// When memory runs out.
pub fn advise<'o>(
    alloc: Global,
    text: &[u8],
    set: &DriverSet,
    mendings: &'o [Mending],
    refusal: &Refusal,
) -> Result<Option<Advice<'o>>, AllocError>
    requires { AreOffersOf set.now mendings.now }
    ensures { IfOk result
        (λ found. IfSome found (λ advice. IsAdvised set.now refusal.now advice.offer.now)) }
{
    let Some(offer) = sure_offer(set, mendings, refusal) else {
        return Ok(None);
    };
    let mend = Mend {
        rule: refusal.rule,
        edits: offer.edits.as_slice(),
    };
    let Some(mended) = mend_text(alloc, text, set, &[mend])? else {
        return Ok(None);
    };
    let words = told_once(alloc, mended.sentences.as_slice(), refusal.rule)?;
    Ok(Some(Advice {
        offer,
        words,
        changes: mended.changes,
    }))
}

/// The first offer for a refusal, if it is sure.
fn sure_offer<'o>(set: &DriverSet, mendings: &'o [Mending], refusal: &Refusal) -> Option<&'o Offer>
    requires { AreOffersOf set.now mendings.now }
    ensures { IfSome result (λ offer. IsAdvised set.now refusal.now offer.now) }
{
    for mending in mendings {
        if is_same(&mending.refusal, refusal) {
            let first = mending.offers.as_slice().first()?;
            return if first.standing == Standing::Sure {
                Some(first)
            } else {
                None
            };
        }
    }
    None
}

/// Whether two refusals are the same.
fn is_same(one: &Refusal, other: &Refusal) -> bool
    ensures { IsTrue result → one.now ≡ other.now }
{
    one.driver == other.driver
        && one.routine == other.routine
        && one.at == other.at
        && one.rule == other.rule
}

/// Sentences one behind another, with what a mend of a rule is for at the end alone.
fn told_once(alloc: Global, sentences: &[String], rule: Rule) -> Result<String, AllocError> {
    let reason = reason(rule);
    let mut words = Words::new(alloc);
    for (index, sentence) in sentences.iter().enumerate() {
        words.add(if index > 0 { "; " } else { "" });
        words.add(bare(sentence.as_str(), reason));
    }
    words.add(": ");
    words.add(reason);
    words.finish()
}

/// A sentence without what it is for.
fn bare<'s>(sentence: &'s str, reason: &str) -> &'s str {
    match sentence.strip_suffix(reason) {
        Some(left) => left.strip_suffix(": ").unwrap_or(left),
        None => sentence,
    }
}
