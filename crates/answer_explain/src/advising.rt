//! How a refusal is mended, in words: by the first offer for it where that is sure, and else by the
//! sentence of its rule.

ghost use Rattle.std.specs.Prelude.{IfOk};
ghost use Rattle.model.specs.Typable.{IsFirstFault};
ghost use Rattle.mend_offers.specs.Offers.{AreOffersOf};

use asm_line::listing;
use drvhost_devices::extent::Extent;
use image::DriverSet;
use mend_edits::Change;
use mend_offers::advice::{find_likely, find_sure};
use mend_offers::advise;
use mend_offers::offers::Mending;
use model::abs::Refusal;
use model::items::Items;
use std::alloc::{AllocError, Global};
use verifier_names::{Origin, Source};

/// What stands before the sentence of a rule, which is the last of the words on a refusal.
const MEND: &str = "\nmend it: ";

/// What is offered for the faults of a set, and the text whose lines the offers are about.
#[derive(Drop)]
pub struct Advisor<'a> {
    text: Source<'a>,
    pub offers: Items<Mending>,
}

impl<'a> Advisor<'a> {
    /// What is soon found for the first fault of a set that was read from there, or for each.
    ///
    /// # Errors
    ///
    /// When memory runs out.
    pub fn of(
        alloc: Global,
        extent: Extent,
        origin: Origin<'a>,
        set: &DriverSet,
        refusal: &Refusal,
    ) -> Result<Advisor<'a>, AllocError>
        requires { IsFirstFault set.now refusal.now }
        ensures { IfOk result (λ advisor. AreOffersOf set.now advisor.offers) }
    {
        let offers = offers_for(alloc, extent, set, refusal)?;
        let text = match origin {
            Origin::Text(text) => Source::Text(text),
            Origin::Image => Source::Listing(listing(alloc, set)?),
        };
        Ok(Advisor {
            text,
            offers: Items::of(offers),
        })
    }

    /// The words on a refusal, with what is offered in the place of the sentence of its rule.
    ///
    /// # Errors
    ///
    /// When memory runs out.
    pub fn advised(
        &self,
        alloc: Global,
        set: &DriverSet,
        refusal: &Refusal,
        told: &str,
    ) -> Result<String, AllocError>
        requires { AreOffersOf set.now self.now.offers }
    {
        Ok(self.advised_with(alloc, set, refusal, told)?.words)
    }

    /// The same words, with the changes of the text that they offer for the first fault of the set:
    /// those for another one go with the offers before it.
    ///
    /// # Errors
    ///
    /// When memory runs out.
    pub fn advised_with(
        &self,
        alloc: Global,
        set: &DriverSet,
        refusal: &Refusal,
        told: &str,
    ) -> Result<Advised, AllocError>
        requires { AreOffersOf set.now self.now.offers }
    {
        let (text, offers) = (self.text.bytes(), self.offers.as_slice());
        let mut words = String::new(alloc);
        let found = advise(alloc, text, set, offers, refusal)?;
        let (Some(advice), Some((before, _sentence))) = (found, told.rsplit_once(MEND)) else {
            words.push_str(told)?;
            let changes = Vec::new(alloc);
            return Ok(Advised { words, changes });
        };
        words.push_str(before)?;
        words.push_str(MEND)?;
        words.push_str(advice.words.as_str())?;
        words.push_str("\n")?;
        let changes = if self.is_first(refusal) {
            advice.changes
        } else {
            Vec::new(alloc)
        };
        Ok(Advised { words, changes })
    }

    /// Whether a refusal is that of the first routine for which anything is offered.
    fn is_first(&self, refusal: &Refusal) -> bool {
        match self.offers.as_slice().first() {
            Some(first) => {
                let Refusal {
                    driver,
                    routine,
                    ..
                } = first.refusal;
                driver == refusal.driver && routine == refusal.routine
            }
            None => false,
        }
    }
}

/// Words on a refusal, and the changes of the text that they offer: none, where they offer none.
#[derive(Drop)]
pub struct Advised {
    pub words: String,
    pub changes: Vec<Change>,
}

/// The words on a refusal up to how it is mended, and how it is.
pub fn why_and_mend(words: &str) -> (&str, &str) {
    match words.rsplit_once(MEND) {
        Some((why, mend)) => (why, mend.trim_end()),
        None => (words.trim_end(), ""),
    }
}

/// What is soon found for the first fault of a set, or for each.
fn offers_for(
    alloc: Global,
    extent: Extent,
    set: &DriverSet,
    refusal: &Refusal,
) -> Result<Vec<Mending>, AllocError>
    requires { IsFirstFault set.now refusal.now }
    ensures { IfOk result (λ mendings. AreOffersOf set.now mendings.items) }
{
    match extent {
        Extent::First => find_sure(alloc, set, refusal),
        Extent::Each => find_likely(alloc, set),
    }
}
