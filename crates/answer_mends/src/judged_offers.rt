//! Offers, each of which was judged by its diff.

ghost use Rattle.std.specs.Prelude.{◌≡◌, ◌++◌, IfOk, OnOk};
ghost use Rattle.text.specs.Cut.{lines_of};
ghost use Rattle.answer_mends.specs.Mend.{AreOffers, any_whole, are_words, diff_shown, extent_text};
ghost use Rattle.answer_mends.specs.Mend.{is_sure, offer_head, offer_text, offers_text};

use crate::choosing::choices;
use crate::judging::{Extent, Judged, judge};
use crate::proposing::{Proposal, propose};
use driver_set::DriverSet;
use mend_offers::offers::find_offers;
use model::abs::Refusal;
use model::items::Items;
use std::alloc::{AllocError, Global};
use text::cut::Lines;

/// How many offers are made at most.
const MOST: usize = 3;

/// An offer: how much it mends, words on it, the sentences among them that tell its changes, and its
/// diff.
#[derive(Drop)]
pub(crate) struct Offer {
    pub extent: Extent,
    pub words: String,
    pub sentences: Vec<String>,
    pub diff: String,
    /// What the diff makes of the text.
    pub made: Items<u8>,
}

/// Offers mends of a text that names a refused set.
pub(crate) fn make_offers(
    alloc: Global,
    tries: u64,
    text: &[u8],
    set: &DriverSet,
    refusal: &Refusal,
) -> Result<Vec<Offer>, AllocError>
    ensures { IfOk result (λ offers. AreOffers refusal.now text.now offers.items) }
{
    let found = find_offers(alloc, set, tries)?;
    let mut offers = Vec::new(alloc);
    let all = choices(alloc, &found)?;
    for choice in all {
        if offers.len() < MOST {
            if let Some(proposal) = propose(alloc, text, set, &found, choice)? {
                add_judged(alloc, &mut offers, text, refusal, proposal)?;
            }
        }
    }
    Ok(offers)
}

/// Adds what is proposed, if it mends something.
fn add_judged(
    alloc: Global,
    offers: &mut Vec<Offer>,
    text: &[u8],
    refusal: &Refusal,
    proposal: Proposal,
) -> Result<(), AllocError>
    requires { AreOffers refusal.now text.now offers.old.items }
    ensures { OnOk result (AreOffers refusal.now text.now offers.new.items) }
{
    let Proposal {
        words,
        sentences,
        diff,
    } = proposal;
    if !are_words(words.as_bytes()) {
        return Ok(());
    }
    if let Some(judged) = judge(alloc, text, refusal, diff.as_bytes())? {
        let Judged { extent, made } = judged;
        offers.push(Offer {
            extent,
            words,
            sentences,
            diff,
            made,
        })?;
    }
    Ok(())
}

/// Whether one of some offers is of the whole.
pub(crate) fn any_whole(offers: &[Offer]) -> bool
    ensures { result ≡ any_whole offers.now }
{
    offers.iter().any(|offer| offer.extent.is_whole())
}

/// Whether the words on an offer say that it is sure.
pub(crate) fn is_sure(words: &[u8]) -> bool
    ensures { result ≡ is_sure words.now }
{
    words.starts_with(b"sure")
}

/// Adds offers, one behind another.
pub(crate) fn add_offers(
    alloc: Global,
    text: &mut Vec<u8>,
    offers: &[Offer],
) -> Result<(), AllocError>
    ensures { OnOk result (text.new.items ≡ text.old.items ++ offers_text 1 offers.now) }
{
    for (place, offer) in offers.iter().enumerate() {
        add_offer(alloc, text, place as u64 + 1, offer)?;
    }
    Ok(())
}

/// Adds the offer of a number.
fn add_offer(
    alloc: Global,
    text: &mut Vec<u8>,
    number: u64,
    offer: &Offer,
) -> Result<(), AllocError>
    ensures { OnOk result (text.new.items ≡ text.old.items ++ offer_text number offer.now) }
{
    add_head(alloc, text, offer.extent, number)?;
    text.extend_from_slice(offer.words.as_bytes())?;
    add_diff(text, offer.diff.as_bytes())
}

/// Adds the beginning of an offer.
fn add_head(
    alloc: Global,
    text: &mut Vec<u8>,
    extent: Extent,
    number: u64,
) -> Result<(), AllocError>
    ensures { OnOk result (text.new.items ≡ text.old.items ++ offer_head extent number) }
{
    let mut head = String::new(alloc);
    write!(head, "mend {number}")?;
    text.extend_from_slice(head.as_bytes())?;
    text.extend_from_slice(extent_text(extent))?;
    Ok(())
}

/// Adds a diff behind words.
fn add_diff(text: &mut Vec<u8>, diff: &[u8]) -> Result<(), AllocError>
    ensures { OnOk result (text.new.items ≡ text.old.items ++ diff_shown diff.now) }
{
    text.extend_from_slice(b"\n--- set\n+++ mended\n")?;
    text.extend_from_slice(diff)?;
    Ok(())
}

/// Whether words can be told from a diff behind them.
fn are_words(words: &[u8]) -> bool
    ensures { result ≡ are_words (lines_of words.now) }
{
    let mut left = Lines::of(words);
    while let Some(line) = left.next() {
        if line.starts_with(b"---") {
            return false;
        }
    }
    true
}

/// How much is mended, in words.
fn extent_text(extent: Extent) -> &'static [u8]
    ensures { result.now ≡ extent_text extent }
{
    match extent {
        Extent::Whole => b" of the whole: ",
        Extent::Part(_) => b" of a part: ",
    }
}
