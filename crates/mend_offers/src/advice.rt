//! Mends that are soon found: less is tried for them, and less is judged, than for those of
//! [`offers`](crate::offers).

ghost use Rattle.std.specs.Prelude.{◌≡◌, [], ◌∷◌, IfOk, IfSome};
ghost use Rattle.model.specs.Typable.{IsFirstFault};
ghost use Rattle.mend_offers.specs.Offers.{AreOffersOf, IsOffer};

use crate::offers::{MAX_MENDINGS, Mending, Offer, Standing, judged_mend, made_by, standing_of};
use driver_set::{DriverSet, Items};
use mend_search::aim::read_for_advice;
use mend_search::{Aim, find_mends};
use std::alloc::{AllocError, Global};
use verifier::{Refusal, Rule, verify};

/// How many instructions are read for the mends of a set, at most.
const ALLOWED: u64 = 4_000_000;

/// The mend of the first fault of a set, if one that is sure is soon found.
///
/// # Errors
///
/// When memory runs out.
pub fn find_sure(
    alloc: Global,
    set: &DriverSet,
    refusal: &Refusal,
) -> Result<Vec<Mending>, AllocError>
    requires { IsFirstFault set.now refusal.now }
    ensures { IfOk result (λ mendings. AreOffersOf set.now mendings.items) }
{
    match sure_offer(alloc, set, refusal)? {
        Some(offer) => alone(alloc, set, refusal, offer),
        None => Ok(Vec::new(alloc)),
    }
}

/// That one offer is made.
fn alone(
    alloc: Global,
    set: &DriverSet,
    refusal: &Refusal,
    offer: Offer,
) -> Result<Vec<Mending>, AllocError>
    requires first { IsFirstFault set.now refusal.now }
    requires offer { IsOffer set.now refusal.now offer }
    ensures { IfOk result (λ mendings. AreOffersOf set.now mendings.items) }
{
    let mut mendings = Vec::new(alloc);
    mendings.push(mending_of(alloc, *refusal, offer)?)?;
    Ok(mendings)
}

/// A mending with this offer alone.
fn mending_of(alloc: Global, refusal: Refusal, offer: Offer) -> Result<Mending, AllocError>
    ensures { IfOk result
        (λ mending. (mending.refusal ≡ refusal) × (mending.offers ≡ offer ∷ [])) }
{
    let mut offers = Vec::new(alloc);
    offers.push(offer)?;
    Ok(Mending {
        refusal,
        offers: Items::of(offers),
    })
}

/// The first offer for the first fault of a set, if it is sure.
fn sure_offer(
    alloc: Global,
    set: &DriverSet,
    refusal: &Refusal,
) -> Result<Option<Offer>, AllocError>
    ensures { IfOk result (λ offer. IfSome offer (IsOffer set.now refusal.now)) }
{
    let aim = Aim::sure();
    let found = find_mends(alloc, set, refusal.driver, refusal.routine, aim)?;
    let standing = standing_of(found.as_slice(), 0);
    match found.first() {
        Some(first) if standing == Standing::Sure => {
            judged_mend(alloc, set, refusal, first, standing, aim)
        }
        _ => Ok(None),
    }
}

/// The mends of a set, routine after routine, each the first offer, as far as they are soon found.
///
/// # Errors
///
/// When memory runs out.
pub fn find_likely(alloc: Global, set: &DriverSet) -> Result<Vec<Mending>, AllocError>
    ensures { IfOk result (λ mendings. AreOffersOf set.now mendings.items) }
{
    let Ok(copy) = set.copy(alloc) else {
        return Err(AllocError);
    };
    likely_for(alloc, copy, ALLOWED, MAX_MENDINGS)
}

/// The mends of a set, of so many routines at most, for which so many instructions are read.
#[cycle(advising)]
fn likely_for(
    alloc: Global,
    set: DriverSet,
    left: u64,
    turns: u16,
) -> Result<Vec<Mending>, AllocError>
    ensures { IfOk result (λ mendings. AreOffersOf set mendings.items) }
{
    match verify(alloc, set) {
        Ok(_accepted) => Ok(Vec::new(alloc)),
        Err((back, refusal)) => {
            if refusal.rule == Rule::Memory {
                return Err(AllocError);
            }
            let left = left.saturating_sub(read_for_advice(&back, refusal.driver, refusal.routine));
            if left == 0 || turns == 0 {
                return Ok(Vec::new(alloc));
            }
            likely_at(alloc, back, refusal, left, turns - 1)
        }
    }
}

/// The mends of a set with this first fault.
#[cycle(advising)]
fn likely_at(
    alloc: Global,
    set: DriverSet,
    refusal: Refusal,
    left: u64,
    turns: u16,
) -> Result<Vec<Mending>, AllocError>
    requires { IsFirstFault set refusal }
    ensures { IfOk result (λ mendings. AreOffersOf set mendings.items) }
{
    let Some(offer) = likely_offer(alloc, &set, &refusal)? else {
        return Ok(Vec::new(alloc));
    };
    let next = made_by(alloc, &set, &refusal, &offer)?;
    let mut mendings = likely_for(alloc, next, left, turns)?;
    mendings.insert(0, mending_of(alloc, refusal, offer)?)?;
    Ok(mendings)
}

/// The first offer for the first fault of a set, if there is one.
fn likely_offer(
    alloc: Global,
    set: &DriverSet,
    refusal: &Refusal,
) -> Result<Option<Offer>, AllocError>
    ensures { IfOk result (λ offer. IfSome offer (IsOffer set.now refusal.now)) }
{
    let aim = Aim::first();
    let found = find_mends(alloc, set, refusal.driver, refusal.routine, aim)?;
    for (place, one) in found.iter().enumerate() {
        let standing = standing_of(found.as_slice(), place);
        if let Some(offer) = judged_mend(alloc, set, refusal, one, standing, aim)? {
            return Ok(Some(offer));
        }
    }
    Ok(None)
}
