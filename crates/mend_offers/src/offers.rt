//! Mends of a refused driver set: small edits after which the verifier accepts it.

ghost use Rattle.std.specs.Prelude.{◌≡◌, ◌↔◌, [], All, IsTrue, IfNone, IfOk, IfSome, Some};
ghost use Rattle.mend_changes.specs.Edited.{edited_by};
ghost use Rattle.model.specs.Typable.{IsFirstFault};
ghost use Rattle.mend_offers.specs.Offers.{AreOffers, AreAllOffersOf, IsKept, IsLater, IsLeft};
ghost use Rattle.mend_offers.specs.Offers.{IsOffer};
ghost use Rattle.mend_offers.specs.Offers.{IsUnmended, IsUnmendedBelow, IsWhole, NoneTakenOut};
ghost use Rattle.mend_offers.specs.Offers.{after_first, taken_out};

use crate::spread::completed;
use driver_set::{DriverSet, Items};
use mend_changes::{Change, Edit, edited_by};
use mend_search::aim::{LEAD, MAX_OFFERS, SURE};
use mend_search::{Aim, Found, find_mends};
use std::alloc::{AllocError, Global};
use verifier::{Accepted, Refusal, Rule, verify};

/// Whether an offer is most likely what was meant.
#[derive(Clone, Copy, PartialEq, Eq)]
pub enum Standing {
    /// It is the first, costs little, and none comes near it.
    Sure,
    /// It is one of several.
    Guess,
}

/// Edits after which the first fault of a set is gone, with the routine's others.
#[derive(Drop)]
pub struct Offer {
    /// What is to be done, one after another.
    pub edits: Items<Edit>,
    /// How unlikely it is what was meant, in hundredths.
    pub cost: u32,
    pub standing: Standing,
    /// The first fault of the set that they make, in a later routine, if it isn't accepted.
    pub left: Option<Refusal>,
}

/// A routine with a fault, the first of its set, and what is offered for it: three offers at most,
/// the best first.
#[derive(Drop)]
pub struct Mending {
    pub refusal: Refusal,
    pub offers: Items<Offer>,
}

/// A set with the first offers, and what the verifier says of it.
#[derive(Drop)]
pub enum Ending {
    Accepted(Accepted),
    Refused(DriverSet, Refusal),
}

/// The mends of a set, routine after routine: each mending is of the set that the first offers of
/// those before make. One without an offer is the last.
#[derive(Drop)]
pub struct Offers {
    pub mendings: Items<Mending>,
    pub ending: Ending,
}

/// Routines with faults that are looked at, at most: as many as a set may have.
pub(crate) const MAX_MENDINGS: u16 = 256;

/// What it costs to take out an instruction that the search wouldn't.
const TAKEN_OUT: u32 = 400;

/// The mends of a set: none where it is accepted. So many edits are tried for each routine with a
/// fault, at most.
///
/// # Errors
///
/// When memory runs out.
pub fn find_offers(alloc: Global, set: &DriverSet, tries: u64) -> Result<Offers, AllocError>
    ensures { IfOk result (AreAllOffersOf set.now) }
{
    let Ok(copy) = set.copy(alloc) else {
        return Err(AllocError);
    };
    offers_for(alloc, copy, tries, MAX_MENDINGS)
}

/// The mends of a set, of so many routines at most.
#[cycle(mending)]
fn offers_for(alloc: Global, set: DriverSet, tries: u64, turns: u16) -> Result<Offers, AllocError>
    ensures { IfOk result (AreAllOffersOf set) }
{
    match verify(alloc, set) {
        Ok(accepted) => Ok(Offers {
            mendings: Items::of(Vec::new(alloc)),
            ending: Ending::Accepted(accepted),
        }),
        Err((back, refusal)) => {
            if refusal.rule == Rule::Memory {
                return Err(AllocError);
            }
            if turns == 0 {
                return Ok(Offers {
                    mendings: Items::of(Vec::new(alloc)),
                    ending: Ending::Refused(back, refusal),
                });
            }
            offers_at(alloc, back, refusal, tries, turns - 1)
        }
    }
}

/// The mends of a set with this first fault.
#[cycle(mending)]
fn offers_at(
    alloc: Global,
    set: DriverSet,
    refusal: Refusal,
    tries: u64,
    turns: u16,
) -> Result<Offers, AllocError>
    requires { IsFirstFault set refusal }
    ensures { IfOk result (AreAllOffersOf set) }
{
    let offers = offers_of(alloc, &set, &refusal, tries)?;
    let Some(next) = first_made(alloc, &set, &refusal, offers.as_slice())? else {
        return unmended(alloc, set, refusal);
    };
    let rest = offers_for(alloc, next, tries, turns)?;
    let mut mendings = rest.mendings.into_vec();
    let mending = Mending {
        refusal,
        offers: Items::of(offers),
    };
    mendings.insert(0, mending)?;
    Ok(Offers {
        mendings: Items::of(mendings),
        ending: rest.ending,
    })
}

/// That nothing is offered for a set with this first fault.
fn unmended(alloc: Global, set: DriverSet, refusal: Refusal) -> Result<Offers, AllocError>
    requires first { IsFirstFault set refusal }
    requires none { NoneTakenOut set refusal }
    ensures { IfOk result (AreAllOffersOf set) }
{
    let mut mendings = Vec::new(alloc);
    mendings.push(Mending {
        refusal,
        offers: Items::of(Vec::new(alloc)),
    })?;
    Ok(Offers {
        mendings: Items::of(mendings),
        ending: Ending::Refused(set, refusal),
    })
}

/// What the first offer makes of a set, if there is one.
fn first_made(
    alloc: Global,
    set: &DriverSet,
    refusal: &Refusal,
    offers: &[Offer],
) -> Result<Option<DriverSet>, AllocError>
    requires { All (IsOffer set.now refusal.now) offers.now }
    ensures made { IfOk result
        (λ made. IfSome made (λ next. next ≡ after_first set.now offers.now)) }
    ensures none { IfOk result (λ made. IfNone made (offers.now ≡ [])) }
{
    let Some(offer) = offers.first() else {
        return Ok(None);
    };
    Ok(Some(made_by(alloc, set, refusal, offer)?))
}

/// What an offer makes of a set.
pub(crate) fn made_by(
    alloc: Global,
    set: &DriverSet,
    refusal: &Refusal,
    offer: &Offer,
) -> Result<DriverSet, AllocError>
    requires { IsOffer set.now refusal.now offer.now }
    ensures { IfOk result (λ made. edited_by set.now offer.now.edits ≡ Some made) }
{
    match edited_by(alloc, set, offer.edits.as_slice())? {
        Some(made) => Ok(made),
        None => unreachable!(),
    }
}

/// The offers for the first fault of a set, each of which was judged: where the search finds none,
/// that one instruction is taken out, if that mends it.
fn offers_of(
    alloc: Global,
    set: &DriverSet,
    refusal: &Refusal,
    tries: u64,
) -> Result<Vec<Offer>, AllocError>
    ensures { IfOk result (λ offers. IsWhole set.now refusal.now offers.items) }
{
    let mut offers = offers_found(alloc, set, refusal, tries)?;
    if offers.is_empty() {
        if let Some(offer) = offer_to_take_out(alloc, set, refusal)? {
            offers.push(offer)?;
        }
    }
    Ok(offers)
}

/// An offer to take out one instruction, at the fault or before it, if there is one.
fn offer_to_take_out(
    alloc: Global,
    set: &DriverSet,
    refusal: &Refusal,
) -> Result<Option<Offer>, AllocError>
    ensures offer { IfOk result (λ offer. IfSome offer (IsOffer set.now refusal.now)) }
    ensures none { IfOk result (λ offer. IfNone offer (NoneTakenOut set.now refusal.now)) }
{
    for at in 0..refusal.at {
        if let Some(offer) = taken_out(alloc, set, refusal, at)? {
            return Ok(Some(offer));
        }
    }
    taken_out(alloc, set, refusal, refusal.at)
}

/// An offer to take out the instruction at a position, if it is one.
fn taken_out(
    alloc: Global,
    set: &DriverSet,
    refusal: &Refusal,
    at: u16,
) -> Result<Option<Offer>, AllocError>
    ensures offer { IfOk result (λ offer. IfSome offer (IsOffer set.now refusal.now)) }
    ensures none { IfOk result
        (λ offer. IfNone offer (IsUnmended set.now refusal.now (taken_out refusal.now at))) }
{
    let edit = Edit {
        driver: refusal.driver,
        routine: refusal.routine,
        at,
        change: Change::Delete,
    };
    let price = Price {
        cost: TAKEN_OUT,
        standing: Standing::Guess,
    };
    judged(alloc, set, refusal, &[edit], price)
}

/// The offers that the search finds for the first fault of a set, each of which was judged.
fn offers_found(
    alloc: Global,
    set: &DriverSet,
    refusal: &Refusal,
    tries: u64,
) -> Result<Vec<Offer>, AllocError>
    ensures { IfOk result (λ offers. AreOffers set.now refusal.now offers.items) }
{
    let aim = Aim::offers(tries);
    let found = find_mends(alloc, set, refusal.driver, refusal.routine, aim)?;
    let mut offers = Vec::new(alloc);
    for (place, one) in found.iter().enumerate() {
        if offers.len() >= MAX_OFFERS {
            break;
        }
        let standing = standing_of(found.as_slice(), place);
        let Some(offer) = judged_mend(alloc, set, refusal, one, standing, aim)? else {
            continue;
        };
        offers.push(offer)?;
    }
    Ok(offers)
}

/// An offer of a mend that was found, with those of the routines that it reaches into, if the
/// verifier finds that it is one.
pub(crate) fn judged_mend(
    alloc: Global,
    set: &DriverSet,
    refusal: &Refusal,
    found: &Found,
    standing: Standing,
    aim: Aim,
) -> Result<Option<Offer>, AllocError>
    ensures { IfOk result (λ offer. IfSome offer (IsOffer set.now refusal.now)) }
{
    let edits = completed(alloc, set, refusal, found, aim)?;
    let price = Price {
        cost: found.cost,
        standing,
    };
    judged(alloc, set, refusal, edits.as_slice(), price)
}

/// What an offer is among those that were found.
pub(crate) fn standing_of(found: &[Found], place: usize) -> Standing {
    let (Some(first), 0) = (found.first(), place) else {
        return Standing::Guess;
    };
    let leads = match found.get(1) {
        Some(second) => second.cost >= first.cost.saturating_add(LEAD),
        None => true,
    };
    if first.cost < SURE && leads {
        Standing::Sure
    } else {
        Standing::Guess
    }
}

/// What an offer costs, and how it stands among the others.
#[derive(Clone, Copy)]
struct Price {
    cost: u32,
    standing: Standing,
}

/// An offer of edits, if the verifier finds no fault in the routine of a refusal, nor in one before
/// it, behind them.
fn judged(
    alloc: Global,
    set: &DriverSet,
    refusal: &Refusal,
    edits: &[Edit],
    price: Price,
) -> Result<Option<Offer>, AllocError>
    ensures offer { IfOk result (λ offer. IfSome offer (IsOffer set.now refusal.now)) }
    ensures none { IfOk result
        (λ offer. IfNone offer (IsUnmended set.now refusal.now edits.now)) }
{
    let Some(made) = edited_by(alloc, set, edits)? else {
        return Ok(None);
    };
    let Some(left) = left_of(alloc, made, refusal)? else {
        return Ok(None);
    };
    Ok(Some(Offer {
        edits: Items::of(Vec::from_slice(alloc, edits)?),
        cost: price.cost,
        standing: price.standing,
        left,
    }))
}

/// What the verifier says of a set in which the routine of a refusal was mended: none, or the first
/// fault, if that is in a later routine.
fn left_of(
    alloc: Global,
    made: DriverSet,
    refusal: &Refusal,
) -> Result<Option<Option<Refusal>>, AllocError>
    ensures left { IfOk result (λ left. IfSome left (IsLeft made refusal.now)) }
    ensures kept { IfOk result (λ left. IfNone left (IsKept made refusal.now)) }
{
    match verify(alloc, made) {
        Ok(_accepted) => Ok(Some(None)),
        Err((_made, left)) => {
            if left.rule == Rule::Memory {
                return Err(AllocError);
            }
            if is_later(&left, refusal) {
                Ok(Some(Some(left)))
            } else {
                Ok(None)
            }
        }
    }
}

/// Whether a refusal speaks of a later routine than another one.
pub(crate) fn is_later(later: &Refusal, refusal: &Refusal) -> bool
    ensures { IsTrue result ↔ IsLater later.now refusal.now }
{
    refusal.driver < later.driver
        || later.driver == refusal.driver && refusal.routine < later.routine
}
