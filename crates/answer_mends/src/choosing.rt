//! Which offers are made: the first of each faulty routine, and then those with another one of one
//! routine, by what that costs more.

use mend_offers::offers::{Mending, Offers};
use std::alloc::{AllocError, Global};

/// How many are tried at most.
const MOST: usize = 8;

/// The first offer of each mending, but of one of them another one.
#[derive(Clone, Copy)]
pub(crate) struct Choice {
    pub mending: usize,
    pub offer: usize,
    /// What it costs more than the first.
    more: u32,
}

/// Those that are tried, by what they cost.
pub(crate) fn choices(alloc: Global, found: &Offers) -> Result<Vec<Choice>, AllocError> {
    let mut all = Vec::new(alloc);
    let mendings = found.mendings.as_slice();
    if let Some(first) = mendings.first() {
        if !first.offers.as_slice().is_empty() {
            all.push(Choice {
                mending: 0,
                offer: 0,
                more: 0,
            })?;
        }
    }
    for (place, mending) in mendings.iter().enumerate() {
        add_others(&mut all, place, mending)?;
    }
    all.truncate(MOST);
    Ok(all)
}

/// Adds the other offers of a mending.
fn add_others(all: &mut Vec<Choice>, place: usize, mending: &Mending) -> Result<(), AllocError> {
    let Some(first) = mending.offers.as_slice().first() else {
        return Ok(());
    };
    for (number, offer) in mending.offers.as_slice().iter().enumerate().skip(1) {
        add(
            all,
            Choice {
                mending: place,
                offer: number,
                more: offer.cost.saturating_sub(first.cost),
            },
        )?;
    }
    Ok(())
}

/// Adds a choice before those that cost more.
fn add(all: &mut Vec<Choice>, choice: Choice) -> Result<(), AllocError> {
    match all.iter().position(|other| other.more > choice.more) {
        Some(place) => all.insert(place, choice)?,
        None => all.push(choice)?,
    }
    Ok(())
}
