//! What is looked for, and how much may be tried for it.

use driver_set::{Driver, DriverSet};

/// What an offer costs, at most, that is sure, in hundredths, and by how much it leads.
pub const SURE: u32 = 300;

pub const LEAD: u32 = 40;

/// Offers for a routine, at most.
pub const MAX_OFFERS: usize = 3;

/// What an offer may cost more than the first.
const WINDOW: u32 = 100;

/// How many edits are tried for advice, and how many instructions are copied for them, at most.
const ADVICE_TRIES: u64 = 2_000;

const ADVICE_WORK: u64 = 500_000;

/// How many jumps may be put into a routine for which advice is looked for, at most.
const ADVICE_JUMPS: usize = 200_000;

/// What is looked for: so many mends of a routine, of which each costs little more than the first,
/// and none more than the dearest may.
#[derive(Clone, Copy)]
pub struct Aim {
    /// How many edits are tried, at most.
    pub(crate) tries: u64,
    /// How many instructions are copied for them, at most.
    pub(crate) work: u64,
    /// How many jumps may be put into the routine, at most.
    pub(crate) jumps: usize,
    pub(crate) offers: usize,
    pub(crate) window: u32,
    pub(crate) dearest: u32,
    /// What a mend costs more than the first, at least, that isn't looked for.
    pub(crate) rivals: u32,
}

impl Aim {
    /// All offers that may be told, after so many tries at most.
    pub fn offers(tries: u64) -> Aim {
        Aim {
            tries,
            work: u64::MAX,
            jumps: usize::MAX,
            offers: MAX_OFFERS,
            window: WINDOW,
            dearest: u32::MAX,
            rivals: u32::MAX,
        }
    }

    /// The first offer, and whether one comes near it.
    pub fn first() -> Aim {
        Aim {
            tries: ADVICE_TRIES,
            work: ADVICE_WORK,
            jumps: ADVICE_JUMPS,
            offers: 2,
            window: LEAD,
            dearest: u32::MAX,
            rivals: u32::MAX,
        }
    }

    /// The best mend of another routine alone, whatever it costs: what costs more isn't looked for.
    pub fn of_others(self) -> Aim {
        Aim {
            offers: 1,
            window: 0,
            dearest: u32::MAX,
            rivals: 1,
            ..self
        }
    }

    /// The first offer, if it is sure: none that costs more than its rivals may counts.
    pub fn sure() -> Aim {
        Aim {
            dearest: SURE + LEAD,
            rivals: LEAD,
            ..Aim::first()
        }
    }
}

/// How many instructions are read, at most, for the advice on a routine: those of its tries, and
/// the set, which is copied and judged.
pub fn read_for_advice(set: &DriverSet, driver: u8, routine: u8) -> u64 {
    let size = size_of(set) as u64;
    let tried = match set.drivers().get(driver as usize) {
        Some(driver) => length_of(driver, routine).saturating_mul(ADVICE_TRIES),
        None => 0,
    };
    size.saturating_mul(2)
        .saturating_add(tried.min(ADVICE_WORK))
}

/// How many instructions a routine of a driver has.
fn length_of(driver: &Driver, routine: u8) -> u64 {
    match driver.routines.as_slice().get(routine as usize) {
        Some(routine) => routine.code.as_slice().len() as u64,
        None => 0,
    }
}

/// How many instructions a set has.
pub(crate) fn size_of(set: &DriverSet) -> usize {
    let mut size = 0_usize;
    for driver in set.drivers() {
        size = size.saturating_add(size_of_driver(driver));
    }
    size
}

/// How many a driver has.
fn size_of_driver(driver: &Driver) -> usize {
    let mut size = 0_usize;
    for routine in driver.routines.as_slice() {
        size = size.saturating_add(routine.code.as_slice().len());
    }
    size
}
