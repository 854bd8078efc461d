//! How usual it is which words stand beside which.

use crate::form::{TOKENS, are_pair, differ, start, token};
use crate::table::EXAMPLES;
use driver_set::{Driver, DriverSet, Instr, Sort};
use std::alloc::{AllocError, Global};

/// How often each word stands behind each, or first in a routine of a sort.
#[derive(Drop)]
pub struct Usual {
    counts: Vec<u32>,
}

impl Usual {
    /// As in the examples and in the routines of a set.
    pub fn of(alloc: Global, set: &DriverSet) -> Result<Usual, AllocError> {
        let counts = vec![in alloc; 0; TOKENS * TOKENS]?;
        let mut usual = Usual { counts };
        for (before, word, count) in EXAMPLES {
            usual.add(before, word, u32::from(count));
        }
        for driver in set.drivers() {
            usual.add_driver(driver);
        }
        Ok(usual)
    }

    /// Counts the words of a driver.
    fn add_driver(&mut self, driver: &Driver) {
        for routine in driver.routines.as_slice() {
            self.add_code(routine.sort, routine.code.as_slice());
        }
    }

    /// Counts the words of a routine.
    fn add_code(&mut self, sort: Sort, code: &[Instr]) {
        let mut before = start(sort);
        for instr in code {
            let word = token(instr);
            self.add(before, word, 1);
            before = word;
        }
    }

    /// Counts that a word stands so often behind another one.
    fn add(&mut self, before: u8, word: u8, often: u32) {
        if let Some(count) = self.counts.get_mut(place(before, word)) {
            *count = count.saturating_add(often);
        }
    }

    /// How unusual the neighbours in a routine are, in hundredths of a half.
    pub fn strangeness(&self, sort: Sort, code: &[Instr]) -> u32 {
        let mut sum = 0_u32;
        let mut before = start(sort);
        for instr in code {
            let word = token(instr);
            let count = self.counts.get(place(before, word)).copied().unwrap_or(0);
            sum = sum.saturating_add(1000 / count.saturating_add(1));
            before = word;
        }
        sum / 20
    }
}

/// The place of the count of a word behind another one.
fn place(before: u8, word: u8) -> usize {
    (before as usize)
        .saturating_mul(TOKENS)
        .saturating_add(word as usize)
}

/// How many returns have another status than the completion before them.
pub fn mismatches(code: &[Instr]) -> u32 {
    let mut count = 0_u32;
    for (one, other) in code.iter().zip(code.iter().skip(1)) {
        if differ(one, other) {
            count = count.saturating_add(1);
        }
    }
    count
}

/// How many locks are released where they were acquired, or acquired where they were released.
pub fn empties(code: &[Instr]) -> u32 {
    let mut count = 0_u32;
    for (one, other) in code.iter().zip(code.iter().skip(1)) {
        if are_pair(one, other) || are_pair(other, one) {
            count = count.saturating_add(1);
        }
    }
    count
}
