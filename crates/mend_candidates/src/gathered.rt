//! Candidates as they are gathered: who adds needs no exit for each of them, and asks once, at the
//! end, whether memory ran out.

use driver_set::Instr;
use mend_changes::{Change, Landing};
use mend_reading::{Candidate, Candidates, Manner};
use std::alloc::{AllocError, Global};

/// Candidates, in order, and whether one of them is missing.
#[derive(Drop)]
pub struct Gathered {
    pub candidates: Candidates,
    lacks: bool,
}

impl Gathered {
    /// None yet.
    pub fn new(alloc: Global) -> Gathered {
        Gathered {
            candidates: Candidates::new(alloc),
            lacks: false,
        }
    }

    /// Forgets all of them.
    pub fn clear(&mut self) {
        self.candidates.clear();
        self.lacks = false;
    }

    /// Begins a candidate, of one instruction in place of another where it is of such: the changes
    /// that are added from now on are its.
    pub fn begin(
        &self,
        manner: Manner,
        cost: u32,
        new: Option<Instr>,
        old: Option<Instr>,
    ) -> Candidate {
        self.candidates.begin(manner, cost, new, old)
    }

    /// Adds a change to the candidate that was begun.
    pub fn change(&mut self, at: u16, change: Change) {
        if self.candidates.change(at, change).is_err() {
            self.lacks = true;
        }
    }

    /// Ends the candidate that was begun.
    pub fn end(&mut self, candidate: Candidate) {
        if self.candidates.end(candidate).is_err() {
            self.lacks = true;
        }
    }

    /// Adds a candidate of one change.
    pub fn add(&mut self, candidate: Candidate, at: u16, change: Change) {
        if self.candidates.add(candidate, at, change).is_err() {
            self.lacks = true;
        }
    }

    /// Adds instructions that are put before a position together, with labels that count from the
    /// first of them.
    pub fn add_template(&mut self, cost: u32, at: u16, landing: Landing, lines: &[Instr]) {
        if self
            .candidates
            .add_template(cost, at, landing, lines)
            .is_err()
        {
            self.lacks = true;
        }
    }

    /// Notes what became of a list from which candidates were made.
    pub fn note(&mut self, done: Result<(), AllocError>) {
        if done.is_err() {
            self.lacks = true;
        }
    }

    /// Whether none is missing.
    ///
    /// # Errors
    ///
    /// When memory ran out where one was added.
    pub fn finish(&self) -> Result<(), AllocError> {
        if self.lacks {
            return Err(AllocError);
        }
        Ok(())
    }
}
