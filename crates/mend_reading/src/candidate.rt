//! Candidates: edits that may mend a routine, with their costs.

use driver_set::Instr;
use mend_changes::{Change, Landing};
use std::alloc::{AllocError, Global};

/// What kind of edit a candidate is.
#[derive(Clone, Copy, PartialEq, Eq)]
pub enum Manner {
    Insert,
    Delete,
    Move,
    Replace,
    Retarget,
    /// Several instructions put in that belong together.
    Template,
    /// Several edits that belong together.
    Block,
    /// An edit of what is no instruction.
    Line,
}

/// A change at a position.
#[derive(Clone, Copy)]
pub struct Placed {
    pub at: u16,
    pub change: Change,
}

/// Changes that are made one after another, and count as one edit.
#[derive(Clone, Copy)]
pub struct Candidate {
    pub manner: Manner,
    /// What it costs, in hundredths.
    pub cost: u32,
    /// The instruction that it puts in or moves, where it is one.
    pub new: Option<Instr>,
    /// The one that stood there, or is moved.
    pub old: Option<Instr>,
    first: usize,
    count: usize,
}

impl Candidate {
    /// The candidate at another cost.
    pub fn at_cost(self, cost: u32) -> Candidate {
        Candidate { cost, ..self }
    }
}

/// A list of candidates, in order.
#[derive(Drop)]
pub struct Candidates {
    list: Vec<Candidate>,
    changes: Vec<Placed>,
}

impl Candidates {
    /// None yet.
    pub fn new(alloc: Global) -> Candidates {
        Candidates {
            list: Vec::new(alloc),
            changes: Vec::new(alloc),
        }
    }

    /// Forgets all of them.
    pub fn clear(&mut self) {
        self.list.clear();
        self.changes.clear();
    }

    /// All of them, in order.
    pub fn as_slice(&self) -> &[Candidate] {
        self.list.as_slice()
    }

    /// The changes of one of them.
    pub fn changes_of(&self, candidate: &Candidate) -> &[Placed] {
        let end = candidate.first.saturating_add(candidate.count);
        self.changes.get(candidate.first..end).unwrap_or_default()
    }

    /// Begins a candidate, of one instruction in place of another where it is of such: the changes
    /// that are added from now on are its.
    pub fn begin(
        &self,
        manner: Manner,
        cost: u32,
        new: Option<Instr>,
        old: Option<Instr>,
    ) -> Candidate {
        Candidate {
            manner,
            cost,
            new,
            old,
            first: self.changes.len(),
            count: 0,
        }
    }

    /// Adds a change to the candidate that was begun.
    pub fn change(&mut self, at: u16, change: Change) -> Result<(), AllocError> {
        self.changes.push(Placed { at, change })?;
        Ok(())
    }

    /// Ends the candidate that was begun.
    pub fn end(&mut self, candidate: Candidate) -> Result<(), AllocError> {
        let count = self.changes.len().saturating_sub(candidate.first);
        self.list.push(Candidate { count, ..candidate })?;
        Ok(())
    }

    /// Adds a candidate of one change.
    pub fn add(&mut self, candidate: Candidate, at: u16, change: Change) -> Result<(), AllocError> {
        self.change(at, change)?;
        self.end(candidate)
    }

    /// Adds instructions that are put before a position together. Their labels count from the
    /// first of them; those behind the last are of what stood at the position.
    pub fn add_template(
        &mut self,
        cost: u32,
        at: u16,
        landing: Landing,
        lines: &[Instr],
    ) -> Result<(), AllocError> {
        let candidate = self.begin(Manner::Template, cost, None, None);
        for (place, instr) in lines.iter().enumerate().rev() {
            let place = u16::try_from(place).unwrap_or(u16::MAX);
            let instr = led(*instr, place, at);
            self.change(at, Change::Insert(instr, landing))?;
        }
        self.end(candidate)
    }
}

/// An instruction whose label counts from the first of the lines it stands in at a place, as it is
/// put before a position: those behind it stand there already.
fn led(instr: Instr, place: u16, at: u16) -> Instr {
    match instr.label() {
        Some(label) => {
            let ahead = label.saturating_sub(place);
            mend_changes::with_label(instr, at.saturating_add(ahead))
        }
        None => instr,
    }
}
