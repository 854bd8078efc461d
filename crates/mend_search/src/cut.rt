//! The part of a long routine that is searched: what stands far before its fault is left out.

use absstate::Abs;
use driver_set::Instr;
use mend_changes::{Change, with_label};
use mend_reading::{Placed, Reading, Subject};
use std::alloc::{AllocError, Global};

/// How many positions before a fault are edited at least, if they are there: an edit of one farther
/// off costs too much to be sure.
const REACH: usize = 80;

/// Where the part of a routine begins that is searched: at its start, or behind it in a state.
#[derive(Clone, Copy)]
pub(crate) struct Cut {
    first: u16,
    state: Option<Abs>,
    /// The positions up to the fault, times those to the end: as many jumps may be put in.
    pub(crate) jumps: usize,
}

impl Cut {
    /// The cut of a routine with a fault, as far behind its start as nothing but the instruction
    /// before it leads there or past it, and no loop is round it.
    pub(crate) fn of(alloc: Global, subject: &Subject, code: &[Instr]) -> Result<Cut, AllocError> {
        let mut reading = Reading::new(alloc);
        reading.read(subject, code)?;
        let at = match &reading.fault {
            Some(fault) => usize::from(fault.at),
            None => 0,
        };
        let place = first_alone(&reading, code, at.saturating_sub(REACH));
        let (first, state) = match (u16::try_from(place), reading.state(place)) {
            (Ok(first), Some(state)) if first > 0 => (first, Some(state)),
            _ => (0, None),
        };
        let before = at.saturating_sub(usize::from(first)).saturating_add(1);
        let all = code.len().saturating_sub(usize::from(first));
        Ok(Cut {
            first,
            state,
            jumps: before.saturating_mul(all),
        })
    }

    /// A routine as it is searched.
    pub(crate) fn subject<'a>(self, subject: Subject<'a>) -> Subject<'a> {
        match self.state {
            Some(state) => Subject {
                entry: Some(state),
                ..subject
            },
            None => subject,
        }
    }

    /// The code that is searched, with its labels as its own positions count.
    pub(crate) fn code(self, alloc: Global, whole: &[Instr]) -> Result<Vec<Instr>, AllocError> {
        let mut code = Vec::new(alloc);
        for instr in whole.iter().skip(self.first as usize) {
            code.push(lowered(*instr, self.first))?;
        }
        Ok(code)
    }

    /// A change of the code that is searched as one of the whole.
    pub(crate) fn raised(self, placed: &Placed) -> Placed {
        let first = self.first;
        let change = match placed.change {
            Change::Insert(instr, landing) => Change::Insert(raised(instr, first), landing),
            Change::Replace(instr) => Change::Replace(raised(instr, first)),
            Change::Move(to, landing) => Change::Move(to.saturating_add(first), landing),
            other => other,
        };
        Placed {
            at: placed.at.saturating_add(first),
            change,
        }
    }
}

/// The last position up to one round which there is no loop, and past which no jump leads.
fn first_alone(reading: &Reading, code: &[Instr], last: usize) -> usize {
    let (mut alone, mut farthest) = (0_usize, 0_usize);
    for (at, instr) in code.iter().enumerate().take(last.saturating_add(1)) {
        if farthest <= at && reading.loops.opened_at(at).is_none() {
            alone = at;
        }
        farthest = farthest.max(instr.label().map_or(0, usize::from));
    }
    alone
}

/// An instruction whose label counts from a position.
fn lowered(instr: Instr, first: u16) -> Instr {
    match instr.label() {
        Some(label) => with_label(instr, label.saturating_sub(first)),
        None => instr,
    }
}

/// One whose label counts from the start again.
fn raised(instr: Instr, first: u16) -> Instr {
    match instr.label() {
        Some(label) => with_label(instr, label.saturating_add(first)),
        None => instr,
    }
}
