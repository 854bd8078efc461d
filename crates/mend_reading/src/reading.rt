//! A routine read as the verifier reads it, with the states on the way. What is found here leads
//! the search; it is the verifier who judges what is offered.

use crate::acts::{Act, act_of};
use crate::loops::Loops;
use absstate::{Abs, Rule, Tracked, are_same, broken_rule, transfer};
use driver_set::{Driver, DriverSet, Instr, Sort};
use model::limits::{MAX_CERTIFICATE, MAX_LOOPS};
use std::alloc::{AllocError, Global};

/// A routine of the driver of a number, of a set, with its own number.
#[derive(Clone, Copy)]
pub struct Subject<'a> {
    pub set: &'a DriverSet,
    pub driver: u8,
    pub routine: u8,
    pub sort: Sort,
    pub entry: Option<Abs>,
}

impl<'a> Subject<'a> {
    /// The routine of a number, of the driver of a number, if it is there.
    pub fn of(set: &'a DriverSet, driver: u8, routine: u8) -> Option<Subject<'a>> {
        let there = set.drivers().get(driver as usize)?;
        let code = there.routines.as_slice().get(routine as usize)?;
        Some(Subject {
            set,
            driver,
            routine,
            sort: code.sort,
            entry: verifier::entry(set, driver, routine, code),
        })
    }

    /// Its driver.
    pub fn its_driver(&self) -> Option<&Driver> {
        self.set.drivers().get(self.driver as usize)
    }

    /// Whether an instruction breaks no rule in a state.
    pub fn takes(&self, state: &Tracked, instr: &Instr) -> bool {
        broken_rule(state, instr, self.sort, self.set, self.driver).is_none()
    }
}

/// A fault of a routine: its position, and the rule that is broken there.
#[derive(Clone, Copy)]
pub struct Fault {
    pub at: u16,
    pub rule: Rule,
}

/// What is known of a routine up to its first fault.
#[derive(Drop)]
pub struct Reading {
    /// The first state that arrives at each position.
    states: Vec<Option<Abs>>,
    /// The one that the instruction before each hands on.
    falls: Vec<Option<Abs>>,
    /// Another one that arrives there.
    others: Vec<Option<Abs>>,
    pub loops: Loops,
    certificate: u64,
    pub fault: Option<Fault>,
}

impl Reading {
    /// A reading of nothing.
    pub fn new(alloc: Global) -> Reading {
        Reading {
            states: Vec::new(alloc),
            falls: Vec::new(alloc),
            others: Vec::new(alloc),
            loops: Loops::new(alloc),
            certificate: 0,
            fault: None,
        }
    }

    /// Reads code in place of a routine's own.
    pub fn read(&mut self, subject: &Subject, code: &[Instr]) -> Result<(), AllocError> {
        self.clear(code)?;
        if let Some(entry) = subject.entry {
            self.arrive(0, entry);
        }
        self.read_from(subject, code, 0);
        Ok(())
    }

    /// Reads code that is that of another reading before a position, but for the labels.
    pub fn read_behind(
        &mut self,
        subject: &Subject,
        code: &[Instr],
        before: &Reading,
        known: usize,
    ) -> Result<(), AllocError> {
        if known == 0 {
            return self.read(subject, code);
        }
        self.clear(code)?;
        for at in 0..known {
            self.take_over(subject, code, before, at);
        }
        if let Some(state) = before.fall(known) {
            set(&mut self.falls, known, state);
            self.arrive(known, state);
        }
        self.read_from(subject, code, known);
        Ok(())
    }

    /// Forgets all, and makes room for code.
    fn clear(&mut self, code: &[Instr]) -> Result<(), AllocError> {
        self.states.clear();
        self.falls.clear();
        self.others.clear();
        self.states.resize(code.len(), None)?;
        self.falls.resize(code.len(), None)?;
        self.others.resize(code.len(), None)?;
        self.certificate = 0;
        self.fault = None;
        self.loops.read(code)
    }

    /// Takes what is known at a position from another reading, and what it hands on to a label.
    fn take_over(&mut self, subject: &Subject, code: &[Instr], before: &Reading, at: usize) {
        let Some(state) = before.state(at) else {
            return;
        };
        set(&mut self.states, at, state);
        if let Some(fall) = before.fall(at) {
            set(&mut self.falls, at, fall);
        }
        let (_, turns) = self.loops.turns(code, at);
        self.certificate = self.certificate.saturating_add(turns);
        let Some(instr) = code.get(at) else {
            return;
        };
        if let Some(label) = instr.label() {
            let outs = transfer(&state, instr, subject.sort, subject.set, subject.driver);
            if let Some(jumped) = outs.ok().and_then(|outs| outs.jump) {
                self.arrive(label as usize, jumped);
            }
        }
    }

    /// Reads on from a position to the first fault.
    fn read_from(&mut self, subject: &Subject, code: &[Instr], first: usize) {
        if code.is_empty() {
            self.fault = Some(Fault {
                at: 0,
                rule: Rule::Malformed,
            });
        }
        for at in first..code.len() {
            if let Err(rule) = self.step(subject, code, at) {
                let at = u16::try_from(at).unwrap_or(u16::MAX);
                self.fault = Some(Fault { at, rule });
                return;
            }
        }
    }

    /// Takes what arrives at a position through the instruction there, or names the rule that is
    /// broken.
    fn step(&mut self, subject: &Subject, code: &[Instr], at: usize) -> Result<(), Rule> {
        let Some(instr) = code.get(at) else {
            return Ok(());
        };
        if self.is_malformed(code, instr, at) {
            return Err(Rule::Malformed);
        }
        if subject.entry.is_none() {
            return Err(Rule::Sort);
        }
        let state = self.state(at).ok_or(Rule::Unreachable)?;
        if self.other(at).is_some() || self.closes_unlike(instr, at, &state) {
            return Err(Rule::StatesDiffer);
        }
        let outs = transfer(&state, instr, subject.sort, subject.set, subject.driver)?;
        let (_, turns) = self.loops.turns(code, at);
        self.certificate = self.certificate.saturating_add(turns);
        if self.certificate > MAX_CERTIFICATE {
            return Err(Rule::TooLong);
        }
        if let Some(next) = outs.next {
            let behind = at.saturating_add(1);
            set(&mut self.falls, behind, next);
            self.arrive(behind, next);
        }
        if let (Some(label), Some(jumped)) = (instr.label(), outs.jump) {
            self.arrive(label as usize, jumped);
        }
        Ok(())
    }

    /// Whether an instruction can't stand at its position.
    fn is_malformed(&self, code: &[Instr], instr: &Instr, at: usize) -> bool {
        if at.saturating_add(1) >= code.len() && !matches!(*instr, Instr::Ret(_)) {
            return true;
        }
        if let Some(label) = instr.label() {
            let label = label as usize;
            return label <= at
                || label >= code.len()
                || self.loops.round(label) != self.loops.round(at);
        }
        match act_of(instr) {
            Act::Loop => !self.loops.is_closed(at) || self.loops.turns(code, at).0 >= MAX_LOOPS,
            Act::End => self.loops.opened_at(at).is_none(),
            Act::Number
            | Act::Leave
            | Act::Mark
            | Act::Lock
            | Act::Waiting
            | Act::Packet
            | Act::Down => false,
        }
    }

    /// Whether an instruction ends a loop that was entered in another state, which is noted.
    fn closes_unlike(&mut self, instr: &Instr, at: usize, state: &Abs) -> bool {
        if !matches!(*instr, Instr::End) {
            return false;
        }
        let start = self
            .loops
            .opened_at(at)
            .and_then(|start| self.state(start as usize));
        match start {
            Some(start) if !are_same(&start, state) => {
                set(&mut self.others, at, start);
                true
            }
            _ => false,
        }
    }

    /// Notes that a state arrives at a position.
    fn arrive(&mut self, at: usize, state: Abs) {
        match self.state(at) {
            None => set(&mut self.states, at, state),
            Some(first) if are_same(&first, &state) => {}
            Some(_) => set(&mut self.others, at, state),
        }
    }

    /// The first state that arrives at a position.
    pub fn state(&self, at: usize) -> Option<Abs> {
        self.states.get(at).copied().flatten()
    }

    /// The state that the instruction before a position hands on to it.
    pub fn fall(&self, at: usize) -> Option<Abs> {
        self.falls.get(at).copied().flatten()
    }

    /// Another state that arrives at a position.
    pub fn other(&self, at: usize) -> Option<Abs> {
        self.others.get(at).copied().flatten()
    }
}

/// Puts a state into a table.
fn set(table: &mut Vec<Option<Abs>>, at: usize, state: Abs) {
    if let Some(place) = table.get_mut(at) {
        *place = Some(state);
    }
}
