//! Insertions that name more than others: jumps on two numbers, the first packet of a queue, and
//! numbers from the cells that a routine writes.

use absstate::{Abs, Kind, Rule, Tracked};
use driver_set::{Instr, Register};
use mend_candidates::scene::{Scene, registers};
use mend_candidates::{Gathered, Guess};
use mend_changes::Landing;
use mend_reading::operands::names;

/// Such insertions, for a scene.
#[derive(Clone, Copy)]
pub(crate) struct Ways<'a> {
    pub(crate) scene: &'a Scene<'a>,
}

impl<'a> Ways<'a> {
    /// Adds those before each position up to the fault.
    pub(crate) fn add_ways(&self, out: &mut Gathered) {
        for at in 0..=self.scene.last() {
            if let Some(state) = self.scene.state(at) {
                self.add_ways_at(at, &state, out);
            }
        }
    }

    /// Adds those before a position that is reached in a state.
    fn add_ways_at(&self, at: u16, state: &Abs, out: &mut Gathered) {
        match self.scene.fault.rule {
            Rule::Unreachable => self.add_comparisons(at, state, out),
            Rule::WrongKind => self.add_values(at, state, out),
            Rule::Malformed
            | Rule::StatesDiffer
            | Rule::DoubleCompletion
            | Rule::MarkIrpPending
            | Rule::CancelSpinLock
            | Rule::SpinLock
            | Rule::LockHeld
            | Rule::Level
            | Rule::Guard
            | Rule::CancelState
            | Rule::Dropped
            | Rule::Token
            | Rule::Sort
            | Rule::Completion
            | Rule::StackTooSmall
            | Rule::NoLower
            | Rule::TooLong
            | Rule::Memory => {}
        }
    }

    /// Adds what puts something into a blank register that the faulty instruction names.
    fn add_values(&self, at: u16, state: &Abs, out: &mut Gathered) {
        for register in registers() {
            let blank = state.kinds[register.index()] == Kind::Blank;
            if blank && names(&self.scene.bad, register) {
                self.add_removals(at, state, register, out);
                self.add_loads(at, state, register, out);
            }
        }
    }

    /// Adds jumps on two numbers.
    fn add_comparisons(&self, at: u16, state: &Abs, out: &mut Gathered) {
        for register in registers() {
            if state.kinds[register.index()] == Kind::Num {
                self.add_comparisons_with(at, state, register, out);
            }
        }
    }

    fn add_comparisons_with(&self, at: u16, state: &Abs, register: Register, out: &mut Gathered) {
        for other in registers() {
            let number = state.kinds[other.index()] == Kind::Num;
            if number && other.index() != register.index() {
                self.add(at, state, Instr::JumpIfLess(register, other, 0), 30, out);
            }
        }
    }

    /// Adds that the first packet of a queue is taken off it.
    fn add_removals(&self, at: u16, state: &Abs, register: Register, out: &mut Gathered) {
        for q in 0..self.scene.queues() {
            self.add(at, state, Instr::Remove(register, q, 0), 0, out);
        }
    }

    /// Adds loads of the cells into which the register is stored.
    fn add_loads(&self, at: u16, state: &Abs, register: Register, out: &mut Gathered) {
        for instr in self.scene.code {
            if let Instr::Store(cell, stored) = *instr {
                if stored.index() == register.index() {
                    self.add(at, state, Instr::Load(register, cell), 0, out);
                }
            }
        }
    }

    /// Adds an insertion before a position, if no rule is against it.
    fn add(&self, at: u16, state: &Abs, instr: Instr, extra: u32, out: &mut Gathered) {
        let landing = if self.scene.is_target(at) {
            Landing::Taken
        } else {
            Landing::Kept
        };
        let guess = Guess { instr, extra };
        if self.scene.subject.takes(&Tracked::of(*state), &guess.instr) {
            self.scene.add_insert(at, landing, &guess, out);
        }
    }
}
