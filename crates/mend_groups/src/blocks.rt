//! Several edits that belong together.

use absstate::{Abs, Kind, Rule};
use driver_set::{Instr, Register, SpinLock, Turns};
use mend_candidates::Gathered;
use mend_candidates::scene::{Scene, registers};
use mend_changes::{Change, Landing, with_label};
use mend_reading::Manner;
use mend_reading::acts::leaves;
use mend_reading::form::{are_pair, same_lock};
use mend_reading::operands::{is_register, number_put};

/// Several edits that belong together, for a scene.
#[derive(Clone, Copy)]
pub(crate) struct Blocks<'a> {
    pub(crate) scene: &'a Scene<'a>,
}

impl<'a> Blocks<'a> {
    /// Adds the blocks that the rule asks for.
    pub(crate) fn add_blocks(&self, out: &mut Gathered) {
        if self.scene.are_numbers && self.scene.differing.len() > 1 {
            self.add_clears(out);
        }
        self.add_swaps(out);
        match self.scene.fault.rule {
            Rule::Guard => {
                self.add_kept_locks(out);
                self.add_right_locks(out);
            }
            Rule::Malformed => self.add_loops(out),
            Rule::Unreachable
            | Rule::StatesDiffer
            | Rule::WrongKind
            | Rule::DoubleCompletion
            | Rule::MarkIrpPending
            | Rule::CancelSpinLock
            | Rule::SpinLock
            | Rule::LockHeld
            | Rule::Level
            | Rule::CancelState
            | Rule::Dropped
            | Rule::Token
            | Rule::Sort
            | Rule::Completion
            | Rule::StackTooSmall
            | Rule::NoLower
            | Rule::TooLong
            | Rule::Memory => {}
        }
    }

    /// Adds that a jump out of a loop or back is mended, or the other half of a loop.
    fn add_loops(&self, out: &mut Gathered) {
        match self.scene.bad.label() {
            Some(label) if label > self.scene.fault.at => self.add_turn_end(label, out),
            Some(label) if label < self.scene.fault.at => self.add_loop(label, out),
            Some(_) | None => self.add_halves(out),
        }
    }

    /// Adds that two neighbours change places, and labels stay where they are.
    fn add_swaps(&self, out: &mut Gathered) {
        for at in 0..=self.scene.last() {
            self.add_swap(at, out);
        }
        if let Some(label) = self.scene.bad.label() {
            if label > self.scene.fault.at {
                self.add_swap(label.saturating_sub(1), out);
            }
        }
    }

    /// Adds that an instruction and the one behind it change places, where a label is between.
    fn add_swap(&self, at: u16, out: &mut Gathered) {
        let behind = at.saturating_add(1);
        let Some(first) = self.scene.code.get(at as usize) else {
            return;
        };
        let Some(second) = self.scene.code.get(behind as usize) else {
            return;
        };
        let fresh = self.scene.is_fresh(at) && self.scene.is_fresh(behind);
        if !fresh || !self.scene.is_target(behind) {
            return;
        }
        let cost = self.scene.near(at).saturating_add(125);
        let one = out.begin(Manner::Block, cost, None, None);
        out.change(at, Change::Replace(*second));
        out.change(behind, Change::Replace(*first));
        out.end(one);
    }

    /// Adds the other half of a loop, where one of its ends is missing.
    fn add_halves(&self, out: &mut Gathered) {
        if matches!(self.scene.bad, Instr::Loop(_)) {
            for at in self.scene.fault.at.saturating_add(2)..self.scene.len() {
                self.add_half(at, &Instr::End, out);
            }
        }
        if matches!(self.scene.bad, Instr::End) {
            self.add_starts(out);
        }
    }

    /// Adds the start of a loop, whose end is there.
    fn add_starts(&self, out: &mut Gathered) {
        let Some(turns) = self.usual_turns() else {
            return;
        };
        let start = Instr::Loop(turns);
        for at in 0..self.scene.fault.at {
            self.add_half(at, &start, out);
        }
    }

    /// Adds one half of a loop before a position.
    fn add_half(&self, at: u16, half: &Instr, out: &mut Gathered) {
        let cost = self.scene.near(at).saturating_add(90);
        let one = out.begin(Manner::Block, cost, None, None);
        out.add(one, at, Change::Insert(*half, Landing::Kept));
        if self.scene.is_target(at) {
            let one = out.begin(Manner::Block, cost, None, None);
            out.add(one, at, Change::Insert(*half, Landing::Taken));
        }
    }

    /// The turns of another loop of the routine, or else 100.
    fn usual_turns(&self) -> Option<Turns> {
        for instr in self.scene.code {
            if let Instr::Loop(turns) = *instr {
                return Some(turns);
            }
        }
        Turns::of(100)
    }

    /// Adds clears of all registers that differ.
    fn add_clears(&self, out: &mut Gathered) {
        for at in 1..=self.scene.last() {
            if !self.scene.is_left_before(at) {
                self.add_clears_at(at, Landing::Kept, out);
            }
            if self.scene.is_target(at) {
                self.add_clears_at(at, Landing::Taken, out);
            }
        }
    }

    fn add_clears_at(&self, at: u16, landing: Landing, out: &mut Gathered) {
        let cost = self.scene.near(at).saturating_add(90);
        let one = out.begin(Manner::Block, cost, None, None);
        for register in self.scene.differing.iter().rev() {
            out.change(at, Change::Insert(Instr::Clear(*register), landing));
        }
        out.end(one);
    }

    /// Adds that a lock is kept: a release and the acquisition behind it go.
    fn add_kept_locks(&self, out: &mut Gathered) {
        for at in 0..=self.scene.last() {
            let end = at.saturating_add(5).min(self.scene.len());
            for behind in at.saturating_add(1)..end {
                if self.are_needless(at, behind) {
                    let cost = self.scene.near(at).saturating_add(110);
                    let one = out.begin(Manner::Block, cost, None, None);
                    out.change(behind, Change::Delete);
                    out.change(at, Change::Delete);
                    out.end(one);
                }
            }
        }
    }

    /// Whether a lock is released at one position and acquired at another on the only way from
    /// there.
    fn are_needless(&self, at: u16, behind: u16) -> bool {
        let (Some(release), Some(lock)) = (self.scene.instr(at), self.scene.instr(behind)) else {
            return false;
        };
        if !are_pair(&lock, &release) {
            return false;
        }
        let passed = self
            .scene
            .code
            .get(at as usize..behind as usize)
            .unwrap_or_default();
        let is_left = passed.iter().any(|instr| leaves(instr));
        let led = (at.saturating_add(1)..=behind).any(|place| self.scene.is_target(place));
        !is_left && !led
    }

    /// Adds that the right lock is taken for another one, throughout.
    fn add_right_locks(&self, out: &mut Gathered) {
        let (Some(right), Some(state)) = (
            self.scene.guard_wanted(),
            self.scene.state(self.scene.fault.at),
        ) else {
            return;
        };
        let before = self
            .scene
            .code
            .get(..self.scene.fault.at as usize)
            .unwrap_or_default();
        for (at, instr) in before.iter().enumerate() {
            let Instr::Acquire(wrong) = *instr else {
                continue;
            };
            if wrong.index() != right.index() && state.locks[wrong.index()] {
                self.add_right_lock(at, instr, right, out);
            }
        }
    }

    /// Adds that a lock is taken for the one that is acquired at a position, and released for it.
    fn add_right_lock(&self, at: usize, wrong: &Instr, right: SpinLock, out: &mut Gathered) {
        let place = u16::try_from(at).unwrap_or(u16::MAX);
        let cost = self.scene.near(place).saturating_add(110);
        let one = out.begin(Manner::Block, cost, None, None);
        out.change(place, Change::Replace(Instr::Acquire(right)));
        for (behind, instr) in self
            .scene
            .code
            .iter()
            .enumerate()
            .skip(at.saturating_add(1))
        {
            if !same_lock(instr, wrong) {
                continue;
            }
            if matches!(*instr, Instr::Acquire(_)) {
                break;
            }
            let behind = u16::try_from(behind).unwrap_or(u16::MAX);
            out.change(behind, Change::Replace(Instr::Release(right)));
        }
        out.end(one);
    }

    /// Adds that the jumps out of a loop lead to its end, where what a turn acquired is released.
    fn add_turn_end(&self, label: u16, out: &mut Gathered) {
        let loops = &self.scene.reading.loops;
        let Some(start) = loops.round(self.scene.fault.at as usize) else {
            return;
        };
        if loops.round(label as usize) == Some(start) {
            return;
        }
        let ends = (self.scene.fault.at..self.scene.len()).find(|at| {
            let ends = matches!(self.scene.instr(*at), Some(Instr::End));
            ends && loops.opened_at(*at as usize) == Some(start)
        });
        if let Some(end) = ends {
            self.add_turn_end_at(start, end, out);
        }
    }

    fn add_turn_end_at(&self, start: u16, end: u16, out: &mut Gathered) {
        let one = out.begin(Manner::Block, 130, None, None);
        let to = if self.add_releases(start, end, out) {
            end.saturating_add(1)
        } else {
            end
        };
        for at in start..end {
            let jump = self
                .scene
                .instr(at)
                .filter(|instr| instr.label().is_some_and(|to| to > end));
            if let (Some(instr), true) = (
                jump,
                self.scene.are_in_same_loops(at, self.scene.fault.at),
            ) {
                out.change(at, Change::Replace(with_label(instr, to)));
            }
        }
        out.end(one);
    }

    /// Adds the releases of what a turn acquired before the end of its loop, and a jump past them;
    /// and answers whether there are any.
    fn add_releases(&self, start: u16, end: u16, out: &mut Gathered) -> bool {
        let (Some(here), Some(before)) = (
            self.scene.state(self.scene.fault.at),
            self.scene.state(start),
        ) else {
            return false;
        };
        let mut count = 0_u16;
        for lock in self.scene.locks.as_slice() {
            if is_acquired(&here, &before, lock) {
                out.change(end, Change::Insert(Instr::Release(*lock), Landing::Kept));
                count = count.saturating_add(1);
            }
        }
        if count > 0 {
            let past = Instr::Jump(end.saturating_add(count).saturating_add(1));
            out.change(end, Change::Insert(past, Landing::Kept));
        }
        count > 0
    }

    /// Adds a loop of 100 turns round what a jump back leads to.
    fn add_loop(&self, label: u16, out: &mut Gathered) {
        let jumps = matches!(
            self.scene.bad,
            Instr::JumpIfZero(..) | Instr::JumpIfLess(..)
        );
        let Some(turns) = Turns::of(100) else {
            return;
        };
        if jumps && self.scene.are_in_same_loops(label, self.scene.fault.at) {
            self.add_loop_round(label, turns, out);
        }
    }

    /// Adds a loop of so many turns from what a jump back leads to up to the jump.
    fn add_loop_round(&self, label: u16, turns: Turns, out: &mut Gathered) {
        let behind = self.scene.fault.at.saturating_add(1);
        let one = out.begin(Manner::Block, 90, None, None);
        out.change(behind, Change::Insert(Instr::End, Landing::Kept));
        for register in registers().into_iter().rev() {
            if self.is_set_in(register, label) {
                let clear = Instr::Clear(register);
                out.change(behind, Change::Insert(clear, Landing::Kept));
            }
        }
        let jump = with_label(self.scene.bad, behind);
        out.change(self.scene.fault.at, Change::Replace(jump));
        out.change(label, Change::Insert(Instr::Loop(turns), Landing::Taken));
        out.end(one);
    }

    /// Whether a number is put into a register, blank before, between a position and the fault.
    fn is_set_in(&self, register: Register, first: u16) -> bool {
        let blank = self
            .scene
            .state(first)
            .is_some_and(|state| state.kinds[register.index()] == Kind::Blank);
        let body = self
            .scene
            .code
            .get(first as usize..self.scene.fault.at as usize)
            .unwrap_or_default();
        blank
            && body
                .iter()
                .any(|instr| is_register(number_put(instr), register))
    }
}

/// Whether a spin lock is held here that wasn't before.
fn is_acquired(here: &Abs, before: &Abs, lock: &SpinLock) -> bool {
    here.locks[lock.index()] && !before.locks[lock.index()]
}
