//! Moves of one instruction.

use crate::gathered::Gathered;
use crate::scene::Scene;
use absstate::Rule;
use driver_set::Instr;
use mend_changes::{Change, Landing};
use mend_reading::Manner;
use mend_reading::acts::leaves;
use mend_reading::operands::{interfere, number_put};

/// How many instructions one is moved over, at most.
const FARTHEST: u16 = 14;

impl<'a> Scene<'a> {
    /// Adds the moves that change something at or before the fault.
    pub(crate) fn add_moves(&self, out: &mut Gathered) {
        let farthest = self.fault.at.saturating_add(FARTHEST).saturating_add(1);
        for from in 0..self.len().min(farthest) {
            let Some(instr) = self.instr(from) else {
                continue;
            };
            let ends = leaves(&instr) || matches!(instr, Instr::End);
            let stays = ends || matches!(instr, Instr::Loop(_)) && !self.is_entered(from);
            if !stays && self.is_fresh(from) && from.saturating_add(1) < self.len() {
                self.add_moves_of(from, &instr, out);
            }
        }
    }

    /// Whether the fault is a jump into the loop that starts behind it, at a position.
    fn is_entered(&self, start: u16) -> bool {
        let is_behind = self.fault.rule == Rule::Malformed && self.fault.at < start;
        let label = self.bad.label();
        is_behind && label.is_some_and(|to| self.reading.loops.round(to as usize) == Some(start))
    }

    /// Adds the moves of an instruction.
    fn add_moves_of(&self, from: u16, instr: &Instr, out: &mut Gathered) {
        let first = from.saturating_sub(FARTHEST);
        let end = from
            .saturating_add(FARTHEST)
            .saturating_add(2)
            .min(self.len());
        for to in first..end {
            let stays = to == from || to == from.saturating_add(1);
            if stays || to.min(from) > self.fault.at {
                continue;
            }
            let cost = self.move_cost(from, to, instr);
            let one = out.begin(Manner::Move, cost, Some(*instr), Some(*instr));
            out.add(one, from, Change::Move(to, Landing::Kept));
            if self.is_target(to) {
                let one = out.begin(Manner::Move, cost, Some(*instr), Some(*instr));
                out.add(one, from, Change::Move(to, Landing::Taken));
            }
        }
    }

    /// What a move costs.
    fn move_cost(&self, from: u16, to: u16, instr: &Instr) -> u32 {
        let fault = self.fault.at;
        let (low, high) = (from.min(to), from.max(to));
        let far = if to > from {
            to.saturating_sub(from.saturating_add(1))
        } else {
            from - to
        };
        let place = from.max(to).min(fault).max(low);
        let mut cost = u32::from(far).saturating_mul(5);
        cost = cost.saturating_add(least_cost(instr));
        cost = cost.saturating_add(self.near(place));
        if from != fault && to != fault && to != fault.saturating_add(1) {
            cost = cost.saturating_add(30);
        }
        if self.is_disturbed(from, to, instr) {
            cost = cost.saturating_add(80);
        }
        if self.leaves_lock(from, to, instr) {
            cost = cost.saturating_add(50);
        }
        let passed = self
            .code
            .get(low as usize..high as usize)
            .unwrap_or_default();
        if passed.iter().any(|other| matches!(*other, Instr::Ret(_))) {
            cost = cost.saturating_add(60);
        }
        if self.gives(from, to, instr) {
            cost.saturating_sub(40)
        } else {
            cost
        }
    }

    /// Whether an instruction is moved over one, but the faulty one, that uses its registers.
    fn is_disturbed(&self, from: u16, to: u16, instr: &Instr) -> bool {
        let (first, end) = if to > from {
            (from.saturating_add(1), to)
        } else {
            (to, from)
        };
        let passed = self
            .code
            .get(first as usize..end as usize)
            .unwrap_or_default();
        for (place, other) in passed.iter().enumerate() {
            let faulty = place.saturating_add(first as usize) == self.fault.at as usize;
            if !faulty && interfere(instr, other) {
                return true;
            }
        }
        false
    }

    /// Whether a cell is used where a lock is held, and wouldn't be.
    fn leaves_lock(&self, from: u16, to: u16, instr: &Instr) -> bool {
        if !matches!(*instr, Instr::Load(..) | Instr::Store(..)) {
            return false;
        }
        let (Some(one), Some(other)) = (self.state(from), self.state(to)) else {
            return false;
        };
        for lock in self.locks.as_slice() {
            if one.locks[lock.index()] && !other.locks[lock.index()] {
                return true;
            }
        }
        false
    }

    /// Whether an instruction is moved that sets the register which the faulty one wants set.
    fn gives(&self, from: u16, to: u16, instr: &Instr) -> bool {
        let up = from > self.fault.at && to <= self.fault.at;
        let wanted = self.fault.rule == Rule::WrongKind && up;
        wanted && number_put(instr).is_some_and(|r| self.is_named(r))
    }
}

/// What it costs at least to move an instruction: a loop moves where nothing nearer helps.
fn least_cost(instr: &Instr) -> u32 {
    if matches!(*instr, Instr::Loop(_)) {
        340
    } else {
        120
    }
}
