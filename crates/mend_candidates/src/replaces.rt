//! Replacements of a word or an operand.

use crate::gathered::Gathered;
use crate::growing::Growing;
use crate::guesses::{Guess, add_guess};
use crate::scene::{Scene, registers};
use absstate::{Rule, Tracked};
use driver_set::{Instr, Register, Return, Sort, SpinLock, Turns};
use mend_changes::{Change, with_label};
use mend_reading::Manner;
use mend_reading::form::form_of;
use mend_reading::operands::{names, queue_of, registers_of, with_first, with_queue, with_second};
use std::alloc::Global;

impl<'a> Scene<'a> {
    /// Adds the replacements at or before the fault.
    pub(crate) fn add_replaces(&self, alloc: Global, out: &mut Gathered) {
        let mut list = Growing::new(alloc);
        for at in 0..=self.last() {
            if let Some(instr) = self.code.get(at as usize) {
                self.add_replaces_of(at, instr, &mut list, out);
            }
        }
        out.note(list.finish());
    }

    /// Adds the replacements of an instruction, if it may be edited.
    fn add_replaces_of(
        &self,
        at: u16,
        instr: &Instr,
        list: &mut Growing<Guess>,
        out: &mut Gathered,
    ) {
        if !self.is_fresh(at) {
            return;
        }
        list.clear();
        self.guess_words(at, *instr, list);
        self.guess_registers(at, *instr, list);
        self.add_guessed(at, *instr, list.as_slice(), out);
        self.add_retargets(at, *instr, out);
    }

    /// Adds the replacements of an instruction that the rules take.
    fn add_guessed(&self, at: u16, instr: Instr, list: &[Guess], out: &mut Gathered) {
        let state = self.state(at).map(|state| Tracked::of(state));
        for guess in list {
            let taken = match &state {
                Some(state) => self.subject.takes(state, &guess.instr),
                None => true,
            };
            if taken && form_of(&guess.instr) != form_of(&instr) {
                let cost = guess.extra.saturating_add(self.near(at));
                let one = out.begin(Manner::Replace, cost, Some(guess.instr), Some(instr));
                out.add(one, at, Change::Replace(guess.instr));
            }
        }
    }

    /// Guesses what may stand in place of an instruction.
    fn guess_words(&self, at: u16, instr: Instr, list: &mut Growing<Guess>) {
        match instr {
            Instr::Ret(form) => self.guess_returns(at, form, list),
            Instr::Jump(_) => self.guess_leaving(at, list),
            Instr::Acquire(lock) => {
                self.guess_locks_that(true, list);
                self.guess_release(at, Instr::Release(lock), list);
            }
            Instr::Release(_) => self.guess_locks_that(false, list),
            Instr::AcquireCancel => self.guess_release(at, Instr::ReleaseCancel, list),
            Instr::Complete(r, _) => self.guess_statuses(at, r, list),
            Instr::Loop(turns) => self.guess_turns(turns.count(), list),
            Instr::LoadPaged(r, cell) => {
                let is_stored = self.is_stored_behind(at, &instr);
                add_guess(list, Instr::Load(r, cell), resident_cost(is_stored));
            }
            Instr::StorePaged(cell, r) => {
                let was_loaded = self.was_loaded_before(at, &instr);
                add_guess(list, Instr::Store(cell, r), resident_cost(was_loaded));
            }
            Instr::Pass(r) | Instr::Call(r, _) => self.guess_forwards(r, list),
            Instr::Insert(..)
            | Instr::Remove(..)
            | Instr::Unlink(..)
            | Instr::Arm(..)
            | Instr::Dequeue(_) => self.guess_queues(&instr, list),
            Instr::Const(..)
            | Instr::Move(..)
            | Instr::Clear(_)
            | Instr::Add(..)
            | Instr::Subtract(..)
            | Instr::JumpIfZero(..)
            | Instr::JumpIfLess(..)
            | Instr::End
            | Instr::Load(..)
            | Instr::Store(..)
            | Instr::Get(..)
            | Instr::Put(..)
            | Instr::Mark(_)
            | Instr::ReleaseCancel
            | Instr::Disarm(..)
            | Instr::IfCancel(..)
            | Instr::Start(_)
            | Instr::Take(..)
            | Instr::Begin(_)
            | Instr::Next
            | Instr::IfPending(..) => {}
        }
    }

    /// Guesses that a lock is released where the fault is, and not acquired.
    fn guess_release(&self, at: u16, release: Instr, list: &mut Growing<Guess>) {
        if at == self.fault.at {
            add_guess(list, release, 130);
        }
    }

    /// Guesses other returns.
    fn guess_returns(&self, at: u16, form: Return, list: &mut Growing<Guess>) {
        let Some(state) = self.state(at) else {
            return;
        };
        match form {
            Return::Stop => add_guess(list, Instr::Ret(Return::Continue), 220),
            Return::WithStatus(_) | Return::Lower(_) | Return::Continue | Return::Void => {
                self.add_returns(at, &state, 100, list);
            }
        }
    }

    /// Guesses a return in place of a jump to what another way ends with.
    fn guess_leaving(&self, at: u16, list: &mut Growing<Guess>) {
        let differ = self.fault.rule == Rule::StatesDiffer && !self.are_numbers;
        let leaves = differ || self.fault.rule == Rule::DoubleCompletion;
        if let (true, Some(state)) = (leaves, self.state(at)) {
            self.add_returns(at, &state, 150, list);
        }
    }

    /// Guesses other locks, which are acquired or released.
    fn guess_locks_that(&self, acquires: bool, list: &mut Growing<Guess>) {
        let wanted = self.guard_wanted();
        for lock in self.locks.as_slice() {
            let right = wanted.is_some_and(|wanted| wanted.index() == lock.index());
            let other = if acquires {
                Instr::Acquire(*lock)
            } else {
                Instr::Release(*lock)
            };
            add_guess(list, other, if right { 110 } else { 140 });
        }
    }

    /// The lock of the queue that the faulty instruction uses without it.
    pub fn guard_wanted(&self) -> Option<SpinLock> {
        if self.fault.rule != Rule::Guard {
            return None;
        }
        let number = queue_of(&self.bad)?;
        let queue = self.driver()?.queues.as_slice().get(number as usize)?;
        Some(queue.guard)
    }

    /// Guesses other statuses of a completion.
    fn guess_statuses(&self, at: u16, register: Register, list: &mut Growing<Guess>) {
        let right = self.status_at(at);
        let broken = self.fault.rule == Rule::MarkIrpPending && at == self.fault.at;
        for status in self.statuses.as_slice() {
            let cost = match broken {
                true if *status == right => 100,
                true => 140,
                false => 250,
            };
            add_guess(list, Instr::Complete(register, *status), cost);
        }
    }

    /// Guesses fewer turns.
    fn guess_turns(&self, turns: u16, list: &mut Growing<Guess>) {
        for fewer in [1_u16, 10, 100, 500] {
            if let (true, Some(count)) = (fewer < turns, Turns::of(fewer)) {
                let cost = self.cost_of_turns(fewer);
                add_guess(list, Instr::Loop(count), cost);
            }
        }
    }

    /// What so many turns cost.
    fn cost_of_turns(&self, turns: u16) -> u32 {
        if self.fault.rule != Rule::TooLong {
            300
        } else if turns == 100 {
            100
        } else {
            120
        }
    }

    /// Whether what a load reads from a cell is stored there soon behind it.
    fn is_stored_behind(&self, at: u16, load: &Instr) -> bool {
        let one = form_of(load);
        let end = at.saturating_add(5).min(self.len());
        let near = self.code.get(at as usize..end as usize).unwrap_or_default();
        near.iter().any(|other| {
            let two = form_of(other);
            let same = one.first == two.first && one.second == two.second;
            same && matches!(*other, Instr::Store(..))
        })
    }

    /// Whether the cell of a store was loaded shortly before it.
    fn was_loaded_before(&self, at: u16, store: &Instr) -> bool {
        let one = form_of(store);
        let first = at.saturating_sub(5);
        let near = self
            .code
            .get(first as usize..at.min(self.len()) as usize)
            .unwrap_or_default();
        near.iter().any(|other| {
            matches!(*other, Instr::Load(..)) && one.second == form_of(other).second
        })
    }

    /// Guesses other ways to send a packet down.
    fn guess_forwards(&self, r: Register, list: &mut Growing<Guess>) {
        add_guess(list, Instr::Call(r, None), 160);
        add_guess(list, Instr::Pass(r), 160);
        let Some(driver) = self.driver() else {
            return;
        };
        for (number, routine) in driver.routines.as_slice().iter().enumerate() {
            if matches!(routine.sort, Sort::Propagate | Sort::Hold) {
                add_guess(list, Instr::Call(r, Some(number.min(255) as u8)), 150);
            }
        }
    }

    /// Guesses other queues.
    fn guess_queues(&self, instr: &Instr, list: &mut Growing<Guess>) {
        if let Instr::Unlink(r, _) = *instr {
            add_guess(list, Instr::Dequeue(r), 150);
        }
        for q in 0..self.queues() {
            if let Some(other) = with_queue(*instr, q) {
                let cost = if matches!(other, Instr::Unlink(..)) {
                    140
                } else {
                    160
                };
                add_guess(list, other, cost);
            }
        }
    }

    /// Guesses other registers.
    fn guess_registers(&self, at: u16, instr: Instr, list: &mut Growing<Guess>) {
        if at != self.fault.at && self.fault.rule != Rule::Dropped {
            return;
        }
        for register in registers() {
            let used = self.code.iter().any(|other| names(other, register));
            if used || register.index() < 4 {
                guess_register(instr, register, if used { 160 } else { 180 }, list);
            }
        }
    }

    /// What it costs that a jump leads to another label, where others lead to its own, or none.
    fn retarget_cost(&self, at: u16, label: u16, shared: bool) -> u32 {
        let cost = self.near(at).saturating_add(200);
        if self.is_dead(label) {
            cost.saturating_sub(if shared { 120 } else { 60 })
        } else if self.is_target(label) {
            cost
        } else {
            cost.saturating_add(40)
        }
    }

    /// Adds the other labels of a jump.
    fn add_retargets(&self, at: u16, instr: Instr, out: &mut Gathered) {
        let Some(old) = instr.label() else {
            return;
        };
        let jumps = self
            .code
            .iter()
            .filter(|other| other.label() == Some(old))
            .count();
        for label in at.saturating_add(1)..self.len() {
            if label == old || !self.are_in_same_loops(label, at) {
                continue;
            }
            let cost = self.retarget_cost(at, label, jumps > 1);
            let one = out.begin(Manner::Retarget, cost, Some(instr), Some(instr));
            out.add(one, at, Change::Replace(with_label(instr, label)));
        }
    }
}

/// Guesses another register in the place of each that an instruction names.
fn guess_register(instr: Instr, register: Register, cost: u32, list: &mut Growing<Guess>) {
    let (one, other) = registers_of(&instr);
    if one.is_some() {
        add_guess(list, with_first(instr, register), cost);
    }
    if other.is_some() {
        add_guess(list, with_second(instr, register), cost);
    }
}

/// What a cell that isn't paged costs in place of a paged one, by whether it is written back.
fn resident_cost(is_written_back: bool) -> u32 {
    if is_written_back { 110 } else { 190 }
}
