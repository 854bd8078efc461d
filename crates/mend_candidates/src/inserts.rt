//! Insertions of one instruction, led by the state that arrives there.

use crate::gathered::Gathered;
use crate::growing::Growing;
use crate::guesses::{Guess, add_guess, add_guesses};
use crate::scene::{Scene, is_packet, registers};
use absstate::{Abs, Kind, Rule, Stage, Tracked};
use driver_set::{Cell, Field, Instr, Register, Sort};
use mend_changes::{Change, Landing, with_label};
use mend_reading::Manner;
use std::alloc::Global;

impl<'a> Scene<'a> {
    /// Adds the insertions at or before the fault.
    pub(crate) fn add_inserts(&self, alloc: Global, out: &mut Gathered) {
        let mut list = Growing::new(alloc);
        self.add_inserts_by(&mut list, out);
        out.note(list.finish());
    }

    /// The same, by a list of guesses that is used again from position to position.
    fn add_inserts_by(&self, list: &mut Growing<Guess>, out: &mut Gathered) {
        for at in 0..=self.last() {
            if self.is_target(at) {
                self.add_inserts_at(at, Landing::Taken, self.state(at), list, out);
                let fall = self.reading.fall(at as usize);
                self.add_inserts_at(at, Landing::Kept, fall, list, out);
            } else {
                self.add_inserts_at(at, Landing::Kept, self.state(at), list, out);
            }
        }
        if self.fault.rule == Rule::Malformed && self.last().saturating_add(1) == self.len() {
            self.add_ends(list, out);
        }
    }

    /// Adds the insertions at the end.
    fn add_ends(&self, list: &mut Growing<Guess>, out: &mut Gathered) {
        let at = self.len();
        list.clear();
        if let Some(state) = self.state(self.last()).or(self.subject.entry) {
            self.add_returns(at, &state, 0, list);
        }
        add_guess(list, Instr::End, 0);
        for guess in list.as_slice() {
            self.add_insert(at, Landing::Kept, guess, out);
        }
    }

    /// Adds the insertions before a position that is reached in a state.
    fn add_inserts_at(
        &self,
        at: u16,
        landing: Landing,
        state: Option<Abs>,
        list: &mut Growing<Guess>,
        out: &mut Gathered,
    ) {
        if let Some(state) = state {
            list.clear();
            self.guess_at(at, landing, &state, list);
            self.add_taken(at, landing, state, list.as_slice(), out);
        }
    }

    /// Guesses what may stand before a position that is reached in a state.
    fn guess_at(&self, at: u16, landing: Landing, state: &Abs, list: &mut Growing<Guess>) {
        for register in registers() {
            self.guess_with(at, register, state.kinds[register.index()], list);
        }
        self.guess_locks(list);
        if landing == Landing::Kept && self.is_target(at) {
            self.guess_ways_out(at, state, list);
        }
    }

    /// Adds the insertions of guesses that the rules take in a state.
    fn add_taken(
        &self,
        at: u16,
        landing: Landing,
        state: Abs,
        guesses: &[Guess],
        out: &mut Gathered,
    ) {
        let tracked = Tracked::of(state);
        for guess in guesses {
            if self.subject.takes(&tracked, &guess.instr) {
                self.add_insert(at, landing, guess, out);
            }
        }
    }

    /// Guesses what may be done with a register of a kind.
    fn guess_with(&self, at: u16, register: Register, kind: Kind, list: &mut Growing<Guess>) {
        if is_packet(kind) {
            self.guess_packet(at, register, kind, list);
        }
        if self.is_named(register) {
            self.guess_named(register, kind, list);
        }
        if self.fault.rule == Rule::Unreachable && kind == Kind::Num {
            add_guess(list, Instr::JumpIfZero(register, 0), 30);
        }
        self.guess_alike(register, list);
    }

    /// Guesses that a register is set where states that arrive at the fault differ in it.
    fn guess_alike(&self, register: Register, list: &mut Growing<Guess>) {
        if self
            .differing
            .iter()
            .any(|other| other.index() == register.index())
        {
            add_guess(list, Instr::Clear(register), 0);
            add_guess(list, Instr::Const(register, 0), 30);
        }
    }

    /// Guesses what may be done with a packet.
    fn guess_packet(&self, at: u16, register: Register, kind: Kind, list: &mut Growing<Guess>) {
        self.guess_queueing(register, list);
        self.guess_handling(at, register, kind, list);
        self.guess_calls(register, list);
        self.guess_completions(at, register, list);
    }

    /// Guesses that a packet is marked, or put into a queue or taken off it.
    fn guess_queueing(&self, register: Register, list: &mut Growing<Guess>) {
        add_guess(list, Instr::Mark(register), 0);
        for queue in 0..self.queues() {
            let instrs = [
                Instr::Insert(register, queue),
                Instr::Unlink(register, queue),
                Instr::Arm(register, queue),
            ];
            add_guesses(list, instrs.as_slice());
        }
        add_guess(list, Instr::Disarm(register, 0), 0);
    }

    /// Guesses what else may be done with a packet.
    fn guess_handling(&self, at: u16, register: Register, kind: Kind, list: &mut Growing<Guess>) {
        let armed = matches!(kind, Kind::Queued(_, Stage::Armed));
        let starts = matches!(self.instr(at), Some(Instr::Start(_)));
        if self.fault.rule == Rule::Unreachable || armed || starts {
            add_guess(list, Instr::IfCancel(register, 0), 0);
        }
        let instrs = [
            Instr::Start(register),
            Instr::Begin(register),
            Instr::Pass(register),
            Instr::Dequeue(register),
            Instr::IfPending(register, 0),
        ];
        add_guesses(list, instrs.as_slice());
    }

    /// Guesses that a packet is sent down, with or without each completion routine.
    fn guess_calls(&self, register: Register, list: &mut Growing<Guess>) {
        add_guess(list, Instr::Call(register, None), 30);
        let Some(driver) = self.driver() else {
            return;
        };
        for (number, routine) in driver.routines.as_slice().iter().enumerate() {
            if matches!(routine.sort, Sort::Propagate | Sort::Hold) {
                let number = number.min(255) as u8;
                add_guess(list, Instr::Call(register, Some(number)), 10);
            }
        }
    }

    /// Guesses that a packet is completed.
    fn guess_completions(&self, at: u16, register: Register, list: &mut Growing<Guess>) {
        let likely = self.status_at(at);
        for status in self.statuses.as_slice() {
            let extra = if *status == likely { 0 } else { 50 };
            add_guess(list, Instr::Complete(register, *status), extra);
        }
    }

    /// Guesses what may be done with a register that the faulty instruction names.
    fn guess_named(&self, register: Register, kind: Kind, list: &mut Growing<Guess>) {
        let starts = [Rule::Token, Rule::WrongKind, Rule::Unreachable];
        if matches!(self.subject.sort, Sort::Dpc) && self.breaks(starts.as_slice()) {
            add_guess(list, Instr::Take(register, 0), 0);
        }
        if self.fault.rule == Rule::WrongKind && kind == Kind::Blank {
            self.guess_numbers(register, list);
        }
    }

    /// Guesses that a number is put into a register.
    fn guess_numbers(&self, register: Register, list: &mut Growing<Guess>) {
        // a condition on a constant is no condition
        let decides = matches!(self.bad, Instr::JumpIfZero(..));
        let made_up = if decides { 60 } else { 0 };
        add_guess(list, Instr::Const(register, 0), made_up);
        add_guess(list, Instr::Const(register, 1), made_up + 20);
        guess_loads(register, list);
        for packet in registers() {
            add_guess(list, Instr::Get(register, packet, Field::Argument), 10);
        }
    }

    /// Guesses that a lock is acquired or released, or the next packet started.
    fn guess_locks(&self, list: &mut Growing<Guess>) {
        for lock in self.locks.as_slice() {
            add_guess(list, Instr::Acquire(*lock), 0);
            add_guess(list, Instr::Release(*lock), 0);
        }
        let others = [Instr::AcquireCancel, Instr::ReleaseCancel, Instr::Next];
        add_guesses(list, others.as_slice());
    }

    /// Guesses that the way to a label is left before it.
    fn guess_ways_out(&self, at: u16, state: &Abs, list: &mut Growing<Guess>) {
        let rules = [
            Rule::Unreachable,
            Rule::StatesDiffer,
            Rule::WrongKind,
            Rule::DoubleCompletion,
            Rule::MarkIrpPending,
            Rule::CancelSpinLock,
            Rule::SpinLock,
        ];
        if self.breaks(rules.as_slice()) {
            self.add_returns(at, state, 0, list);
            add_guess(list, Instr::Jump(0), 40);
        }
    }

    /// Adds an insertion, with each label that it may have.
    pub fn add_insert(&self, at: u16, landing: Landing, guess: &Guess, out: &mut Gathered) {
        let cost = self.insert_cost(&guess.instr, at);
        let cost = cost
            .saturating_add(guess.extra)
            .saturating_add(self.near(at));
        if guess.instr.label().is_none() {
            let one = out.begin(Manner::Insert, cost, Some(guess.instr), None);
            out.add(one, at, Change::Insert(guess.instr, landing));
        } else {
            self.add_led(at, landing, guess, cost, out);
        }
    }

    /// Adds the insertion of a jump, with each label that it may have.
    fn add_led(&self, at: u16, landing: Landing, guess: &Guess, cost: u32, out: &mut Gathered) {
        let jumps = matches!(guess.instr, Instr::Jump(_));
        for label in at..self.len() {
            if self.are_in_same_loops(label, at) && !(jumps && label == at) {
                let cost = self.cost_of_label(cost, label);
                let led = with_label(guess.instr, label.saturating_add(1));
                let one = out.begin(Manner::Insert, cost, Some(led), None);
                out.add(one, at, Change::Insert(led, landing));
            }
        }
    }

    /// What a jump costs that leads to a position: more where nothing else does.
    fn cost_of_label(&self, cost: u32, label: u16) -> u32 {
        if self.is_dead(label) {
            cost.saturating_sub(60)
        } else if self.is_target(label) {
            cost
        } else {
            cost.saturating_add(50)
        }
    }
}

/// Guesses that a number is loaded from one of the first cells.
fn guess_loads(register: Register, list: &mut Growing<Guess>) {
    for number in 0..2_u8 {
        if let Some(cell) = Cell::of(number) {
            let extra = if number == 0 { 20 } else { 30 };
            add_guess(list, Instr::Load(register, cell), extra);
        }
    }
}
