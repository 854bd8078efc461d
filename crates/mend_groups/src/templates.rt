//! Several instructions that belong together, as a rule asks for them.

use absstate::{Abs, Kind, Rule, Settled, Stage};
use driver_set::{Instr, QueueName, Register, Return, Sort, SpinLock};
use mend_candidates::scene::{Scene, registers};
use mend_candidates::{Gathered, Growing};
use mend_changes::Landing;
use mend_reading::form::same_lock;
use model::status::Status;
use std::alloc::Global;

/// What a dispatch routine returns that keeps its packet.
const PENDING: Instr = Instr::Ret(Return::WithStatus(Status::Pending));

/// Instructions that belong together, for a scene.
#[derive(Clone, Copy)]
pub(crate) struct Templates<'a> {
    pub(crate) scene: &'a Scene<'a>,
}

impl<'a> Templates<'a> {
    /// Adds the templates before each position up to the fault.
    pub(crate) fn add_templates(&self, alloc: Global, out: &mut Gathered) {
        let mut lines = Growing::new(alloc);
        for at in 0..=self.scene.last() {
            self.add_templates_before(at, &mut lines, out);
            self.add_leaving(at, out);
        }
        out.note(lines.finish());
    }

    /// Adds the templates before a position, for each way on which it is reached.
    fn add_templates_before(&self, at: u16, lines: &mut Growing<Instr>, out: &mut Gathered) {
        let Some(state) = self.scene.state(at) else {
            return;
        };
        self.add_templates_at(at, Landing::Kept, &state, lines, out);
        if self.scene.is_target(at) {
            self.add_templates_at(at, Landing::Taken, &state, lines, out);
        }
    }

    /// Adds the templates before a position that is reached in a state.
    fn add_templates_at(
        &self,
        at: u16,
        landing: Landing,
        state: &Abs,
        lines: &mut Growing<Instr>,
        out: &mut Gathered,
    ) {
        for register in registers() {
            self.add_templates_for(at, landing, state, (register, lines), out);
        }
        self.add_next(at, landing, state, out);
    }

    /// Adds those for what a register holds.
    fn add_templates_for(
        &self,
        at: u16,
        landing: Landing,
        state: &Abs,
        held: (Register, &mut Growing<Instr>),
        out: &mut Gathered,
    ) {
        let (register, lines) = held;
        let kind = state.kinds[register.index()];
        match kind {
            Kind::View => self.add_carried(at, landing, state, register, out),
            Kind::Queued(QueueName::Declared(q), Stage::Cancelling) => {
                self.add_unlinked(at, landing, state, (register, q), out)
            }
            Kind::Queued(QueueName::Declared(q), Stage::Listed) => {
                self.add_cancelable(at, landing, (register, q), out)
            }
            Kind::New => self.add_kept(at, landing, state, (register, true, lines), out),
            Kind::Own => self.add_kept(at, landing, state, (register, false, lines), out),
            Kind::Queued(QueueName::Declared(_), Stage::Armed | Stage::Taken)
            | Kind::Queued(QueueName::DeviceQueue, _) => {}
            Kind::Blank | Kind::Num | Kind::Lower => {}
        }
    }

    /// Adds that the pending mark is carried up.
    fn add_carried(
        &self,
        at: u16,
        landing: Landing,
        state: &Abs,
        register: Register,
        out: &mut Gathered,
    ) {
        if self.scene.fault.rule != Rule::Completion || state.settled != Settled::Open {
            return;
        }
        let (look, mark) = (Instr::IfPending(register, 2), Instr::Mark(register));
        let near = self.scene.near(at);
        if matches!(self.scene.instr(at), Some(Instr::Ret(_))) {
            let lines = [look, Instr::Ret(Return::Continue), mark];
            out.add_template(near.saturating_add(120), at, landing, lines.as_slice());
        } else {
            let lines = [look, Instr::Jump(3), mark];
            out.add_template(near.saturating_add(140), at, landing, lines.as_slice());
        }
    }

    /// Adds that a packet that is cancelled is taken off its queue.
    fn add_unlinked(
        &self,
        at: u16,
        landing: Landing,
        state: &Abs,
        packet: (Register, u8),
        out: &mut Gathered,
    ) {
        let (register, q) = packet;
        let rules = [Rule::CancelState, Rule::Dropped];
        let Some(guard) = self.guard_of(q) else {
            return;
        };
        if self.scene.breaks(rules.as_slice()) && !state.locks[guard.index()] {
            let lines = [
                Instr::Acquire(guard),
                Instr::Unlink(register, q),
                Instr::Release(guard),
            ];
            let cost = self.scene.near(at).saturating_add(120);
            out.add_template(cost, at, landing, lines.as_slice());
        }
    }

    /// Adds what a packet needs that is in a queue with a cancel routine.
    fn add_cancelable(
        &self,
        at: u16,
        landing: Landing,
        packet: (Register, u8),
        out: &mut Gathered,
    ) {
        let (register, q) = packet;
        let dispatch = matches!(self.scene.subject.sort, Sort::Dispatch);
        let Some(guard) = self.guard_of(q) else {
            return;
        };
        if dispatch && self.scene.fault.rule == Rule::Guard {
            let lines = armed(register, q, guard, 0);
            let lines = lines.get(..9).unwrap_or_default();
            let cost = if self.asks_cancel(register) { 180 } else { 90 };
            out.add_template(cost, at, landing, lines);
        }
    }

    /// Whether an instruction asks if the packet in a register is cancelled.
    fn asks_cancel(&self, register: Register) -> bool {
        let number = register.index();
        self.scene.code.iter().any(
            |instr| matches!(*instr, Instr::IfCancel(asked, _) if asked.index() == number),
        )
    }

    /// Adds that a packet is kept in a queue. The list takes the lines.
    fn add_kept(
        &self,
        at: u16,
        landing: Landing,
        state: &Abs,
        packet: (Register, bool, &mut Growing<Instr>),
        out: &mut Gathered,
    ) {
        let (register, new, lines) = packet;
        let rules = [
            Rule::Dropped,
            Rule::MarkIrpPending,
            Rule::Completion,
            Rule::Guard,
            Rule::DoubleCompletion,
        ];
        if !self.scene.breaks(rules.as_slice()) {
            return;
        }
        for q in 0..self.scene.queues() {
            let Some(guard) = self.guard_of(q) else {
                continue;
            };
            let held = state.locks[guard.index()];
            lines.clear();
            if new {
                lines.add(Instr::Mark(register));
            }
            self.add_keeping(register, q, (guard, held), lines);
            let cost = self.keeping_cost(at, guard, held, lines.as_slice().len());
            out.add_template(cost, at, landing, lines.as_slice());
        }
    }

    /// Adds the insertion of a packet into a queue, whose lock may be held, and what follows it.
    fn add_keeping(
        &self,
        register: Register,
        q: u8,
        lock: (SpinLock, bool),
        lines: &mut Growing<Instr>,
    ) {
        let (guard, held) = lock;
        if !held {
            lines.add(Instr::Acquire(guard));
        }
        lines.add(Instr::Insert(register, q));
        let subject = self.scene.subject;
        if subject.set.cancel_routine(subject.driver, q).is_some() {
            let first = u16::try_from(lines.as_slice().len()).unwrap_or(0);
            let all = armed(register, q, guard, first);
            lines.add_all(all.as_slice());
        } else if !held {
            lines.add(Instr::Release(guard));
        }
    }

    /// What the keeping of a packet costs.
    fn keeping_cost(&self, at: u16, guard: SpinLock, held: bool, lines: usize) -> u32 {
        let long = u32::try_from(lines).unwrap_or(100).saturating_mul(12);
        let cost = self.scene.near(at).saturating_add(long).saturating_add(110);
        let lock = Instr::Acquire(guard);
        let before = self.scene.code.get(..at as usize).unwrap_or_default();
        let released = match before.last() {
            Some(instr) => same_lock(instr, &lock),
            None => false,
        };
        if released && !held {
            cost.saturating_add(60)
        } else {
            cost
        }
    }

    /// Adds that the next packet is started.
    fn add_next(&self, at: u16, landing: Landing, state: &Abs, out: &mut Gathered) {
        let waits = self
            .scene
            .driver()
            .is_some_and(|driver| driver.startio_cancel.is_some());
        let returns = matches!(self.scene.bad, Instr::Ret(_));
        if self.scene.fault.rule != Rule::Token
            || !returns
            || !waits
            || state.cancel
            || !state.token
        {
            return;
        }
        let lines = [Instr::AcquireCancel, Instr::Next, Instr::ReleaseCancel];
        let cost = self.scene.near(at).saturating_add(110);
        out.add_template(cost, at, landing, lines.as_slice());
    }

    /// Adds that a packet is completed, and its status returned, before a label.
    fn add_leaving(&self, at: u16, out: &mut Gathered) {
        let rules = [Rule::StatesDiffer, Rule::Dropped];
        let dispatch = matches!(self.scene.subject.sort, Sort::Dispatch);
        if !dispatch || !self.scene.breaks(rules.as_slice()) || !self.scene.is_target(at) {
            return;
        }
        let Some(state) = self.scene.reading.fall(at as usize) else {
            return;
        };
        for register in registers() {
            if state.kinds[register.index()] == Kind::New {
                let lines = [
                    Instr::Complete(register, Status::Success),
                    Instr::Ret(Return::WithStatus(Status::Success)),
                ];
                let cost = self.scene.near(at).saturating_add(180);
                out.add_template(cost, at, Landing::Kept, lines.as_slice());
            }
        }
    }

    /// The lock that guards a queue.
    fn guard_of(&self, q: u8) -> Option<SpinLock> {
        self.scene.subject.set.guard(self.scene.subject.driver, q)
    }
}

/// What follows the insertion of a packet into a queue with a cancel routine, behind so many lines:
/// it is armed, and if it was cancelled before that, taken off and completed by the routine itself,
/// unless its cancel routine was called.
fn armed(register: Register, q: u8, guard: SpinLock, before: u16) -> [Instr; 10] {
    let was = before.saturating_add(4);
    let lost = before.saturating_add(9);
    [
        Instr::Arm(register, q),
        Instr::IfCancel(register, was),
        Instr::Release(guard),
        PENDING,
        Instr::Disarm(register, lost),
        Instr::Unlink(register, q),
        Instr::Release(guard),
        Instr::Complete(register, Status::Cancelled),
        PENDING,
        Instr::Release(guard),
    ]
}
