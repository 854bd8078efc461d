//! What the candidates for a fault of a routine are made from.

use crate::gathered::Gathered;
use absstate::{Abs, Kind, Rule};
use driver_set::{Driver, Instr, Register, Return, SpinLock};
use mend_reading::acts::leaves;
use mend_reading::reading::{Fault, Reading, Subject};
use model::limits::{REGISTERS, SPIN_LOCKS};
use model::status::Status;
use std::alloc::{AllocError, Global};

/// A routine with a fault, and what is known there.
#[derive(Drop)]
pub struct Scene<'a> {
    pub subject: &'a Subject<'a>,
    pub code: &'a [Instr],
    pub reading: &'a Reading,
    /// Which instructions were edited already: they stay.
    pub touched: &'a [bool],
    pub fault: Fault,
    /// The instruction at the fault.
    pub bad: Instr,
    /// The spin locks that the driver names.
    pub locks: Vec<SpinLock>,
    /// The statuses that it names.
    pub statuses: Vec<Status>,
    /// Which positions jumps lead to.
    pub targets: Vec<bool>,
    /// The registers in which states that arrive at the fault differ.
    pub differing: Vec<Register>,
    /// Whether they differ in nothing else, and no packet is in them.
    pub are_numbers: bool,
}

impl<'a> Scene<'a> {
    /// The scene of a reading with a fault.
    pub fn of(
        alloc: Global,
        subject: &'a Subject<'a>,
        code: &'a [Instr],
        reading: &'a Reading,
        touched: &'a [bool],
    ) -> Result<Option<Scene<'a>>, AllocError> {
        let Some(fault) = reading.fault else {
            return Ok(None);
        };
        let Some(driver) = subject.its_driver() else {
            return Ok(None);
        };
        let bad = code.get(usize::from(fault.at)).copied();
        let mut scene = Scene {
            subject,
            code,
            reading,
            touched,
            fault,
            bad: bad.unwrap_or(Instr::Ret(Return::Void)),
            locks: locks_of(alloc, driver)?,
            statuses: statuses_of(alloc, driver)?,
            targets: targets_of(alloc, code)?,
            differing: Vec::new(alloc),
            are_numbers: false,
        };
        if fault.rule == Rule::StatesDiffer {
            scene.compare()?;
        }
        Ok(Some(scene))
    }

    /// Adds the edits of one instruction, in order.
    pub fn add_singles(&self, alloc: Global, out: &mut Gathered) {
        self.add_inserts(alloc, out);
        self.add_deletes(out);
        self.add_moves(out);
        self.add_replaces(alloc, out);
    }

    /// Notes in what the states at the fault differ.
    fn compare(&mut self) -> Result<(), AllocError> {
        let at = self.fault.at as usize;
        let (Some(one), Some(other)) = (self.reading.state(at), self.reading.other(at)) else {
            return Ok(());
        };
        let mut packets = false;
        for register in registers() {
            let (a, b) = (one.kinds[register.index()], other.kinds[register.index()]);
            if a != b {
                packets = packets || is_packet(a) || is_packet(b);
                self.differing.push(register)?;
            }
        }
        self.are_numbers = !packets && are_alike_beside(&one, &other);
        Ok(())
    }

    /// The number of its instructions.
    pub fn len(&self) -> u16 {
        u16::try_from(self.code.len()).unwrap_or(u16::MAX)
    }

    /// The position of the fault, or the last one.
    pub fn last(&self) -> u16 {
        self.fault.at.min(self.len().saturating_sub(1))
    }

    /// The instruction at a position.
    pub fn instr(&self, at: u16) -> Option<Instr> {
        self.code.get(at as usize).copied()
    }

    /// The one before it.
    pub fn instr_before(&self, at: u16) -> Option<Instr> {
        self.instr(at.checked_sub(1)?)
    }

    /// The state that arrives at a position.
    pub fn state(&self, at: u16) -> Option<Abs> {
        self.reading.state(at as usize)
    }

    /// Whether a jump leads to a position.
    pub fn is_target(&self, at: u16) -> bool {
        self.targets.get(at as usize).copied().unwrap_or(false)
    }

    /// Whether nothing leads to a position: the jump there may be lost.
    pub fn is_dead(&self, at: u16) -> bool {
        self.is_left_before(at) && !self.is_target(at)
    }

    /// Whether the instruction before a position doesn't lead there.
    pub fn is_left_before(&self, at: u16) -> bool {
        match self.instr_before(at) {
            Some(instr) => leaves(&instr),
            None => false,
        }
    }

    /// Whether an instruction may be edited: none was put there or changed.
    pub fn is_fresh(&self, at: u16) -> bool {
        !self.touched.get(at as usize).copied().unwrap_or(true)
    }

    /// Whether the same loops are round two positions.
    pub fn are_in_same_loops(&self, one: u16, other: u16) -> bool {
        let loops = &self.reading.loops;
        loops.round(one as usize) == loops.round(other as usize)
    }

    /// What an edit costs for how far it is from the fault.
    pub fn near(&self, at: u16) -> u32 {
        u32::from(at.abs_diff(self.fault.at)).saturating_mul(4)
    }

    /// Whether a rule is broken that is one of these.
    pub fn breaks(&self, rules: &[Rule]) -> bool {
        rules.contains(&self.fault.rule)
    }

    /// The driver.
    pub fn driver(&self) -> Option<&Driver> {
        self.subject.its_driver()
    }

    /// The numbers of the driver's queues.
    pub fn queues(&self) -> u8 {
        let queues = self
            .driver()
            .map_or(0, |driver| driver.queues.as_slice().len());
        queues.min(255) as u8
    }
}

/// Whether two states differ in no more than registers.
fn are_alike_beside(one: &Abs, other: &Abs) -> bool {
    one.locks.as_slice() == other.locks.as_slice()
        && one.cancel == other.cancel
        && one.duty == other.duty
        && one.token == other.token
        && one.settled == other.settled
}

/// Whether a register of a kind holds a packet.
pub fn is_packet(kind: Kind) -> bool {
    !matches!(kind, Kind::Blank | Kind::Num | Kind::Lower)
}

/// All registers, by number.
pub fn registers() -> [Register; REGISTERS] {
    let mut all = [Register::FIRST; REGISTERS];
    for number in 0..REGISTERS {
        if let Some(register) = Register::of(number as u8) {
            all[number] = register;
        }
    }
    all
}

/// The spin locks that a driver names, by number.
fn locks_of(alloc: Global, driver: &Driver) -> Result<Vec<SpinLock>, AllocError> {
    let mut named = [false; SPIN_LOCKS];
    for queue in driver.queues.as_slice() {
        named[queue.guard.index()] = true;
    }
    for routine in driver.routines.as_slice() {
        name_locks(&mut named, routine.code.as_slice());
    }
    let mut locks = Vec::new(alloc);
    for (number, is_named) in named.iter().enumerate() {
        if let (true, Some(lock)) = (*is_named, SpinLock::of(number.min(255) as u8)) {
            locks.push(lock)?;
        }
    }
    Ok(locks)
}

/// Notes the spin locks that code names.
fn name_locks(named: &mut [bool; SPIN_LOCKS], code: &[Instr]) {
    for instr in code {
        if let Instr::Acquire(lock) | Instr::Release(lock) = *instr {
            named[lock.index()] = true;
        }
    }
}

/// The statuses that a driver completes with or returns, with the two that most do.
fn statuses_of(alloc: Global, driver: &Driver) -> Result<Vec<Status>, AllocError> {
    let mut statuses = Vec::new(alloc);
    statuses.push(Status::Success)?;
    for routine in driver.routines.as_slice() {
        add_statuses(&mut statuses, routine.code.as_slice())?;
    }
    add_status(&mut statuses, Status::Cancelled)?;
    Ok(statuses)
}

/// Adds the statuses that code names.
fn add_statuses(statuses: &mut Vec<Status>, code: &[Instr]) -> Result<(), AllocError> {
    for instr in code {
        if let Instr::Complete(_, status) | Instr::Ret(Return::WithStatus(status)) = *instr {
            add_status(statuses, status)?;
        }
    }
    Ok(())
}

/// Adds a status that isn't there, and isn't STATUS_PENDING.
fn add_status(statuses: &mut Vec<Status>, status: Status) -> Result<(), AllocError> {
    if status != Status::Pending && !statuses.as_slice().contains(&status) {
        statuses.push(status)?;
    }
    Ok(())
}

/// Which positions the jumps of code lead to.
fn targets_of(alloc: Global, code: &[Instr]) -> Result<Vec<bool>, AllocError> {
    let mut targets = vec![in alloc; false; code.len()]?;
    for instr in code {
        let label = instr.label().map_or(usize::MAX, usize::from);
        if let Some(target) = targets.get_mut(label) {
            *target = true;
        }
    }
    Ok(targets)
}
