//! The arguments at which the tests of a set's code turn: registers are followed forward through
//! each routine, as the argument of its packet or nothing, and a number.

use driver_set::{DriverSet, Instr};
use hunt_facts::requests::Request;
use model::instr::Field;
use model::limits::REGISTERS;
use model::register::Register;
use model::set::Driver;
use std::alloc::{AllocError, Global};

/// The arguments that runs at random are tried with, at most.
const MAX_TRIED: usize = 24;

/// What is known of the number in a register.
#[derive(Clone, Copy)]
struct Known {
    /// It is the argument of the packet, and `more`, modulo 2^64; else it is `more`.
    is_argument: bool,
    more: u64,
}

/// What is known of all registers.
#[derive(Clone, Copy)]
struct Numbers {
    known: [Option<Known>; REGISTERS],
}

impl Numbers {
    /// What is known of a register.
    fn of(&self, register: Register) -> Option<Known> {
        self.known[register.index()]
    }

    /// What is known after an instruction.
    fn after(&self, instr: &Instr) -> Numbers {
        let (register, known) = match *instr {
            Instr::Const(r, number) => (r, known_as(false, u64::from(number))),
            Instr::Get(r, _, Field::Argument) => (r, known_as(true, 0)),
            Instr::Get(r, _, Field::Major | Field::Info) => (r, None),
            Instr::Move(r, s) => (r, self.of(s)),
            Instr::Add(r, s) => (r, sum(self.of(r), self.of(s))),
            Instr::Subtract(r, s) => (r, difference(self.of(r), self.of(s))),
            Instr::Clear(r) | Instr::Load(r, _) | Instr::LoadPaged(r, _) => (r, None),
            Instr::Remove(r, _, _) | Instr::Take(r, _) => (r, None),
            Instr::JumpIfZero(_, _) | Instr::JumpIfLess(_, _, _) | Instr::Jump(_) => return *self,
            Instr::Loop(_) | Instr::End | Instr::Ret(_) => return *self,
            Instr::Store(_, _) | Instr::StorePaged(_, _) | Instr::Put(_, _) => return *self,
            Instr::Mark(_) | Instr::Pass(_) | Instr::Call(_, _) => return *self,
            Instr::Complete(_, _) | Instr::IfPending(_, _) | Instr::IfCancel(_, _) => return *self,
            Instr::Acquire(_) | Instr::Release(_) => return *self,
            Instr::AcquireCancel | Instr::ReleaseCancel => return *self,
            Instr::Insert(_, _) | Instr::Unlink(_, _) | Instr::Dequeue(_) => return *self,
            Instr::Arm(_, _) | Instr::Disarm(_, _) => return *self,
            Instr::Start(_) | Instr::Begin(_) | Instr::Next => return *self,
        };
        let mut after = *self;
        after.known[register.index()] = known;
        after
    }
}

fn known_as(is_argument: bool, more: u64) -> Option<Known> {
    Some(Known { is_argument, more })
}

/// A sum in which the argument is at most once.
fn sum(left: Option<Known>, right: Option<Known>) -> Option<Known> {
    let left = left?;
    let right = right?;
    if left.is_argument && right.is_argument {
        return None;
    }
    known_as(
        left.is_argument || right.is_argument,
        left.more.wrapping_add(right.more),
    )
}

/// A difference in which the argument isn't taken away.
fn difference(left: Option<Known>, right: Option<Known>) -> Option<Known> {
    let left = left?;
    let right = number_of(right)?;
    known_as(left.is_argument, left.more.wrapping_sub(right))
}

/// The number that is known without the argument.
fn number_of(known: Option<Known>) -> Option<u64> {
    let known = known?;
    if known.is_argument {
        None
    } else {
        Some(known.more)
    }
}

/// The arguments that runs at random are tried with: those at which the tests of the set turn, and
/// then those of some requests.
pub(crate) fn arguments_of(
    alloc: Global,
    set: &DriverSet,
    requests: &[Request],
) -> Result<Vec<u64>, AllocError> {
    let mut arguments = Vec::new(alloc);
    for driver in set.drivers() {
        add_driver(alloc, &mut arguments, driver)?;
    }
    add_requests(&mut arguments, requests)?;
    Ok(arguments)
}

/// Adds those of requests.
fn add_requests(arguments: &mut Vec<u64>, requests: &[Request]) -> Result<(), AllocError> {
    for request in requests {
        add_argument(arguments, request.argument)?;
    }
    Ok(())
}

/// Adds those at which the tests of a driver turn.
fn add_driver(alloc: Global, arguments: &mut Vec<u64>, driver: &Driver) -> Result<(), AllocError> {
    for routine in driver.routines.as_slice() {
        add_code(alloc, arguments, routine.code.as_slice())?;
    }
    Ok(())
}

/// Adds those of code, which is gone through once: where ways meet, what is known on the first of
/// them is.
fn add_code(alloc: Global, arguments: &mut Vec<u64>, code: &[Instr]) -> Result<(), AllocError> {
    let first = Numbers {
        known: [None; REGISTERS],
    };
    let mut at = vec![in alloc; first; code.len()]?;
    for position in 0..code.len() {
        if let (Some(instr), Some(numbers)) = (code.get(position), at.get(position).copied()) {
            add_turns(arguments, instr, &numbers)?;
            lead_on(&mut at, position, instr, &numbers.after(instr));
        }
    }
    Ok(())
}

/// Notes what is known where an instruction leads to.
fn lead_on(at: &mut Vec<Numbers>, position: usize, instr: &Instr, after: &Numbers) {
    if let Some(label) = instr.label() {
        meet(at, label as usize, after);
    }
    if !matches!(instr, Instr::Jump(_) | Instr::Ret(_)) {
        meet(at, position.saturating_add(1), after);
    }
}

/// Notes what is known on one more way to a position, of registers of which nothing is known there.
fn meet(at: &mut Vec<Numbers>, position: usize, numbers: &Numbers) {
    if let Some(there) = at.get_mut(position) {
        for register in 0..REGISTERS {
            if there.known[register].is_none() {
                there.known[register] = numbers.known[register];
            }
        }
    }
}

/// Adds the arguments at which an instruction turns.
fn add_turns(arguments: &mut Vec<u64>, instr: &Instr, numbers: &Numbers) -> Result<(), AllocError> {
    if let Instr::JumpIfZero(r, _) = *instr {
        return add_around(arguments, numbers.of(r), 0);
    }
    let Instr::JumpIfLess(r, s, _) = *instr else {
        return Ok(());
    };
    if let Some(limit) = number_of(numbers.of(s)) {
        return add_around(arguments, numbers.of(r), limit);
    }
    match number_of(numbers.of(r)) {
        Some(limit) => add_around(arguments, numbers.of(s), limit.wrapping_add(1)),
        None => Ok(()),
    }
}

/// Adds the arguments for which what is known is a number, or the one before it.
fn add_around(
    arguments: &mut Vec<u64>,
    known: Option<Known>,
    number: u64,
) -> Result<(), AllocError> {
    let Some(
        Known {
            is_argument: true,
            more,
        },
    ) = known
    else {
        return Ok(());
    };
    let argument = number.wrapping_sub(more);
    add_argument(arguments, argument)?;
    add_argument(arguments, argument.wrapping_sub(1))
}

/// Adds an argument, if it isn't there, and there is room.
fn add_argument(arguments: &mut Vec<u64>, argument: u64) -> Result<(), AllocError> {
    if arguments.len() < MAX_TRIED && !arguments.as_slice().contains(&argument) {
        arguments.push(argument)?;
    }
    Ok(())
}
