//! An instruction that breaks a rule, and what is known of it: the state that arrives there, and
//! what was done on the path before.

use crate::kinds::packet_of;
use driver_set::DriverSet;
use model::abs::{Abs, Kind, Rule, Stage};
use model::instr::{Instr, Register};
use model::set::{Guard, QueueName, Sort};
use model::spin_lock::SpinLock;
use verifier_evidence::{Path, Step};
use verifier_names::{About, spin_number};

/// An instruction of a routine of a driver of a set, that breaks a rule where a path leads.
#[derive(Drop)]
pub struct Case<'a> {
    pub rule: Rule,
    pub driver: u8,
    pub set: &'a DriverSet,
    pub sort: Sort,
    pub code: &'a [Instr],
    pub path: &'a Path,
    pub instr: &'a Instr,
}

/// Something that a state says.
#[derive(Clone, Copy)]
pub enum Fact {
    Blank(Register),
    /// The register isn't blank.
    Full(Register),
    /// The register has a packet whose cancel routine was set.
    Armed(usize),
    Held(Guard),
    Unheld(Guard),
    Token,
    NoToken,
}

impl<'a> Case<'a> {
    /// What is known where the instruction stands.
    pub fn state(&self) -> &'a Abs {
        &self.path.last.state
    }

    /// The position on the path before this one at which something was so for the last time, if it
    /// was. Where it isn't so any more, the instruction there has ended it.
    pub fn last_so(&self, fact: &Fact) -> Option<u16> {
        let mut last: Option<u16> = None;
        for step in self.path.before.as_slice() {
            last = later(fact, step, last);
        }
        last
    }

    /// Whether something was so on the path before.
    pub(crate) fn was_so(&self, fact: &Fact) -> bool {
        self.last_so(fact).is_some()
    }

    /// The instruction that left a register blank, if one did.
    pub(crate) fn emptied_by(&self, register: Register) -> Option<&'a Instr> {
        let at = self.last_so(&Fact::Full(register))?;
        self.code.get(at as usize)
    }

    /// The instruction that filled a register, if one did.
    pub(crate) fn filled_by(&self, register: Register) -> Option<&'a Instr> {
        let at = self.last_so(&Fact::Blank(register))?;
        self.code.get(at as usize)
    }

    /// The first register that names a packet which still stands in a list, if there is one.
    pub(crate) fn named_in(&self, queue: QueueName) -> Option<(usize, Stage)> {
        for (number, kind) in self.state().kinds.iter().enumerate() {
            if let Kind::Queued(list, stage) = *kind
                && list == queue
                && stage != Stage::Taken
            {
                return Some((number, stage));
            }
        }
        None
    }

    /// The lock that guards a list.
    pub(crate) fn guard(&self, list: QueueName) -> Option<Guard> {
        self.set.guard_named(self.driver, list)
    }

    /// The register of which the instruction wants a packet.
    pub(crate) fn register(&self) -> usize {
        packet_of(self.instr).index()
    }

    /// A register, a list of which it has a packet, and the lock that guards the list.
    pub(crate) fn about(&self, number: usize, list: QueueName) -> About {
        About {
            register: Some(number),
            queue: Some(list),
            lock: match self.guard(list) {
                Some(lock) => spin_number(&lock),
                None => None,
            },
        }
    }

    /// Whether a lock guards a list.
    fn is_guard(&self, list: QueueName, lock: &Guard) -> bool {
        match self.guard(list) {
            Some(guard) => spin_number(&guard) == spin_number(lock),
            None => false,
        }
    }

    /// Whether packets of a queue can't be cancelled.
    pub(crate) fn is_plain(&self, queue: u8) -> bool {
        self.set.cancel_routine(self.driver, queue).is_none()
    }

    /// The first register that has a packet of a list with this guard which stays there while the
    /// guard is held, if there is one.
    pub(crate) fn kept_by(&self, lock: &Guard) -> Option<(usize, QueueName, Stage)> {
        for (number, kind) in self.state().kinds.iter().enumerate() {
            if let Kind::Queued(list, stage) = *kind
                && stays(list, stage)
                && self.is_guard(list, lock)
            {
                return Some((number, list, stage));
            }
        }
        None
    }

    /// The lock that a routine holds and shouldn't: the system cancel spin lock where the rule is
    /// the one on it, and else the first one.
    pub(crate) fn held(&self) -> Guard {
        let spin = if self.rule == Rule::CancelSpinLock {
            None
        } else {
            first_held(self.state())
        };
        match spin {
            Some(lock) => Guard::DeviceLock(lock),
            None => Guard::CancelLock,
        }
    }
}

/// The position of a step where something is so there, and else the one before.
fn later(fact: &Fact, step: &Step, before: Option<u16>) -> Option<u16> {
    if is_so(fact, &step.state) {
        Some(step.at)
    } else {
        before
    }
}

/// Whether a state says something.
fn is_so(fact: &Fact, state: &Abs) -> bool {
    match fact {
        Fact::Blank(register) => kind_of(state, *register) == Kind::Blank,
        Fact::Full(register) => kind_of(state, *register) != Kind::Blank,
        Fact::Armed(number) => {
            matches!(
                state.kinds.get(*number),
                Some(Kind::Queued(_, Stage::Armed))
            )
        }
        Fact::Held(lock) => is_held(state, lock),
        Fact::Unheld(lock) => !is_held(state, lock),
        Fact::Token => state.token,
        Fact::NoToken => !state.token,
    }
}

/// What a register has.
pub(crate) fn kind_of(state: &Abs, register: Register) -> Kind {
    state.kinds[register.index()]
}

/// Whether a lock is held.
pub fn is_held(state: &Abs, lock: &Guard) -> bool {
    match lock {
        Guard::DeviceLock(lock) => state.locks[lock.index()],
        Guard::CancelLock => state.cancel,
    }
}

/// The first register that has a packet, if one has.
pub(crate) fn first_packet(state: &Abs) -> Option<usize> {
    state.kinds.iter().position(|kind| is_packet(*kind))
}

/// Whether what a register has is a packet.
pub fn is_packet(kind: Kind) -> bool {
    match kind {
        Kind::Blank | Kind::Num | Kind::Lower => false,
        Kind::New | Kind::Own | Kind::Queued(..) | Kind::View => true,
    }
}

/// The first spin lock of the device that is held, if one is.
fn first_held(state: &Abs) -> Option<SpinLock> {
    let number = state.locks.iter().position(|held| *held)?;
    SpinLock::of(number as u8)
}

/// Whether a packet stays where it is while the guard of its list is held.
fn stays(list: QueueName, stage: Stage) -> bool {
    match stage {
        Stage::Listed | Stage::Taken => true,
        Stage::Armed => false,
        Stage::Cancelling => matches!(list, QueueName::DeviceQueue),
    }
}
