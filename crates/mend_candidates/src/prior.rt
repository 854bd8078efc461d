//! How likely an insertion is, by the rule that is broken.

use crate::scene::Scene;
use absstate::Rule;
use driver_set::{Instr, Register};
use mend_reading::acts::{Act, act_of, leaves};
use mend_reading::form::same_lock;
use mend_reading::operands::names;

impl<'a> Scene<'a> {
    /// What an insertion of an instruction before a position costs.
    pub(crate) fn insert_cost(&self, instr: &Instr, at: u16) -> u32 {
        let levels = self.fault.rule == Rule::StatesDiffer && self.are_numbers;
        if self.is_likely(instr) {
            self.likely_cost(instr, at, levels)
        } else if levels {
            260
        } else {
            190
        }
    }

    /// What one costs that most often mends the rule, and may make numbers alike.
    fn likely_cost(&self, instr: &Instr, at: u16, levels: bool) -> u32 {
        match self.fault.rule {
            Rule::StatesDiffer if levels => 80,
            Rule::WrongKind => 150,
            Rule::Unreachable => self.cost_of_way(instr, at),
            Rule::Malformed
            | Rule::StatesDiffer
            | Rule::DoubleCompletion
            | Rule::MarkIrpPending
            | Rule::CancelSpinLock
            | Rule::SpinLock
            | Rule::LockHeld
            | Rule::Level
            | Rule::Guard
            | Rule::CancelState
            | Rule::Dropped
            | Rule::Token
            | Rule::Sort
            | Rule::Completion
            | Rule::StackTooSmall
            | Rule::NoLower
            | Rule::TooLong
            | Rule::Memory => 100,
        }
    }

    /// What a jump costs that may lead where nothing does.
    fn cost_of_way(&self, instr: &Instr, at: u16) -> u32 {
        let armed = matches!(self.instr_before(at), Some(Instr::Arm(..)));
        let starts = matches!(self.instr(at), Some(Instr::Start(_)));
        if matches!(*instr, Instr::IfCancel(..)) && (armed || starts) {
            100
        } else {
            170
        }
    }

    /// Whether an instruction is one that most often mends the rule that is broken.
    fn is_likely(&self, instr: &Instr) -> bool {
        let returns = matches!(self.bad, Instr::Ret(_));
        match self.fault.rule {
            Rule::Malformed => matches!(*instr, Instr::Ret(_) | Instr::End),
            Rule::Unreachable => decides(instr),
            Rule::StatesDiffer => self.levels(instr),
            Rule::WrongKind => gives_value(instr),
            Rule::DoubleCompletion => leaves(instr),
            Rule::MarkIrpPending => self.marks(instr, returns),
            Rule::CancelSpinLock => {
                matches!(*instr, Instr::AcquireCancel | Instr::ReleaseCancel)
            }
            Rule::SpinLock => self.pairs(instr, returns),
            Rule::LockHeld | Rule::Level => {
                matches!(*instr, Instr::Release(_) | Instr::ReleaseCancel)
            }
            Rule::Guard => self.guards(instr),
            Rule::CancelState => takes_back(instr),
            Rule::Dropped => keeps(instr) || !returns && matches!(*instr, Instr::Pass(_)),
            Rule::Token => goes_on(instr, returns),
            Rule::Completion => matches!(
                *instr,
                Instr::Mark(_) | Instr::IfPending(..) | Instr::Insert(..)
            ),
            Rule::Sort | Rule::StackTooSmall | Rule::NoLower | Rule::TooLong | Rule::Memory => {
                false
            }
        }
    }

    /// Whether an instruction marks the packet of the one at the fault, or leaves the mark to the
    /// lower driver.
    fn marks(&self, instr: &Instr, returns: bool) -> bool {
        if let Instr::Mark(register) = *instr {
            return returns || names(&self.bad, register);
        }
        returns && matches!(*instr, Instr::Call(..))
    }

    /// Whether an instruction may make states alike that differ.
    fn levels(&self, instr: &Instr) -> bool {
        if self.are_numbers {
            return matches!(*instr, Instr::Clear(_) | Instr::Const(..));
        }
        let ends = matches!(
            *instr,
            Instr::Release(_) | Instr::ReleaseCancel | Instr::Complete(..)
        );
        ends || leaves(instr)
    }

    /// Whether an instruction acquires or releases the lock that the one at the fault does.
    fn pairs(&self, instr: &Instr, returns: bool) -> bool {
        let releases = matches!(*instr, Instr::Release(_));
        returns && releases || same_lock(instr, &self.bad)
    }

    /// Whether an instruction is asked for by the lists of packets.
    fn guards(&self, instr: &Instr) -> bool {
        if matches!(self.bad, Instr::Release(_)) {
            return matches!(
                *instr,
                Instr::Disarm(..) | Instr::Arm(..) | Instr::Unlink(..)
            );
        }
        if matches!(self.bad, Instr::ReleaseCancel) {
            return matches!(*instr, Instr::Dequeue(_));
        }
        match act_of(&self.bad) {
            Act::Waiting => matches!(*instr, Instr::AcquireCancel),
            Act::Number
            | Act::Loop
            | Act::End
            | Act::Leave
            | Act::Mark
            | Act::Lock
            | Act::Packet
            | Act::Down => { matches!(*instr, Instr::Acquire(_)) }
        }
    }

    /// Whether the instruction at the fault names a register.
    pub(crate) fn is_named(&self, register: Register) -> bool {
        names(&self.bad, register)
    }
}

/// Whether an instruction keeps a packet from being lost in its routine.
fn keeps(instr: &Instr) -> bool {
    matches!(
        *instr,
        Instr::Complete(..) | Instr::Begin(_) | Instr::Insert(..) | Instr::Start(_)
    )
}

/// Whether an instruction jumps on a number, or on what became of a packet.
fn decides(instr: &Instr) -> bool {
    matches!(
        *instr,
        Instr::IfCancel(..)
            | Instr::Disarm(..)
            | Instr::JumpIfZero(..)
            | Instr::JumpIfLess(..)
            | Instr::Remove(..)
            | Instr::Take(..)
    )
}

/// Whether an instruction puts a number or a packet into a register.
fn gives_value(instr: &Instr) -> bool {
    matches!(
        *instr,
        Instr::Const(..) | Instr::Load(..) | Instr::Get(..) | Instr::Remove(..)
    )
}

/// Whether an instruction makes a packet of a list the routine's own.
fn takes_back(instr: &Instr) -> bool {
    matches!(
        *instr,
        Instr::Unlink(..) | Instr::Disarm(..) | Instr::Dequeue(_)
    )
}

/// Whether an instruction lets the busy device go on before a return, or asks for the token.
fn goes_on(instr: &Instr, returns: bool) -> bool {
    if returns {
        matches!(*instr, Instr::Next | Instr::Begin(_))
    } else {
        matches!(*instr, Instr::Take(..))
    }
}
