//! What the verifier knows before an instruction, and the rules that it enforces.

ghost use Rattle.std.specs.Prelude.{◌≡◌};

use crate::set::QueueName;

/// What a register may be used for.
#[derive(Clone, Copy, PartialEq, Eq)]
pub enum Kind {
    /// Nothing.
    Blank,
    /// It holds a number.
    Num,
    /// It holds the status that a lower driver returned.
    Lower,
    /// It holds a packet that the routine was handed and has done nothing with.
    New,
    /// It holds a packet that the routine has marked pending and owns.
    Own,
    /// It holds a packet of a list, at a stage of its way through it.
    Queued(QueueName, Stage),
    /// It holds a packet that is on its way up, which a completion routine may look at.
    View,
}

/// How far a packet of a list is, by what the routine did with it and what IoCancelIrp may do.
#[derive(Clone, Copy, PartialEq, Eq)]
pub enum Stage {
    /// The routine owns it and has put it into the list, with no cancel routine set.
    Listed = 0,
    /// It is in the list, and the routine has set its cancel routine: IoCancelIrp may have called
    /// that since.
    Armed = 1,
    /// It was taken off the list, and its cancel routine may be set still.
    Taken = 2,
    /// IoCancelIrp handed it to the list's cancel routine.
    Cancelling = 3,
}

impl Stage {
    ghost use Rattle.model.specs.Kinds.{stage_number};

    /// Its number, by which stages are compared.
    pub fn number(self) -> u8
        ensures { result ≡ stage_number self }
    {
        self as u8
    }
}

/// What a dispatch routine still owes for the packet that it was handed.
#[derive(Clone, Copy, PartialEq, Eq)]
pub enum Duty {
    /// It has done nothing with it.
    Fresh,
    /// It marked it, so it has to return STATUS_PENDING.
    Pending,
    /// It completed it without a mark, so it has to return another status.
    Finished,
    /// It gave it to the lower driver without a mark, so it has to return what that driver
    /// returned.
    GivenDown,
    /// It has none: no dispatch routine.
    NoDuty,
}

/// Whether a completion routine has carried the pending mark up.
#[derive(Clone, Copy, PartialEq, Eq)]
pub enum Settled {
    /// It hasn't looked.
    Open,
    /// Irp->PendingReturned was set, and its location isn't marked yet.
    NeedMark,
    /// It has, or there is nothing to carry.
    Settled,
}

/// An abstract state: what holds each time a position is reached.
#[derive(Clone, Copy)]
pub struct Abs {
    pub kinds: [Kind; 16],
    /// Which of the device's spin locks the thread holds.
    pub locks: [bool; 8],
    /// Whether the thread holds the system cancel spin lock.
    pub cancel: bool,
    pub duty: Duty,
    pub settled: Settled,
    /// Whether the routine has the token of its busy device: it has to begin a packet, or start the
    /// next one.
    pub token: bool,
}

/// The states after an instruction, where it goes on: neither where the routine has returned.
#[derive(Clone, Copy)]
pub struct Outs {
    /// At the next position.
    pub next: Option<Abs>,
    /// At the label.
    pub jump: Option<Abs>,
}

/// The rule that a driver set breaks, by its number and name.
#[derive(Clone, Copy, Debug, PartialEq, Eq)]
pub enum Rule {
    /// V1: the set has no device, or a routine is no routine.
    Malformed = 1,
    /// V2: no path leads to an instruction.
    Unreachable = 2,
    /// V3: states that differ arrive at an instruction, or at a loop's end another one than at its
    /// start.
    StatesDiffer = 3,
    /// V4: an operand is of a kind that the instruction can't use.
    WrongKind = 4,
    /// V5: a packet is completed that was completed or handed on.
    DoubleCompletion = 5,
    /// V6: the pending mark and the status that is returned don't agree.
    MarkIrpPending = 6,
    /// V7: the system cancel spin lock is acquired twice, released without being held, or kept.
    CancelSpinLock = 7,
    /// V8: a spin lock is acquired twice, released without being held, or kept.
    SpinLock = 8,
    /// V9: a packet is completed while a lock is held.
    LockHeld = 9,
    /// V10: a paged cell is used where the level may be DISPATCH_LEVEL.
    Level = 10,
    /// V11: a queue is touched while the spin lock that guards it isn't held.
    Guard = 11,
    /// V12: a packet in a list with a cancel routine is used before it is the routine's own.
    CancelState = 12,
    /// V13: a packet is lost, or its register is written over.
    Dropped = 13,
    /// V14: the token of a busy device is lost, doubled, or used without being there.
    Token = 14,
    /// V15: an instruction or a form of return that isn't for the sort of its routine, or not for
    /// its driver.
    Sort = 15,
    /// V16: a completion routine completes, forwards, or returns without carrying the mark up.
    Completion = 16,
    /// V17: a device has too few stack locations for what is under it.
    StackTooSmall = 17,
    /// V18: a device has no lower one.
    NoLower = 18,
    /// V19: an activation may execute more than 1,000,000 instructions.
    TooLong = 19,
    /// V20: a growth was refused.
    Memory = 20,
}

impl Rule {
    ghost use Rattle.model.specs.LocalRule.{rule_number};

    /// Its number. Of the rules that an instruction breaks the one of the least number counts.
    pub fn number(self) -> u8
        ensures { result ≡ rule_number self }
    {
        self as u8
    }
}

/// Why a set is refused: the least driver, routine and position with a fault, and the least rule
/// that is broken there.
#[derive(Clone, Copy, Debug)]
pub struct Refusal {
    pub driver: u8,
    pub routine: u8,
    pub at: u16,
    pub rule: Rule,
}
