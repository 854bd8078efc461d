//! The rules on locks in words: who holds them, and what isn't done while one is held.

use crate::acts::{Act, Locking, act_of, list_of, lock_of};
use crate::case::{Case, Fact, kind_of};
use crate::kinds::packet_of;
use model::abs::{Kind, Rule, Stage};
use model::instr::Instr;
use model::set::{Guard, QueueName, Sort};
use verifier_names::{About, Lesson, sent_down};

/// The rules on who holds a lock.
pub(crate) fn of_locks(case: &Case<'_>) -> Lesson {
    let source = "Static Driver Verifier, SpinLock and CancelSpinLock; bug checks 0x0F and 0x10";
    match act_of(case.instr) {
        Act::Lock(Locking::Acquire(lock)) => Lesson::about(
            "the lock is held already, and would be waited for without an end",
            source,
            "take it out, or $E before it",
            About::lock(&lock),
        ),
        Act::Lock(Locking::Release(lock)) => not_held(case, lock, source),
        Act::Plain(_)
        | Act::Look
        | Act::Mark(_)
        | Act::Queue(_)
        | Act::Device(_)
        | Act::Send(_)
        | Act::Return(_) => Lesson::about(
            "the routine returns while $L is held",
            source,
            "$E before the return",
            About::lock(&case.held()),
        ),
    }
}

/// A lock is released that isn't held.
fn not_held(case: &Case<'_>, lock: Guard, source: &'static str) -> Lesson {
    let why = "the lock isn't held where it is released";
    let about = About::lock(&lock);
    if case.was_so(&Fact::Held(lock)) {
        return Lesson::of(why, source, "take it out: the lock was released before");
    }
    Lesson::about(
        why,
        source,
        "$A before what the lock guards, or take it out",
        about,
    )
}

/// The lock that a rule on locks or on what they guard is about at an instruction.
pub fn lock_meant(case: &Case<'_>) -> Option<Guard> {
    match case.rule {
        Rule::LockHeld => Some(case.held()),
        Rule::SpinLock | Rule::CancelSpinLock if matches!(case.instr, Instr::Ret(_)) => {
            Some(case.held())
        }
        Rule::SpinLock | Rule::CancelSpinLock => lock_of(case.instr),
        Rule::Guard => match list_of(case.instr) {
            Some(list) => case.guard(list),
            None => None,
        },
        Rule::Malformed
        | Rule::Unreachable
        | Rule::StatesDiffer
        | Rule::WrongKind
        | Rule::DoubleCompletion
        | Rule::MarkIrpPending
        | Rule::Level
        | Rule::CancelState
        | Rule::Dropped
        | Rule::Token
        | Rule::Sort
        | Rule::Completion
        | Rule::StackTooSmall
        | Rule::NoLower
        | Rule::TooLong
        | Rule::Memory => None,
    }
}

/// A packet is completed or sent down while a lock is held. One that stands in a list, or may be
/// cancelled, has to be made the routine's own before its guard is released.
pub(crate) fn lock_held(case: &Case<'_>) -> Lesson {
    let source = "the Driver Kit on IoCompleteRequest, IoCallDriver and spin locks";
    let why = if case.state().cancel {
        "a packet is completed or sent down while the system cancel spin lock is held"
    } else {
        "a packet is completed or sent down while $L is held"
    };
    if is_sent_elsewhere(case) {
        return sent_down(case.sort);
    }
    let register = packet_of(case.instr);
    if let Kind::Queued(list, stage) = kind_of(case.state(), register) {
        let about = case.about(register.index(), list);
        return Lesson::about(why, source, owned_and_released(case, list, stage), about);
    }
    Lesson::about(why, source, "$E before it", About::lock(&case.held()))
}

/// Whether another routine than a dispatch routine sends a packet down.
pub(crate) fn is_sent_elsewhere(case: &Case<'_>) -> bool {
    let sends = matches!(*case.instr, Instr::Pass(_) | Instr::Call(_, _));
    sends && !matches!(case.sort, Sort::Dispatch)
}

/// How a packet of a list is made the routine's own and the lock is released.
fn owned_and_released(case: &Case<'_>, list: QueueName, stage: Stage) -> &'static str {
    let cancel = case.state().cancel;
    match (stage, list) {
        (Stage::Listed, _) => "`unlink $R $Q` and $E before it",
        (Stage::Armed, _) => {
            "`disarm $R L`, `unlink $R $Q` and $E before it; at L, $E and leave the packet to its \
             cancel routine"
        }
        (Stage::Taken, _) => {
            "`disarm $R L` and $E before it; at L, $E and leave the packet to its cancel routine"
        }
        (Stage::Cancelling, QueueName::DeviceQueue) => "`dequeue $R` and $E before it",
        (Stage::Cancelling, QueueName::Declared(_)) if cancel => {
            "`relc`, $A, `unlink $R $Q` and $E before it"
        }
        (Stage::Cancelling, QueueName::Declared(_)) => "`unlink $R $Q` and $E before it",
    }
}
