//! The rules in words: why an instruction breaks one, where that is written, and how to mend it.

use crate::acts::{Act, Marking, Sending, Waiting, act_of};
use crate::case::Case;
use crate::kinds::wrong_kind;
use crate::locks::{lock_held, of_locks};
use crate::packets::{doubled, dropped, of_cancellation, of_guards};
use crate::returns::{of_form, of_marks};
use crate::tokens::{not_taken, of_token};
use model::abs::{Kind, Rule, Settled};
use model::instr::Return;
use model::set::Sort;
use verifier_names::{
    About, Difference, Lesson, malformed, no_lower_device, no_memory, of_level, of_meetings,
    sent_down, stack_too_small, too_long, unreached,
};

/// What a rule says at an instruction, in the state that arrives there.
pub fn lesson_of(case: &Case<'_>) -> Lesson {
    match case.rule {
        Rule::WrongKind => wrong_kind(case),
        Rule::DoubleCompletion => doubled(case),
        Rule::MarkIrpPending => of_marks(case),
        Rule::CancelSpinLock | Rule::SpinLock => of_locks(case),
        Rule::LockHeld => lock_held(case),
        Rule::Level => of_level(case.sort),
        Rule::Guard => of_guards(case),
        Rule::CancelState => of_cancellation(case),
        Rule::Dropped => dropped(case),
        Rule::Token => of_token(case),
        Rule::Sort => of_sort(case),
        Rule::Completion => of_completion(case),
        Rule::StackTooSmall => stack_too_small(),
        Rule::NoLower => no_lower_device(),
        Rule::Malformed => malformed(Some(case.instr)),
        Rule::Unreachable => unreached(),
        Rule::StatesDiffer => of_meetings(Some(case.instr), Difference::Others),
        Rule::TooLong => too_long(),
        Rule::Memory => no_memory(),
    }
}

/// The rule on sorts of routines.
fn of_sort(case: &Case<'_>) -> Lesson {
    let source = "the Driver Kit on each sort of routine";
    match act_of(case.instr) {
        Act::Return(_) => of_form(case),
        Act::Device(Waiting::Start) => Lesson::of(
            "the driver has no StartIo routine",
            source,
            "name one with `startio`, or use a queue",
        ),
        Act::Device(Waiting::Dequeue) => Lesson::of(
            "the driver names no cancel routine for its device queue",
            source,
            "name one behind the StartIo routine on the `startio` line",
        ),
        Act::Device(Waiting::Take) => not_taken(),
        Act::Device(Waiting::Begin | Waiting::Next)
        | Act::Plain(_)
        | Act::Look
        | Act::Mark(_)
        | Act::Lock(_)
        | Act::Queue(_)
        | Act::Send(_) => sent_down(case.sort),
    }
}

/// The rule on completion routines.
fn of_completion(case: &Case<'_>) -> Lesson {
    let source = "the Driver Kit on IoCompletion routines and IoMarkIrpPending";
    match act_of(case.instr) {
        Act::Return(form) => of_return(case, form, source),
        Act::Send(Sending::Call(true)) if matches!(case.sort, Sort::Dispatch) => Lesson::about(
            "an unmarked packet is sent down with a routine that may hold it",
            source,
            "`mark $R` before it, and `ret PENDING`",
            About::register(case.register()),
        ),
        Act::Send(_) => Lesson::of(
            "a completion routine neither completes a packet nor sends it down",
            source,
            "take it out: let the completion go on, or hold the packet and finish it elsewhere",
        ),
        Act::Mark(Marking::Look) => of_look(case, source),
        Act::Mark(Marking::Mark) => of_carried_mark(case, source),
        Act::Plain(_) | Act::Look | Act::Lock(_) | Act::Queue(_) | Act::Device(_) => Lesson::of(
            "the packet is on its way up, and the routine may only look at it",
            source,
            "take it out, and leave the packet to the drivers above",
        ),
    }
}

/// Irp->PendingReturned is looked at twice, or in a routine that has no need to.
fn of_look(case: &Case<'_>, source: &'static str) -> Lesson {
    if matches!(case.sort, Sort::Propagate) {
        return Lesson::of(
            "Irp->PendingReturned was looked at before",
            source,
            "take it out: look once, and `mark` at the label alone",
        );
    }
    Lesson::of(
        "only a `propagate` routine looks at Irp->PendingReturned",
        source,
        "take it out",
    )
}

/// A completion routine marks a packet without having seen that it has to.
fn of_carried_mark(case: &Case<'_>, source: &'static str) -> Lesson {
    match case.state().settled {
        Settled::Open => Lesson::about(
            "the packet is marked before the routine has looked at Irp->PendingReturned",
            source,
            "`ifpending $R L` before it, so that it is marked at L alone",
            About::register(case.register()),
        ),
        Settled::NeedMark | Settled::Settled => Lesson::of(
            "the packet is marked where Irp->PendingReturned isn't set, or once more",
            source,
            "take it out: mark once, at the label of `ifpending` alone",
        ),
    }
}

/// What a completion routine returns isn't what it did with the packet.
fn of_return(case: &Case<'_>, form: Return, source: &'static str) -> Lesson {
    let kinds = &case.state().kinds;
    let viewed = kinds.iter().position(|kind| *kind == Kind::View);
    let about = About::register(viewed.unwrap_or(0));
    match case.state().settled {
        Settled::Open => Lesson::about(
            "the completion routine doesn't look at Irp->PendingReturned",
            source,
            "`ifpending $R L` before it, and at L `mark $R` and `ret continue`",
            about,
        ),
        Settled::NeedMark => Lesson::about(
            "Irp->PendingReturned was set, and the packet isn't marked",
            source,
            "`mark $R` before the return",
            about,
        ),
        Settled::Settled if matches!(form, Return::Stop) => Lesson::of(
            "the routine keeps a packet that it didn't mark",
            source,
            "`mark` it before `ret stop`",
        ),
        Settled::Settled => Lesson::of(
            "the routine lets the completion go on after it took the packet back",
            source,
            "`ret stop`",
        ),
    }
}
