//! The rule on the token of a busy device, in words.

use crate::acts::{Act, Waiting, act_of};
use crate::case::{Case, Fact};
use model::instr::Instr;
use model::set::{QueueName, Sort};
use verifier_names::Lesson;

/// The rule on the token: it was spent, was never there, or is still there at the end.
pub(crate) fn of_token(case: &Case<'_>) -> Lesson {
    let source = "the Driver Kit on IoStartPacket, IoStartNextPacket and StartIo routines";
    match act_of(case.instr) {
        Act::Return(_) => Lesson::of(
            "the device is left busy, and starts no packet any more",
            source,
            if case.set.has_cancel(case.driver, QueueName::DeviceQueue) {
                "`acqc`, `next` and `relc` before the return"
            } else {
                "`next` before the return"
            },
        ),
        Act::Device(Waiting::Take) if matches!(case.sort, Sort::Dpc) => Lesson::of(
            "the routine takes a second packet while it has the token",
            source,
            "start the `next` before it, or take it out",
        ),
        Act::Device(Waiting::Take) => not_taken(),
        Act::Device(Waiting::Start | Waiting::Begin | Waiting::Next | Waiting::Dequeue)
        | Act::Plain(_)
        | Act::Look
        | Act::Mark(_)
        | Act::Lock(_)
        | Act::Queue(_)
        | Act::Send(_) => no_token(case, source),
    }
}

/// Only a DPC routine takes the current packet.
pub(crate) fn not_taken() -> Lesson {
    Lesson::of(
        "only a DPC routine takes the current packet",
        "the Driver Kit on each sort of routine",
        "take it out, and take the packet in the driver's DPC routine",
    )
}

/// The routine hasn't the token.
fn no_token(case: &Case<'_>, source: &'static str) -> Lesson {
    if case.was_so(&Fact::Token) {
        return Lesson::of(
            "the routine has spent its token: one token begins one packet, or starts the next one",
            source,
            "take it out",
        );
    }
    match case.sort {
        Sort::Dpc if took(case) => Lesson::of(
            "the routine has no token: there was no current packet on this path",
            source,
            "take it out",
        ),
        Sort::Dpc => Lesson::of(
            "the routine never had the token of a busy device on this path",
            source,
            "`take` the current packet first",
        ),
        Sort::Dispatch | Sort::StartIo | Sort::Propagate | Sort::Hold | Sort::Cancel => Lesson::of(
            "a routine of this sort has no token of a busy device",
            source,
            "take it out: the device's StartIo and DPC routines start packets",
        ),
    }
}

/// Whether the current packet was to be taken on the path.
fn took(case: &Case<'_>) -> bool {
    case.path.before.as_slice().iter().any(|step| matches!(
        case.code.get(step.at as usize),
        Some(Instr::Take(_, _))
    ))
}
