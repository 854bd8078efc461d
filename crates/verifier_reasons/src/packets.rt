//! The rules on packets in words: whose they are, and what is owed for them.

use crate::acts::{Act, Locking, Marking, Plain, Queueing, Waiting, act_of, list_of};
use crate::case::{Case, Fact, is_held, is_packet, kind_of};
use crate::kinds::{never_there, no_cancel_routine, packet_of};
use crate::locks::is_sent_elsewhere;
use crate::returns::{is_lent_still, of_form, of_marks};
use crate::tokens::of_token;
use model::abs::{Kind, Rule, Stage};
use model::instr::{Instr, Return};
use model::set::{Guard, QueueName, Sort};
use verifier_names::{About, Lesson, sent_down};

const QUEUES: &str = "the Driver Kit on driver-managed IRP queues and IoSetCancelRoutine";

const FINISH: &str =
    "`complete $R` with its final status, or put it into a queue, before the return";

const WAITING: &str = "the Driver Kit on IoStartPacket, IoStartNextPacket and cancel routines";

/// The rule on packets that are completed twice.
pub(crate) fn doubled(case: &Case<'_>) -> Lesson {
    let source = "Static Driver Verifier, DoubleCompletion; IoCompleteRequest; bug check 0x44";
    let Some(emptied) = case.emptied_by(packet_of(case.instr)) else {
        return never_there(case, source);
    };
    match act_of(emptied) {
        Act::Queue(Queueing::Disarm) => Lesson::of(
            "the register is blank: its packet is the cancel routine's, which completes it",
            source,
            "take it out, and leave the packet to its cancel routine",
        ),
        Act::Plain(Plain::Move(to)) => Lesson::about(
            "the register is blank: what it had was moved to another one",
            source,
            "name the register that it was moved to, $R",
            About::register(to),
        ),
        Act::Queue(
            Queueing::Insert(_) | Queueing::Remove(_) | Queueing::Unlink(_) | Queueing::Arm(_),
        )
        | Act::Plain(Plain::Number | Plain::Clear | Plain::Loop(_) | Plain::End)
        | Act::Look
        | Act::Mark(_)
        | Act::Lock(_)
        | Act::Device(_)
        | Act::Send(_)
        | Act::Return(_) => Lesson::of(
            "the register is blank: its packet was completed or given away before",
            source,
            "complete a packet once, and before it is handed on",
        ),
    }
}

/// The rule on the locks of queues and of the device queue.
pub(crate) fn of_guards(case: &Case<'_>) -> Lesson {
    match act_of(case.instr) {
        Act::Lock(Locking::Release(lock)) => let_go(case, lock),
        Act::Device(waiting) => of_waiting(case, waiting),
        Act::Lock(Locking::Acquire(_))
        | Act::Plain(_)
        | Act::Look
        | Act::Mark(_)
        | Act::Queue(_)
        | Act::Send(_)
        | Act::Return(_) => unguarded(case),
    }
}

/// The device queue is touched while the system cancel spin lock isn't held.
fn of_waiting(case: &Case<'_>, waiting: Waiting) -> Lesson {
    match waiting {
        Waiting::Next if !case.state().token => of_token(case),
        Waiting::Dequeue if !is_cancelled(case) => of_another_list(case),
        Waiting::Start | Waiting::Next | Waiting::Dequeue => Lesson::of(
            "packets of the device queue can be cancelled, and the system cancel lock isn't held",
            WAITING,
            "`acqc` before it, and `relc` after it",
        ),
        Waiting::Take | Waiting::Begin => unguarded(case),
    }
}

/// Whether the packet of the instruction is one of the device queue that is being cancelled.
fn is_cancelled(case: &Case<'_>) -> bool {
    kind_of(case.state(), packet_of(case.instr))
        == Kind::Queued(QueueName::DeviceQueue, Stage::Cancelling)
}

/// A queue is touched while its lock isn't held.
fn unguarded(case: &Case<'_>) -> Lesson {
    let list = list_of(case.instr).unwrap_or(QueueName::DeviceQueue);
    if !stands_there(case, list) {
        return of_cancellation(case);
    }
    Lesson::about(
        "queue $Q is touched while its lock, $L, isn't held",
        QUEUES,
        "$A before it",
        case.about(case.register(), list),
    )
}

/// Whether the packet that an instruction takes off a queue or arms stands there.
fn stands_there(case: &Case<'_>, list: QueueName) -> bool {
    let kind = kind_of(case.state(), packet_of(case.instr));
    match act_of(case.instr) {
        Act::Queue(Queueing::Unlink(_)) => {
            kind == Kind::Queued(list, Stage::Listed)
                || kind == Kind::Queued(list, Stage::Cancelling)
        }
        Act::Queue(Queueing::Arm(_)) => kind == Kind::Queued(list, Stage::Listed),
        Act::Queue(Queueing::Insert(_) | Queueing::Remove(_) | Queueing::Disarm)
        | Act::Plain(_)
        | Act::Look
        | Act::Mark(_)
        | Act::Lock(_)
        | Act::Device(_)
        | Act::Send(_)
        | Act::Return(_) => true,
    }
}

/// A lock is released while a register has a packet that stays where it is under the lock.
fn let_go(case: &Case<'_>, lock: Guard) -> Lesson {
    let Some((number, list, stage)) = case.kept_by(&lock) else {
        return Lesson::of(
            "the lock is released while a register has a packet that it guards",
            QUEUES,
            "finish with the packet first",
        );
    };
    let about = case.about(number, list);
    match stage {
        Stage::Listed if case.was_so(&Fact::Armed(number)) => Lesson::about(
            "$L is released while the packet in $R, which was disarmed, still stands in queue $Q",
            QUEUES,
            "`unlink $R $Q` before the release",
            about,
        ),
        Stage::Listed => Lesson::about(
            "$L is released while the packet in $R stands in queue $Q with no cancel routine set",
            QUEUES,
            "`arm $R $Q` behind its `insert`, or `unlink $R $Q` before the release",
            about,
        ),
        Stage::Cancelling => Lesson::about(
            "the lock is released while the packet that is being cancelled is in the device queue",
            WAITING,
            "`dequeue $R` before `relc`",
            about,
        ),
        Stage::Taken | Stage::Armed => Lesson::about(
            "$L is released while the packet in $R, taken off queue $Q, may still be cancelled",
            QUEUES,
            "`disarm $R L` behind the `remove`, with the same label: there the packet is left to \
             its cancel routine",
            about,
        ),
    }
}

/// A packet is taken off the device queue that isn't one of it.
fn of_another_list(case: &Case<'_>) -> Lesson {
    let why = "the packet isn't one of the device queue that is being cancelled";
    let register = packet_of(case.instr);
    if let Kind::Queued(list, Stage::Cancelling) = kind_of(case.state(), register) {
        let about = case.about(register.index(), list);
        return Lesson::about(why, QUEUES, unlinked(case, list), about);
    }
    Lesson::of(
        why,
        QUEUES,
        "take it out: the cancel routine of the device queue takes its packet off, once",
    )
}

/// How a packet is taken off a queue in place of another instruction.
fn unlinked(case: &Case<'_>, list: QueueName) -> &'static str {
    if holds_guard(case, list) {
        "`unlink $R $Q` instead"
    } else {
        "$A, `unlink $R $Q` and $E instead"
    }
}

/// The rule on packets that may be cancelled.
pub(crate) fn of_cancellation(case: &Case<'_>) -> Lesson {
    match act_of(case.instr) {
        Act::Queue(queueing) => of_queueing(case, queueing),
        Act::Device(Waiting::Dequeue) => of_another_list(case),
        Act::Mark(Marking::Mark) => of_marks(case),
        Act::Mark(Marking::Look)
        | Act::Plain(_)
        | Act::Look
        | Act::Lock(_)
        | Act::Device(Waiting::Start | Waiting::Take | Waiting::Begin | Waiting::Next)
        | Act::Send(_)
        | Act::Return(_) => of_use(case),
    }
}

/// The same where the instruction is about a queue.
fn of_queueing(case: &Case<'_>, queueing: Queueing) -> Lesson {
    let kind = kind_of(case.state(), packet_of(case.instr));
    match queueing {
        Queueing::Insert(_) => of_use(case),
        Queueing::Remove(queue) => named_still(case, QueueName::Declared(queue)),
        Queueing::Unlink(queue) => match another_list(kind, QueueName::Declared(queue)) {
            Some(list) => in_another(case, list),
            None => not_unlinked(case, kind),
        },
        Queueing::Arm(queue) => match another_list(kind, QueueName::Declared(queue)) {
            Some(list) => in_another(case, list),
            None => not_armed(case, kind, QueueName::Declared(queue)),
        },
        Queueing::Disarm => not_disarmed(case, kind),
    }
}

/// The list of a packet, where it is another one than this.
fn another_list(kind: Kind, queue: QueueName) -> Option<QueueName> {
    if let Kind::Queued(list, _) = kind
        && list != queue
    {
        return Some(list);
    }
    None
}

/// A packet that may be cancelled is used or handed on.
fn of_use(case: &Case<'_>) -> Lesson {
    if is_sent_elsewhere(case) {
        return sent_down(case.sort);
    }
    if let Kind::Queued(list, stage) = kind_of(case.state(), packet_of(case.instr)) {
        return not_own(case, list, stage);
    }
    Lesson::of(
        "the packet may still be cancelled, so it isn't the routine's own",
        QUEUES,
        "`disarm` and `unlink` it under the lock of its queue first",
    )
}

/// A packet of a queue is taken while a register still names another one that stands there.
fn named_still(case: &Case<'_>, queue: QueueName) -> Lesson {
    let why = "a second packet of queue $Q is taken while $R still names one there";
    let Some((number, stage)) = case.named_in(queue) else {
        let mend = "finish with that one before it";
        return Lesson::about(why, QUEUES, mend, About::queue(queue));
    };
    let mend = match stage {
        Stage::Armed => "$E before it, which leaves that one to the queue, and $A again",
        Stage::Listed | Stage::Taken | Stage::Cancelling => "`unlink $R $Q` before it",
    };
    Lesson::about(why, QUEUES, mend, case.about(number, queue))
}

/// A packet of one list is unlinked from another one, or armed for it.
fn in_another(case: &Case<'_>, list: QueueName) -> Lesson {
    let why = "the packet is one of another list";
    let mend = match list {
        QueueName::DeviceQueue => "`dequeue $R` instead, before `relc`",
        QueueName::Declared(_) if matches!(case.instr, Instr::Arm(..)) => "`arm $R $Q` instead",
        QueueName::Declared(_) => unlinked(case, list),
    };
    Lesson::about(why, QUEUES, mend, case.about(case.register(), list))
}

/// A packet is unlinked that doesn't stand in the queue, or that may still be cancelled.
fn not_unlinked(case: &Case<'_>, kind: Kind) -> Lesson {
    let about = About::register(case.register());
    match kind {
        Kind::Queued(_, Stage::Armed) => Lesson::about(
            "the packet is armed: its cancel routine is set, and may have been called",
            QUEUES,
            "`disarm $R L` before it; at L, leave the packet to its cancel routine",
            about,
        ),
        Kind::Queued(_, Stage::Taken) => Lesson::about(
            "the packet was taken off the queue by `remove`",
            QUEUES,
            "`disarm $R L` instead; at L, leave the packet to its cancel routine",
            about,
        ),
        Kind::Queued(_, Stage::Listed | Stage::Cancelling)
        | Kind::Blank
        | Kind::Num
        | Kind::Lower
        | Kind::New
        | Kind::Own
        | Kind::View => Lesson::of(
            "the packet is the routine's own, and doesn't stand in the queue",
            QUEUES,
            "take it out",
        ),
    }
}

/// A cancel routine is set for a packet that doesn't stand in the queue, or that has one.
fn not_armed(case: &Case<'_>, kind: Kind, list: QueueName) -> Lesson {
    let about = case.about(case.register(), list);
    match kind {
        Kind::New | Kind::Own if case.rule != Rule::CancelState => Lesson::of(
            "the packet doesn't stand in the queue",
            QUEUES,
            "take it out: a packet is armed behind its `insert`, under the same lock",
        ),
        Kind::New => Lesson::about(
            "the packet doesn't stand in the queue",
            QUEUES,
            "`mark $R` and `insert $R $Q` before it",
            about,
        ),
        Kind::Queued(_, Stage::Armed) => {
            Lesson::of("the packet was armed before", QUEUES, "take it out")
        }
        Kind::Queued(_, Stage::Taken) => Lesson::about(
            "the packet was taken off the queue by `remove`",
            QUEUES,
            "`disarm $R L` and `insert $R $Q` before it",
            about,
        ),
        Kind::Queued(_, Stage::Listed | Stage::Cancelling) => Lesson::about(
            "the packet is being cancelled",
            QUEUES,
            "take it out, and `unlink $R $Q`",
            about,
        ),
        Kind::Own | Kind::Blank | Kind::Num | Kind::Lower | Kind::View => Lesson::about(
            "the packet is the routine's own, and doesn't stand in the queue",
            QUEUES,
            "`insert $R $Q` before it",
            about,
        ),
    }
}

/// The cancel routine is taken away of a packet that has none set.
fn not_disarmed(case: &Case<'_>, kind: Kind) -> Lesson {
    match kind {
        Kind::Queued(list, Stage::Listed) => of_listed(case, list),
        Kind::Queued(_, Stage::Armed | Stage::Taken | Stage::Cancelling) => Lesson::of(
            "the packet is being cancelled, and its cancel routine isn't set any more",
            QUEUES,
            "take it out",
        ),
        Kind::Own => of_own(case),
        Kind::Blank | Kind::Num | Kind::Lower | Kind::New | Kind::View => never_set(),
    }
}

/// A packet of the routine's own is disarmed, which may have been taken off a queue without a
/// cancel routine.
fn of_own(case: &Case<'_>) -> Lesson {
    if let Some(Instr::Remove(_, queue, _)) = case.filled_by(packet_of(case.instr))
        && case.is_plain(*queue)
    {
        return no_cancel_routine(*queue);
    }
    never_set()
}

/// A packet is disarmed for which no cancel routine is set.
fn never_set() -> Lesson {
    Lesson::of(
        "the packet is the routine's own: no cancel routine is set for it",
        QUEUES,
        "take it out",
    )
}

/// A packet that stands in its queue is disarmed: before it was armed, or once more.
fn of_listed(case: &Case<'_>, list: QueueName) -> Lesson {
    if case.was_so(&Fact::Armed(case.register())) {
        return Lesson::of("the packet was disarmed before", QUEUES, "take it out");
    }
    Lesson::about(
        "the packet wasn't armed: no cancel routine is set for it",
        QUEUES,
        "`arm $R $Q` behind its `insert`, or take this out",
        case.about(case.register(), list),
    )
}

/// A packet of a list is used as the routine's own.
fn not_own(case: &Case<'_>, list: QueueName, stage: Stage) -> Lesson {
    let about = case.about(case.register(), list);
    match (stage, list) {
        (Stage::Cancelling, QueueName::DeviceQueue) => Lesson::about(
            "the packet still stands in the device queue, so it isn't the cancel routine's own",
            QUEUES,
            "`dequeue $R` before it, and before `relc`",
            about,
        ),
        (Stage::Cancelling, QueueName::Declared(_)) => Lesson::about(
            "the packet may still stand in queue $Q, so it isn't the cancel routine's own",
            QUEUES,
            if holds_guard(case, list) {
                "`unlink $R $Q` before it"
            } else {
                "$A, `unlink $R $Q` and $E before it"
            },
            about,
        ),
        (Stage::Listed, _) => Lesson::about(
            "the packet stands in queue $Q",
            QUEUES,
            "`unlink $R $Q` before it, or take this out",
            about,
        ),
        (Stage::Armed, _) => Lesson::about(
            "the packet stands in queue $Q, and its cancel routine is set",
            QUEUES,
            "`disarm $R L` and `unlink $R $Q` before it, or take this out",
            about,
        ),
        (Stage::Taken, _) => Lesson::about(
            "the packet was taken off queue $Q, and its cancel routine may still be set",
            QUEUES,
            "`disarm $R L` before it; at L, leave the packet to its cancel routine",
            about,
        ),
    }
}

/// Whether the guard of a list is held.
fn holds_guard(case: &Case<'_>, list: QueueName) -> bool {
    match case.guard(list) {
        Some(lock) => is_held(case.state(), &lock),
        None => false,
    }
}

/// The rule on packets that a routine still has.
pub(crate) fn dropped(case: &Case<'_>) -> Lesson {
    let source = "the Driver Kit on dispatch routines";
    match act_of(case.instr) {
        Act::Return(form) if is_lent_still(case, &form) => of_form(case),
        Act::Return(form) => left_behind(case, &form),
        Act::Plain(Plain::Clear) => Lesson::of(
            "the register that is cleared still has a packet",
            source,
            "take it out: a register with a packet is emptied by handing the packet on",
        ),
        Act::Plain(Plain::Number | Plain::Move(_) | Plain::Loop(_) | Plain::End)
        | Act::Look
        | Act::Mark(_)
        | Act::Lock(_)
        | Act::Queue(_)
        | Act::Device(_)
        | Act::Send(_) => Lesson::of(
            "the register that is written still has a packet",
            source,
            "write another register, or finish with the packet first",
        ),
    }
}

/// A routine returns while a register still has a packet.
fn left_behind(case: &Case<'_>, form: &Return) -> Lesson {
    let Some(number) = first_left(case, form) else {
        return Lesson::of(
            "the routine returns while the register still has a packet, which would be lost",
            "the Driver Kit on dispatch routines",
            "finish with the packet first",
        );
    };
    let kind = case.state().kinds.get(number).copied();
    if let Some(Kind::Queued(list, _)) = kind {
        return being_cancelled(case.about(number, list), list);
    }
    let is_new = kind == Some(Kind::New);
    match case.sort {
        Sort::StartIo => of_started(
            case,
            number,
            "`begin $R` before the return, or `complete` it and start the `next`",
        ),
        Sort::Dpc => of_started(
            case,
            number,
            "start the `next` and `complete $R`, or `begin $R` again, before the return",
        ),
        Sort::Hold | Sort::Propagate => of_completing(is_new, form, number),
        Sort::Cancel => lost(
            number,
            "the Driver Kit on cancel routines",
            "`complete $R CANCELLED` before the return",
        ),
        Sort::Dispatch => of_dispatched(is_new, number),
    }
}

/// A dispatch routine returns while it has a packet, with which it did nothing or something.
fn of_dispatched(is_new: bool, number: usize) -> Lesson {
    let mend = if is_new {
        "`complete $R` with the returned status, `pass` it on, or `mark` and `insert` it"
    } else {
        FINISH
    };
    lost(number, "the Driver Kit on dispatch routines", mend)
}

/// The first register whose packet a return in this form leaves behind.
fn first_left(case: &Case<'_>, form: &Return) -> Option<usize> {
    let back = matches!((case.sort, form), (Sort::Hold, Return::Continue));
    let kinds = &case.state().kinds;
    kinds.iter().position(|kind| {
        is_packet(*kind) && *kind != Kind::View && !(back && *kind == Kind::New)
    })
}

/// A packet would be lost where a routine returns.
fn lost(number: usize, source: &'static str, mend: &'static str) -> Lesson {
    let why = "the routine returns while $R still has a packet, which would be lost";
    Lesson::about(why, source, mend, About::register(number))
}

/// A completion routine returns while it has a packet, which it was handed or took.
fn of_completing(is_new: bool, form: &Return, number: usize) -> Lesson {
    let source = "the Driver Kit on IoCompletion routines and IoMarkIrpPending";
    if is_new {
        return Lesson::about(
            "the routine stops the completion of a packet that it didn't keep",
            source,
            "`ret continue`, or `mark $R` and put it into a queue before `ret stop`",
            About::register(number),
        );
    }
    let mend = if matches!(form, Return::Stop) {
        "put it into a queue, under its lock, before the return"
    } else {
        "put it into a queue, under its lock, and `ret stop`"
    };
    lost(number, source, mend)
}

/// A cancel routine leaves its packet where it is.
fn being_cancelled(about: About, list: QueueName) -> Lesson {
    let why =
        "the routine returns, and nobody completes the packet in $R, which is being cancelled";
    let source = "the Driver Kit on cancel routines";
    match list {
        QueueName::DeviceQueue => Lesson::about(
            why,
            source,
            "`dequeue $R` before `relc`, and `complete $R CANCELLED` before the return",
            about,
        ),
        QueueName::Declared(_) => Lesson::about(
            why,
            source,
            "$A, `unlink $R $Q`, $E and `complete $R CANCELLED` before the return",
            about,
        ),
    }
}

/// A StartIo or DPC routine returns while it has a packet, which is so mended where it has the
/// token.
fn of_started(case: &Case<'_>, number: usize, mend: &'static str) -> Lesson {
    let source = "the Driver Kit on IoStartPacket, IoStartNextPacket and StartIo routines";
    lost(
        number,
        source,
        if case.state().token { mend } else { FINISH },
    )
}
