//! Registers that have something else than an instruction wants of them, in words.

use crate::acts::{Act, Marking, Queueing, act_of};
use crate::case::{Case, first_packet, is_packet, kind_of};
use crate::returns::no_lower;
use model::abs::{Abs, Duty, Kind};
use model::instr::{Instr, Register, Return};
use model::set::QueueName;
use verifier_names::{About, Lesson};

/// What an instruction wants of a register and doesn't find there.
#[derive(Clone, Copy)]
enum Lack {
    /// The status that a lower driver returned.
    Lower(Register),
    Number(Register),
    Packet(Register),
}

/// What an instruction wants of its registers.
#[derive(Clone, Copy)]
enum Wanted {
    Nothing,
    /// The status that a lower driver returned.
    Lower(Register),
    Number(Register),
    Numbers(Register, Register),
    Packet(Register),
    /// A packet, and a number for a field of it.
    PacketAndNumber(Register, Register),
}

/// What an instruction wants of its registers. Each instruction is named.
fn wants_of(instr: &Instr) -> Wanted {
    match *instr {
        Instr::Add(r, s) | Instr::Subtract(r, s) | Instr::JumpIfLess(r, s, _) => {
            Wanted::Numbers(r, s)
        }
        Instr::JumpIfZero(r, _) | Instr::Store(_, r) | Instr::StorePaged(_, r) => {
            Wanted::Number(r)
        }
        Instr::Put(packet, number) => Wanted::PacketAndNumber(packet, number),
        Instr::Get(_, r, _)
        | Instr::Mark(r)
        | Instr::Insert(r, _)
        | Instr::Unlink(r, _)
        | Instr::Arm(r, _)
        | Instr::Disarm(r, _)
        | Instr::IfCancel(r, _)
        | Instr::Start(r)
        | Instr::Begin(r)
        | Instr::Dequeue(r)
        | Instr::Pass(r)
        | Instr::Call(r, _)
        | Instr::Complete(r, _)
        | Instr::IfPending(r, _) => Wanted::Packet(r),
        Instr::Ret(form) => wants_back(form),
        Instr::Const(..)
        | Instr::Move(..)
        | Instr::Clear(_)
        | Instr::Jump(_)
        | Instr::Loop(_)
        | Instr::End
        | Instr::Load(..)
        | Instr::LoadPaged(..)
        | Instr::Acquire(_)
        | Instr::Release(_)
        | Instr::AcquireCancel
        | Instr::ReleaseCancel
        | Instr::Remove(..)
        | Instr::Take(..)
        | Instr::Next => Wanted::Nothing,
    }
}

/// What a return in this form wants.
fn wants_back(form: Return) -> Wanted {
    match form {
        Return::Lower(r) => Wanted::Lower(r),
        Return::WithStatus(_) | Return::Continue | Return::Stop | Return::Void => Wanted::Nothing,
    }
}

/// What an instruction lacks in the state that arrives there, where it lacks something.
fn lack_of(instr: &Instr, state: &Abs) -> Lack {
    match wants_of(instr) {
        Wanted::Lower(r) => Lack::Lower(r),
        Wanted::Number(r) => Lack::Number(r),
        Wanted::Numbers(r, s) => lack_of_numbers(state, r, s),
        Wanted::PacketAndNumber(packet, number) => lack_of_both(state, packet, number),
        Wanted::Packet(r) => Lack::Packet(r),
        Wanted::Nothing => Lack::Packet(Register::FIRST),
    }
}

/// What is lacking of two numbers.
fn lack_of_numbers(state: &Abs, one: Register, other: Register) -> Lack {
    Lack::Number(if is_number(state, one) { other } else { one })
}

/// What is lacking of a packet and a number.
fn lack_of_both(state: &Abs, packet: Register, number: Register) -> Lack {
    if is_packet(kind_of(state, packet)) {
        Lack::Number(number)
    } else {
        Lack::Packet(packet)
    }
}

/// The register of which an instruction wants a packet, where it wants one.
pub(crate) fn packet_of(instr: &Instr) -> Register {
    match wants_of(instr) {
        Wanted::Packet(r) | Wanted::PacketAndNumber(r, _) => r,
        Wanted::Nothing | Wanted::Lower(_) | Wanted::Number(_) | Wanted::Numbers(..) => {
            Register::FIRST
        }
    }
}

/// The register that is blank where an instruction wants something of it, if there is one.
pub fn blank_register(instr: &Instr, state: &Abs) -> Option<Register> {
    let register = match lack_of(instr, state) {
        Lack::Lower(register) | Lack::Number(register) | Lack::Packet(register) => register,
    };
    if kind_of(state, register) == Kind::Blank {
        Some(register)
    } else {
        None
    }
}

/// The rule on what registers have to hold.
pub(crate) fn wrong_kind(case: &Case<'_>) -> Lesson {
    match lack_of(case.instr, case.state()) {
        Lack::Lower(_) => no_lower(case),
        Lack::Number(register) => no_number(case.state(), register),
        Lack::Packet(register) => no_packet(case, register),
    }
}

fn is_number(state: &Abs, register: Register) -> bool {
    kind_of(state, register) == Kind::Num
}

/// A register has no number where one is wanted.
fn no_number(state: &Abs, register: Register) -> Lesson {
    let source = "this bytecode's form: a register is a number or a packet, not both";
    match kind_of(state, register) {
        Kind::Blank => Lesson::of(
            "a number is wanted, and the register is blank on this path",
            source,
            "set it first, by `const`, `load` or `get`, on each path that leads here",
        ),
        Kind::Lower => Lesson::of(
            "a number is wanted, and the register has the status that the lower driver returned",
            source,
            "return it by `ret lower`, and use another register for numbers",
        ),
        Kind::Num | Kind::New | Kind::Own | Kind::Queued(..) | Kind::View => Lesson::of(
            "a number is wanted, and the register has a packet",
            source,
            "`get` a field of the packet into another register, and name that one",
        ),
    }
}

/// A register has no packet where one is wanted.
fn no_packet(case: &Case<'_>, register: Register) -> Lesson {
    let source = "the Driver Kit: a packet isn't touched after IoCompleteRequest or IoCallDriver";
    match kind_of(case.state(), register) {
        Kind::Blank => no_packet_any_more(case, register, source),
        Kind::Lower => Lesson::of(
            "a packet is wanted, and it was sent down: the register has the status returned for it",
            source,
            if matches!(case.instr, Instr::Complete(..)) {
                "take it out: the lower driver completes the packet"
            } else {
                "do this before the packet is sent down"
            },
        ),
        Kind::Num | Kind::New | Kind::Own | Kind::Queued(..) | Kind::View => Lesson::of(
            "a packet is wanted, and the register has a number",
            source,
            "name the register that has the packet",
        ),
    }
}

/// A register is blank where a packet is wanted: since its queue has no cancel routine, or since
/// it was given away, or as it never had one.
fn no_packet_any_more(case: &Case<'_>, register: Register, source: &'static str) -> Lesson {
    let Some(emptied) = case.emptied_by(register) else {
        return never_there(case, source);
    };
    match act_of(emptied) {
        Act::Queue(Queueing::Disarm) => Lesson::of(
            "a packet is wanted, and the register is blank: the packet is its cancel routine's",
            "the Driver Kit on driver-managed IRP queues and IoSetCancelRoutine",
            "take it out, and leave the packet to its cancel routine",
        ),
        Act::Queue(Queueing::Insert(queue)) => match plain_queue(case, queue) {
            Some(plain) => no_cancel_routine(plain),
            None => given_away(case, source),
        },
        Act::Queue(Queueing::Remove(_) | Queueing::Unlink(_) | Queueing::Arm(_))
        | Act::Plain(_)
        | Act::Look
        | Act::Mark(_)
        | Act::Lock(_)
        | Act::Device(_)
        | Act::Send(_)
        | Act::Return(_) => given_away(case, source),
    }
}

/// The queue without a cancel routine for whose packet the instruction wants one, where the packet
/// was put into a queue.
fn plain_queue(case: &Case<'_>, inserted: u8) -> Option<u8> {
    match act_of(case.instr) {
        Act::Queue(Queueing::Disarm) => Some(inserted),
        Act::Queue(Queueing::Arm(queue) | Queueing::Unlink(queue)) if case.is_plain(queue) => {
            Some(queue)
        }
        Act::Queue(
            Queueing::Arm(_) | Queueing::Unlink(_) | Queueing::Insert(_) | Queueing::Remove(_),
        )
        | Act::Plain(_)
        | Act::Look
        | Act::Mark(_)
        | Act::Lock(_)
        | Act::Device(_)
        | Act::Send(_)
        | Act::Return(_) => None,
    }
}

/// A register is blank where a packet is wanted, which was given away.
fn given_away(case: &Case<'_>, source: &'static str) -> Lesson {
    Lesson::of(
        "a packet is wanted, and the register is blank: it was given away before",
        source,
        if is_look(case) {
            "do this before the packet is completed, passed on or put away"
        } else {
            "take it out, or do it before the packet is completed, passed on or put away"
        },
    )
}

/// Whether an instruction looks at a packet, or is the first mark of it: so it can be done earlier.
fn is_look(case: &Case<'_>) -> bool {
    match act_of(case.instr) {
        Act::Look => true,
        Act::Mark(Marking::Mark) => case.state().duty != Duty::Pending,
        Act::Mark(Marking::Look)
        | Act::Plain(_)
        | Act::Lock(_)
        | Act::Queue(_)
        | Act::Device(_)
        | Act::Send(_)
        | Act::Return(_) => false,
    }
}

/// What is for packets that can be cancelled is done with a packet of a queue without a cancel
/// routine.
pub(crate) fn no_cancel_routine(queue: u8) -> Lesson {
    Lesson::about(
        "queue $Q has no cancel routine, so its packets can't be cancelled: `insert` gives one \
         away, and `remove` takes one as the routine's own",
        "the Driver Kit on driver-managed IRP queues and IoSetCancelRoutine",
        "take it out, or name a cancel routine on the `queue` line",
        About::queue(QueueName::Declared(queue)),
    )
}

/// A register never had a packet on this path.
pub(crate) fn never_there(case: &Case<'_>, source: &'static str) -> Lesson {
    let why = "a packet is wanted, and the register is blank: it never had one on this path";
    match first_packet(case.state()) {
        Some(number) => Lesson::about(
            why,
            source,
            "name `$R`, which has a packet",
            About::register(number),
        ),
        None => Lesson::of(
            why,
            source,
            "take it out, or take a packet first, by `remove` or `take`",
        ),
    }
}
