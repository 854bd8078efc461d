//! What is wrong with an instruction that couldn't be executed, in words.

use crate::book::Book;
use crate::named::{add_number, register_name};
use crate::values::{add_had, value_at};
use checked::Checked;
use checked_parts::{number_in, status_in};
use model::instr::{Instr, Register, Return};
use model::set::Sort;
use model::world::Activation;
use tell_uses::standing::packet_in;
use words::Words;

/// What an instruction wants, and hasn't.
#[derive(Clone, Copy)]
enum Wanted {
    /// A number in a register.
    Number(Register),
    /// A packet in a register.
    Packet(Register),
    /// A status in a register.
    Status(Register),
    /// The cancel routine of a queue.
    CancelRoutine(u8),
    /// A device under that for which the routine runs.
    LowerDevice,
    /// Room for another loop.
    RoomForLoop,
    /// A loop that is open.
    OpenLoop,
    /// A form of return that routines of its sort have.
    Form(Sort),
}

/// A number in a register.
fn number_in_it(r: Register) -> Option<Wanted> {
    Some(Wanted::Number(r))
}

/// A number in a register of these two, the first of them that has none.
fn unless_numbers(a: &Activation, r: Register, s: Register) -> Option<Wanted> {
    match number_in(value_at(r, a)) {
        None => Some(Wanted::Number(r)),
        Some(_) => Some(Wanted::Number(s)),
    }
}

/// A number in a register, else a packet in another.
fn unless_number(a: &Activation, r: Register, packet: Register) -> Option<Wanted> {
    match number_in(value_at(r, a)) {
        None => Some(Wanted::Number(r)),
        Some(_) => Some(Wanted::Packet(packet)),
    }
}

/// A packet in a register, else what is wanted beside it.
fn unless_packet(machine: &Checked, a: &Activation, r: Register, other: Wanted) -> Option<Wanted> {
    match packet_in(machine, value_at(r, a)) {
        None => Some(Wanted::Packet(r)),
        Some(_) => Some(other),
    }
}

/// What an instruction wants that couldn't be executed, in the order in which it asks for it.
fn wanted_by(machine: &Checked, a: &Activation, instr: Instr) -> Option<Wanted> {
    match instr {
        Instr::Add(r, s) | Instr::Subtract(r, s) => unless_numbers(a, r, s),
        Instr::JumpIfLess(r, s, _) => unless_numbers(a, r, s),
        Instr::JumpIfZero(r, _) => number_in_it(r),
        Instr::Store(_, r) | Instr::StorePaged(_, r) => number_in_it(r),
        Instr::Put(s, r) => unless_number(a, r, s),
        Instr::Arm(r, queue) => unless_packet(machine, a, r, Wanted::CancelRoutine(queue)),
        Instr::Pass(r) => unless_packet(machine, a, r, Wanted::LowerDevice),
        Instr::Call(r, _) => unless_packet(machine, a, r, Wanted::LowerDevice),
        Instr::Loop(_) => Some(Wanted::RoomForLoop),
        Instr::End => Some(Wanted::OpenLoop),
        Instr::Ret(form) => wanted_form(machine.set().sort(a.driver, a.routine), form),
        Instr::Get(_, r, _)
        | Instr::Mark(r)
        | Instr::Insert(r, _)
        | Instr::Unlink(r, _)
        | Instr::Disarm(r, _)
        | Instr::IfCancel(r, _)
        | Instr::Start(r)
        | Instr::Begin(r)
        | Instr::Dequeue(r)
        | Instr::Complete(r, _)
        | Instr::IfPending(r, _) => Some(Wanted::Packet(r)),
        Instr::Const(_, _) | Instr::Move(_, _) | Instr::Clear(_) | Instr::Jump(_) => None,
        Instr::Load(_, _) | Instr::LoadPaged(_, _) => None,
        Instr::Acquire(_) | Instr::AcquireCancel => None,
        Instr::Release(_) | Instr::ReleaseCancel => None,
        Instr::Remove(_, _, _) | Instr::Take(_, _) | Instr::Next => None,
    }
}

/// What a return wants of a routine of a sort.
fn wanted_form(sort: Sort, form: Return) -> Option<Wanted> {
    if let (Sort::Dispatch, Return::Lower(r)) = (sort, form) {
        return Some(Wanted::Status(r));
    }
    Some(Wanted::Form(sort))
}

/// Adds what is wrong with an instruction that couldn't be executed, by the machine that it left as
/// it was.
pub fn add_wrong(
    words: &mut Words,
    book: &Book<'_>,
    machine: &Checked,
    a: &Activation,
    instruction: Option<Instr>,
) {
    let Some(instr) = instruction else {
        return add_ended(words, book, a);
    };
    let Some(wanted) = wanted_by(machine, a, instr) else {
        return;
    };
    match wanted {
        Wanted::Number(r) => add_register_without(words, a, r, " has no number: it has "),
        Wanted::Packet(r) => add_register_without(words, a, r, " has no packet: it has "),
        Wanted::Status(r) => add_register_without(words, a, r, " has no status: it has "),
        Wanted::CancelRoutine(queue) => {
            words.add("queue ");
            book.add_queue(words, a.driver, queue);
            words.add(" has no cancel routine")
        }
        Wanted::LowerDevice => {
            book.add_device(words, a.device);
            words.add(" has no device under it")
        }
        Wanted::RoomForLoop => words.add("four loops are open already"),
        Wanted::OpenLoop => words.add("no loop is open"),
        Wanted::Form(sort) => add_forms(words, sort),
    }
}

/// Adds a register, what it hasn't, and what it has.
fn add_register_without(words: &mut Words, a: &Activation, r: Register, lack: &str) {
    words.add(register_name(r));
    words.add(lack);
    add_had(words, value_at(r, a))
}

/// Adds how routines of a sort end.
fn add_forms(words: &mut Words, sort: Sort) {
    words.add("a ");
    words.add(sort.as_str());
    words.add(" routine ends with ");
    words.add(match sort {
        Sort::Dispatch => "`ret STATUS` or `ret lower`",
        Sort::StartIo | Sort::Dpc | Sort::Cancel => "`ret void`",
        Sort::Propagate | Sort::Hold => "`ret continue` or `ret stop`",
    })
}

/// Adds that a routine has ended.
fn add_ended(words: &mut Words, book: &Book<'_>, a: &Activation) {
    match book.last_line(a.driver, a.routine) {
        Some(place) => {
            words.add("the routine has ended: no instruction stands behind line ");
            add_number(words, place.number)
        }
        None => words.add("the routine has no instruction"),
    }
}
