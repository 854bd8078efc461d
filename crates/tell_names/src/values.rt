//! What registers and cells become, and whether a routine jumps, in words.

use crate::book::Book;
use crate::named::{CellKind, add_cell, add_number, add_value, register_name, status_name};
use checked::Checked;
use checked_parts::number_in;
use model::event::OfDevice;
use model::instr::{Cell, Field, Instr, Register};
use model::view::FrameView;
use model::world::{Activation, Value};
use tell_uses::standing::top_frame;
use words::Words;

/// The routine on the top of a thread.
pub fn top_activation(machine: &Checked, thread: u8) -> Option<&Activation> {
    top_frame(machine, thread)?.activation()
}

/// Adds what a step did that a thread's routine made by itself: what it was before, and the machine
/// after it.
pub fn add_alone(
    words: &mut Words,
    book: &Book<'_>,
    thread: u8,
    before: FrameView,
    machine: &Checked,
) {
    let FrameView::Routine {
        driver,
        routine,
        position,
        ..
    } = before
    else {
        return;
    };
    let Some(instr) = machine.set().instruction(driver, routine, position) else {
        return;
    };
    let Some(after) = top_activation(machine, thread) else {
        return;
    };
    add_own(words, book, machine, instr, position, after)
}

/// Adds what an instruction at a position did that changed nothing but its routine.
fn add_own(
    words: &mut Words,
    book: &Book<'_>,
    machine: &Checked,
    instr: Instr,
    position: u16,
    after: &Activation,
) {
    match instr {
        Instr::Const(r, _) | Instr::Move(r, _) | Instr::Clear(r) => add_register(words, r, after),
        Instr::Add(r, s) => add_computed(words, r, Sign::Plus, s, after),
        Instr::Subtract(r, s) => add_computed(words, r, Sign::Minus, s, after),
        Instr::JumpIfZero(r, label) => add_jump_if_zero(words, book, r, label, after),
        Instr::JumpIfLess(r, s, label) => add_jump_if_less(words, book, r, s, label, after),
        Instr::Loop(turns) => add_turn(words, 1, turns.count()),
        Instr::End => add_end(words, machine, position, after),
        Instr::Jump(_)
        | Instr::Load(_, _)
        | Instr::Store(_, _)
        | Instr::LoadPaged(_, _)
        | Instr::StorePaged(_, _)
        | Instr::Get(_, _, _)
        | Instr::Put(_, _)
        | Instr::Mark(_)
        | Instr::Acquire(_)
        | Instr::Release(_)
        | Instr::AcquireCancel
        | Instr::ReleaseCancel
        | Instr::Insert(_, _)
        | Instr::Remove(_, _, _)
        | Instr::Unlink(_, _)
        | Instr::Arm(_, _)
        | Instr::Disarm(_, _)
        | Instr::IfCancel(_, _)
        | Instr::Start(_)
        | Instr::Take(_, _)
        | Instr::Begin(_)
        | Instr::Next
        | Instr::Dequeue(_)
        | Instr::Pass(_)
        | Instr::Call(_, _)
        | Instr::Complete(_, _)
        | Instr::IfPending(_, _)
        | Instr::Ret(_) => {}
    }
}

/// Adds what the register has that was looked at, and whether the routine jumps, as it is 0.
fn add_jump_if_zero(
    words: &mut Words,
    book: &Book<'_>,
    r: Register,
    label: u16,
    after: &Activation,
) {
    add_looked_at(words, r, after);
    add_jump(words, book, after, number_at(r, after) == 0, label)
}

/// Adds what the registers have that were looked at, and whether the routine jumps, as the first is
/// less.
fn add_jump_if_less(
    words: &mut Words,
    book: &Book<'_>,
    r: Register,
    s: Register,
    label: u16,
    after: &Activation,
) {
    add_looked_at(words, r, after);
    words.add(", ");
    add_looked_at(words, s, after);
    let jumps = number_at(r, after) < number_at(s, after);
    add_jump(words, book, after, jumps, label)
}

/// Adds where a routine goes on behind the body of a loop that ends at a position.
fn add_end(words: &mut Words, machine: &Checked, position: u16, after: &Activation) {
    if after.position == position.saturating_add(1) {
        return words.add("leaves the loop");
    }
    add_round(words, machine, after)
}

/// The value of a register.
pub fn value_at(r: Register, a: &Activation) -> Value {
    a.registers[r.index()]
}

/// The number in a register; 0 where there is none.
fn number_at(r: Register, a: &Activation) -> u64 {
    number_in(value_at(r, a)).unwrap_or(0)
}

/// Adds what a register has become.
pub(crate) fn add_register(words: &mut Words, r: Register, after: &Activation) {
    words.add(register_name(r));
    words.add(" = ");
    add_value(words, value_at(r, after))
}

/// Adds the number in a register that was looked at.
fn add_looked_at(words: &mut Words, r: Register, after: &Activation) {
    words.add(register_name(r));
    words.add(" is ");
    add_number(words, number_at(r, after))
}

/// How two numbers make a third one.
#[derive(Clone, Copy)]
enum Sign {
    Plus,
    Minus,
}

impl Sign {
    /// The first number, of which and of a second one this was made.
    fn first_of(self, made: u64, second: u64) -> u64 {
        match self {
            Sign::Plus => made.wrapping_sub(second),
            Sign::Minus => made.wrapping_add(second),
        }
    }

    /// The sign in words.
    fn as_str(self) -> &'static str {
        match self {
            Sign::Plus => " + ",
            Sign::Minus => " - ",
        }
    }
}

/// Adds of what two numbers a register was computed, and what it has become; where the second stood
/// in the same register, what it has become alone.
fn add_computed(words: &mut Words, r: Register, sign: Sign, s: Register, after: &Activation) {
    if r.index() == s.index() {
        return add_register(words, r, after);
    }
    let made = number_at(r, after);
    let second = number_at(s, after);
    words.add(register_name(r));
    words.add(" = ");
    add_number(words, sign.first_of(made, second));
    words.add(sign.as_str());
    add_number(words, second);
    words.add(" = ");
    add_number(words, made)
}

/// Adds whether a routine jumps to a label.
fn add_jump(words: &mut Words, book: &Book<'_>, after: &Activation, jumps: bool, label: u16) {
    if !jumps {
        return words.add(": goes on");
    }
    words.add(": jumps to ");
    book.add_label(words, after.driver, after.routine, label)
}

/// Adds that a routine goes round in its innermost loop, and in which turn.
fn add_round(words: &mut Words, machine: &Checked, after: &Activation) {
    let Some(open) = after.loops.get(after.loops.len().saturating_sub(1)) else {
        return;
    };
    let opened = open.start.saturating_sub(1);
    let all = turns_at(machine, after, opened);
    words.add("goes round again: ");
    add_turn(words, all.saturating_sub(open.turns).saturating_add(1), all)
}

/// How many turns the loop has that a routine opens at a position.
fn turns_at(machine: &Checked, after: &Activation, position: u16) -> u16 {
    let set = machine.set();
    let instruction = set.instruction(after.driver, after.routine, position);
    match instruction {
        Some(instr) => turns_of(&instr),
        None => 0,
    }
}

/// How many turns a loop has.
fn turns_of(instr: &Instr) -> u16 {
    if let Instr::Loop(turns) = instr {
        return turns.count();
    }
    0
}

/// Adds which turn of how many begins.
fn add_turn(words: &mut Words, turn: u16, all: u16) {
    words.add("turn ");
    add_number(words, u64::from(turn));
    words.add(" of ");
    add_number(words, u64::from(all))
}

/// A cell of the device for which a routine runs.
fn cell_of(a: &Activation, cell: Cell) -> OfDevice {
    OfDevice {
        device: a.device,
        number: cell.index().min(255) as u8,
    }
}

/// Adds the number that a register got from a cell.
pub fn add_loaded(
    words: &mut Words,
    book: &Book<'_>,
    r: Register,
    kind: CellKind,
    cell: Cell,
    after: &Activation,
) {
    words.add(register_name(r));
    words.add(" = ");
    add_stored(words, book, kind, cell, r, after)
}

/// Adds the number that a cell got from a register.
pub fn add_stored(
    words: &mut Words,
    book: &Book<'_>,
    kind: CellKind,
    cell: Cell,
    r: Register,
    after: &Activation,
) {
    add_cell(words, book, kind, cell_of(after, cell));
    words.add(" = ");
    add_number(words, number_at(r, after))
}

/// Adds which field of a packet a register got.
pub fn add_got(words: &mut Words, r: Register, packet: u64, field: Field, after: &Activation) {
    add_register(words, r, after);
    words.add(", packet ");
    add_number(words, packet);
    words.add(match field {
        Field::Major => "'s major function",
        Field::Argument => "'s argument",
        Field::Info => "'s information",
    })
}

/// Adds what a register has, where it should have something else.
pub(crate) fn add_had(words: &mut Words, value: Value) {
    match value {
        Value::Num(number) => {
            words.add("the number ");
            add_number(words, number)
        }
        Value::Status(status) => {
            words.add("the status ");
            words.add(status_name(status))
        }
        Value::Blank | Value::Ref(_) => add_value(words, value),
    }
}
