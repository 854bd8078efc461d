//! The registers and the queues that instructions name: taken apart in one place, and put together
//! in another. Each instruction is named there.

use driver_set::{Instr, Register, Return};

/// An instruction by the registers that it names, and what it does with them.
#[derive(Clone, Copy)]
enum Operands {
    /// It names none.
    Bare,
    /// It puts a number into its register that it doesn't make from others.
    Give(Register),
    /// The same, of a packet in the second.
    Read(Register, Register),
    /// It sets the first to what the second holds.
    Copy(Register, Register),
    /// It sets its register to nothing.
    Forget(Register),
    /// It makes the number in the first another one by that in the second.
    Change(Register, Register),
    /// It uses the numbers in both.
    Compare(Register, Register),
    /// It uses the number in its register.
    Use(Register),
    /// It uses a packet in the first, and the number in the second.
    Write(Register, Register),
    /// It puts a packet into a queue or takes one off, or looks after it there.
    Queue(Register, u8),
    /// It uses a packet or a status in its register, or puts a packet there.
    Hold(Register),
}

/// What an instruction does with its registers.
fn operands_of(instr: &Instr) -> Operands {
    match *instr {
        Instr::Const(r, _) | Instr::Load(r, _) | Instr::LoadPaged(r, _) => Operands::Give(r),
        Instr::Get(r, s, _) => Operands::Read(r, s),
        Instr::Move(r, s) => Operands::Copy(r, s),
        Instr::Clear(r) => Operands::Forget(r),
        Instr::Add(r, s) | Instr::Subtract(r, s) => Operands::Change(r, s),
        Instr::JumpIfLess(r, s, _) => Operands::Compare(r, s),
        Instr::JumpIfZero(r, _) | Instr::Store(_, r) | Instr::StorePaged(_, r) => Operands::Use(r),
        Instr::Put(r, s) => Operands::Write(r, s),
        Instr::Insert(r, q) | Instr::Remove(r, q, _) | Instr::Unlink(r, q) | Instr::Arm(r, q) => {
            Operands::Queue(r, q)
        }
        Instr::Mark(r)
        | Instr::Disarm(r, _)
        | Instr::IfCancel(r, _)
        | Instr::Start(r)
        | Instr::Take(r, _)
        | Instr::Begin(r)
        | Instr::Dequeue(r)
        | Instr::Pass(r)
        | Instr::Call(r, _)
        | Instr::Complete(r, _)
        | Instr::IfPending(r, _)
        | Instr::Ret(Return::Lower(r)) => Operands::Hold(r),
        Instr::Jump(_)
        | Instr::Loop(_)
        | Instr::End
        | Instr::Acquire(_)
        | Instr::Release(_)
        | Instr::AcquireCancel
        | Instr::ReleaseCancel
        | Instr::Next
        | Instr::Ret(Return::WithStatus(_) | Return::Continue | Return::Stop | Return::Void) => {
            Operands::Bare
        }
    }
}

/// The instruction with other registers and another queue, as far as it names them. A return stays.
fn with_operands(instr: Instr, r: Register, s: Register, q: u8) -> Instr {
    match instr {
        Instr::Const(_, number) => Instr::Const(r, number),
        Instr::Move(..) => Instr::Move(r, s),
        Instr::Clear(_) => Instr::Clear(r),
        Instr::Add(..) => Instr::Add(r, s),
        Instr::Subtract(..) => Instr::Subtract(r, s),
        Instr::JumpIfZero(_, label) => Instr::JumpIfZero(r, label),
        Instr::JumpIfLess(_, _, label) => Instr::JumpIfLess(r, s, label),
        Instr::Load(_, c) => Instr::Load(r, c),
        Instr::Store(c, _) => Instr::Store(c, r),
        Instr::LoadPaged(_, c) => Instr::LoadPaged(r, c),
        Instr::StorePaged(c, _) => Instr::StorePaged(c, r),
        Instr::Get(_, _, field) => Instr::Get(r, s, field),
        Instr::Put(..) => Instr::Put(r, s),
        Instr::Mark(_) => Instr::Mark(r),
        Instr::Insert(..) => Instr::Insert(r, q),
        Instr::Remove(_, _, label) => Instr::Remove(r, q, label),
        Instr::Unlink(..) => Instr::Unlink(r, q),
        Instr::Arm(..) => Instr::Arm(r, q),
        Instr::Disarm(_, label) => Instr::Disarm(r, label),
        Instr::IfCancel(_, label) => Instr::IfCancel(r, label),
        Instr::Start(_) => Instr::Start(r),
        Instr::Take(_, label) => Instr::Take(r, label),
        Instr::Begin(_) => Instr::Begin(r),
        Instr::Dequeue(_) => Instr::Dequeue(r),
        Instr::Pass(_) => Instr::Pass(r),
        Instr::Call(_, routine) => Instr::Call(r, routine),
        Instr::Complete(_, status) => Instr::Complete(r, status),
        Instr::IfPending(_, label) => Instr::IfPending(r, label),
        Instr::Jump(_)
        | Instr::Loop(_)
        | Instr::End
        | Instr::Acquire(_)
        | Instr::Release(_)
        | Instr::AcquireCancel
        | Instr::ReleaseCancel
        | Instr::Next
        | Instr::Ret(_) => instr,
    }
}

/// The registers that an instruction names, two at most.
pub fn registers_of(instr: &Instr) -> (Option<Register>, Option<Register>) {
    match operands_of(instr) {
        Operands::Bare => (None, None),
        Operands::Give(r)
        | Operands::Forget(r)
        | Operands::Use(r)
        | Operands::Queue(r, _)
        | Operands::Hold(r) => (Some(r), None),
        Operands::Read(r, s)
        | Operands::Copy(r, s)
        | Operands::Change(r, s)
        | Operands::Compare(r, s)
        | Operands::Write(r, s) => (Some(r), Some(s)),
    }
}

/// Whether an instruction names a register.
pub fn names(instr: &Instr, register: Register) -> bool {
    let (one, other) = registers_of(instr);
    is_register(one, register) || is_register(other, register)
}

/// Whether a register is one of a number.
pub fn is_register(named: Option<Register>, register: Register) -> bool {
    named.is_some_and(|named| named.index() == register.index())
}

/// The queue that an instruction uses, by its number.
pub fn queue_of(instr: &Instr) -> Option<u8> {
    if let Operands::Queue(_, q) = operands_of(instr) {
        Some(q)
    } else {
        None
    }
}

/// The instruction with another register in the place of its first, but for a return.
pub fn with_first(instr: Instr, r: Register) -> Instr {
    let (_, second) = registers_of(&instr);
    let q = queue_of(&instr).unwrap_or(0);
    with_operands(instr, r, second.unwrap_or(r), q)
}

/// The instruction with another register in the place of its second.
pub fn with_second(instr: Instr, s: Register) -> Instr {
    let (first, _) = registers_of(&instr);
    let q = queue_of(&instr).unwrap_or(0);
    with_operands(instr, first.unwrap_or(s), s, q)
}

/// An instruction that takes or puts a packet, with another queue.
pub fn with_queue(instr: Instr, q: u8) -> Option<Instr> {
    if let Instr::Dequeue(r) = instr {
        Some(Instr::Unlink(r, q))
    } else if let Operands::Queue(r, _) = operands_of(&instr) {
        Some(with_operands(instr, r, r, q))
    } else {
        None
    }
}

/// The register into which an instruction puts a number that it doesn't make from others.
pub fn number_put(instr: &Instr) -> Option<Register> {
    if let Operands::Give(r) | Operands::Read(r, _) = operands_of(instr) {
        Some(r)
    } else {
        None
    }
}

/// The register whose number or kind an instruction sets, where it is a matter of numbers.
fn set_by(instr: &Instr) -> Option<Register> {
    match operands_of(instr) {
        Operands::Give(r)
        | Operands::Read(r, _)
        | Operands::Copy(r, _)
        | Operands::Forget(r)
        | Operands::Change(r, _) => Some(r),
        Operands::Bare
        | Operands::Compare(..)
        | Operands::Use(_)
        | Operands::Write(..)
        | Operands::Queue(..)
        | Operands::Hold(_) => None,
    }
}

/// Whether an instruction uses the number in a register.
fn uses(instr: &Instr, register: Register) -> bool {
    let (one, other) = match operands_of(instr) {
        Operands::Change(r, s) | Operands::Compare(r, s) => (Some(r), Some(s)),
        Operands::Use(r) => (Some(r), None),
        Operands::Copy(_, s) | Operands::Write(_, s) => (Some(s), None),
        Operands::Bare
        | Operands::Give(_)
        | Operands::Read(..)
        | Operands::Forget(_)
        | Operands::Queue(..)
        | Operands::Hold(_) => (None, None),
    };
    is_register(one, register) || is_register(other, register)
}

/// Whether the order of two instructions matters for the numbers in registers.
pub fn interfere(one: &Instr, other: &Instr) -> bool {
    let first = set_by(one).is_some_and(|r| is_register(set_by(other), r) || uses(other, r));
    first || set_by(other).is_some_and(|r| uses(one, r))
}
