//! The word of an instruction.

ghost use Rattle.std.specs.Prelude.{◌≡◌};
ghost use Rattle.image.specs.Spelling.{field_number, or_none, sort_number, status_number};
ghost use Rattle.image.specs.Spelling.{word, word_bytes, word_of};
ghost use Rattle.model.specs.declared.instr.Instr.TheVariants.{Ret};

use model::instr::{Cell, Field, Instr, Register, Return, SpinLock};
use model::set::Sort;
use model::status::Status;

/// Stands for none where a byte has the number of a routine or device.
pub const NONE: u8 = 0xFF;

/// The word of an instruction: its number, its operands of one byte each, and the operand of four
/// bytes. What it doesn't use is zero.
#[derive(Clone, Copy)]
pub struct Word {
    pub number: u8,
    pub first: u8,
    pub second: u8,
    pub third: u8,
    pub last: u32,
}

/// A number, or the byte that stands for none.
pub fn or_none(number: Option<u8>) -> u8
    ensures { result ≡ or_none number }
{
    number.unwrap_or(NONE)
}

/// The number of a sort of routine.
pub fn sort_number(sort: Sort) -> u8
    ensures { result ≡ sort_number sort }
{
    match sort {
        Sort::Dispatch => 0,
        Sort::StartIo => 1,
        Sort::Dpc => 2,
        Sort::Cancel => 3,
        Sort::Propagate => 4,
        Sort::Hold => 5,
    }
}

/// The number of a status.
fn status_number(status: Status) -> u8
    ensures { result ≡ status_number status }
{
    match status {
        Status::Success => 0,
        Status::Pending => 1,
        Status::Busy => 2,
        Status::Unsuccessful => 3,
        Status::InvalidParameter => 4,
        Status::InvalidDeviceRequest => 5,
        Status::Cancelled => 6,
    }
}

/// The number of a field of a packet.
fn field_number(field: Field) -> u8
    ensures { result ≡ field_number field }
{
    match field {
        Field::Major => 0,
        Field::Argument => 1,
        Field::Info => 2,
    }
}

impl Word {
    /// A word with these operands.
    fn of(number: u8, first: u8, second: u8, third: u8, last: u32) -> Word
        ensures { result ≡ word number first second third last }
    {
        Word {
            number,
            first,
            second,
            third,
            last,
        }
    }

    /// Its bytes.
    pub fn bytes(self) -> [u8; 8]
        ensures { result ≡ word_bytes self }
    {
        let [a, b, c, d] = self.last.to_le_bytes();
        [self.number, self.first, self.second, self.third, a, b, c, d]
    }
}

/// The number of a register.
fn register(register: Register) -> u8
    ensures { result ≡ register }
{
    register.index() as u8
}

/// The number of a cell.
fn cell(cell: Cell) -> u8
    ensures { result ≡ cell }
{
    cell.index() as u8
}

/// The number of a spin lock.
pub fn lock(lock: SpinLock) -> u8
    ensures { result ≡ lock }
{
    lock.index() as u8
}

/// The word of a `ret`, by what it returns.
fn returned(form: Return) -> Word
    ensures { result ≡ word_of (Ret form) }
{
    match form {
        Return::WithStatus(status) => Word::of(36, 0, status_number(status), 0, 0),
        Return::Lower(r) => Word::of(36, 1, register(r), 0, 0),
        Return::Continue => Word::of(36, 2, 0, 0, 0),
        Return::Stop => Word::of(36, 3, 0, 0, 0),
        Return::Void => Word::of(36, 4, 0, 0, 0),
    }
}

/// The word of an instruction.
pub fn word_of(instr: &Instr) -> Word
    ensures { result ≡ word_of instr.now }
{
    match *instr {
        Instr::Const(r, n) => Word::of(1, register(r), 0, 0, n),
        Instr::Move(r, s) => Word::of(2, register(r), register(s), 0, 0),
        Instr::Clear(r) => Word::of(3, register(r), 0, 0, 0),
        Instr::Add(r, s) => Word::of(4, register(r), register(s), 0, 0),
        Instr::Subtract(r, s) => Word::of(5, register(r), register(s), 0, 0),
        Instr::JumpIfZero(r, label) => Word::of(6, register(r), 0, 0, label as u32),
        Instr::JumpIfLess(r, s, label) => Word::of(7, register(r), register(s), 0, label as u32),
        Instr::Jump(label) => Word::of(8, 0, 0, 0, label as u32),
        Instr::Loop(turns) => Word::of(9, 0, 0, 0, turns.count() as u32),
        Instr::End => Word::of(10, 0, 0, 0, 0),
        Instr::Load(r, c) => Word::of(11, register(r), cell(c), 0, 0),
        Instr::Store(c, r) => Word::of(12, cell(c), register(r), 0, 0),
        Instr::LoadPaged(r, c) => Word::of(13, register(r), cell(c), 0, 0),
        Instr::StorePaged(c, r) => Word::of(14, cell(c), register(r), 0, 0),
        Instr::Get(r, s, field) => Word::of(15, register(r), register(s), field_number(field), 0),
        Instr::Put(s, r) => Word::of(16, register(s), register(r), 0, 0),
        Instr::Mark(r) => Word::of(17, register(r), 0, 0, 0),
        Instr::Acquire(held) => Word::of(18, lock(held), 0, 0, 0),
        Instr::Release(held) => Word::of(19, lock(held), 0, 0, 0),
        Instr::AcquireCancel => Word::of(20, 0, 0, 0, 0),
        Instr::ReleaseCancel => Word::of(21, 0, 0, 0, 0),
        Instr::Insert(r, q) => Word::of(22, register(r), q, 0, 0),
        Instr::Remove(r, q, label) => Word::of(23, register(r), q, 0, label as u32),
        Instr::Unlink(r, q) => Word::of(24, register(r), q, 0, 0),
        Instr::Arm(r, q) => Word::of(25, register(r), q, 0, 0),
        Instr::Disarm(r, label) => Word::of(26, register(r), 0, 0, label as u32),
        Instr::IfCancel(r, label) => Word::of(27, register(r), 0, 0, label as u32),
        Instr::Start(r) => Word::of(28, register(r), 0, 0, 0),
        Instr::Take(r, label) => Word::of(29, register(r), 0, 0, label as u32),
        Instr::Begin(r) => Word::of(30, register(r), 0, 0, 0),
        Instr::Next => Word::of(31, 0, 0, 0, 0),
        Instr::Pass(r) => Word::of(32, register(r), 0, 0, 0),
        Instr::Call(r, f) => Word::of(33, register(r), or_none(f), 0, 0),
        Instr::Complete(r, status) => Word::of(34, register(r), status_number(status), 0, 0),
        Instr::IfPending(r, label) => Word::of(35, register(r), 0, 0, label as u32),
        Instr::Dequeue(r) => Word::of(37, register(r), 0, 0, 0),
        Instr::Ret(form) => returned(form),
    }
}
