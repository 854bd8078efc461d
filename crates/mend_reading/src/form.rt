//! Instructions taken apart: their word and their operands as numbers, by which they are compared.

use driver_set::{Cell, Field, Instr, Register, Return, Sort, SpinLock};
use model::status::Status;

/// Words that are looked for.
const ACQUIRE: u8 = 17;

const RELEASE: u8 = 18;

const ACQUIRE_CANCEL: u8 = 19;

const RELEASE_CANCEL: u8 = 20;

const COMPLETE: u8 = 34;

const RETURN: u8 = 36;

/// An instruction as numbers.
#[derive(Clone, Copy, PartialEq, Eq)]
pub struct Form {
    /// Its word.
    pub word: u8,
    pub first: u8,
    pub second: u8,
    /// Its label, its constant, its turns or its status.
    pub number: u32,
}

impl Form {
    fn of(word: u8, first: u8, second: u8, number: u32) -> Form {
        Form {
            word,
            first,
            second,
            number,
        }
    }

    /// With a label.
    fn to(self, label: u16) -> Form {
        Form {
            number: u32::from(label),
            ..self
        }
    }

    /// The whole in one number, which few others have.
    pub fn mixed(self) -> u64 {
        let operands = u64::from(self.first) << 8 | u64::from(self.second);
        u64::from(self.word) << 48 | operands << 32 | u64::from(self.number)
    }
}

fn bare(word: u8) -> Form {
    Form::of(word, 0, 0, 0)
}

fn one(word: u8, register: Register) -> Form {
    Form::of(word, register.index() as u8, 0, 0)
}

fn two(word: u8, register: Register, other: Register) -> Form {
    Form::of(word, register.index() as u8, other.index() as u8, 0)
}

fn cell(word: u8, register: Register, cell: Cell) -> Form {
    Form::of(word, register.index() as u8, cell.index() as u8, 0)
}

fn lock(word: u8, lock: SpinLock) -> Form {
    Form::of(word, lock.index() as u8, 0, 0)
}

fn queue(word: u8, register: Register, queue: u8) -> Form {
    Form::of(word, register.index() as u8, queue, 0)
}

fn field(field: Field) -> u32 {
    match field {
        Field::Major => 0,
        Field::Argument => 1,
        Field::Info => 2,
    }
}

/// An instruction as numbers.
pub fn form_of(instr: &Instr) -> Form {
    match *instr {
        Instr::Const(r, number) => Form::of(0, r.index() as u8, 0, number),
        Instr::Move(r, s) => two(1, r, s),
        Instr::Clear(r) => one(2, r),
        Instr::Add(r, s) => two(3, r, s),
        Instr::Subtract(r, s) => two(4, r, s),
        Instr::JumpIfZero(r, label) => one(5, r).to(label),
        Instr::JumpIfLess(r, s, label) => two(6, r, s).to(label),
        Instr::Jump(label) => bare(7).to(label),
        Instr::Loop(turns) => Form::of(8, 0, 0, u32::from(turns.count())),
        Instr::End => bare(9),
        Instr::Load(r, c) => cell(10, r, c),
        Instr::Store(c, r) => cell(11, r, c),
        Instr::LoadPaged(r, c) => cell(12, r, c),
        Instr::StorePaged(c, r) => cell(13, r, c),
        Instr::Get(r, s, name) => Form::of(14, r.index() as u8, s.index() as u8, field(name)),
        Instr::Put(s, r) => two(15, s, r),
        Instr::Mark(r) => one(16, r),
        Instr::Acquire(l) => lock(ACQUIRE, l),
        Instr::Release(l) => lock(RELEASE, l),
        Instr::AcquireCancel => bare(ACQUIRE_CANCEL),
        Instr::ReleaseCancel => bare(RELEASE_CANCEL),
        Instr::Insert(r, q) => queue(21, r, q),
        Instr::Remove(r, q, label) => queue(22, r, q).to(label),
        Instr::Unlink(r, q) => queue(23, r, q),
        Instr::Arm(r, q) => queue(24, r, q),
        Instr::Disarm(r, label) => one(25, r).to(label),
        Instr::IfCancel(r, label) => one(26, r).to(label),
        Instr::Start(r) => one(27, r),
        Instr::Take(r, label) => one(28, r).to(label),
        Instr::Begin(r) => one(29, r),
        Instr::Next => bare(30),
        Instr::Dequeue(r) => one(31, r),
        Instr::Pass(r) => one(32, r),
        Instr::Call(r, routine) => queue(33, r, routine.unwrap_or(u8::MAX)),
        Instr::Complete(r, status) => Form::of(COMPLETE, r.index() as u8, 0, status.code()),
        Instr::IfPending(r, label) => one(35, r).to(label),
        Instr::Ret(form) => returned(form),
    }
}

/// A return as numbers.
fn returned(form: Return) -> Form {
    match form {
        Return::WithStatus(status) => Form::of(RETURN, 0, 0, status.code()),
        Return::Lower(r) => one(37, r),
        Return::Continue => bare(38),
        Return::Stop => bare(39),
        Return::Void => bare(40),
    }
}

/// Whether an instruction acquires a lock that another one releases.
pub fn are_pair(lock: &Instr, release: &Instr) -> bool {
    let (one, other) = (form_of(lock), form_of(release));
    let spin = one.word == ACQUIRE && other.word == RELEASE;
    let cancel = one.word == ACQUIRE_CANCEL && other.word == RELEASE_CANCEL;
    (spin || cancel) && one.first == other.first
}

/// Whether two instructions acquire or release one spin lock.
pub fn same_lock(one: &Instr, other: &Instr) -> bool {
    let (one, other) = (form_of(one), form_of(other));
    let first = one.word == ACQUIRE || one.word == RELEASE;
    let second = other.word == ACQUIRE || other.word == RELEASE;
    first && second && one.first == other.first
}

/// Whether a packet is completed with another status than is returned behind that, which isn't
/// STATUS_PENDING.
pub fn differ(completion: &Instr, returned: &Instr) -> bool {
    let (one, other) = (form_of(completion), form_of(returned));
    let both = one.word == COMPLETE && other.word == RETURN;
    both && one.number != other.number && other.number != Status::Pending.code()
}

/// What counts of an instruction where its neighbours are looked at: its word, and whether a status
/// is one of those that say more.
pub fn token(instr: &Instr) -> u8 {
    let form = form_of(instr);
    if form.word == RETURN && form.number == Status::Pending.code() {
        41
    } else if form.word == COMPLETE && form.number == Status::Cancelled.code() {
        42
    } else {
        form.word
    }
}

/// What stands before the first instruction of a routine of a sort.
pub fn start(sort: Sort) -> u8 {
    match sort {
        Sort::Dispatch => 43,
        Sort::StartIo => 44,
        Sort::Dpc => 45,
        Sort::Propagate => 46,
        Sort::Hold => 47,
        Sort::Cancel => 48,
    }
}

/// Tokens, and starts of routines.
pub const TOKENS: usize = 49;
