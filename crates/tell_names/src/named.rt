//! Words for values.

use crate::book::Book;
use itoa::Buffer;
use model::event::{Bug, BugCheck, Lock, OfDevice, Subject};
use model::instr::Register;
use model::status::{Major, Status};
use model::world::Value;
use words::Words;

/// The name of a status value.
pub fn status_name(status: Status) -> &'static str {
    match status {
        Status::Success => "STATUS_SUCCESS",
        Status::Pending => "STATUS_PENDING",
        Status::Busy => "STATUS_DEVICE_BUSY",
        Status::Unsuccessful => "STATUS_UNSUCCESSFUL",
        Status::InvalidParameter => "STATUS_INVALID_PARAMETER",
        Status::InvalidDeviceRequest => "STATUS_INVALID_DEVICE_REQUEST",
        Status::Cancelled => "STATUS_CANCELLED",
    }
}

/// The word of a major function.
pub fn major_name(major: Major) -> &'static str {
    match major {
        Major::Read => "READ",
        Major::Write => "WRITE",
        Major::Control => "CONTROL",
    }
}

/// The name of a bug check.
fn check_name(check: BugCheck) -> &'static str {
    match check {
        BugCheck::IrqlNotLessOrEqual => "IRQL_NOT_LESS_OR_EQUAL",
        BugCheck::SpinLockAlreadyOwned => "SPIN_LOCK_ALREADY_OWNED",
        BugCheck::SpinLockNotOwned => "SPIN_LOCK_NOT_OWNED",
        BugCheck::NoMoreIrpStackLocations => "NO_MORE_IRP_STACK_LOCATIONS",
        BugCheck::MultipleIrpCompleteRequests => "MULTIPLE_IRP_COMPLETE_REQUESTS",
        BugCheck::CancelStateInCompletedIrp => "CANCEL_STATE_IN_COMPLETED_IRP",
    }
}

/// Why a bug check is raised, by what it is about.
fn cause_of(check: BugCheck, subject: Subject) -> &'static str {
    match (check, subject) {
        (BugCheck::IrqlNotLessOrEqual, Subject::Cell(_)) => {
            "a paged cell is touched at DISPATCH_LEVEL"
        }
        (BugCheck::IrqlNotLessOrEqual, Subject::Packet(_) | Subject::Lock(_)) => {
            "a packet is touched that has topped out"
        }
        (BugCheck::SpinLockAlreadyOwned, _) => "the thread owns the lock already",
        (BugCheck::SpinLockNotOwned, _) => "the thread doesn't own the lock that it releases",
        (BugCheck::NoMoreIrpStackLocations, _) => "no stack location is left for the device below",
        (BugCheck::MultipleIrpCompleteRequests, _) => "the packet is completed already",
        (BugCheck::CancelStateInCompletedIrp, _) => "its cancel routine is still set",
    }
}

/// The names of registers.
const REGISTERS: [&str; 16] = [
    "r0", "r1", "r2", "r3", "r4", "r5", "r6", "r7", "r8", "r9", "r10", "r11", "r12", "r13", "r14",
    "r15",
];

/// The name of a register.
pub fn register_name(r: Register) -> &'static str {
    match REGISTERS.get(r.index()) {
        Some(name) => *name,
        None => "",
    }
}

/// The numbers of one digit.
const DIGITS: [&str; 10] = ["0", "1", "2", "3", "4", "5", "6", "7", "8", "9"];

/// Adds a number.
pub fn add_number(words: &mut Words, number: u64) {
    if let Some(digit) = DIGITS.get(number as usize) {
        return words.add(digit);
    }
    let mut buffer = Buffer::new();
    words.add(buffer.format(number))
}

/// Adds a packet by its number, and these words behind it.
pub fn add_packet(words: &mut Words, packet: u64, behind: &str) {
    words.add("packet ");
    add_number(words, packet);
    words.add(behind)
}

/// Adds the value of a register.
pub fn add_value(words: &mut Words, value: Value) {
    match value {
        Value::Blank => words.add("nothing"),
        Value::Num(number) => add_number(words, number),
        Value::Ref(packet) => add_packet(words, packet, ""),
        Value::Status(status) => words.add(status_name(status)),
    }
}

/// Adds with what a packet topped out, behind these words.
pub fn add_top_out(words: &mut Words, packet: u64, before: &str, status: Status, info: u64) {
    add_packet(words, packet, before);
    words.add(status_name(status));
    words.add(", information ");
    add_number(words, info)
}

/// Adds a lock.
pub fn add_lock(words: &mut Words, book: &Book<'_>, lock: Lock) {
    match lock {
        Lock::SystemCancel => words.add("the system cancel spin lock"),
        Lock::Spin(OfDevice { device, number }) => {
            book.add_device(words, device);
            words.add(".l");
            add_number(words, u64::from(number))
        }
    }
}

/// Whether a number cell may be touched at every level.
#[derive(Clone, Copy)]
pub enum CellKind {
    Plain,
    Paged,
}

/// Adds a cell of a device.
pub fn add_cell(words: &mut Words, book: &Book<'_>, kind: CellKind, cell: OfDevice) {
    book.add_device(words, cell.device);
    words.add(match kind {
        CellKind::Plain => ".c",
        CellKind::Paged => ".p",
    });
    add_number(words, u64::from(cell.number))
}

/// Adds a bug check: its name, what it is about, and why it is raised.
pub fn add_bug(words: &mut Words, book: &Book<'_>, bug: Bug) {
    words.add(check_name(bug.check));
    words.add(": ");
    match bug.subject {
        Subject::Packet(packet) => add_packet(words, packet, ""),
        Subject::Lock(lock) => add_lock(words, book, lock),
        Subject::Cell(cell) => add_cell(words, book, CellKind::Paged, cell),
    }
    words.add(": ");
    words.add(cause_of(bug.check, bug.subject))
}
