//! The rules in words that are told by the code alone, whatever is known where an instruction
//! stands.

use crate::lesson::Lesson;
use model::abs::Rule;
use model::instr::Instr;
use model::set::{Driver, Sort};

/// What makes a routine malformed at an instruction, or without one.
pub fn malformed(instr: Option<&Instr>) -> Lesson {
    let (why, mend) = match instr {
        Some(instr) => misplaced(instr),
        None => (
            "the routine has no instruction",
            "write what it does, with a `ret` at its end",
        ),
    };
    Lesson::of(
        why,
        "this bytecode's form, which makes a certificate possible",
        mend,
    )
}

/// Why an instruction can't stand where it does, and how to mend that. Each instruction is named.
fn misplaced(instr: &Instr) -> (&'static str, &'static str) {
    match instr {
        Instr::Loop(_) => (
            "a loop has no `end` in this routine, or it is the fifth round one position",
            "close each `loop` with an `end`, and nest at most four",
        ),
        Instr::End => (
            "there is an `end` that closes no loop",
            "take it out, or put its `loop` before it",
        ),
        Instr::JumpIfZero(..)
        | Instr::JumpIfLess(..)
        | Instr::Jump(_)
        | Instr::Remove(..)
        | Instr::Disarm(..)
        | Instr::IfCancel(..)
        | Instr::Take(..)
        | Instr::IfPending(..) => (
            "the jump leads back or to itself, or into or out of the body of a loop",
            "jump forward within the same loops; what runs several times stands in a `loop`",
        ),
        Instr::Const(..)
        | Instr::Move(..)
        | Instr::Clear(_)
        | Instr::Add(..)
        | Instr::Subtract(..)
        | Instr::Load(..)
        | Instr::Store(..)
        | Instr::LoadPaged(..)
        | Instr::StorePaged(..)
        | Instr::Get(..)
        | Instr::Put(..)
        | Instr::Mark(_)
        | Instr::Acquire(_)
        | Instr::Release(_)
        | Instr::AcquireCancel
        | Instr::ReleaseCancel
        | Instr::Insert(..)
        | Instr::Unlink(..)
        | Instr::Arm(..)
        | Instr::Start(_)
        | Instr::Begin(_)
        | Instr::Next
        | Instr::Dequeue(_)
        | Instr::Pass(_)
        | Instr::Call(..)
        | Instr::Complete(..)
        | Instr::Ret(_) => (
            "the routine's last instruction isn't a return",
            "end the routine with a `ret`",
        ),
    }
}

/// No path leads to an instruction.
pub fn unreached() -> Lesson {
    Lesson::of(
        "no path leads to this instruction",
        "this bytecode's form",
        "take it out, or jump to it",
    )
}

/// A path is longer than a certificate may tell.
pub fn too_long() -> Lesson {
    Lesson::of(
        "an activation may execute more than 1,000,000 instructions",
        "this project's limit",
        "take fewer turns, or split the work over several activations",
    )
}

/// There was no memory for a verdict.
pub fn no_memory() -> Lesson {
    Lesson::of(
        "memory ran out before there was a verdict",
        "this project's limit",
        "try again with more memory",
    )
}

/// What differs where paths meet.
#[derive(Clone, Copy)]
pub enum Difference {
    /// Which packets there are, or what is owed for one: a mark, a completion, or the token.
    Packets,
    /// Other registers and locks alone.
    Others,
}

/// States that differ meet at an instruction, which closes a loop or doesn't.
pub fn of_meetings(instr: Option<&Instr>, difference: Difference) -> Lesson {
    if let Some(Instr::End) = instr {
        return Lesson::of(
            "what is known at the end of the loop isn't what was known where it began",
            "this bytecode's form: each turn of a loop begins like the first",
            "finish in a turn with the packets and locks that it takes, and `clear` what it sets",
        );
    }
    Lesson::of(
        "what is known where the paths meet isn't the same on both",
        match difference {
            Difference::Packets => {
                "the Driver Kit on completion: a packet is completed on each path or on none"
            }
            Difference::Others => {
                "this bytecode's form: the same is known at an instruction on each path there"
            }
        },
        "let both paths do the same with packets and locks, and `clear` registers that differ",
    )
}

/// The rule on paged cells.
pub fn of_level(sort: Sort) -> Lesson {
    let source = "the Driver Kit on IRQL; bug check 0x0A";
    match sort {
        Sort::Dispatch => Lesson::of(
            "a paged cell is touched while a lock is held, at DISPATCH_LEVEL",
            source,
            "touch it before the lock is acquired, or use a cell that isn't paged",
        ),
        Sort::StartIo | Sort::Dpc | Sort::Propagate | Sort::Hold | Sort::Cancel => Lesson::of(
            "a paged cell is touched by a routine that may run at DISPATCH_LEVEL",
            source,
            "use a cell that isn't paged, or touch it in a dispatch routine",
        ),
    }
}

/// A packet is sent down by another routine than a dispatch routine.
pub fn sent_down(sort: Sort) -> Lesson {
    Lesson::of(
        "only a dispatch routine sends a packet down",
        "the Driver Kit on each sort of routine",
        match sort {
            Sort::Propagate | Sort::Hold =>
                "take it out: let the completion go on, or keep the packet in a queue",
            Sort::Dispatch | Sort::StartIo | Sort::Dpc | Sort::Cancel =>
                "take it out: complete the packet here, or send it down in a dispatch routine",
        },
    )
}

/// A device has too few stack locations for what is sent down over it.
pub fn stack_too_small() -> Lesson {
    Lesson::of(
        "a device of the driver has too few stack locations for the device under it",
        "the Driver Kit on I/O stack locations and StackSize; bug check 0x35",
        "write the stack size that is needed on its `device` line",
    )
}

/// A driver sends packets down, and a device of it stands over none.
pub fn no_lower_device() -> Lesson {
    Lesson::of(
        "a device of the driver has none under it",
        "the Driver Kit on IoCallDriver",
        "name a lower device on its `device` line",
    )
}

/// Why a cancel routine of a number can't be entered.
pub fn not_entered(driver: Option<&Driver>, routine: u8) -> Lesson {
    let source = "the Driver Kit on cancel routines";
    match driver {
        Some(driver) if names(driver, routine) => Lesson::of(
            "more than one queue or startio line names this cancel routine",
            source,
            "name it on one of them, and another cancel routine on each other one",
        ),
        _ => Lesson::of(
            "no queue or startio line names this cancel routine",
            source,
            "name it on a `queue` or `startio` line, or take the routine out",
        ),
    }
}

/// Whether a list of a driver names the cancel routine of a number.
fn names(driver: &Driver, routine: u8) -> bool {
    let queues = driver.queues.as_slice();
    driver.startio_cancel == Some(routine)
        || queues.iter().any(|queue| queue.cancel == Some(routine))
}

/// Why a set is refused where no routine of it is at fault.
pub fn of_set(rule: Rule) -> Lesson {
    if rule == Rule::Memory {
        return no_memory();
    }
    Lesson::of(
        "the set has no device",
        "this bytecode's form",
        "write a `device` line",
    )
}
