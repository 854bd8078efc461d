//! Edits of a driver set.

use driver_set::{Instr, QueueName, SpinLock};

/// Where the jumps lead that led to the place of an edit.
#[derive(Clone, Copy, PartialEq, Eq)]
pub enum Landing {
    /// To the instruction that stood there.
    Kept,
    /// To the one that is put before it.
    Taken,
}

/// What an edit changes.
#[derive(Clone, Copy)]
pub enum Change {
    /// This instruction is put before the one at the place, or at the end. Its own label is a
    /// position of the routine that has it.
    Insert(Instr, Landing),
    /// The instruction at the place is taken out. Jumps to it lead to the one behind it.
    Delete,
    /// This instruction stands there instead.
    Replace(Instr),
    /// The instruction at the place is put before the one at this position. Jumps to it lead to
    /// the one that was behind it.
    Move(u16, Landing),
    /// The driver's queue of this number is guarded by this lock.
    Guard(u8, SpinLock),
    /// The driver names this routine as the cancel routine of this list.
    Cancel(QueueName, u8),
    /// The driver's StartIo routine is this one.
    StartIo(u8),
    /// The device of this number has this stack size.
    Stack(u8, u8),
    /// The device of the first number stands over that of the second.
    Lower(u8, u8),
}

/// An edit of a driver set, at a position of a routine of a driver. An edit of what is no
/// instruction belongs to the driver, or to a device by number.
#[derive(Clone, Copy)]
pub struct Edit {
    pub driver: u8,
    pub routine: u8,
    pub at: u16,
    pub change: Change,
}
