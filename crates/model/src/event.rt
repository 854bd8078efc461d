//! What can happen in one atomic step, and what the run answers.

use crate::status::{Major, Status};

/// One event of a run.
#[derive(Clone, Copy)]
pub enum Event {
    /// A request arrives: a new packet is sent to the device, on an idle thread.
    Issue {
        thread: u8,
        device: u8,
        major: Major,
        argument: u64,
    },
    /// IoCancelIrp is called for the packet of this number, on an idle thread at this level.
    Cancel {
        thread: u8,
        packet: u64,
        level: u8,
    },
    /// The device interrupts: its DPC is queued.
    Interrupt {
        device: u8,
    },
    /// The queued DPC of the device is taken off, and its routine begins on an idle thread.
    Dpc {
        thread: u8,
        device: u8,
    },
    /// The StartIo routine of the device begins on an idle thread, for the first packet of the
    /// start list.
    StartIo {
        thread: u8,
        device: u8,
    },
    /// One step of the thread's top frame.
    Step {
        thread: u8,
    },
}

/// A bug check, by its name in the bug check reference.
#[derive(Clone, Copy)]
pub enum BugCheck {
    /// IRQL_NOT_LESS_OR_EQUAL, 0x0A.
    IrqlNotLessOrEqual,
    /// SPIN_LOCK_ALREADY_OWNED, 0x0F.
    SpinLockAlreadyOwned,
    /// SPIN_LOCK_NOT_OWNED, 0x10.
    SpinLockNotOwned,
    /// NO_MORE_IRP_STACK_LOCATIONS, 0x35.
    NoMoreIrpStackLocations,
    /// MULTIPLE_IRP_COMPLETE_REQUESTS, 0x44.
    MultipleIrpCompleteRequests,
    /// CANCEL_STATE_IN_COMPLETED_IRP, 0x48.
    CancelStateInCompletedIrp,
}

/// A spin lock or a paged cell of a device, by its number.
#[derive(Clone, Copy, PartialEq, Eq)]
pub struct OfDevice {
    pub device: u8,
    pub number: u8,
}

/// A lock.
#[derive(Clone, Copy, PartialEq, Eq)]
pub enum Lock {
    /// The system cancel spin lock.
    SystemCancel,
    /// A spin lock of a device, 0 to 7.
    Spin(OfDevice),
}

/// What a bug check is about.
#[derive(Clone, Copy)]
pub enum Subject {
    /// The packet of this number.
    Packet(u64),
    /// A lock.
    Lock(Lock),
    /// A paged cell, 0 to 15.
    Cell(OfDevice),
}

/// A bug check and what it is about.
#[derive(Clone, Copy)]
pub struct Bug {
    pub check: BugCheck,
    pub subject: Subject,
}

/// The place of an instruction: driver, routine and position.
#[derive(Clone, Copy)]
pub struct Place {
    pub driver: u8,
    pub routine: u8,
    pub position: u16,
}

/// What the run answers to an event.
#[derive(Clone, Copy)]
pub enum Reply {
    /// A root frame stands on the thread, for the packet of this number.
    Started(u64),
    /// The thread has done a step.
    Stepped,
    /// The thread has done a step that left it without frames.
    Finished,
    /// The packet of this number has topped out, with its final status and information.
    Topped {
        packet: u64,
        status: Status,
        info: u64,
    },
    /// Another thread holds the lock that the step acquires; nothing changes.
    Waited,
    /// The thread has no frame; nothing changes.
    Idle,
    /// The event can't happen; nothing changes.
    Refused,
    /// A bug check: the run has stopped.
    Bug(Bug),
    /// An operand of a wrong kind, or a position outside its routine: the run has stopped.
    Wrong(Place),
}
