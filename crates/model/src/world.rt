//! The state of a run: threads with their frames, and packets with their stack locations.

use crate::limits::{CELLS, MAX_FRAMES, MAX_LOOPS, MAX_STACK, REGISTERS};
use crate::set::QueueName;
use crate::status::{Major, Status};
use arrayvec::ArrayVec;

/// The value of a register.
#[derive(Clone, Copy)]
pub enum Value {
    /// Nothing.
    Blank,
    /// A number.
    Num(u64),
    /// The packet of this number.
    Ref(u64),
    /// A status that a lower driver returned.
    Status(Status),
}

/// A loop that a routine has opened: where its body starts, and how many turns are left, the one
/// that runs among them.
#[derive(Clone, Copy, Default)]
pub struct OpenLoop {
    pub start: u16,
    pub turns: u16,
}

/// A routine that runs: which one, for which device, and how far it is.
#[derive(Drop)]
pub struct Activation {
    pub driver: u8,
    pub routine: u8,
    pub device: u8,
    pub position: u16,
    /// The loops that are open, the innermost last.
    pub loops: ArrayVec<OpenLoop, MAX_LOOPS>,
    pub registers: [Value; REGISTERS],
}

/// What IoCancelIrp does next. Each of its steps is atomic, and others may come between them.
#[derive(Clone, Copy)]
pub enum CancelStep {
    /// It acquires the system cancel spin lock.
    Acquire,
    /// It sets the packet's cancel flag.
    SetFlag,
    /// It exchanges the packet's cancel routine with none, and calls the one that was set.
    Exchange,
}

/// IoCancelIrp, which cancels the packet of this number.
#[derive(Clone, Copy)]
pub struct Canceller {
    pub packet: u64,
    pub next: CancelStep,
}

/// One frame of a thread.
#[derive(Drop)]
pub enum Frame {
    /// A routine that runs.
    Routine(Activation),
    /// The I/O manager, which completes the packet of this number.
    Walk(u64),
    /// The I/O manager, which cancels a packet.
    Cancel(Canceller),
}

impl Default for Frame {
    fn default() -> Frame {
        Frame::Walk(0)
    }
}

/// An interrupt request level (IRQL) that a thread may be at.
#[derive(Clone, Copy, Default)]
pub enum Irql {
    /// PASSIVE_LEVEL, 0.
    #[default]
    Passive,
    /// APC_LEVEL, 1.
    Apc,
    /// DISPATCH_LEVEL, 2.
    Dispatch,
}

/// A thread: its frames, the lowest first, and the level of the lowest. A thread without frames is
/// idle, at PASSIVE_LEVEL.
#[derive(Drop)]
pub struct Thread {
    pub root: Irql,
    pub frames: ArrayVec<Frame, MAX_FRAMES>,
}

/// A completion routine (IoSetCompletionRoutine): its number, and the device whose driver set it.
#[derive(Clone, Copy)]
pub struct Completion {
    pub routine: u8,
    pub device: u8,
}

/// An I/O stack location (IO_STACK_LOCATION): what the driver of its device is asked to do.
#[derive(Clone, Copy, Default)]
pub struct Location {
    /// None while nothing was asked here.
    pub major: Option<Major>,
    pub argument: u64,
    pub device: u8,
    /// SL_PENDING_RETURNED of the control byte: IoMarkIrpPending was called here.
    pub marked: bool,
    /// What runs when completion leaves this location; the driver above set it.
    pub completion: Option<Completion>,
}

/// What set a packet's cancel routine (IoSetCancelRoutine): the device, and the list of its driver
/// that has the routine.
#[derive(Clone, Copy)]
pub struct Armer {
    pub device: u8,
    pub queue: QueueName,
}

/// A live packet (IRP): one that was issued and has not topped out.
#[derive(Drop)]
pub struct Packet {
    /// Packets are numbered in the order of their issue.
    pub number: u64,
    /// Which location is current: 1 is the top driver's.
    pub depth: u8,
    /// All its locations, that of the top driver first.
    pub locations: ArrayVec<Location, MAX_STACK>,
    pub status: Status,
    /// IoStatus.Information.
    pub info: u64,
    /// IoCompleteRequest was called, and the I/O manager has the packet.
    pub completing: bool,
    /// Irp->PendingReturned: the location that completion left last was marked.
    pub pending_returned: bool,
    /// Irp->Cancel: IoCancelIrp was called.
    pub cancel: bool,
    /// The cancel word: whose cancel routine is set, if one is.
    pub armer: Option<Armer>,
}

/// The number cells of a device, all 0 at first.
#[derive(Clone, Copy)]
pub struct Cells {
    pub plain: [u64; CELLS],
    /// Those that may be touched below DISPATCH_LEVEL alone.
    pub paged: [u64; CELLS],
}
