//! Driver sets: drivers with their routines, and devices.

ghost use Rattle.std.specs.Prelude.{◌≡◌};

use crate::instr::Instr;
use crate::items::Items;
use crate::spin_lock::SpinLock;
use crate::status::Major;

/// What a routine is for: it decides how the routine is called and what it may do.
#[derive(Clone, Copy)]
pub enum Sort {
    /// A dispatch routine: it is handed a packet at PASSIVE_LEVEL and returns a status.
    Dispatch,
    /// A StartIo routine: it is handed a packet for which the device is busy, at DISPATCH_LEVEL.
    StartIo,
    /// A DPC routine: an interrupt queues it, and it runs at DISPATCH_LEVEL without a packet.
    Dpc,
    /// A completion routine that lets the completion go on: it carries the pending mark up.
    Propagate,
    /// A completion routine that may hold the packet: it is lent it, and takes it back
    /// (STATUS_MORE_PROCESSING_REQUIRED) or lets the completion go on.
    Hold,
    /// A cancel routine of a queue or of the device queue: IoCancelIrp calls it for a packet of
    /// that list, with the system cancel spin lock held.
    Cancel,
}

/// A routine: its sort and its instructions.
#[derive(Drop)]
pub struct Routine {
    pub sort: Sort,
    pub code: Items<Instr>,
}

/// A queue of a driver, which each of its devices has: the number of the spin lock that guards it,
/// and of the cancel routine of the packets in it. Without one the queue is plain.
#[derive(Clone, Copy)]
pub struct Queue {
    pub guard: SpinLock,
    pub cancel: Option<u8>,
}

/// A lock that guards a list of packets of a device.
#[derive(Clone, Copy)]
pub enum Guard {
    /// The device's spin lock of this number.
    DeviceLock(SpinLock),
    /// The system cancel spin lock.
    CancelLock,
}

/// The name of a list of packets of a driver that may have a cancel routine.
#[derive(Clone, Copy, PartialEq, Eq)]
pub enum QueueName {
    /// The queue of this number that the driver declares.
    Declared(u8),
    /// The device queue, in which packets wait for the StartIo routine of a busy device.
    DeviceQueue,
}

/// A driver: its routines and queues, and the numbers of the routines that serve each major
/// function, of its StartIo routine, of the cancel routine of the packets in the device queue, and
/// of its DPC routine. Without that cancel routine a packet that waits for StartIo can't be
/// cancelled; a driver without a StartIo routine has none.
#[derive(Drop)]
pub struct Driver {
    pub routines: Items<Routine>,
    pub queues: Items<Queue>,
    pub read: Option<u8>,
    pub write: Option<u8>,
    pub control: Option<u8>,
    pub startio: Option<u8>,
    pub startio_cancel: Option<u8>,
    pub dpc: Option<u8>,
}

/// A device: the number of its driver, how many stack locations a packet needs that is sent to it,
/// 1 to 16, and the number of the device under it, an earlier one.
#[derive(Clone, Copy)]
pub struct Device {
    pub driver: u8,
    pub stack: u8,
    pub lower: Option<u8>,
}

impl Driver {
    ghost use Rattle.model.specs.Set.{handler_of};

    /// The number of the routine that it names for a major function.
    pub fn handler(&self, major: Major) -> Option<u8>
        ensures { result ≡ handler_of self.now major }
    {
        match major {
            Major::Read => self.read,
            Major::Write => self.write,
            Major::Control => self.control,
        }
    }
}
