//! What a world tells of a thread, a packet and a device, as the header has it.

ghost use Rattle.std.specs.Prelude.{◌≡◌};
ghost use Rattle.pafteis_values.specs.View.{armed_by, armed_value, due_value, frame_value};
ghost use Rattle.pafteis_values.specs.View.{level_number, packet_value, step_number, thread_value};

use model::set::QueueName;
use model::view::{FrameView, PacketView, ThreadView};
use model::world::{Armer, CancelStep, Irql};

/// A thread. Fields that tell nothing are 0.
#[repr(C)]
#[derive(Clone, Copy)]
pub struct ThreadValue {
    /// How many frames it has, at most 32.
    pub frames: u64,
    /// The level of its lowest frame: 0 PASSIVE_LEVEL, 1 APC_LEVEL, 2 DISPATCH_LEVEL.
    pub level: u32,
    /// Its top frame.
    pub top: FrameValue,
}

/// A frame. Fields that tell nothing are 0.
#[repr(C)]
#[derive(Clone, Copy)]
pub struct FrameValue {
    /// The packet that is completed or cancelled.
    pub packet: u64,
    /// 0 none, 1 a routine, 2 the I/O manager completing a packet, 3 cancelling one.
    pub kind: u32,
    /// The instruction before which the routine stands.
    pub position: u32,
    pub driver: u8,
    pub routine: u8,
    pub device: u8,
    /// What a cancel does next: 1 it acquires the system cancel spin lock, 2 it sets the flag, 3
    /// it exchanges the cancel routine.
    pub next: u8,
}

/// A cancel word. Fields that tell nothing are 0.
#[repr(C)]
#[derive(Clone, Copy)]
pub struct ArmedValue {
    /// 0 no cancel routine is set, 1 that of a queue, 2 that of a device queue.
    pub kind: u8,
    /// The device, and the number of its queue.
    pub device: u8,
    pub queue: u8,
}

/// A packet. Fields that tell nothing are 0 or false.
#[repr(C)]
#[derive(Clone, Copy)]
pub struct PacketValue {
    /// 0 none of this number was issued, 1 it is live, 2 it has topped out.
    pub kind: u32,
    /// Which location is current: 1 is the top driver's.
    pub depth: u8,
    /// The cancel word.
    pub armed: ArmedValue,
    /// Irp->Cancel.
    pub cancel: bool,
    /// SL_PENDING_RETURNED of each location, that of depth 1 first.
    pub marks: [bool; 16],
}

/// What is due of a device.
#[repr(C)]
#[derive(Clone, Copy)]
pub struct DueValue {
    /// Its StartIo routine has to begin.
    pub start_io: bool,
    /// Its DPC is queued.
    pub dpc: bool,
}

/// The number of a level.
fn level_number(level: Irql) -> u32
    ensures { result ≡ level_number level }
{
    match level {
        Irql::Passive => 0,
        Irql::Apc => 1,
        Irql::Dispatch => 2,
    }
}

/// The number of a step of a cancel.
fn step_number(step: CancelStep) -> u8
    ensures { result ≡ step_number step }
{
    match step {
        CancelStep::Acquire => 1,
        CancelStep::SetFlag => 2,
        CancelStep::Exchange => 3,
    }
}

/// The top frame of a thread, or none.
fn frame_value(frame: Option<FrameView>) -> FrameValue
    ensures { result ≡ frame_value frame }
{
    let none = FrameValue {
        packet: 0,
        kind: 0,
        position: 0,
        driver: 0,
        routine: 0,
        device: 0,
        next: 0,
    };
    match frame {
        None => none,
        Some(
            FrameView::Routine {
                driver,
                routine,
                device,
                position,
            },
        ) => FrameValue {
            packet: 0,
            kind: 1,
            position: u32::from(position),
            driver,
            routine,
            device,
            next: 0,
        },
        Some(FrameView::Walk(packet)) => FrameValue {
            packet,
            kind: 2,
            ..none
        },
        Some(FrameView::Cancel(canceller)) => FrameValue {
            packet: canceller.packet,
            kind: 3,
            next: step_number(canceller.next),
            ..none
        },
    }
}

/// A thread as a value.
pub fn thread_value(thread: &ThreadView) -> ThreadValue
    ensures { result ≡ thread_value thread.now }
{
    ThreadValue {
        frames: thread.frames as u64,
        level: level_number(thread.root),
        top: frame_value(thread.top),
    }
}

/// A packet as a value.
pub fn packet_value(packet: &PacketView) -> PacketValue
    ensures { result ≡ packet_value packet.now }
{
    let none = PacketValue {
        kind: 0,
        depth: 0,
        armed: armed_value(None),
        cancel: false,
        marks: [false; 16],
    };
    match packet {
        PacketView::Never => none,
        PacketView::Topped => PacketValue { kind: 2, ..none },
        PacketView::Live(live) => PacketValue {
            kind: 1,
            depth: live.depth,
            armed: armed_value(live.armer),
            cancel: live.cancel,
            marks: live.marks,
        },
    }
}

/// Whose cancel routine is set.
fn armed_value(armer: Option<Armer>) -> ArmedValue
    ensures { result ≡ armed_value armer }
{
    match armer {
        None => ArmedValue {
            kind: 0,
            device: 0,
            queue: 0,
        },
        Some(armer) => armed_by(armer.device, armer.queue),
    }
}

fn armed_by(device: u8, queue: QueueName) -> ArmedValue
    ensures { result ≡ armed_by device queue }
{
    match queue {
        QueueName::Declared(queue) => ArmedValue {
            kind: 1,
            device,
            queue,
        },
        QueueName::DeviceQueue => ArmedValue {
            kind: 2,
            device,
            queue: 0,
        },
    }
}

/// What is due of a device, as a value.
pub fn due_value(due: (bool, bool)) -> DueValue
    ensures { result ≡ due_value due }
{
    DueValue {
        start_io: due.0,
        dpc: due.1,
    }
}
