//! What a machine tells of its threads and packets.

use crate::limits::MAX_STACK;
use crate::world::{Armer, Canceller, Irql};

/// A thread.
#[derive(Clone, Copy)]
pub struct ThreadView {
    /// The level of its lowest frame; PASSIVE_LEVEL where it has none.
    pub root: Irql,
    /// How many frames it has, at most 32.
    pub frames: usize,
    /// The top frame, unless the thread is idle.
    pub top: Option<FrameView>,
}

/// A frame.
#[derive(Clone, Copy)]
pub enum FrameView {
    /// A routine of a driver, which runs for a device and stands before the instruction at this
    /// position.
    Routine {
        driver: u8,
        routine: u8,
        device: u8,
        position: u16,
    },
    /// The I/O manager, which completes the packet of this number.
    Walk(u64),
    /// The I/O manager, which cancels a packet, and its next step.
    Cancel(Canceller),
}

/// The packet of a number.
#[derive(Clone, Copy)]
pub enum PacketView {
    /// None of this number was issued.
    Never,
    /// It was issued, and hasn't topped out.
    Live(LiveView),
    /// It has topped out.
    Topped,
}

/// A live packet.
#[derive(Clone, Copy)]
pub struct LiveView {
    /// Which location is current: 1 is the top driver's.
    pub depth: u8,
    /// Irp->Cancel: IoCancelIrp was called.
    pub cancel: bool,
    /// SL_PENDING_RETURNED of each location, that of depth 1 first; not set where the packet has
    /// no location.
    pub marks: [bool; MAX_STACK],
    /// The cancel word: whose cancel routine is set, if one is.
    pub armer: Option<Armer>,
}
