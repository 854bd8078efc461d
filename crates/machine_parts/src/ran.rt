//! What a step leaves of the frame that ran.

use model::status::Status;
use model::world::CancelStep;

/// What the I/O manager does, where a frame is its.
#[derive(Clone, Copy)]
pub enum Managing {
    /// It completes the packet of this key.
    Completes(u64),
    /// It cancels a packet, of this key while that lives, and of this number.
    Cancels {
        key: u64,
        number: u64,
        next: CancelStep,
    },
}

/// A frame that is put over the one that ran, or into its place.
#[derive(Clone, Copy)]
pub enum Over {
    /// The I/O manager's.
    Manager(Managing),
    /// That of a routine, which is handed the packet of a key.
    Routine {
        driver: u8,
        routine: u8,
        device: u8,
        key: u64,
    },
}

/// What stands in the place of a frame after its step.
#[derive(Clone, Copy)]
pub enum Ran {
    /// The frame.
    Steps,
    /// The frame, which waits.
    Waits,
    /// The frame, and this one over it.
    Under(Over),
    /// This one.
    Becomes(Over),
    /// Nothing.
    Ends,
    /// Nothing: a packet has topped out.
    TopsOut {
        number: u64,
        status: Status,
        info: u64,
    },
    /// Nothing, and the I/O manager's frame below is gone too.
    Stopped,
    /// Nothing, and the frame below is told this status.
    Returned(Status),
}
