//! Commands for a core, what comes of them, and the entries of its history.

use crate::event::{Event, Reply};
use crate::status::{Major, Status};

/// The name of a command: the number of its submitter, and how many of the submitter's commands
/// have names before it.
#[derive(Clone, Copy, PartialEq, Eq, Hash)]
pub struct Name {
    pub submitter: u32,
    pub count: u64,
}

/// What a user of a core asks of it.
#[derive(Clone, Copy)]
pub enum Command {
    /// A request for the device.
    Request {
        device: u8,
        major: Major,
        argument: u64,
    },
    /// IoCancelIrp for the packet of the request of this name, at this level.
    Cancel {
        name: Name,
        level: u8,
    },
    /// The device interrupts.
    Interrupt {
        device: u8,
    },
}

/// One entry of a history: an event, the thread of the seat that it was applied with, the reply,
/// and the name of the command that it performs, if it performs one.
#[derive(Clone, Copy)]
pub struct Entry {
    pub thread: u8,
    pub event: Event,
    pub reply: Reply,
    pub name: Option<Name>,
}

/// A packet that has topped out, with its final status and information.
#[derive(Clone, Copy)]
pub struct TopOut {
    pub packet: u64,
    pub status: Status,
    pub info: u64,
}

/// What came of a command: the reply to its event, and how its packet topped out, if it is a
/// request that started one.
#[derive(Clone, Copy)]
pub struct Outcome {
    pub reply: Reply,
    pub topped: Option<TopOut>,
}
