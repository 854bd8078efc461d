//! A step of a frame: who runs, and what it leaves of the frame.

ghost use Rattle.std.specs.Prelude.{◌≡◌};
ghost use Rattle.checked_parts.specs.Frames.{cancels_next};
ghost use Rattle.checked_parts.specs.Ran.{frame_over as frame_over_of, wrong_reply};

use crate::frame::Managing;
use model::event::{Bug, BugCheck, Place, Reply, Subject};
use model::status::Status;
use model::world::{Activation, CancelStep, Canceller, Irql};

/// Who runs: a thread by its number, and the level of its lowest frame.
#[derive(Clone, Copy)]
pub struct Runner {
    pub thread: u8,
    pub root: Irql,
}

/// A frame that is put over the one that ran, or into its place.
#[derive(Clone, Copy)]
pub enum Over {
    /// The I/O manager's.
    Manager(Managing),
    /// That of a routine, which is handed a packet.
    Routine {
        driver: u8,
        routine: u8,
        device: u8,
        packet: u64,
    },
}

/// What stands in the place of a frame after its step.
#[derive(Clone, Copy)]
pub enum Ran {
    /// The frame.
    Stays(Reply),
    /// The frame, and this one over it.
    Under(Over),
    /// This one.
    Becomes(Over),
    /// Nothing.
    Gone(Reply),
    /// Nothing, and the I/O manager's frame below is gone too.
    Stopped,
    /// Nothing, and the frame below is told this status.
    Returned(Status),
}

/// The routine goes wrong at its position.
pub fn wrong_at(a: &Activation) -> Reply
    ensures { result ≡ wrong_reply a.now }
{
    Reply::Wrong(Place {
        driver: a.driver,
        routine: a.routine,
        position: a.position,
    })
}

/// Goes on with the cancelling of a packet.
pub fn cancelling(packet: u64, next: CancelStep) -> Over
    ensures { frame_over_of result ≡ cancels_next packet next }
{
    Over::Manager(Managing::Cancels(Canceller { packet, next }))
}

/// A bug check about a packet.
pub fn packet_bug(check: BugCheck, packet: u64) -> Reply
    ensures { result ≡ Reply.Bug (record { check = check; subject = Subject.Packet packet }) }
{
    Reply::Bug(Bug {
        check,
        subject: Subject::Packet(packet),
    })
}
