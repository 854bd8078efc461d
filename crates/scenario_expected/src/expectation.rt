//! What may be expected of a run.

ghost use Rattle.std.specs.Prelude.{◌≡◌};
ghost use Rattle.scenario_expected.specs.Judged.{is_refused_so, is_verdict};

use model::abs::{Refusal, Rule};
use model::event::Lock;
use model::status::Status;
use scenario_names::names::Spot;
use scenario_names::operands::CellName;

/// Packets of a list that a line names, at most.
pub const MAX_LISTED: usize = 16;

/// What is expected of the run so far. A packet is named by the number of the step that issues it,
/// among those that issue one, counted from 0.
#[derive(Clone, Copy)]
pub enum Expectation {
    /// Its audit finds nothing amiss.
    Clean,
    /// The bug check of this number has stopped it.
    Bug(u8),
    /// Of a packet.
    Packet {
        packet: u16,
        state: PacketState,
    },
    /// Of a thread.
    Thread {
        thread: u8,
        state: ThreadState,
    },
    /// Of a device.
    Device {
        device: u8,
        state: DeviceState,
    },
    /// Of a lock: that this thread owns it, or none.
    Lock {
        lock: Lock,
        owner: Option<u8>,
    },
    /// Of a list of a device: that these packets stand in it and no others, in this order.
    Listed {
        device: u8,
        list: List,
        packets: [Option<u16>; MAX_LISTED],
    },
    /// Of the set: that this is the verdict on it, which isn't known yet. It doesn't hold so.
    Verdict(Verdict),
    /// The same, where what the verdict found is known: none but for an accepted set.
    Judged {
        expected: Verdict,
        found: Option<Refusal>,
    },
}

/// A verdict on a driver set.
#[derive(Clone, Copy)]
pub enum Verdict {
    Accepted,
    /// The first fault is at this instruction, which breaks this rule.
    Refused { rule: Rule, spot: Spot },
}

/// A list of a device.
#[derive(Clone, Copy)]
pub enum List {
    /// The queue of this number.
    Queue(u8),
    /// The packets for which its StartIo routine has to begin.
    StartList,
    /// Those that wait while it is busy.
    DeviceQueue,
}

/// What may be expected of a packet.
#[derive(Clone, Copy)]
pub enum PacketState {
    /// It was issued, and hasn't topped out.
    Live,
    /// It is live, and its Irp->Cancel is set.
    Cancelled,
    /// It has topped out, with this status and this information, where they are given.
    Topped {
        status: Option<Status>,
        information: Option<u64>,
    },
    /// It is live, and its current location is marked.
    Marked,
    /// It is live, and its current location isn't.
    Unmarked,
    /// It stands in a list of a device.
    In {
        device: u8,
        list: List,
    },
    /// It is in the current slot of a device.
    Current(u8),
    /// A frame of a routine has it in a register.
    Held {
        driver: u64,
        routine: u64,
    },
}

/// What may be expected of a thread.
#[derive(Clone, Copy)]
pub enum ThreadState {
    /// It has no frame.
    Idle,
    /// It has one.
    Busy,
    /// Its next step acquires a lock that another thread owns.
    Waiting,
    /// Its next step acquires a lock that this thread owns, another one.
    WaitingFor(u8),
    /// Its next step is that of an instruction.
    At(Spot),
}

/// What may be expected of a device.
#[derive(Clone, Copy)]
pub enum DeviceState {
    /// It isn't busy with a packet for its StartIo routine.
    Idle,
    /// It is.
    Busy,
    /// Its DPC is queued.
    DpcQueued,
    /// One of its cells has this number.
    Has { cell: CellName, number: u64 },
}

/// Whether a verdict is the one that found this, or nothing.
pub fn is_verdict(expected: Verdict, found: Option<Refusal>) -> bool
    ensures { result ≡ is_verdict expected found }
{
    match (expected, found) {
        (Verdict::Accepted, None) => true,
        (Verdict::Refused { rule, spot }, Some(refusal)) => is_refused_so(rule, spot, refusal),
        _ => false,
    }
}

/// Whether a refusal is for this rule, at this instruction.
fn is_refused_so(rule: Rule, spot: Spot, refusal: Refusal) -> bool
    ensures { result ≡ is_refused_so rule spot refusal }
{
    rule.number() == refusal.rule.number()
        && spot.driver == u64::from(refusal.driver)
        && spot.routine == u64::from(refusal.routine)
        && spot.position == u64::from(refusal.at)
}
