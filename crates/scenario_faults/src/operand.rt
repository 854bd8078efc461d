//! What stands at one place of a line.

use crate::known::Known;
use interleave::schedule::MAX_EVENTS;
use model::limits::{CELLS, MAX_INSTRUCTIONS, SPIN_LOCKS};
use scenario_names::operands::rule_named;
use scenario_steps::scenario::{MAX_STEPS, MAX_WORLDS};
use text::class::{is, is_name};
use text::major::major_of;
use text::number::{Numeral, number, numbered};
use text_faults::fit::Fit;
use text_faults::forms::is_one_of;

/// What stands at one place of a line.
#[derive(Clone, Copy)]
pub(crate) enum Operand {
    Name,
    Equals,
    Issue,
    Thread,
    Device,
    Packet,
    Major,
    Argument,
    Level,
    Steps,
    Until,
    Spot,
    Line,
    LineNumber,
    BugCheck,
    ThreadState,
    DeviceState,
    Queued,
    PacketState,
    TopOut,
    Status,
    Information,
    Number,
    Named,
    Up,
    To,
    WorldCount,
    Worlds,
    For,
    OfThread,
    Of,
    By,
    On,
    Cell,
    CellNumber,
    SpinLock,
    LockState,
    Queue,
    ListState,
    ListWord,
    Had,
    HasState,
    Routine,
    Runner,
    Release,
    Times,
    Rule,
    At,
    Position,
}

/// The words of threads' states, of devices', of packets', and of what a packet has topped out
/// with.
pub(crate) const THREAD_STATES: [&str; 4] = ["idle", "busy", "waiting", "at"];

pub(crate) const DEVICE_STATES: [&str; 3] = ["idle", "busy", "dpc"];

pub(crate) const PACKET_STATES: [&str; 8] = [
    "live",
    "cancelled",
    "topped",
    "marked",
    "unmarked",
    "in",
    "current",
    "held",
];

/// What may be said of what a device has.
pub(crate) const HAS_STATES: [&str; 5] = ["is", "free", "owned", "empty", "has"];

pub(crate) const STATUSES: [&str; 7] = [
    "SUCCESS",
    "PENDING",
    "BUSY",
    "UNSUCCESSFUL",
    "INVALID_PARAMETER",
    "INVALID_DEVICE_REQUEST",
    "CANCELLED",
];

impl Operand {
    /// What stands there, in words.
    pub(crate) fn words(self) -> &'static str {
        match self {
            Operand::Name => {
                "a name for the packet (small letters, digits and `_`, at most 32, not beginning \
                 with a digit)"
            }
            Operand::Equals => "`=`",
            Operand::Issue => "`issue`, behind the name of the packet and `=`",
            Operand::Thread => "the number of a thread, counted from 0, at most 255",
            Operand::Device => "a device, by its name in the driver text or by its number",
            Operand::Packet => "a packet, by the name under which a line above issues it",
            Operand::Major => "`READ`, `WRITE` or `CONTROL`",
            Operand::Argument => "the argument, a number below 2^64",
            Operand::Level => "the level, 0, 1 or 2",
            Operand::Steps => "how many steps, 1 to 1000000",
            Operand::Until => {
                "`until`, and then `ROUTINE:LABEL`, `line` and a number, or `release` and a spin lock"
            }
            Operand::Runner => "`all`, or the number of a thread, counted from 0, at most 255",
            Operand::Release => "`release`, and a spin lock, `l0` to `l7`",
            Operand::Times => "how often the lines up to `end` are listed, 1 to 65536",
            Operand::Line => "`line`, and the number of an instruction's line in the driver text",
            Operand::LineNumber => "the number of a line of the driver text with an instruction",
            Operand::Spot => "an instruction, as `ROUTINE:LABEL` of the driver text, or `line` N",
            Operand::Named => "the number of a thread, 0 to 63, or `up to` a number of `worlds`",
            Operand::Up | Operand::To | Operand::Worlds => "`up to`, a number, and `worlds`",
            Operand::WorldCount => "how many worlds may be met, 1 to 1000000",
            _ => self.expected_words(),
        }
    }

    /// The same of an expectation of a run, a thread, a device's state or a packet.
    fn expected_words(self) -> &'static str {
        match self {
            Operand::BugCheck => "the number of a bug check, as 0x0A",
            Operand::ThreadState => {
                "`idle`, `busy`, `waiting`, `waiting for thread` and its number, or `at` an \
                 instruction, as `ROUTINE:LABEL` of the driver text or `line` N"
            }
            Operand::DeviceState => "`idle`, `busy` or `dpc queued`",
            Operand::Queued => "`queued`",
            Operand::PacketState => {
                "`live`, `cancelled`, `topped`, `marked`, `unmarked`, `in` a list of a device, \
                 `current on` a device, or `held by` a routine"
            }
            Operand::TopOut => "a status, or `information` and a number",
            Operand::Status => "a status, as `SUCCESS` or `CANCELLED`",
            Operand::Information => "`information`, and a number",
            Operand::Number => "the information, a number below 2^64",
            Operand::For => "`for thread`, and its number",
            Operand::OfThread => "`thread`, and its number",
            Operand::By => "`by`, and who has it: a routine has a packet, a thread a lock",
            Operand::On => "`on`, and a device",
            Operand::Routine => "a routine, by its name in the driver text",
            Operand::Rule => "a rule, `V1` to `V20`",
            Operand::At => "`at`, a routine, and a position in it",
            Operand::Position => "a position in the routine, 0 to 1023",
            _ => self.listed_words(),
        }
    }

    /// The same of cells, locks and lists.
    fn listed_words(self) -> &'static str {
        match self {
            Operand::Of => "`of`, and a device",
            Operand::Cell => "a cell, `c0` to `c15` or `p0` to `p15`",
            Operand::CellNumber => "the number in the cell, below 2^64",
            Operand::SpinLock => "a spin lock, `l0` to `l7`",
            Operand::LockState => "`free`, or `owned by thread` and its number",
            Operand::Queue => {
                "a queue, by its name in the device's driver or as `q0` to `q3`, `start list` or \
                 `device queue`"
            }
            Operand::ListState => "`empty`, or `has` and at most 16 packets",
            Operand::ListWord => "`start list` or `device queue`",
            Operand::Had => "what the device has: a cell, a spin lock or a queue",
            Operand::HasState => {
                "`is` and a number, of a cell; `free` or `owned by thread` and its number, of a \
                 spin lock; `empty`, or `has` and packets, of a queue"
            }
            _ => "",
        }
    }

    /// Whether a token is what stands there.
    pub(crate) fn fit(self, known: &Known<'_>, token: &[u8]) -> Fit {
        match self {
            Operand::Device => known.fit_device(token),
            Operand::LineNumber => known.fit_line(token),
            Operand::Packet => Fit::if_so(known.has_packet(token)),
            Operand::Spot => Fit::if_so(known.has_spot(token)),
            Operand::Queue => known.fit_queue(token),
            Operand::Routine => Fit::if_so(known.names.entry_of(token).is_some()),
            _ => self.fit_alone(token),
        }
    }

    /// The same of what stands there whatever is known.
    fn fit_alone(self, token: &[u8]) -> Fit {
        match self {
            Operand::Runner if is(token, b"all") => Fit::Fits,
            Operand::Major => Fit::if_so(major_of(token).is_some()),
            Operand::Name => Fit::if_so(is_name(token)),
            Operand::Equals => Fit::if_so(is(token, b"=")),
            Operand::Rule => Fit::if_so(rule_named(token).is_some()),
            Operand::Cell | Operand::SpinLock | Operand::Had => fit_had(self, token),
            _ => self.fit_number_or_word(token),
        }
    }

    /// The same of a number, or of one of a few words.
    fn fit_number_or_word(self, token: &[u8]) -> Fit {
        match self.most() {
            Some(most) => Fit::within(number(token), self.least(), most),
            None => Fit::if_so(is_one_of(token, self.choices())),
        }
    }

    /// The largest number that may stand there, where one stands there.
    fn most(self) -> Option<u64> {
        match self {
            Operand::Thread | Operand::Level | Operand::BugCheck | Operand::Runner => {
                Some(u8::MAX as u64)
            }
            Operand::Argument | Operand::Number | Operand::CellNumber => Some(u64::MAX),
            Operand::Steps => Some(MAX_EVENTS as u64),
            Operand::Times => Some(MAX_STEPS as u64),
            Operand::Named => Some(63),
            Operand::WorldCount => Some(MAX_WORLDS),
            Operand::Position => Some(MAX_INSTRUCTIONS as u64 - 1),
            _ => None,
        }
    }

    /// The least number that may stand there.
    fn least(self) -> u64 {
        match self {
            Operand::Steps | Operand::Times | Operand::WorldCount => 1,
            _ => 0,
        }
    }

    /// The words among which one stands there, or may be meant.
    pub(crate) fn choices(self) -> &'static [&'static str] {
        match self {
            Operand::LockState => &["free", "owned"],
            Operand::ListState => &["empty", "has"],
            Operand::ListWord => &["start", "list", "device", "queue"],
            Operand::HasState => &HAS_STATES,
            Operand::ThreadState => &THREAD_STATES,
            Operand::DeviceState => &DEVICE_STATES,
            Operand::PacketState => &PACKET_STATES,
            Operand::TopOut | Operand::Status => &STATUSES,
            _ => self.only_choice(),
        }
    }

    /// The same where one word alone may stand there.
    fn only_choice(self) -> &'static [&'static str] {
        match self {
            Operand::Issue => &["issue"],
            Operand::Until => &["until"],
            Operand::Line => &["line"],
            Operand::Runner => &["all"],
            Operand::Release => &["release"],
            Operand::Queued => &["queued"],
            Operand::Information => &["information"],
            Operand::Named | Operand::Up => &["up"],
            Operand::To => &["to"],
            Operand::Worlds => &["worlds"],
            Operand::For => &["for"],
            Operand::OfThread => &["thread"],
            Operand::Of => &["of"],
            Operand::By => &["by"],
            Operand::On => &["on"],
            Operand::At => &["at"],
            _ => &[],
        }
    }
}

/// Whether a token is what a device has: a cell, a spin lock, or anything.
fn fit_had(operand: Operand, token: &[u8]) -> Fit {
    match operand {
        Operand::Cell => match numbered(b'c', token) {
            Numeral::Other => Fit::within(numbered(b'p', token), 0, CELLS as u64 - 1),
            numeral => Fit::within(numeral, 0, CELLS as u64 - 1),
        },
        Operand::SpinLock => Fit::within(numbered(b'l', token), 0, SPIN_LOCKS as u64 - 1),
        _ => Fit::Fits,
    }
}
