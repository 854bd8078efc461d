//! What stands behind a line's word.

use model::limits::{CELLS, MAX_STACK, MAX_TURNS, REGISTERS, SPIN_LOCKS};
use text::class::is_name;
use text::number::{number, numbered};
use text_faults::fit::Fit;
use text_faults::forms::is_one_of;
use text_faults::misfits::MAJORS;

/// What stands at one place behind a line's word.
#[derive(Clone, Copy)]
pub(crate) enum Operand {
    /// A name that the line gives.
    NewName,
    Driver,
    LowerDevice,
    Routine,
    Queue,
    Label,
    Major,
    Sort,
    Status,
    Field,
    Returned,
    Register,
    SpinLock,
    Cell,
    PagedCell,
    Constant,
    Turns,
    Stack,
}

impl Operand {
    /// What stands there, in words.
    pub(crate) fn words(self) -> &'static str {
        match self {
            Operand::NewName => {
                "a name: small letters, digits and `_`, at most 32, not beginning with a digit"
            }
            Operand::Driver => "the name of a driver that stands before",
            Operand::LowerDevice => "the name of a device that stands before",
            Operand::Routine => "the name of a routine of this driver",
            Operand::Queue => "the name of a queue of this driver",
            Operand::Label => "a label of this routine, without its colon",
            Operand::Major => "`READ`, `WRITE` or `CONTROL`",
            Operand::Sort => "`dispatch`, `startio`, `dpc`, `cancel`, `propagate` or `hold`",
            Operand::Status => {
                "a status: `SUCCESS`, `PENDING`, `BUSY`, `UNSUCCESSFUL`, `INVALID_PARAMETER`, \
                 `INVALID_DEVICE_REQUEST` or `CANCELLED`"
            }
            Operand::Field => "a field of a packet: `MAJOR`, `ARG` or `INFO`",
            Operand::Returned => {
                "a status, `lower` and a register, `continue`, `stop` or `void`"
            }
            Operand::Register => "a register, `r0` to `r15`",
            Operand::SpinLock => "a spin lock, `l0` to `l7`",
            Operand::Cell => "a number cell, `c0` to `c15`",
            Operand::PagedCell => "a paged cell, `p0` to `p15`",
            Operand::Constant => "a number, at most 4294967295",
            Operand::Turns => "how many turns, 1 to 1000",
            Operand::Stack => "the stack size, 1 to 16",
        }
    }

    /// The words that may stand there, where these are few.
    pub(crate) fn choices(self) -> &'static [&'static str] {
        match self {
            Operand::Major => &MAJORS,
            Operand::Sort => &["dispatch", "startio", "dpc", "cancel", "propagate", "hold"],
            Operand::Status => &STATUSES,
            Operand::Field => &["MAJOR", "ARG", "INFO"],
            Operand::Returned => &RETURNS,
            _ => &[],
        }
    }

    /// Whether a token is what stands there.
    pub(crate) fn fit(self, token: &[u8]) -> Fit {
        match self {
            Operand::NewName
            | Operand::Driver
            | Operand::LowerDevice
            | Operand::Routine
            | Operand::Queue
            | Operand::Label => Fit::if_so(is_name(token)),
            Operand::Major | Operand::Sort | Operand::Status | Operand::Field | Operand::Returned =>
                Fit::if_so(is_one_of(token, self.choices())),
            Operand::Constant => Fit::within(number(token), 0, self.most()),
            Operand::Turns | Operand::Stack => Fit::within(number(token), 1, self.most()),
            _ => Fit::within(numbered(self.letter(), token), 0, self.most()),
        }
    }

    /// The letter before the number that stands there.
    fn letter(self) -> u8 {
        match self {
            Operand::Register => b'r',
            Operand::SpinLock => b'l',
            Operand::PagedCell => b'p',
            _ => b'c',
        }
    }

    /// The largest number that may stand there.
    fn most(self) -> u64 {
        match self {
            Operand::Register => REGISTERS as u64 - 1,
            Operand::SpinLock => SPIN_LOCKS as u64 - 1,
            Operand::Constant => u32::MAX as u64,
            Operand::Turns => MAX_TURNS as u64,
            Operand::Stack => MAX_STACK as u64,
            _ => CELLS as u64 - 1,
        }
    }
}

const STATUSES: [&str; 7] = [
    "SUCCESS",
    "PENDING",
    "BUSY",
    "UNSUCCESSFUL",
    "INVALID_PARAMETER",
    "INVALID_DEVICE_REQUEST",
    "CANCELLED",
];

const RETURNS: [&str; 11] = [
    "SUCCESS",
    "PENDING",
    "BUSY",
    "UNSUCCESSFUL",
    "INVALID_PARAMETER",
    "INVALID_DEVICE_REQUEST",
    "CANCELLED",
    "lower",
    "continue",
    "stop",
    "void",
];
