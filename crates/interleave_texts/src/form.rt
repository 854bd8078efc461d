//! The form of a schedule's lines: the word that one begins with, and what has to stand behind it.

use interleave::schedule::MAX_EVENTS;
use model::limits::MAX_THREADS;
use text::class::is;
use text::number::number;
use text_faults::fit::Fit;
use text_faults::forms::{Form, form_among, is_one_of};
use text_faults::misfits::MAJORS;

/// What stands at one place behind a line's word.
#[derive(Clone, Copy)]
pub(crate) enum Operand {
    Threads,
    Thread,
    Device,
    Major,
    Argument,
    Packet,
    Level,
    Steps,
}

impl Operand {
    /// What stands there, in words.
    pub(crate) fn words(self) -> &'static str {
        match self {
            Operand::Threads => "how many threads there are, 1 to 64",
            Operand::Thread => "the number of a thread, counted from 0, at most 255",
            Operand::Device => "the number of a device, counted from 0, at most 255",
            Operand::Major => "`READ`, `WRITE` or `CONTROL`",
            Operand::Argument => "the argument, a number below 2^64",
            Operand::Packet => "the number of a packet, counted from 0, below 2^64",
            Operand::Level => "the level, 0, 1 or 2",
            Operand::Steps => "how many steps, 1 to 1000000",
        }
    }

    /// Whether a token is what stands there.
    pub(crate) fn fit(self, token: &[u8]) -> Fit {
        match self {
            Operand::Threads => Fit::within(number(token), 1, MAX_THREADS as u64),
            Operand::Thread | Operand::Device | Operand::Level => {
                Fit::within(number(token), 0, u8::MAX as u64)
            }
            Operand::Argument | Operand::Packet => Fit::within(number(token), 0, u64::MAX),
            Operand::Steps => Fit::within(number(token), 1, MAX_EVENTS as u64),
            Operand::Major => Fit::if_so(is_one_of(token, &MAJORS)),
        }
    }
}

/// The first line.
pub(crate) static THREADS: Form<Operand> = Form {
    word: "threads",
    operands: &[Operand::Threads],
    open: false,
};

/// The lines of events.
pub(crate) static EVENTS: [Form<Operand>; 6] = [
    Form {
        word: "issue",
        operands: &[
            Operand::Thread,
            Operand::Device,
            Operand::Major,
            Operand::Argument,
        ],
        open: false,
    },
    Form {
        word: "cancel",
        operands: &[Operand::Thread, Operand::Packet, Operand::Level],
        open: false,
    },
    Form {
        word: "interrupt",
        operands: &[Operand::Device],
        open: false,
    },
    Form {
        word: "dpc",
        operands: &[Operand::Thread, Operand::Device],
        open: false,
    },
    Form {
        word: "startio",
        operands: &[Operand::Thread, Operand::Device],
        open: false,
    },
    Form {
        word: "step",
        operands: &[Operand::Thread, Operand::Steps],
        open: true,
    },
];

/// What stands behind the word of a line.
pub(crate) fn operands_of(word: &[u8]) -> &'static [Operand] {
    if is(word, b"threads") {
        return THREADS.operands;
    }
    match form_among(EVENTS.as_slice(), word) {
        Some(form) => form.operands,
        None => &[],
    }
}
