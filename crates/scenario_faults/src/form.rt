//! The form of a scenario's lines: the words that one begins with, and what has to stand behind
//! them.

use crate::operand::{DEVICE_STATES, Operand, PACKET_STATES};
use interleave_texts::faulty::FaultyLine;
use scenario_expected::expectation::MAX_LISTED;
use text::class::is;
use text_faults::forms::{self, form_among, is_one_of};

/// What has to stand behind the first words of a line.
#[derive(Clone, Copy)]
pub(crate) struct Form {
    /// The place of the first operand.
    pub(crate) first: usize,
    pub(crate) operands: &'static [Operand],
    /// How many of them have to stand there.
    pub(crate) least: usize,
    /// How often the last of them may stand there.
    pub(crate) often: usize,
}

impl Form {
    /// How many operands may stand there, at most, where any may.
    pub(crate) fn most(&self) -> usize {
        self.last().saturating_add(self.often)
    }

    /// The operand at a place, the first one at 0, if one may stand there.
    pub(crate) fn operand(&self, place: usize) -> Option<Operand> {
        if place >= self.most() {
            return None;
        }
        self.operands.get(place.min(self.last())).copied()
    }

    /// The place of the last operand of those that differ.
    fn last(&self) -> usize {
        self.operands.len().saturating_sub(1)
    }
}

/// The words that lines begin with, and those of them that may stand behind `may`.
pub(crate) const LINES: [&str; 11] = [
    "run",
    "step",
    "interrupt",
    "dpc",
    "startio",
    "cancel",
    "may",
    "expect",
    "together",
    "repeat",
    "end",
];

pub(crate) const STEPS: [&str; 6] = ["run", "step", "interrupt", "dpc", "startio", "cancel"];

/// What stands behind the word of a line; of a step and a cancel the last may be left out.
static WORDED: [forms::Form<Operand>; 5] = [
    forms::Form {
        word: "step",
        operands: &[Operand::Thread, Operand::Steps],
        open: true,
    },
    forms::Form {
        word: "interrupt",
        operands: &[Operand::Device],
        open: false,
    },
    forms::Form {
        word: "dpc",
        operands: &[Operand::Thread, Operand::Device],
        open: false,
    },
    forms::Form {
        word: "startio",
        operands: &[Operand::Thread, Operand::Device],
        open: false,
    },
    forms::Form {
        word: "cancel",
        operands: &[Operand::Thread, Operand::Packet, Operand::Level],
        open: true,
    },
];

/// The same of the words that stand on the first place alone.
static BLOCKS: [forms::Form<Operand>; 2] = [
    forms::Form {
        word: "repeat",
        operands: &[Operand::Times],
        open: false,
    },
    forms::Form {
        word: "end",
        operands: &[],
        open: false,
    },
];

/// The form of a line that begins with such a word, from a place on.
pub(crate) fn form_of(line: &FaultyLine<'_>, place: usize) -> Option<Form> {
    let behind = place.saturating_add(1);
    let word = line.token(place)?;
    if has(line, behind, b"=") {
        Some(of(place, &ISSUE, 7))
    } else if is(word, b"run") {
        Some(run_form(line, behind))
    } else {
        let form = worded(word, place)?;
        Some(of(behind, form.operands, form.least()))
    }
}

/// What stands behind a word at a place, if lines begin with it there.
fn worded(word: &[u8], place: usize) -> Option<&'static forms::Form<Operand>> {
    match form_among(WORDED.as_slice(), word) {
        None if place == 0 => form_among(BLOCKS.as_slice(), word),
        form => form,
    }
}

const ISSUE: [Operand; 7] = [
    Operand::Name,
    Operand::Equals,
    Operand::Issue,
    Operand::Thread,
    Operand::Device,
    Operand::Major,
    Operand::Argument,
];

fn of(first: usize, operands: &'static [Operand], least: usize) -> Form {
    Form {
        first,
        operands,
        least,
        often: 1,
    }
}

/// The same, with packets of a list at the end.
fn listing(first: usize, operands: &'static [Operand]) -> Form {
    Form {
        first,
        operands,
        least: operands.len(),
        often: MAX_LISTED,
    }
}

/// The form of `run` from a place on.
fn run_form(line: &FaultyLine<'_>, place: usize) -> Form {
    let kind = place.saturating_add(2);
    if line.token(place.saturating_add(1)).is_none() {
        of(place, &[Operand::Runner], 1)
    } else if has(line, kind, b"line") {
        of(place, &TO_LINE, 4)
    } else if has(line, kind, b"release") {
        of(place, &TO_RELEASE, 4)
    } else {
        of(place, &[Operand::Thread, Operand::Until, Operand::Spot], 3)
    }
}

const TO_LINE: [Operand; 4] = [
    Operand::Thread,
    Operand::Until,
    Operand::Line,
    Operand::LineNumber,
];

const TO_RELEASE: [Operand; 4] = [
    Operand::Thread,
    Operand::Until,
    Operand::Release,
    Operand::SpinLock,
];

/// The form of what stands behind the threads of `together`, from a place on.
pub(crate) fn bound_form(place: usize) -> Form {
    of(
        place,
        &[
            Operand::Up,
            Operand::To,
            Operand::WorldCount,
            Operand::Worlds,
        ],
        4,
    )
}

/// The form of what stands behind `expect`, if there is anything.
pub(crate) fn expect_form(line: &FaultyLine<'_>) -> Option<Form> {
    let word = line.token(1)?;
    Some(if is(word, b"bug") {
        of(2, &[Operand::BugCheck], 1)
    } else if is(word, b"clean") || is(word, b"accepted") {
        of(2, &[], 0)
    } else if is(word, b"thread") {
        thread_form(line)
    } else {
        part_form(word, line)
    })
}

/// The form of what is said of a device or of what it has, of a packet, or of the set.
fn part_form(word: &[u8], line: &FaultyLine<'_>) -> Form {
    let state = line.token(2).unwrap_or(&[]);
    if is_one_of(state, &DEVICE_STATES) {
        device_form(state)
    } else if is(state, b"of") {
        of_form(line)
    } else if is(word, b"cancel") && is(state, b"lock") {
        owner_form(line)
    } else if is_list(line, 1) {
        list_form(line)
    } else if is(word, b"refused") && !is_one_of(state, &PACKET_STATES) {
        of(2, &REFUSED, 4)
    } else {
        packet_form(line)
    }
}

const REFUSED: [Operand; 4] = [
    Operand::Rule,
    Operand::At,
    Operand::Routine,
    Operand::Position,
];

/// The form of what is said of a thread.
fn thread_form(line: &FaultyLine<'_>) -> Form {
    if has(line, 3, b"at") {
        at_form(line)
    } else if has(line, 3, b"waiting") && line.token(4).is_some() {
        of(2, &WAITING_FOR, 5)
    } else {
        of(2, &[Operand::Thread, Operand::ThreadState], 2)
    }
}

/// The same where it is said that the thread is at an instruction.
fn at_form(line: &FaultyLine<'_>) -> Form {
    if has(line, 4, b"line") {
        of(2, &AT_LINE, 4)
    } else {
        of(
            2,
            &[Operand::Thread, Operand::ThreadState, Operand::Spot],
            3,
        )
    }
}

const AT_LINE: [Operand; 4] = [
    Operand::Thread,
    Operand::ThreadState,
    Operand::Line,
    Operand::LineNumber,
];

const WAITING_FOR: [Operand; 5] = [
    Operand::Thread,
    Operand::ThreadState,
    Operand::For,
    Operand::OfThread,
    Operand::Thread,
];

/// The form of what is said of what a device has.
fn of_form(line: &FaultyLine<'_>) -> Form {
    let state = line.token(4).unwrap_or(&[]);
    if is(state, b"is") {
        of(1, &CELL_IS, 5)
    } else if is(state, b"free") {
        of(1, &LOCK_OWNED, 4)
    } else if is(state, b"owned") {
        of(1, &LOCK_OWNED, 7)
    } else if is(state, b"empty") {
        of(1, &QUEUE_EMPTY, 4)
    } else if is(state, b"has") {
        listing(1, &QUEUE_HAS)
    } else {
        of(1, &HAS_STATE, 4)
    }
}

const CELL_IS: [Operand; 5] = [
    Operand::Cell,
    Operand::Of,
    Operand::Device,
    Operand::HasState,
    Operand::CellNumber,
];

const LOCK_OWNED: [Operand; 7] = [
    Operand::SpinLock,
    Operand::Of,
    Operand::Device,
    Operand::HasState,
    Operand::By,
    Operand::OfThread,
    Operand::Thread,
];

const QUEUE_EMPTY: [Operand; 4] = [
    Operand::Queue,
    Operand::Of,
    Operand::Device,
    Operand::HasState,
];

const QUEUE_HAS: [Operand; 5] = [
    Operand::Queue,
    Operand::Of,
    Operand::Device,
    Operand::HasState,
    Operand::Packet,
];

const HAS_STATE: [Operand; 4] = [
    Operand::Had,
    Operand::Of,
    Operand::Device,
    Operand::HasState,
];

/// The form of what is said of the system cancel spin lock, behind its name.
fn owner_form(line: &FaultyLine<'_>) -> Form {
    if has(line, 3, b"owned") {
        of(3, &OWNED, 4)
    } else {
        of(3, &[Operand::LockState], 1)
    }
}

const OWNED: [Operand; 4] = [
    Operand::LockState,
    Operand::By,
    Operand::OfThread,
    Operand::Thread,
];

/// The form of what is said of a start list or a device queue, behind its name.
fn list_form(line: &FaultyLine<'_>) -> Form {
    if has(line, 5, b"has") {
        listing(3, &LIST_HAS)
    } else {
        of(3, &[Operand::Of, Operand::Device, Operand::ListState], 3)
    }
}

const LIST_HAS: [Operand; 4] = [
    Operand::Of,
    Operand::Device,
    Operand::ListState,
    Operand::Packet,
];

/// The form of what is said of a device with such a word.
fn device_form(state: &[u8]) -> Form {
    if is(state, b"dpc") {
        return of(
            1,
            &[Operand::Device, Operand::DeviceState, Operand::Queued],
            3,
        );
    }
    of(1, &[Operand::Device, Operand::DeviceState], 2)
}

/// The form of what is said of a packet.
fn packet_form(line: &FaultyLine<'_>) -> Form {
    let state = line.token(2).unwrap_or(&[]);
    if is(state, b"topped") {
        topped_form(line)
    } else if is(state, b"in") {
        in_form(line)
    } else if is(state, b"current") {
        of(1, &CURRENT_ON, 4)
    } else if is(state, b"held") {
        of(1, &HELD_BY, 4)
    } else {
        of(1, &IN_STATE, 2)
    }
}

/// The form of what is said of a packet that has topped out.
fn topped_form(line: &FaultyLine<'_>) -> Form {
    if has(line, 3, b"information") {
        of(1, &TOPPED_WITH, 4)
    } else {
        match line.tokens.len() {
            0..=3 => of(1, &IN_STATE, 2),
            4 => of(1, &TOPPED_OUT, 3),
            _ => of(1, &TOPPED_AS, 5),
        }
    }
}

/// The form of what is said of a packet in a list.
fn in_form(line: &FaultyLine<'_>) -> Form {
    if is_list(line, 3) {
        of(1, &IN_LIST, 6)
    } else {
        of(1, &IN_QUEUE, 5)
    }
}

/// Whether a start list or a device queue is named at a place.
fn is_list(line: &FaultyLine<'_>, place: usize) -> bool {
    let behind = place.saturating_add(1);
    if has(line, place, b"start") {
        has(line, behind, b"list")
    } else {
        has(line, place, b"device") && has(line, behind, b"queue")
    }
}

/// Whether a word stands at a place.
fn has(line: &FaultyLine<'_>, place: usize, word: &[u8]) -> bool {
    match line.token(place) {
        Some(token) => is(token, word),
        None => false,
    }
}

const IN_STATE: [Operand; 2] = [Operand::Packet, Operand::PacketState];

const TOPPED_OUT: [Operand; 3] = [Operand::Packet, Operand::PacketState, Operand::TopOut];

const IN_LIST: [Operand; 6] = [
    Operand::Packet,
    Operand::PacketState,
    Operand::ListWord,
    Operand::ListWord,
    Operand::Of,
    Operand::Device,
];

const IN_QUEUE: [Operand; 5] = [
    Operand::Packet,
    Operand::PacketState,
    Operand::Queue,
    Operand::Of,
    Operand::Device,
];

const CURRENT_ON: [Operand; 4] = [
    Operand::Packet,
    Operand::PacketState,
    Operand::On,
    Operand::Device,
];

const HELD_BY: [Operand; 4] = [
    Operand::Packet,
    Operand::PacketState,
    Operand::By,
    Operand::Routine,
];

const TOPPED_WITH: [Operand; 4] = [
    Operand::Packet,
    Operand::PacketState,
    Operand::Information,
    Operand::Number,
];

const TOPPED_AS: [Operand; 5] = [
    Operand::Packet,
    Operand::PacketState,
    Operand::Status,
    Operand::Information,
    Operand::Number,
];
