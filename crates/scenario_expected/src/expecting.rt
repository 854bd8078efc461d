//! What a line expects.

ghost use Rattle.std.specs.Prelude.{◌≡◌};
ghost use Rattle.scenario_expected.specs.Expecting.{at_label, at_number, bug_line, device_line};
ghost use Rattle.scenario_expected.specs.Expecting.{device_state, expect_line, expecting};
ghost use Rattle.scenario_expected.specs.Expecting.{expecting_of, is_device_word, packet_line};
ghost use Rattle.scenario_expected.specs.Expecting.{packet_state, packet_word, refused_at};
ghost use Rattle.scenario_expected.specs.Expecting.{refused_line, thread_line, thread_state};
ghost use Rattle.scenario_expected.specs.Expecting.{topped_as, topped_information, topped_line};
ghost use Rattle.scenario_expected.specs.Expecting.{waiting_for};

use crate::expectation::{DeviceState, Expectation, List, PacketState, ThreadState, Verdict};
use crate::places::{cancel_lock_line, current_line, held_line, in_line, of_line, own_list_line};
use interleave::schedule::ScheduleKind;
use model::abs::Rule;
use model::limits::MAX_INSTRUCTIONS;
use model::status::Status;
use scenario_names::issued::Issued;
use scenario_names::names::{Names, Spot};
use scenario_names::operands::{
    byte_of, device_of, number_of, packet_of, routine_of, rule_named, spot_labelled, spot_on_line,
    status_named,
};
use text::class::is;
use text::token::Tokens;

/// What stands behind `expect`.
///
/// # Errors
///
/// The kind of the first operand that can't stand there.
pub fn expect_line(
    names: &Names<'_>,
    packets: &Issued<'_>,
    mut operands: Tokens,
) -> Result<Expectation, ScheduleKind>
    ensures { result ≡ expect_line names.now packets.now operands.entry }
{
    match (operands.next(), operands.next()) {
        (Some(word), None) => {
            if is(word, b"clean") {
                Ok(Expectation::Clean)
            } else if is(word, b"accepted") {
                Ok(Expectation::Verdict(Verdict::Accepted))
            } else {
                Err(ScheduleKind::UnknownWord)
            }
        }
        (Some(name), Some(word)) => expecting(names, packets, name, word, operands),
        _ => Err(ScheduleKind::UnknownWord),
    }
}

/// What is expected of what has a name: of a thread, which bug check or refusal, or of the rest.
fn expecting(
    names: &Names<'_>,
    packets: &Issued<'_>,
    name: &[u8],
    word: &[u8],
    operands: Tokens,
) -> Result<Expectation, ScheduleKind>
    ensures { result ≡ expecting names.now packets.now name.now word.now operands.entry }
{
    if is(name, b"thread") {
        thread_line(names, word, operands)
    } else if is(name, b"bug") {
        bug_line(word, operands)
    } else {
        match (is(name, b"refused"), rule_named(word)) {
            (true, Some(rule)) => refused_line(names, rule, operands),
            _ => expecting_of(names, packets, name, word, operands),
        }
    }
}

/// `at ROUTINE POSITION`, behind the rule that is broken there first.
fn refused_line(
    names: &Names<'_>,
    rule: Rule,
    mut operands: Tokens,
) -> Result<Expectation, ScheduleKind>
    ensures { result ≡ refused_line names.now rule operands.entry }
{
    let three = (operands.next(), operands.next(), operands.next());
    match (three, operands.next()) {
        ((Some(at), Some(routine), Some(position)), None) => {
            if is(at, b"at") {
                refused_at(names, rule, routine, position)
            } else {
                Err(ScheduleKind::UnknownWord)
            }
        }
        _ => Err(ScheduleKind::UnknownWord),
    }
}

/// The refusal for a rule at a position of a routine.
fn refused_at(
    names: &Names<'_>,
    rule: Rule,
    routine: &[u8],
    position: &[u8],
) -> Result<Expectation, ScheduleKind>
    ensures { result ≡ refused_at names.now rule routine.now position.now }
{
    let entry = routine_of(names, routine)?;
    let position = number_of(0, MAX_INSTRUCTIONS as u64 - 1, position)?;
    Ok(Expectation::Verdict(Verdict::Refused {
        rule,
        spot: Spot {
            driver: entry.driver,
            routine: entry.routine,
            position,
        },
    }))
}

/// Of a device, of what it has, of the system cancel spin lock, or of a packet.
fn expecting_of(
    names: &Names<'_>,
    packets: &Issued<'_>,
    name: &[u8],
    word: &[u8],
    operands: Tokens,
) -> Result<Expectation, ScheduleKind>
    ensures { result ≡ expecting_of names.now packets.now name.now word.now operands.entry }
{
    if is_device_word(word) {
        device_line(names, name, word, operands)
    } else if is(word, b"of") {
        of_line(names, packets, name, operands)
    } else if is(name, b"cancel") && is(word, b"lock") {
        cancel_lock_line(operands)
    } else if is(name, b"start") && is(word, b"list") {
        own_list_line(names, packets, List::StartList, operands)
    } else if is(name, b"device") && is(word, b"queue") {
        own_list_line(names, packets, List::DeviceQueue, operands)
    } else {
        packet_line(names, packets, name, word, operands)
    }
}

/// `bug NUMBER`.
fn bug_line(number: &[u8], mut operands: Tokens) -> Result<Expectation, ScheduleKind>
    ensures { result ≡ bug_line number.now operands.entry }
{
    match operands.next() {
        None => {
            let number = byte_of(number)?;
            Ok(Expectation::Bug(number))
        }
        Some(_) => Err(ScheduleKind::UnknownWord),
    }
}

/// `thread T STATE`: a word alone, `at ROUTINE:LABEL`, `at line N`, or `waiting for thread U`.
fn thread_line(
    names: &Names<'_>,
    thread: &[u8],
    mut operands: Tokens,
) -> Result<Expectation, ScheduleKind>
    ensures { result ≡ thread_line names.now thread.now operands.entry }
{
    let first = (operands.next(), operands.next());
    let second = (operands.next(), operands.next());
    match (first, second, operands.next()) {
        ((Some(word), None), _, _) => {
            let thread = byte_of(thread)?;
            let state = thread_state(word)?;
            Ok(Expectation::Thread { thread, state })
        }
        ((Some(word), Some(place)), (None, _), _) => at_label(names, thread, word, place),
        ((Some(word), Some(line)), (Some(place), None), _) => {
            at_number(names, thread, word, line, place)
        }
        ((Some(word), Some(linking)), (Some(sort), Some(other)), None) => {
            waiting_for(thread, word, linking, sort, other)
        }
        _ => Err(ScheduleKind::UnknownWord),
    }
}

/// A thread before the instruction with a label.
fn at_label(
    names: &Names<'_>,
    thread: &[u8],
    word: &[u8],
    place: &[u8],
) -> Result<Expectation, ScheduleKind>
    ensures { result ≡ at_label names.now thread.now word.now place.now }
{
    if !is(word, b"at") {
        return Err(ScheduleKind::UnknownWord);
    }
    let thread = byte_of(thread)?;
    let spot = spot_labelled(names, place)?;
    Ok(Expectation::Thread {
        thread,
        state: ThreadState::At(spot),
    })
}

/// A thread before the instruction in a line.
fn at_number(
    names: &Names<'_>,
    thread: &[u8],
    word: &[u8],
    line: &[u8],
    place: &[u8],
) -> Result<Expectation, ScheduleKind>
    ensures { result ≡ at_number names.now thread.now word.now line.now place.now }
{
    if !(is(word, b"at") && is(line, b"line")) {
        return Err(ScheduleKind::UnknownWord);
    }
    let thread = byte_of(thread)?;
    let spot = spot_on_line(names, place)?;
    Ok(Expectation::Thread {
        thread,
        state: ThreadState::At(spot),
    })
}

/// A thread that waits for another.
fn waiting_for(
    thread: &[u8],
    word: &[u8],
    linking: &[u8],
    sort: &[u8],
    other: &[u8],
) -> Result<Expectation, ScheduleKind>
    ensures { result ≡ waiting_for thread.now word.now linking.now sort.now other.now }
{
    if !(is(word, b"waiting") && is(linking, b"for") && is(sort, b"thread")) {
        return Err(ScheduleKind::UnknownWord);
    }
    let thread = byte_of(thread)?;
    let other = byte_of(other)?;
    Ok(Expectation::Thread {
        thread,
        state: ThreadState::WaitingFor(other),
    })
}

fn thread_state(word: &[u8]) -> Result<ThreadState, ScheduleKind>
    ensures { result ≡ thread_state word.now }
{
    if is(word, b"idle") {
        Ok(ThreadState::Idle)
    } else if is(word, b"busy") {
        Ok(ThreadState::Busy)
    } else if is(word, b"waiting") {
        Ok(ThreadState::Waiting)
    } else {
        Err(ScheduleKind::UnknownWord)
    }
}

/// Whether a word says something of a device.
fn is_device_word(word: &[u8]) -> bool
    ensures { result ≡ is_device_word word.now }
{
    is(word, b"idle") || is(word, b"busy") || is(word, b"dpc")
}

/// `DEVICE STATE`.
fn device_line(
    names: &Names<'_>,
    name: &[u8],
    word: &[u8],
    operands: Tokens,
) -> Result<Expectation, ScheduleKind>
    ensures { result ≡ device_line names.now name.now word.now operands.entry }
{
    let device = device_of(names.devices.as_slice(), name)?;
    let state = device_state(word, operands)?;
    Ok(Expectation::Device { device, state })
}

/// `idle`, `busy` or `dpc queued`.
fn device_state(word: &[u8], mut operands: Tokens) -> Result<DeviceState, ScheduleKind>
    ensures { result ≡ device_state word.now operands.entry }
{
    match (operands.next(), operands.next()) {
        (None, _) => {
            if is(word, b"idle") {
                Ok(DeviceState::Idle)
            } else if is(word, b"busy") {
                Ok(DeviceState::Busy)
            } else {
                Err(ScheduleKind::UnknownWord)
            }
        }
        (Some(next), None) => {
            if is(word, b"dpc") && is(next, b"queued") {
                Ok(DeviceState::DpcQueued)
            } else {
                Err(ScheduleKind::UnknownWord)
            }
        }
        _ => Err(ScheduleKind::UnknownWord),
    }
}

/// `PACKET STATE`.
fn packet_line(
    names: &Names<'_>,
    packets: &Issued<'_>,
    name: &[u8],
    word: &[u8],
    operands: Tokens,
) -> Result<Expectation, ScheduleKind>
    ensures { result ≡ packet_line names.now packets.now name.now word.now operands.entry }
{
    let packet = packet_of(packets, name)?;
    let state = packet_state(names, word, operands)?;
    Ok(Expectation::Packet { packet, state })
}

/// How a packet has topped out, where it stands, or a word alone.
fn packet_state(
    names: &Names<'_>,
    word: &[u8],
    operands: Tokens,
) -> Result<PacketState, ScheduleKind>
    ensures { result ≡ packet_state names.now word.now operands.entry }
{
    if is(word, b"topped") {
        topped_line(operands)
    } else if is(word, b"in") {
        in_line(names, operands)
    } else if is(word, b"current") {
        current_line(names, operands)
    } else if is(word, b"held") {
        held_line(names, operands)
    } else {
        packet_word(word, operands)
    }
}

/// `live`, `cancelled`, `marked` or `unmarked`.
fn packet_word(word: &[u8], mut operands: Tokens) -> Result<PacketState, ScheduleKind>
    ensures { result ≡ packet_word word.now operands.entry }
{
    if let Some(_) = operands.next() {
        return Err(ScheduleKind::UnknownWord);
    }
    if is(word, b"live") {
        Ok(PacketState::Live)
    } else if is(word, b"cancelled") {
        Ok(PacketState::Cancelled)
    } else if is(word, b"marked") {
        Ok(PacketState::Marked)
    } else if is(word, b"unmarked") {
        Ok(PacketState::Unmarked)
    } else {
        Err(ScheduleKind::UnknownWord)
    }
}

/// `[STATUS] [information N]`.
fn topped_line(mut operands: Tokens) -> Result<PacketState, ScheduleKind>
    ensures { result ≡ topped_line operands.entry }
{
    match operands.next() {
        None => Ok(PacketState::Topped {
            status: None,
            information: None,
        }),
        Some(word) => match status_named(word) {
            Some(status) => topped_as(Some(status), operands),
            None => topped_information(None, word, operands),
        },
    }
}

/// `[information N]`, behind a status.
fn topped_as(status: Option<Status>, mut operands: Tokens) -> Result<PacketState, ScheduleKind>
    ensures { result ≡ topped_as status operands.entry }
{
    match operands.next() {
        None => Ok(PacketState::Topped {
            status,
            information: None,
        }),
        Some(word) => topped_information(status, word, operands),
    }
}

/// `information N`, of which the first word is given.
fn topped_information(
    status: Option<Status>,
    word: &[u8],
    mut operands: Tokens,
) -> Result<PacketState, ScheduleKind>
    ensures { result ≡ topped_information status word.now operands.entry }
{
    match (operands.next(), operands.next()) {
        (Some(number), None) => {
            if !is(word, b"information") {
                return Err(ScheduleKind::UnknownWord);
            }
            let information = number_of(0, u64::MAX, number)?;
            Ok(PacketState::Topped {
                status,
                information: Some(information),
            })
        }
        _ => Err(ScheduleKind::UnknownWord),
    }
}
