//! One line of a scenario.

ghost use Rattle.std.specs.Prelude.{◌≡◌};
ghost use Rattle.scenario_text.specs.Line.{action_line, begins, cancel_line, cancels, dpc_line};
ghost use Rattle.scenario_text.specs.Line.{interrupt_line, issue_line, issues, line_of, may_line};
ghost use Rattle.scenario_text.specs.Line.{request_line, run_line, run_of, saying, startio_line};
ghost use Rattle.scenario_text.specs.Line.{starts, steps_line, steps_of, to_label, to_number};
ghost use Rattle.scenario_text.specs.Line.{to_release, until_line};

use crate::together::together_line;
use interleave::schedule::ScheduleKind;
use scenario_expected::expecting::expect_line;
use scenario_names::issued::Issued;
use scenario_names::names::Names;
use scenario_names::operands::{
    byte_of, device_of, major_from, number_of, packet_of, spin_lock_of, spot_labelled, spot_on_line,
};
use scenario_steps::scenario::Action;
use text::class::{is, is_name};
use text::piece::Piece;
use text::token::Tokens;

/// What a line says.
#[derive(Drop)]
pub struct Said<'a> {
    /// The name of the packet that it issues.
    pub name: Option<Piece<'a>>,
    /// Whether what it does may be refused, or find nothing to do.
    pub may: bool,
    pub action: Action,
}

/// What a line says behind the one that gives the threads, or `None` if it is blank: with the names
/// of the set's devices, and those of the packets that were issued in lines before it.
///
/// # Errors
///
/// The kind of the first token that can't stand there.
pub(crate) fn line_of<'a>(
    names: &Names<'_>,
    packets: &Issued<'_>,
    mut tokens: Tokens<'a>,
) -> Result<Option<Said<'a>>, ScheduleKind>
    ensures { result ≡ line_of names.now packets.now tokens.entry }
{
    match tokens.next() {
        Some(word) => {
            if is(word, b"may") {
                may_line(names, packets, tokens)
            } else if is(word, b"expect") {
                let expected = expect_line(names, packets, tokens)?;
                Ok(Some(saying(false, word, Action::Expect(expected))))
            } else if is(word, b"together") {
                let action = together_line(tokens)?;
                Ok(Some(saying(false, word, action)))
            } else {
                let action = action_line(names, packets, word, tokens)?;
                Ok(Some(saying(false, word, action)))
            }
        }
        None => Ok(None),
    }
}

/// `may STEP`.
fn may_line<'a>(
    names: &Names<'_>,
    packets: &Issued<'_>,
    mut tokens: Tokens<'a>,
) -> Result<Option<Said<'a>>, ScheduleKind>
    ensures { result ≡ may_line names.now packets.now tokens.entry }
{
    match tokens.next() {
        Some(word) => {
            let action = action_line(names, packets, word, tokens)?;
            Ok(Some(saying(true, word, action)))
        }
        None => Err(ScheduleKind::UnknownWord),
    }
}

/// What a line says that does this, and begins with this word.
fn saying<'a>(may: bool, word: &'a [u8], action: Action) -> Said<'a>
    ensures { result ≡ saying may word.now action }
{
    let name = match action {
        Action::Issue { .. } => Some(Piece::of(word)),
        _ => None,
    };
    Said { name, may, action }
}

/// What a line does, of which the first word is given.
fn action_line(
    names: &Names<'_>,
    packets: &Issued<'_>,
    word: &[u8],
    operands: Tokens,
) -> Result<Action, ScheduleKind>
    ensures { result ≡ action_line names.now packets.now word.now operands.entry }
{
    if is(word, b"run") {
        run_line(names, operands)
    } else if is(word, b"step") {
        steps_line(operands)
    } else if is(word, b"cancel") {
        cancel_line(packets, operands)
    } else if is(word, b"interrupt") {
        interrupt_line(names, operands)
    } else if is(word, b"dpc") {
        dpc_line(names, operands)
    } else if is(word, b"startio") {
        startio_line(names, operands)
    } else {
        issue_line(names, word, operands)
    }
}

/// `run all`, `run T`, or `run T until PLACE`.
fn run_line(names: &Names<'_>, mut operands: Tokens) -> Result<Action, ScheduleKind>
    ensures { result ≡ run_line names.now operands.entry }
{
    match (operands.next(), operands.next()) {
        (Some(thread), None) => run_of(thread),
        (Some(thread), Some(word)) => {
            if is(word, b"until") {
                until_line(names, thread, operands)
            } else {
                Err(ScheduleKind::UnknownWord)
            }
        }
        _ => Err(ScheduleKind::UnknownWord),
    }
}

/// A run of all threads, or of one.
fn run_of(thread: &[u8]) -> Result<Action, ScheduleKind>
    ensures { result ≡ run_of thread.now }
{
    if is(thread, b"all") {
        return Ok(Action::RunAll);
    }
    let thread = byte_of(thread)?;
    Ok(Action::Run(thread))
}

/// `ROUTINE:LABEL`, `line N`, or `release LOCK`.
fn until_line(
    names: &Names<'_>,
    thread: &[u8],
    mut operands: Tokens,
) -> Result<Action, ScheduleKind>
    ensures { result ≡ until_line names.now thread.now operands.entry }
{
    match (operands.next(), operands.next(), operands.next()) {
        (Some(place), None, _) => to_label(names, thread, place),
        (Some(word), Some(operand), None) => {
            if is(word, b"release") {
                to_release(thread, operand)
            } else {
                to_number(names, thread, word, operand)
            }
        }
        _ => Err(ScheduleKind::UnknownWord),
    }
}

/// A run of a thread up to the release of a spin lock.
fn to_release(thread: &[u8], lock: &[u8]) -> Result<Action, ScheduleKind>
    ensures { result ≡ to_release thread.now lock.now }
{
    let thread = byte_of(thread)?;
    let lock = spin_lock_of(lock)?;
    Ok(Action::RunToRelease { thread, lock })
}

/// A run of a thread up to the instruction with a label.
fn to_label(names: &Names<'_>, thread: &[u8], place: &[u8]) -> Result<Action, ScheduleKind>
    ensures { result ≡ to_label names.now thread.now place.now }
{
    let thread = byte_of(thread)?;
    let spot = spot_labelled(names, place)?;
    Ok(Action::RunTo { thread, spot })
}

/// A run of a thread up to the instruction in a line.
fn to_number(
    names: &Names<'_>,
    thread: &[u8],
    word: &[u8],
    number: &[u8],
) -> Result<Action, ScheduleKind>
    ensures { result ≡ to_number names.now thread.now word.now number.now }
{
    if !is(word, b"line") {
        return Err(ScheduleKind::UnknownWord);
    }
    let thread = byte_of(thread)?;
    let spot = spot_on_line(names, number)?;
    Ok(Action::RunTo { thread, spot })
}

/// `step T N`, or `step T` for one step.
fn steps_line(mut operands: Tokens) -> Result<Action, ScheduleKind>
    ensures { result ≡ steps_line operands.entry }
{
    match (operands.next(), operands.next(), operands.next()) {
        (Some(thread), None, _) => steps_of(thread, b"1"),
        (Some(thread), Some(count), None) => steps_of(thread, count),
        _ => Err(ScheduleKind::UnknownWord),
    }
}

/// So many steps of a thread.
fn steps_of(thread: &[u8], count: &[u8]) -> Result<Action, ScheduleKind>
    ensures { result ≡ steps_of thread.now count.now }
{
    let thread = byte_of(thread)?;
    let count = number_of(1, 1_000_000, count)?;
    Ok(Action::Steps { thread, count })
}

/// `cancel T PACKET LEVEL`, or `cancel T PACKET` at PASSIVE_LEVEL.
fn cancel_line(packets: &Issued<'_>, mut operands: Tokens) -> Result<Action, ScheduleKind>
    ensures { result ≡ cancel_line packets.now operands.entry }
{
    let three = (operands.next(), operands.next(), operands.next());
    match (three, operands.next()) {
        ((Some(thread), Some(packet), None), _) => cancels(packets, thread, packet, b"0"),
        ((Some(thread), Some(packet), Some(level)), None) => {
            cancels(packets, thread, packet, level)
        }
        _ => Err(ScheduleKind::UnknownWord),
    }
}

/// The cancel of a packet on a thread, at a level.
fn cancels(
    packets: &Issued<'_>,
    thread: &[u8],
    packet: &[u8],
    level: &[u8],
) -> Result<Action, ScheduleKind>
    ensures { result ≡ cancels packets.now thread.now packet.now level.now }
{
    let thread = byte_of(thread)?;
    let packet = packet_of(packets, packet)?;
    let level = byte_of(level)?;
    Ok(Action::Cancel {
        thread,
        packet,
        level,
    })
}

/// `interrupt DEVICE`.
fn interrupt_line(names: &Names<'_>, mut operands: Tokens) -> Result<Action, ScheduleKind>
    ensures { result ≡ interrupt_line names.now operands.entry }
{
    match (operands.next(), operands.next()) {
        (Some(device), None) => {
            let device = device_of(names.devices.as_slice(), device)?;
            Ok(Action::Interrupt(device))
        }
        _ => Err(ScheduleKind::UnknownWord),
    }
}

/// `dpc T DEVICE`.
fn dpc_line(names: &Names<'_>, mut operands: Tokens) -> Result<Action, ScheduleKind>
    ensures { result ≡ dpc_line names.now operands.entry }
{
    match (operands.next(), operands.next(), operands.next()) {
        (Some(thread), Some(device), None) => begins(names, thread, device),
        _ => Err(ScheduleKind::UnknownWord),
    }
}

/// The DPC of a device, on a thread.
fn begins(names: &Names<'_>, thread: &[u8], device: &[u8]) -> Result<Action, ScheduleKind>
    ensures { result ≡ begins names.now thread.now device.now }
{
    let thread = byte_of(thread)?;
    let device = device_of(names.devices.as_slice(), device)?;
    Ok(Action::Dpc { thread, device })
}

/// `startio T DEVICE`.
fn startio_line(names: &Names<'_>, mut operands: Tokens) -> Result<Action, ScheduleKind>
    ensures { result ≡ startio_line names.now operands.entry }
{
    match (operands.next(), operands.next(), operands.next()) {
        (Some(thread), Some(device), None) => starts(names, thread, device),
        _ => Err(ScheduleKind::UnknownWord),
    }
}

/// The StartIo routine of a device, on a thread.
fn starts(names: &Names<'_>, thread: &[u8], device: &[u8]) -> Result<Action, ScheduleKind>
    ensures { result ≡ starts names.now thread.now device.now }
{
    let thread = byte_of(thread)?;
    let device = device_of(names.devices.as_slice(), device)?;
    Ok(Action::StartIo { thread, device })
}

/// `NAME = issue T DEVICE MAJOR ARGUMENT`, of which the name is given.
fn issue_line(names: &Names<'_>, name: &[u8], mut operands: Tokens) -> Result<Action, ScheduleKind>
    ensures { result ≡ issue_line names.now name.now operands.entry }
{
    match (operands.next(), operands.next()) {
        (Some(equals), Some(word)) => {
            if is_name(name) && is(equals, b"=") && is(word, b"issue") {
                request_line(names, operands)
            } else {
                Err(ScheduleKind::UnknownWord)
            }
        }
        _ => Err(ScheduleKind::UnknownWord),
    }
}

/// `T DEVICE MAJOR ARGUMENT`.
fn request_line(names: &Names<'_>, mut operands: Tokens) -> Result<Action, ScheduleKind>
    ensures { result ≡ request_line names.now operands.entry }
{
    let place = (operands.next(), operands.next());
    let request = (operands.next(), operands.next());
    match (place, request, operands.next()) {
        ((Some(thread), Some(device)), (Some(major), Some(argument)), None) => {
            issues(names, thread, device, major, argument)
        }
        _ => Err(ScheduleKind::UnknownWord),
    }
}

/// A request to a device.
fn issues(
    names: &Names<'_>,
    thread: &[u8],
    device: &[u8],
    major: &[u8],
    argument: &[u8],
) -> Result<Action, ScheduleKind>
    ensures { result ≡ issues names.now thread.now device.now major.now argument.now }
{
    let thread = byte_of(thread)?;
    let device = device_of(names.devices.as_slice(), device)?;
    let major = major_from(major)?;
    let argument = number_of(0, u64::MAX, argument)?;
    Ok(Action::Issue {
        thread,
        device,
        major,
        argument,
    })
}
