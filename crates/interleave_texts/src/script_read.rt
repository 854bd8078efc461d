//! One line of a script.

ghost use Rattle.std.specs.Prelude.{◌≡◌};
ghost use Rattle.interleave_texts.specs.Script.{cancel_line, cancel_of, cancels, command_line};
ghost use Rattle.interleave_texts.specs.Script.{command_of, interrupt_line, interrupt_of};
ghost use Rattle.interleave_texts.specs.Script.{interrupts, name_at, request_line, request_of};
ghost use Rattle.interleave_texts.specs.Script.{requests};

use crate::script_quick::usual_line;
use interleave::read::{byte, checked_tokens, number_within};
use interleave::schedule::ScheduleKind;
use model::history::{Command, Name};
use model::status::Major;
use text::class::{is, is_number};
use text::major::major_of;
use text::token::Tokens;

/// The submitter of a script's commands: it has but one.
const SUBMITTER: u32 = 0;

/// The command that a line gives after these commands, or `None` if the line is blank. Most lines
/// have the usual form; any other one, and each fault, is read token by token.
///
/// # Errors
///
/// The least kind of what is wrong with the line.
pub fn command_line(commands: &[Command], line: &[u8]) -> Result<Option<Command>, ScheduleKind>
    ensures { result ≡ command_line commands.now line.now }
{
    if let Some(command) = usual_line(commands, line) {
        return Ok(Some(command));
    }
    command_of(commands, checked_tokens(line)?)
}

/// A line that gives a command.
fn command_of(commands: &[Command], mut tokens: Tokens) -> Result<Option<Command>, ScheduleKind>
    ensures { result ≡ command_of commands.now tokens.entry }
{
    match tokens.next() {
        Some(word) => {
            if is(word, b"request") {
                request_line(tokens)
            } else if is(word, b"cancel") {
                cancel_line(commands, tokens)
            } else if is(word, b"interrupt") {
                interrupt_line(tokens)
            } else {
                Err(ScheduleKind::UnknownWord)
            }
        }
        None => Ok(None),
    }
}

/// `request D MAJOR ARG`.
fn request_line(mut operands: Tokens) -> Result<Option<Command>, ScheduleKind>
    ensures { result ≡ request_line operands.entry }
{
    let three = (operands.next(), operands.next(), operands.next());
    match (three, operands.next()) {
        ((Some(device), Some(major), Some(argument)), None) => request_of(device, major, argument),
        _ => Err(ScheduleKind::UnknownWord),
    }
}

/// A request for a device.
fn request_of(device: &[u8], major: &[u8], argument: &[u8]) -> Result<Option<Command>, ScheduleKind>
    ensures { result ≡ request_of device.now major.now argument.now }
{
    if !(is_number(device) && is_number(argument)) {
        return Err(ScheduleKind::UnknownWord);
    }
    match major_of(major) {
        Some(major) => match requests(device, major, argument) {
            Some(command) => Ok(Some(command)),
            None => Err(ScheduleKind::OutOfRange),
        },
        None => Err(ScheduleKind::UnknownWord),
    }
}

/// The request, if its numbers are in range.
fn requests(device: &[u8], major: Major, argument: &[u8]) -> Option<Command>
    ensures { result ≡ requests device.now major argument.now }
{
    let device = byte(device)?;
    let argument = number_within(0, u64::MAX, argument)?;
    Some(Command::Request {
        device,
        major,
        argument,
    })
}

/// `cancel K LEVEL`.
fn cancel_line(commands: &[Command], mut operands: Tokens) -> Result<Option<Command>, ScheduleKind>
    ensures { result ≡ cancel_line commands.now operands.entry }
{
    match (operands.next(), operands.next(), operands.next()) {
        (Some(count), Some(level), None) => cancel_of(commands, count, level),
        _ => Err(ScheduleKind::UnknownWord),
    }
}

/// The cancel of a request, at a level.
fn cancel_of(
    commands: &[Command],
    count: &[u8],
    level: &[u8],
) -> Result<Option<Command>, ScheduleKind>
    ensures { result ≡ cancel_of commands.now count.now level.now }
{
    if !(is_number(count) && is_number(level)) {
        return Err(ScheduleKind::UnknownWord);
    }
    match cancels(commands, count, level) {
        Some(command) => Ok(Some(command)),
        None => Err(ScheduleKind::OutOfRange),
    }
}

/// The cancel, if there is such a request and its level is in range.
fn cancels(commands: &[Command], count: &[u8], level: &[u8]) -> Option<Command>
    ensures { result ≡ cancels commands.now count.now level.now }
{
    let count = number_within(0, u64::MAX, count)?;
    let name = name_at(commands, count)?;
    let level = byte(level)?;
    Some(Command::Cancel { name, level })
}

/// The name of the command of this number, counted from 0, if that is a request.
pub(crate) fn name_at(commands: &[Command], count: u64) -> Option<Name>
    ensures { result ≡ name_at commands.now count }
{
    match commands.get(count as usize) {
        Some(Command::Request { .. }) => Some(Name {
            submitter: SUBMITTER,
            count,
        }),
        _ => None,
    }
}

/// `interrupt D`.
fn interrupt_line(mut operands: Tokens) -> Result<Option<Command>, ScheduleKind>
    ensures { result ≡ interrupt_line operands.entry }
{
    match (operands.next(), operands.next()) {
        (Some(device), None) => interrupt_of(device),
        _ => Err(ScheduleKind::UnknownWord),
    }
}

/// An interrupt of a device.
fn interrupt_of(device: &[u8]) -> Result<Option<Command>, ScheduleKind>
    ensures { result ≡ interrupt_of device.now }
{
    if !is_number(device) {
        return Err(ScheduleKind::UnknownWord);
    }
    match interrupts(device) {
        Some(command) => Ok(Some(command)),
        None => Err(ScheduleKind::OutOfRange),
    }
}

/// The interrupt, if its number is in range.
fn interrupts(device: &[u8]) -> Option<Command>
    ensures { result ≡ interrupts device.now }
{
    let device = byte(device)?;
    Some(Command::Interrupt { device })
}
