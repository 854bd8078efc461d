//! One line of a schedule.

ghost use Rattle.std.specs.Prelude.{◌≡◌, ◌≤◌, IfSome};
ghost use Rattle.interleave.specs.Line.{begins, cancel_line, cancel_of, cancels, checked_tokens};
ghost use Rattle.interleave.specs.Line.{dpc_line, dpc_of, event_line, event_of, interrupt_line};
ghost use Rattle.interleave.specs.Line.{interrupt_of, interrupts, issue_line, issue_of, issues};
ghost use Rattle.interleave.specs.Line.{number_within, opening_line, opening_of, startio_line};
ghost use Rattle.interleave.specs.Line.{startio_of, starts, step_line, steps, steps_of};
ghost use Rattle.interleave.specs.Line.{threads_line, threads_of};

use crate::schedule::ScheduleKind;
use model::event::Event;
use model::limits::MAX_THREADS;
use model::status::Major;
use text::class::{is, is_number};
use text::cut::is_clean;
use text::major::major_of;
use text::number::{Numeral, number};
use text::token::Tokens;

/// An event that happens a number of times, one after another.
#[derive(Clone, Copy)]
pub struct Repeated {
    pub event: Event,
    pub count: usize,
}

/// The most events that one line stands for.
pub(crate) const MAX_REPEATS: u64 = 1_000_000;

/// The number of threads that a line gives where no line before it has, or `None` if the line is
/// blank.
///
/// # Errors
///
/// The least kind of what is wrong with the line.
pub fn opening_line(line: &[u8]) -> Result<Option<u8>, ScheduleKind>
    ensures { result ≡ opening_line line.now }
{
    opening_of(checked_tokens(line)?)
}

/// The events that a later line stands for, or `None` if it is blank.
///
/// # Errors
///
/// The least kind of what is wrong with the line.
pub fn event_line(line: &[u8]) -> Result<Option<Repeated>, ScheduleKind>
    ensures { result ≡ event_line line.now }
{
    event_of(checked_tokens(line)?)
}

/// The tokens of a line whose bytes and tokens are all allowed.
///
/// # Errors
///
/// `Lex` for any other line.
pub fn checked_tokens(line: &[u8]) -> Result<Tokens<'_>, ScheduleKind>
    ensures { result ≡ checked_tokens line.now }
{
    let tokens = Tokens::of(line);
    if is_clean(line) && tokens.are_of_form() {
        Ok(tokens)
    } else {
        Err(ScheduleKind::Lex)
    }
}

/// The line that says how many threads there are.
fn opening_of(mut tokens: Tokens) -> Result<Option<u8>, ScheduleKind>
    ensures { result ≡ opening_of tokens.entry }
{
    match tokens.next() {
        Some(word) => {
            if is(word, b"threads") {
                threads_line(tokens)
            } else {
                Err(ScheduleKind::UnknownWord)
            }
        }
        None => Ok(None),
    }
}

/// `threads K`.
fn threads_line(mut operands: Tokens) -> Result<Option<u8>, ScheduleKind>
    ensures { result ≡ threads_line operands.entry }
{
    match (operands.next(), operands.next()) {
        (Some(count), None) => threads_of(count),
        _ => Err(ScheduleKind::UnknownWord),
    }
}

/// This many threads.
fn threads_of(count: &[u8]) -> Result<Option<u8>, ScheduleKind>
    ensures { result ≡ threads_of count.now }
{
    if !is_number(count) {
        return Err(ScheduleKind::UnknownWord);
    }
    match number_within(1, MAX_THREADS as u64, count) {
        Some(threads) => Ok(Some(threads as u8)),
        None => Err(ScheduleKind::OutOfRange),
    }
}

/// A line that stands for events.
fn event_of(mut tokens: Tokens) -> Result<Option<Repeated>, ScheduleKind>
    ensures { result ≡ event_of tokens.entry }
{
    match tokens.next() {
        Some(word) => {
            if is(word, b"issue") {
                issue_line(tokens)
            } else if is(word, b"cancel") {
                cancel_line(tokens)
            } else if is(word, b"interrupt") {
                interrupt_line(tokens)
            } else if is(word, b"dpc") {
                dpc_line(tokens)
            } else if is(word, b"startio") {
                startio_line(tokens)
            } else if is(word, b"step") {
                step_line(tokens)
            } else {
                Err(ScheduleKind::UnknownWord)
            }
        }
        None => Ok(None),
    }
}

/// `issue T D MAJOR ARG`.
fn issue_line(mut operands: Tokens) -> Result<Option<Repeated>, ScheduleKind>
    ensures { result ≡ issue_line operands.entry }
{
    let place = (operands.next(), operands.next());
    let request = (operands.next(), operands.next());
    match (place, request, operands.next()) {
        ((Some(thread), Some(device)), (Some(major), Some(argument)), None) => {
            issue_of(thread, device, major, argument)
        }
        _ => Err(ScheduleKind::UnknownWord),
    }
}

/// A request to a device.
fn issue_of(
    thread: &[u8],
    device: &[u8],
    major: &[u8],
    argument: &[u8],
) -> Result<Option<Repeated>, ScheduleKind>
    ensures { result ≡ issue_of thread.now device.now major.now argument.now }
{
    if !(is_number(thread) && is_number(device) && is_number(argument)) {
        return Err(ScheduleKind::UnknownWord);
    }
    match major_of(major) {
        Some(major) => match issues(thread, device, major, argument) {
            Some(repeated) => Ok(Some(repeated)),
            None => Err(ScheduleKind::OutOfRange),
        },
        None => Err(ScheduleKind::UnknownWord),
    }
}

/// The request, if its numbers are in range.
fn issues(thread: &[u8], device: &[u8], major: Major, argument: &[u8]) -> Option<Repeated>
    ensures { result ≡ issues thread.now device.now major argument.now }
{
    let thread = byte(thread)?;
    let device = byte(device)?;
    let argument = number_within(0, u64::MAX, argument)?;
    let event = Event::Issue {
        thread,
        device,
        major,
        argument,
    };
    Some(Repeated { event, count: 1 })
}

/// `cancel T N LEVEL`.
fn cancel_line(mut operands: Tokens) -> Result<Option<Repeated>, ScheduleKind>
    ensures { result ≡ cancel_line operands.entry }
{
    let three = (operands.next(), operands.next(), operands.next());
    match (three, operands.next()) {
        ((Some(thread), Some(packet), Some(level)), None) => cancel_of(thread, packet, level),
        _ => Err(ScheduleKind::UnknownWord),
    }
}

/// The cancel of a packet, on a thread at a level.
fn cancel_of(thread: &[u8], packet: &[u8], level: &[u8]) -> Result<Option<Repeated>, ScheduleKind>
    ensures { result ≡ cancel_of thread.now packet.now level.now }
{
    if !(is_number(thread) && is_number(packet) && is_number(level)) {
        return Err(ScheduleKind::UnknownWord);
    }
    match cancels(thread, packet, level) {
        Some(repeated) => Ok(Some(repeated)),
        None => Err(ScheduleKind::OutOfRange),
    }
}

/// The cancel, if its numbers are in range.
fn cancels(thread: &[u8], packet: &[u8], level: &[u8]) -> Option<Repeated>
    ensures { result ≡ cancels thread.now packet.now level.now }
{
    let thread = byte(thread)?;
    let packet = number_within(0, u64::MAX, packet)?;
    let level = byte(level)?;
    let event = Event::Cancel {
        thread,
        packet,
        level,
    };
    Some(Repeated { event, count: 1 })
}

/// `interrupt D`.
fn interrupt_line(mut operands: Tokens) -> Result<Option<Repeated>, ScheduleKind>
    ensures { result ≡ interrupt_line operands.entry }
{
    match (operands.next(), operands.next()) {
        (Some(device), None) => interrupt_of(device),
        _ => Err(ScheduleKind::UnknownWord),
    }
}

/// An interrupt of a device.
fn interrupt_of(device: &[u8]) -> Result<Option<Repeated>, ScheduleKind>
    ensures { result ≡ interrupt_of device.now }
{
    if !is_number(device) {
        return Err(ScheduleKind::UnknownWord);
    }
    match interrupts(device) {
        Some(repeated) => Ok(Some(repeated)),
        None => Err(ScheduleKind::OutOfRange),
    }
}

/// The interrupt, if its number is in range.
fn interrupts(device: &[u8]) -> Option<Repeated>
    ensures { result ≡ interrupts device.now }
{
    let device = byte(device)?;
    let event = Event::Interrupt { device };
    Some(Repeated { event, count: 1 })
}

/// `dpc T D`.
fn dpc_line(mut operands: Tokens) -> Result<Option<Repeated>, ScheduleKind>
    ensures { result ≡ dpc_line operands.entry }
{
    match (operands.next(), operands.next(), operands.next()) {
        (Some(thread), Some(device), None) => dpc_of(thread, device),
        _ => Err(ScheduleKind::UnknownWord),
    }
}

/// The DPC of a device, on a thread.
fn dpc_of(thread: &[u8], device: &[u8]) -> Result<Option<Repeated>, ScheduleKind>
    ensures { result ≡ dpc_of thread.now device.now }
{
    if !(is_number(thread) && is_number(device)) {
        return Err(ScheduleKind::UnknownWord);
    }
    match begins(thread, device) {
        Some(repeated) => Ok(Some(repeated)),
        None => Err(ScheduleKind::OutOfRange),
    }
}

/// The DPC, if its numbers are in range.
fn begins(thread: &[u8], device: &[u8]) -> Option<Repeated>
    ensures { result ≡ begins thread.now device.now }
{
    let thread = byte(thread)?;
    let device = byte(device)?;
    let event = Event::Dpc { thread, device };
    Some(Repeated { event, count: 1 })
}

/// `startio T D`.
fn startio_line(mut operands: Tokens) -> Result<Option<Repeated>, ScheduleKind>
    ensures { result ≡ startio_line operands.entry }
{
    match (operands.next(), operands.next(), operands.next()) {
        (Some(thread), Some(device), None) => startio_of(thread, device),
        _ => Err(ScheduleKind::UnknownWord),
    }
}

/// The start of the StartIo routine of a device, on a thread.
fn startio_of(thread: &[u8], device: &[u8]) -> Result<Option<Repeated>, ScheduleKind>
    ensures { result ≡ startio_of thread.now device.now }
{
    if !(is_number(thread) && is_number(device)) {
        return Err(ScheduleKind::UnknownWord);
    }
    match starts(thread, device) {
        Some(repeated) => Ok(Some(repeated)),
        None => Err(ScheduleKind::OutOfRange),
    }
}

/// The start, if its numbers are in range.
fn starts(thread: &[u8], device: &[u8]) -> Option<Repeated>
    ensures { result ≡ starts thread.now device.now }
{
    let thread = byte(thread)?;
    let device = byte(device)?;
    let event = Event::StartIo { thread, device };
    Some(Repeated { event, count: 1 })
}

/// `step T K`, or `step T` for one step.
fn step_line(mut operands: Tokens) -> Result<Option<Repeated>, ScheduleKind>
    ensures { result ≡ step_line operands.entry }
{
    match (operands.next(), operands.next(), operands.next()) {
        (Some(thread), None, None) => steps_of(thread, b"1"),
        (Some(thread), Some(count), None) => steps_of(thread, count),
        _ => Err(ScheduleKind::UnknownWord),
    }
}

/// So many steps of a thread.
fn steps_of(thread: &[u8], count: &[u8]) -> Result<Option<Repeated>, ScheduleKind>
    ensures { result ≡ steps_of thread.now count.now }
{
    if !(is_number(thread) && is_number(count)) {
        return Err(ScheduleKind::UnknownWord);
    }
    match steps(thread, count) {
        Some(repeated) => Ok(Some(repeated)),
        None => Err(ScheduleKind::OutOfRange),
    }
}

/// The steps, if their numbers are in range.
fn steps(thread: &[u8], count: &[u8]) -> Option<Repeated>
    ensures { result ≡ steps thread.now count.now }
{
    let thread = byte(thread)?;
    let count = number_within(1, MAX_REPEATS, count)?;
    let event = Event::Step { thread };
    Some(Repeated {
        event,
        count: count as usize,
    })
}

/// The number of a thread, a device or a level, which has 8 bits.
pub fn byte(token: &[u8]) -> Option<u8>
    ensures { result ≡ number_within 0 255 token.now }
{
    let number = number_within(0, 255, token)?;
    Some(number as u8)
}

/// The number that a token writes, if it is in this range.
pub fn number_within(least: u64, most: u64, token: &[u8]) -> Option<u64>
    ensures number { result ≡ number_within least most token.now }
    ensures most { IfSome result (λ n. n ≤ most) }
{
    match number(token) {
        Numeral::Number(n) => {
            if least <= n && n <= most {
                Some(n)
            } else {
                None
            }
        }
        Numeral::TooLarge => None,
        Numeral::Other => None,
    }
}
