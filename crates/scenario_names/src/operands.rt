//! The operands of a line, each by what it may be.

ghost use Rattle.std.specs.Prelude.{◌≡◌, ◌+◌, ◌<◌, ◌≤◌, IfOk, IfSome, bytes_eq, drop, length};
ghost use Rattle.std.specs.Prelude.{nat_eq, position, take};
ghost use Rattle.scenario_names.specs.Operands.{below, byte_of, cell_of, device_named, device_of};
ghost use Rattle.scenario_names.specs.Operands.{has_number, known, lettered, major_from, number_of};
ghost use Rattle.scenario_names.specs.Operands.{packet_of, queue_of, routine_of, rule_in};
ghost use Rattle.scenario_names.specs.Operands.{rule_named, rule_of, small, spin_lock_of};
ghost use Rattle.scenario_names.specs.Operands.{spot_labelled, spot_on_line, spot_parted};
ghost use Rattle.scenario_names.specs.Operands.{status_named};
ghost use Rattle.model.specs.declared.limits.TheConstants.{CELLS, SPIN_LOCKS};

use crate::issued::Issued;
use crate::names::{Names, Spot};
use asm_line::status_text;
use interleave::read::number_within;
use interleave::schedule::ScheduleKind;
use model::abs::Rule;
use model::limits::{CELLS, MAX_QUEUES, SPIN_LOCKS};
use model::status::{Major, Status};
use text::class::{is, is_number};
use text::major::major_of;
use text::number::{Numeral, numbered};
use text::piece::Piece;
use verifier_names::RULES;

/// The statuses that a packet may top out with.
const STATUSES: [Status; 7] = [
    Status::Success,
    Status::Pending,
    Status::Busy,
    Status::Unsuccessful,
    Status::InvalidParameter,
    Status::InvalidDeviceRequest,
    Status::Cancelled,
];

/// A number cell of a device.
#[derive(Clone, Copy)]
pub enum CellName {
    /// A plain one, 0 to 15.
    Plain(u8),
    /// A paged one, 0 to 15.
    Paged(u8),
}

/// The number that a token writes, from least to most.
///
/// # Errors
///
/// `UnknownWord` for another token, and `OutOfRange` for another number.
pub fn number_of(least: u64, most: u64, token: &[u8]) -> Result<u64, ScheduleKind>
    ensures number { result ≡ number_of least most token.now }
    ensures most { IfOk result (λ n. n ≤ most) }
{
    if !is_number(token) {
        return Err(ScheduleKind::UnknownWord);
    }
    match number_within(least, most, token) {
        Some(number) => Ok(number),
        None => Err(ScheduleKind::OutOfRange),
    }
}

/// The number of a thread, a device or a level.
pub fn byte_of(token: &[u8]) -> Result<u8, ScheduleKind>
    ensures { result ≡ byte_of token.now }
{
    let number = number_of(0, 255, token)?;
    Ok(number as u8)
}

/// The number of a device, which is given, or its place among the names of devices.
pub fn device_of(devices: &[Piece<'_>], token: &[u8]) -> Result<u8, ScheduleKind>
    ensures { result ≡ device_of devices.now token.now }
{
    if is_number(token) {
        return byte_of(token);
    }
    match device_named(devices, token) {
        Some(device) => Ok(device),
        None => Err(ScheduleKind::UnknownWord),
    }
}

/// The number of the first device with this name.
fn device_named(devices: &[Piece<'_>], name: &[u8]) -> Option<u8>
    ensures { result ≡ device_named devices.now name.now }
{
    let place = place_of(devices, name)?;
    if place < 256 { Some(place as u8) } else { None }
}

/// The place of the first of these that has this name.
fn place_of(names: &[Piece<'_>], name: &[u8]) -> Option<usize>
    ensures { result ≡ position (bytes_eq name.now) names.now }
{
    names.iter().position(|other| is_named(name, other))
}

/// Whether this is the name.
fn is_named(name: &[u8], other: &Piece<'_>) -> bool
    ensures { result ≡ bytes_eq name.now other.now }
{
    is(name, other.bytes())
}

/// The packet that was last issued under this name.
pub fn packet_of(packets: &Issued<'_>, name: &[u8]) -> Result<u16, ScheduleKind>
    ensures { result ≡ packet_of packets.now name.now }
{
    match packets.last_named(name) {
        Some(packet) => Ok(packet),
        None => Err(ScheduleKind::UnknownWord),
    }
}

/// The instruction in the line of a number.
pub fn spot_on_line(names: &Names<'_>, number: &[u8]) -> Result<Spot, ScheduleKind>
    ensures { result ≡ spot_on_line names.now number.now }
{
    let line = number_of(1, u64::MAX, number)?;
    known(names.on_line(line))
}

/// The instruction with a label in a routine, as `ROUTINE:LABEL` names it.
pub fn spot_labelled(names: &Names<'_>, token: &[u8]) -> Result<Spot, ScheduleKind>
    ensures { result ≡ spot_labelled names.now token.now }
{
    spot_parted(names, token, colon_in(token))
}

/// The same, where the place of the colon is given.
fn spot_parted(names: &Names<'_>, token: &[u8], colon: Option<usize>) -> Result<Spot, ScheduleKind>
    requires { IfSome colon (λ place. place < length token.now) }
    ensures { result ≡ spot_parted names.now token.now colon }
{
    match colon {
        Some(place) => known(names.labelled(routine_in(token, place), label_in(token, place))),
        None => Err(ScheduleKind::UnknownWord),
    }
}

/// The first instruction of a routine.
pub fn routine_of(names: &Names<'_>, token: &[u8]) -> Result<Spot, ScheduleKind>
    ensures { result ≡ routine_of names.now token.now }
{
    known(names.entry_of(token))
}

/// A number below a bound.
fn below(bound: u8, numeral: Numeral) -> Result<u8, ScheduleKind>
    ensures below { result ≡ below bound numeral }
    ensures bounded { IfOk result (λ n. n < bound) }
{
    match numeral {
        Numeral::Number(number) if number < u64::from(bound) => Ok(number as u8),
        Numeral::Number(_) | Numeral::TooLarge => Err(ScheduleKind::OutOfRange),
        Numeral::Other => Err(ScheduleKind::UnknownWord),
    }
}

/// The same behind a letter.
fn lettered(letter: u8, bound: u8, token: &[u8]) -> Result<u8, ScheduleKind>
    ensures lettered { result ≡ lettered letter bound token.now }
    ensures bounded { IfOk result (λ n. n < bound) }
{
    below(bound, numbered(letter, token))
}

/// A cell of a device, `c0` to `c15` or `p0` to `p15`.
pub fn cell_of(token: &[u8]) -> Result<CellName, ScheduleKind>
    ensures { result ≡ cell_of token.now }
{
    match numbered(b'c', token) {
        Numeral::Other => {
            let number = lettered(b'p', CELLS as u8, token)?;
            Ok(CellName::Paged(number))
        }
        Numeral::Number(number) => {
            let number = below(CELLS as u8, Numeral::Number(number))?;
            Ok(CellName::Plain(number))
        }
        Numeral::TooLarge => Err(ScheduleKind::OutOfRange),
    }
}

/// A spin lock of a device, `l0` to `l7`.
pub fn spin_lock_of(token: &[u8]) -> Result<u8, ScheduleKind>
    ensures { result ≡ spin_lock_of token.now }
{
    lettered(b'l', SPIN_LOCKS as u8, token)
}

/// A queue of a device, by its name or as `q0` to `q3`.
pub fn queue_of(names: &Names<'_>, device: u8, token: &[u8]) -> Result<u8, ScheduleKind>
    ensures { result ≡ queue_of names.now device token.now }
{
    match small(names.queue_named(device, token)) {
        Some(queue) => Ok(queue),
        None => lettered(b'q', MAX_QUEUES as u8, token),
    }
}

/// A number that a queue may have.
fn small(number: Option<u64>) -> Option<u8>
    ensures { result ≡ small number }
{
    match number {
        Some(number) if number < 256 => Some(number as u8),
        _ => None,
    }
}

/// What stands before a place of a token.
fn routine_in(token: &[u8], place: usize) -> &[u8]
    requires { place < length token.now }
    ensures { result.now ≡ take place token.now }
{
    &token[..place]
}

/// What stands behind it.
fn label_in(token: &[u8], place: usize) -> &[u8]
    requires { place < length token.now }
    ensures { result.now ≡ drop (place + 1) token.now }
{
    &token[place + 1..]
}

/// An instruction, if there is one.
fn known(spot: Option<Spot>) -> Result<Spot, ScheduleKind>
    ensures { result ≡ known spot }
{
    match spot {
        Some(spot) => Ok(spot),
        None => Err(ScheduleKind::UnknownWord),
    }
}

/// The place of the first colon of a token.
fn colon_in(token: &[u8]) -> Option<usize>
    ensures place { result ≡ position (λ byte. nat_eq byte 58) token.now }
    ensures within { IfSome result (λ place. place < length token.now) }
{
    token.iter().position(|byte| *byte == b':')
}

/// The major function that a token names.
pub fn major_from(token: &[u8]) -> Result<Major, ScheduleKind>
    ensures { result ≡ major_from token.now }
{
    match major_of(token) {
        Some(major) => Ok(major),
        None => Err(ScheduleKind::UnknownWord),
    }
}

/// The status that a token names.
pub fn status_named(token: &[u8]) -> Option<Status>
    ensures { result ≡ status_named token.now }
{
    STATUSES
        .iter()
        .copied()
        .find(|status| is(token, status_text(*status).as_bytes()))
}

/// The rule that a token names by its number, `V1` to `V20`.
pub fn rule_named(token: &[u8]) -> Option<Rule>
    ensures { result ≡ rule_named token.now }
{
    rule_in(numbered(b'V', token))
}

/// The rule of a number.
fn rule_in(numeral: Numeral) -> Option<Rule>
    ensures { result ≡ rule_in numeral }
{
    match numeral {
        Numeral::Number(number) => rule_of(number),
        Numeral::TooLarge | Numeral::Other => None,
    }
}

/// The first rule of a number.
fn rule_of(number: u64) -> Option<Rule>
    ensures { result ≡ rule_of number }
{
    RULES.iter().copied().find(|rule| has_number(*rule, number))
}

/// Whether a rule has a number.
fn has_number(rule: Rule, number: u64) -> bool
    ensures { result ≡ has_number rule number }
{
    u64::from(rule.number()) == number
}
