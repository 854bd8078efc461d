//! What a line expects of cells, locks and lists of devices, and of where a packet stands.

ghost use Rattle.std.specs.Prelude.{◌≡◌, ◌∷◌};
ghost use Rattle.scenario_expected.specs.Places.{cancel_lock_line, cell_is, cell_line};
ghost use Rattle.scenario_expected.specs.Places.{current_line, held_line, in_line, in_list};
ghost use Rattle.scenario_expected.specs.Places.{in_queue, list_named, listed_line, none_listed};
ghost use Rattle.scenario_expected.specs.Places.{of_device, of_line, own_list, own_list_line};
ghost use Rattle.scenario_expected.specs.Places.{owner_line, owning, packets_from, packets_line};
ghost use Rattle.scenario_expected.specs.Places.{queue_line, spin_line};

use crate::expectation::{DeviceState, Expectation, List, MAX_LISTED, PacketState};
use interleave::schedule::ScheduleKind;
use model::event::{Lock, OfDevice};
use scenario_names::issued::Issued;
use scenario_names::names::Names;
use scenario_names::operands::{
    byte_of, cell_of, device_of, number_of, packet_of, queue_of, routine_of, spin_lock_of,
};
use text::class::is;
use text::token::Tokens;

/// What is said of what a device has, behind `of`.
pub(crate) fn of_line(
    names: &Names<'_>,
    packets: &Issued<'_>,
    name: &[u8],
    mut operands: Tokens,
) -> Result<Expectation, ScheduleKind>
    ensures { result ≡ of_line names.now packets.now name.now operands.entry }
{
    match (operands.next(), operands.next()) {
        (Some(device), Some(word)) => of_device(names, packets, name, device, word, operands),
        _ => Err(ScheduleKind::UnknownWord),
    }
}

fn of_device(
    names: &Names<'_>,
    packets: &Issued<'_>,
    name: &[u8],
    device: &[u8],
    word: &[u8],
    operands: Tokens,
) -> Result<Expectation, ScheduleKind>
    ensures { result
        ≡ of_device names.now packets.now name.now device.now word.now operands.entry }
{
    if is(word, b"is") {
        cell_line(names, name, device, operands)
    } else if is(word, b"free") || is(word, b"owned") {
        spin_line(names, name, device, word, operands)
    } else {
        queue_line(names, packets, name, device, word, operands)
    }
}

/// `CELL of DEVICE is NUMBER`.
fn cell_line(
    names: &Names<'_>,
    cell: &[u8],
    device: &[u8],
    mut operands: Tokens,
) -> Result<Expectation, ScheduleKind>
    ensures { result ≡ cell_line names.now cell.now device.now operands.entry }
{
    match (operands.next(), operands.next()) {
        (Some(number), None) => cell_is(names, cell, device, number),
        _ => Err(ScheduleKind::UnknownWord),
    }
}

fn cell_is(
    names: &Names<'_>,
    cell: &[u8],
    device: &[u8],
    number: &[u8],
) -> Result<Expectation, ScheduleKind>
    ensures { result ≡ cell_is names.now cell.now device.now number.now }
{
    let cell = cell_of(cell)?;
    let device = device_of(names.devices.as_slice(), device)?;
    let number = number_of(0, u64::MAX, number)?;
    Ok(Expectation::Device {
        device,
        state: DeviceState::Has { cell, number },
    })
}

/// `LOCK of DEVICE free`, or `LOCK of DEVICE owned by thread T`.
fn spin_line(
    names: &Names<'_>,
    lock: &[u8],
    device: &[u8],
    word: &[u8],
    operands: Tokens,
) -> Result<Expectation, ScheduleKind>
    ensures { result ≡ spin_line names.now lock.now device.now word.now operands.entry }
{
    let number = spin_lock_of(lock)?;
    let device = device_of(names.devices.as_slice(), device)?;
    let owner = owner_line(word, operands)?;
    let lock = Lock::Spin(OfDevice { device, number });
    Ok(Expectation::Lock { lock, owner })
}

/// The same of the system cancel spin lock, behind `cancel lock`.
pub(crate) fn cancel_lock_line(mut operands: Tokens) -> Result<Expectation, ScheduleKind>
    ensures { result ≡ cancel_lock_line operands.entry }
{
    match operands.next() {
        Some(word) => {
            let owner = owner_line(word, operands)?;
            Ok(Expectation::Lock {
                lock: Lock::SystemCancel,
                owner,
            })
        }
        None => Err(ScheduleKind::UnknownWord),
    }
}

/// `free`, or `owned by thread T`.
fn owner_line(word: &[u8], mut operands: Tokens) -> Result<Option<u8>, ScheduleKind>
    ensures { result ≡ owner_line word.now operands.entry }
{
    let three = (operands.next(), operands.next(), operands.next());
    match (three, operands.next()) {
        ((None, _, _), _) => {
            if is(word, b"free") {
                Ok(None)
            } else {
                Err(ScheduleKind::UnknownWord)
            }
        }
        ((Some(by), Some(thread), Some(number)), None) => owning(word, by, thread, number),
        _ => Err(ScheduleKind::UnknownWord),
    }
}

fn owning(owned: &[u8], by: &[u8], thread: &[u8], number: &[u8]) -> Result<Option<u8>, ScheduleKind>
    ensures { result ≡ owning owned.now by.now thread.now number.now }
{
    if !(is(owned, b"owned") && is(by, b"by") && is(thread, b"thread")) {
        return Err(ScheduleKind::UnknownWord);
    }
    let owner = byte_of(number)?;
    Ok(Some(owner))
}

/// `QUEUE of DEVICE empty`, or `QUEUE of DEVICE has PACKET ..`.
fn queue_line(
    names: &Names<'_>,
    packets: &Issued<'_>,
    queue: &[u8],
    device: &[u8],
    word: &[u8],
    operands: Tokens,
) -> Result<Expectation, ScheduleKind>
    ensures { result
        ≡ queue_line names.now packets.now queue.now device.now word.now operands.entry }
{
    let device = device_of(names.devices.as_slice(), device)?;
    let queue = queue_of(names, device, queue)?;
    listed_line(packets, device, List::Queue(queue), word, operands)
}

/// The same of another list, behind its name.
pub(crate) fn own_list_line(
    names: &Names<'_>,
    packets: &Issued<'_>,
    list: List,
    mut operands: Tokens,
) -> Result<Expectation, ScheduleKind>
    ensures { result ≡ own_list_line names.now packets.now list operands.entry }
{
    match (operands.next(), operands.next(), operands.next()) {
        (Some(of), Some(device), Some(word)) => {
            if !is(of, b"of") {
                return Err(ScheduleKind::UnknownWord);
            }
            let device = device_of(names.devices.as_slice(), device)?;
            listed_line(packets, device, list, word, operands)
        }
        _ => Err(ScheduleKind::UnknownWord),
    }
}

/// What is said of the packets in a list of a device.
fn listed_line(
    packets: &Issued<'_>,
    device: u8,
    list: List,
    word: &[u8],
    operands: Tokens,
) -> Result<Expectation, ScheduleKind>
    ensures { result ≡ listed_line packets.now device list word.now operands.entry }
{
    let packets = packets_line(packets, word, operands)?;
    Ok(Expectation::Listed {
        device,
        list,
        packets,
    })
}

/// `empty`, or `has PACKET ..`.
fn packets_line(
    packets: &Issued<'_>,
    word: &[u8],
    operands: Tokens,
) -> Result<[Option<u16>; MAX_LISTED], ScheduleKind>
    ensures { result ≡ packets_line packets.now word.now operands.entry }
{
    let mut left = operands;
    match left.next() {
        None => {
            if is(word, b"empty") {
                Ok([None; MAX_LISTED])
            } else {
                Err(ScheduleKind::UnknownWord)
            }
        }
        Some(first) => {
            if is(word, b"has") {
                packets_from(packets, first, left)
            } else {
                Err(ScheduleKind::UnknownWord)
            }
        }
    }
}

/// These packets, of which the first has the place 0.
fn packets_from(
    packets: &Issued<'_>,
    first: &[u8],
    mut operands: Tokens,
) -> Result<[Option<u16>; MAX_LISTED], ScheduleKind>
    ensures { result
        ≡ packets_from packets.now none_listed 0 (first.now ∷ operands.entry) }
{
    let mut listed = [None; MAX_LISTED];
    listed[0] = Some(packet_of(packets, first)?);
    let mut place: usize = 1;
    while let Some(name) = operands.next() {
        if place >= MAX_LISTED {
            return Err(ScheduleKind::UnknownWord);
        }
        listed[place] = Some(packet_of(packets, name)?);
        place += 1;
    }
    Ok(listed)
}

/// `in QUEUE of DEVICE`, `in start list of DEVICE`, or `in device queue of DEVICE`.
pub(crate) fn in_line(names: &Names<'_>, mut operands: Tokens) -> Result<PacketState, ScheduleKind>
    ensures { result ≡ in_line names.now operands.entry }
{
    let first = (operands.next(), operands.next());
    let second = (operands.next(), operands.next());
    match (first, second, operands.next()) {
        ((Some(queue), Some(of)), (Some(device), None), _) => in_queue(names, queue, of, device),
        ((Some(first), Some(second)), (Some(of), Some(device)), None) => {
            in_list(names, first, second, of, device)
        }
        _ => Err(ScheduleKind::UnknownWord),
    }
}

fn in_queue(
    names: &Names<'_>,
    queue: &[u8],
    of: &[u8],
    device: &[u8],
) -> Result<PacketState, ScheduleKind>
    ensures { result ≡ in_queue names.now queue.now of.now device.now }
{
    if !is(of, b"of") {
        return Err(ScheduleKind::UnknownWord);
    }
    let device = device_of(names.devices.as_slice(), device)?;
    let queue = queue_of(names, device, queue)?;
    Ok(PacketState::In {
        device,
        list: List::Queue(queue),
    })
}

fn in_list(
    names: &Names<'_>,
    first: &[u8],
    second: &[u8],
    of: &[u8],
    device: &[u8],
) -> Result<PacketState, ScheduleKind>
    ensures { result ≡ in_list names.now first.now second.now of.now device.now }
{
    if !is(of, b"of") {
        return Err(ScheduleKind::UnknownWord);
    }
    let list = list_named(first, second)?;
    let device = device_of(names.devices.as_slice(), device)?;
    Ok(PacketState::In { device, list })
}

/// A list that isn't a queue of a driver.
fn list_named(first: &[u8], second: &[u8]) -> Result<List, ScheduleKind>
    ensures { result ≡ list_named first.now second.now }
{
    if is(first, b"start") && is(second, b"list") {
        Ok(List::StartList)
    } else if is(first, b"device") && is(second, b"queue") {
        Ok(List::DeviceQueue)
    } else {
        Err(ScheduleKind::UnknownWord)
    }
}

/// `current on DEVICE`.
pub(crate) fn current_line(
    names: &Names<'_>,
    mut operands: Tokens,
) -> Result<PacketState, ScheduleKind>
    ensures { result ≡ current_line names.now operands.entry }
{
    match (operands.next(), operands.next(), operands.next()) {
        (Some(on), Some(device), None) => {
            if !is(on, b"on") {
                return Err(ScheduleKind::UnknownWord);
            }
            let device = device_of(names.devices.as_slice(), device)?;
            Ok(PacketState::Current(device))
        }
        _ => Err(ScheduleKind::UnknownWord),
    }
}

/// `held by ROUTINE`.
pub(crate) fn held_line(
    names: &Names<'_>,
    mut operands: Tokens,
) -> Result<PacketState, ScheduleKind>
    ensures { result ≡ held_line names.now operands.entry }
{
    match (operands.next(), operands.next(), operands.next()) {
        (Some(by), Some(routine), None) => {
            if !is(by, b"by") {
                return Err(ScheduleKind::UnknownWord);
            }
            let spot = routine_of(names, routine)?;
            Ok(PacketState::Held {
                driver: spot.driver,
                routine: spot.routine,
            })
        }
        _ => Err(ScheduleKind::UnknownWord),
    }
}
