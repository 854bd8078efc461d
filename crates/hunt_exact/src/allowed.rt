//! Whether a run is within the bounds of an exact hunt.

ghost use Rattle.std.specs.Prelude.{◌≡◌, ◌≤◌, ◌&&◌, [], IfOk, IsTrue, length, not};
ghost use Rattle.std.specs.List.{list_any};
ghost use Rattle.hunt_exact.specs.Exact.{scope_of};
ghost use Rattle.hunt_exact.specs.Moves.{is_level, is_request, is_tried};
ghost use Rattle.hunt_exact.specs.Searched.{StandsWithin};
ghost use Rattle.hunt_exact.specs.Within.{AreWithin, is_open};
ghost use Rattle.model.specs.declared.limits.TheConstants.{MAX_THREADS};

use crate::machines::first_machine;
use crate::moves::Trying;
use crate::visiting::is_open;
use checked::Checked;
use driver_set::DriverSet;
use hunt_facts::requests::Request;
use model::event::Event;
use model::status::Major;
use std::alloc::{AllocError, Global};

/// Whether IoCancelIrp is tried at a level.
fn is_level(raised: bool, level: u8) -> bool
    ensures { result ≡ is_level raised level }
{
    level == 0 || (raised && level == 2)
}

/// Whether this is a request to a device, with a major function and an argument.
fn is_request(device: u8, major: Major, argument: u64, request: &Request) -> bool
    ensures { result ≡ is_request device major argument request.now }
{
    request.device == device && request.major.code() == major.code() && request.argument == argument
}

/// Whether a request is one of these.
fn is_among(requests: &[Request], device: u8, major: Major, argument: u64) -> bool
    ensures { result ≡ list_any (is_request device major argument) requests.now }
{
    requests
        .iter()
        .any(|request| is_request(device, major, argument, request))
}

/// Whether an event is tried: of so many devices and threads.
fn is_tried(trying: &Trying, devices: u8, threads: u8, event: &Event) -> bool
    ensures { result ≡ is_tried trying.now.requests.items trying.now.raised trying.now.packets
        devices threads event.now }
{
    match *event {
        Event::Step { thread } => thread < threads,
        Event::Interrupt { device } => device < devices,
        Event::Dpc { thread, device } => thread < threads && device < devices,
        Event::StartIo { thread, device } => thread < threads && device < devices,
        Event::Cancel {
            thread,
            packet,
            level,
        } => thread < threads && packet < trying.packets && is_level(trying.raised, level),
        Event::Issue {
            thread,
            device,
            major,
            argument,
        } => thread < threads && is_among(trying.requests.as_slice(), device, major, argument),
    }
}

/// How many devices the set of a machine has.
fn device_count(machine: &Checked) -> u8
    ensures { result ≡ length machine.now.set.devices }
{
    machine.set().devices().len() as u8
}

/// Whether an event isn't within the bounds where a machine stands.
fn is_barred(trying: &Trying, threads: u8, machine: &Checked, event: &Event) -> bool
    ensures { result ≡ not (is_tried trying.now.requests.items trying.now.raised trying.now.packets
        (length machine.now.set.devices) threads event.now
        && is_open trying.now.packets machine.now.world event.now) }
{
    let devices = device_count(machine);
    !(is_tried(trying, devices, threads, event) && is_open(trying.packets, machine, event))
}

/// Whether events are within the bounds behind those to which a machine has come, which goes on by
/// them.
fn goes_within(trying: &Trying, threads: u8, machine: &mut Checked, events: &[Event]) -> bool
    ensures { IsTrue result
        → StandsWithin (scope_of machine.old.set threads trying.now.packets
        trying.now.requests.items trying.now.raised) machine.old []
        → AreWithin (scope_of machine.old.set threads trying.now.packets
        trying.now.requests.items trying.now.raised) events.now }
{
    for event in events {
        let barred = is_barred(trying, threads, machine, event);
        if barred {
            return false;
        }
        let _reply = machine.apply(event);
    }
    true
}

/// Whether a run of a set on so many threads, 1 to 64, is one of those that [`hunt_exactly`]
/// searches where this is tried: each of its events is tried, and it issues no packet too many.
///
/// # Errors
///
/// When memory runs out.
///
/// [`hunt_exactly`]: crate::search::hunt_exactly
pub fn are_within(
    alloc: Global,
    set: &DriverSet,
    threads: u8,
    trying: &Trying,
    events: &[Event],
) -> Result<bool, AllocError>
    requires some { 1 ≤ threads }
    requires few { threads ≤ MAX_THREADS }
    ensures { IfOk result (λ within. IsTrue within
        → AreWithin (scope_of set.now threads trying.now.packets trying.now.requests.items
        trying.now.raised) events.now) }
{
    let mut machine = first_machine(alloc, set, threads)?;
    let within = goes_within(trying, threads, &mut machine, events);
    Ok(within)
}
