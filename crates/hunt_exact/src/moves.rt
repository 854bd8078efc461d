//! The events that an exact hunt tries, in a fixed order.

ghost use Rattle.std.specs.Prelude.{◌≡◌, ◌++◌, IfOk, OnOk};
ghost use Rattle.hunt_exact.specs.Moves.{begins_below, begins_on, cancels_of, cancels_on};
ghost use Rattle.hunt_exact.specs.Moves.{interrupts, requests_on, routines_on, steps, tried_events};

use hunt_facts::requests::Request;
use model::event::Event;
use std::alloc::{AllocError, Global};

/// What is tried: these requests, so many packets at most in all, and IoCancelIrp at PASSIVE_LEVEL,
/// and at DISPATCH_LEVEL where that is asked for.
#[derive(Drop)]
pub struct Trying {
    pub requests: Vec<Request>,
    pub packets: u64,
    pub raised: bool,
}

/// Adds a step of each of so many threads.
fn add_steps(moves: &mut Vec<Event>, threads: u8) -> Result<(), AllocError>
    ensures { OnOk result (moves.new.items ≡ moves.old.items ++ steps threads) }
{
    for thread in 0..threads {
        moves.push(Event::Step { thread })?;
    }
    Ok(())
}

/// Adds an interrupt of each of so many devices.
fn add_interrupts(moves: &mut Vec<Event>, devices: u8) -> Result<(), AllocError>
    ensures { OnOk result (moves.new.items ≡ moves.old.items ++ interrupts devices) }
{
    for device in 0..devices {
        moves.push(Event::Interrupt { device })?;
    }
    Ok(())
}

/// Adds the DPC and the StartIo routine of each of so many devices, on a thread.
fn add_routines(moves: &mut Vec<Event>, thread: u8, devices: u8) -> Result<(), AllocError>
    ensures { OnOk result (moves.new.items ≡ moves.old.items ++ routines_on thread devices) }
{
    for device in 0..devices {
        moves.push(Event::Dpc { thread, device })?;
        moves.push(Event::StartIo { thread, device })?;
    }
    Ok(())
}

/// Adds each request of a list, on a thread.
fn add_requests(moves: &mut Vec<Event>, thread: u8, requests: &[Request]) -> Result<(), AllocError>
    ensures { OnOk result (moves.new.items ≡ moves.old.items ++ requests_on thread requests.now) }
{
    for request in requests {
        moves.push(request.on(thread))?;
    }
    Ok(())
}

/// Adds IoCancelIrp for a packet, on a thread.
fn add_cancel(
    moves: &mut Vec<Event>,
    thread: u8,
    raised: bool,
    packet: u64,
) -> Result<(), AllocError>
    ensures { OnOk result
        (moves.new.items ≡ moves.old.items ++ cancels_of thread raised packet) }
{
    moves.push(Event::Cancel {
        thread,
        packet,
        level: 0,
    })?;
    if raised {
        moves.push(Event::Cancel {
            thread,
            packet,
            level: 2,
        })?;
    }
    Ok(())
}

/// Adds IoCancelIrp for each of so many packets, on a thread.
fn add_cancels(
    moves: &mut Vec<Event>,
    thread: u8,
    raised: bool,
    packets: u64,
) -> Result<(), AllocError>
    ensures { OnOk result
        (moves.new.items ≡ moves.old.items ++ cancels_on thread raised packets) }
{
    for packet in 0..packets {
        add_cancel(moves, thread, raised, packet)?;
    }
    Ok(())
}

/// Adds all that may begin on a thread.
fn add_begins(
    moves: &mut Vec<Event>,
    requests: &[Request],
    raised: bool,
    packets: u64,
    devices: u8,
    thread: u8,
) -> Result<(), AllocError>
    ensures { OnOk result (moves.new.items
        ≡ moves.old.items ++ begins_on requests.now raised packets devices thread) }
{
    add_routines(moves, thread, devices)?;
    add_requests(moves, thread, requests)?;
    add_cancels(moves, thread, raised, packets)
}

/// All events that are tried: of so many devices and threads.
pub(crate) fn tried_events(
    alloc: Global,
    trying: &Trying,
    devices: u8,
    threads: u8,
) -> Result<Vec<Event>, AllocError>
    ensures { IfOk result (λ moves. moves.items
        ≡ tried_events trying.now.requests.items trying.now.raised trying.now.packets devices
        threads) }
{
    let requests = trying.requests.as_slice();
    let mut moves = Vec::new(alloc);
    add_steps(&mut moves, threads)?;
    add_interrupts(&mut moves, devices)?;
    for thread in 0..threads {
        add_begins(
            &mut moves,
            requests,
            trying.raised,
            trying.packets,
            devices,
            thread,
        )?;
    }
    Ok(moves)
}
