//! The events that are tried in a world, in a fixed order.

use checked::Checked;
use hunt_facts::bounds::Bounds;
use hunt_facts::facts::Facts;
use model::event::Event;
use std::alloc::{AllocError, Global};
use tell_audit::ring::waits_for;

/// The events that are tried in the world of a machine: a step of each thread that is busy and
/// doesn't wait; an interrupt of each device; and what may begin on the first idle thread.
pub(crate) fn moves_of(
    alloc: Global,
    machine: &Checked,
    facts: &Facts,
    bounds: Bounds,
) -> Result<Vec<Event>, AllocError> {
    let mut moves = Vec::new(alloc);
    for thread in 0..bounds.threads {
        if !is_idle(machine, thread) && waits_for(machine, thread).is_none() {
            moves.push(Event::Step { thread })?;
        }
    }
    add_interrupts(&mut moves, machine)?;
    let Some(thread) = first_idle(machine, bounds.threads) else {
        return Ok(moves);
    };
    add_due(&mut moves, machine, thread)?;
    if live_packets(machine) < bounds.packets {
        add_issues(&mut moves, facts, thread)?;
    }
    add_cancels(&mut moves, machine, facts, thread)?;
    Ok(moves)
}

/// Whether a thread has no frames.
pub(crate) fn is_idle(machine: &Checked, thread: u8) -> bool {
    match machine.threads().get(thread as usize) {
        Some(its) => its.is_idle(),
        None => true,
    }
}

/// The first of so many threads that is idle.
pub(crate) fn first_idle(machine: &Checked, threads: u8) -> Option<u8> {
    for thread in 0..threads {
        if is_idle(machine, thread) {
            return Some(thread);
        }
    }
    None
}

/// The first thread that isn't idle.
pub(crate) fn first_busy(machine: &Checked) -> Option<usize> {
    machine
        .threads()
        .iter()
        .position(|thread| !thread.is_idle())
}

/// How many devices there are.
pub(crate) fn devices_of(machine: &Checked) -> u8 {
    machine.set().devices().len().min(255) as u8
}

/// How many packets are live.
pub(crate) fn live_packets(machine: &Checked) -> usize {
    let mut live: usize = 0;
    for n in 0..machine.shared().issued() {
        if machine.shared().live_packet(n).is_some() {
            live = live.saturating_add(1);
        }
    }
    live
}

/// An interrupt of each device whose driver has a DPC routine, unless its DPC is queued.
fn add_interrupts(moves: &mut Vec<Event>, machine: &Checked) -> Result<(), AllocError> {
    for device in 0..devices_of(machine) {
        if machine.set().dpc(device).is_some() && !machine.shared().is_queued(device) {
            moves.push(Event::Interrupt { device })?;
        }
    }
    Ok(())
}

/// The DPC routines that are queued, and the StartIo routines for which a packet waits.
fn add_due(moves: &mut Vec<Event>, machine: &Checked, thread: u8) -> Result<(), AllocError> {
    for device in 0..devices_of(machine) {
        if machine.shared().is_queued(device) {
            moves.push(Event::Dpc { thread, device })?;
        }
    }
    for device in 0..devices_of(machine) {
        if machine.due(device).0 {
            moves.push(Event::StartIo { thread, device })?;
        }
    }
    Ok(())
}

/// Each request that is tried.
fn add_issues(moves: &mut Vec<Event>, facts: &Facts, thread: u8) -> Result<(), AllocError> {
    for request in facts.requests.as_slice() {
        moves.push(request.on(thread))?;
    }
    Ok(())
}

/// IoCancelIrp for each live packet, at each level that may matter.
fn add_cancels(
    moves: &mut Vec<Event>,
    machine: &Checked,
    facts: &Facts,
    thread: u8,
) -> Result<(), AllocError> {
    for packet in 0..machine.shared().issued() {
        if machine.shared().live_packet(packet).is_some() {
            moves.push(Event::Cancel {
                thread,
                packet,
                level: 0,
            })?;
            if facts.uses.paged {
                moves.push(Event::Cancel {
                    thread,
                    packet,
                    level: 2,
                })?;
            }
        }
    }
    Ok(())
}
