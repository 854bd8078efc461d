//! Cancellations that were missed.

ghost use Rattle.std.specs.Prelude.{◌≡◌, ◌++◌, IfOk, OnOk};
ghost use Rattle.std.specs.List.{list_any};
ghost use Rattle.tell_audit.specs.Missed.{frame_cancels, is_being_cancelled, is_to_cancel};
ghost use Rattle.tell_audit.specs.Missed.{missed_at, missed_packets, thread_cancels};
ghost use Rattle.model.specs.World.{packet_of};

use checked::{Checked, Thread};
use checked_parts::{Frame, Managing};
use irp::Packet;
use std::alloc::{AllocError, Global};

/// Whether a frame is IoCancelIrp's for a packet.
fn frame_cancels(n: u64, frame: &Frame) -> bool
    ensures { result ≡ frame_cancels n frame.now }
{
    match frame.manager() {
        Some(Managing::Cancels(canceller)) => canceller.packet == n,
        _ => false,
    }
}

/// Whether a thread is in IoCancelIrp for a packet.
fn thread_cancels(n: u64, thread: &Thread) -> bool
    ensures { result ≡ thread_cancels n thread.now }
{
    thread.frames().iter().any(|frame| frame_cancels(n, frame))
}

/// Whether one of the threads is in IoCancelIrp for a packet.
fn any_cancels(n: u64, threads: &[Thread]) -> bool
    ensures { result ≡ list_any (thread_cancels n) threads.now }
{
    threads.iter().any(|thread| thread_cancels(n, thread))
}

/// Whether a thread of the machine is in IoCancelIrp for a packet.
fn is_being_cancelled(machine: &Checked, n: u64) -> bool
    ensures { result ≡ is_being_cancelled machine.now.world n }
{
    any_cancels(n, machine.threads())
}

/// Whether a packet's Irp->Cancel is set, and its cancel routine too.
fn is_to_cancel(packet: &Packet) -> bool
    ensures { result ≡ is_to_cancel packet.now }
{
    packet.is_cancelled() && packet.armer().is_some()
}

/// Adds the number of a packet, if it is live and its cancellation was missed.
fn add_missed(missed: &mut Vec<u64>, machine: &Checked, number: u64) -> Result<(), AllocError>
    ensures { OnOk result (missed.new.items ≡ missed.old.items
        ++ missed_at machine.now.world number (packet_of machine.now.world.shared number)) }
{
    if let Some(packet) = machine.shared().live_packet(number) {
        if is_to_cancel(packet) && !is_being_cancelled(machine, number) {
            missed.push(number)?;
        }
    }
    Ok(())
}

/// The numbers of the live packets whose Irp->Cancel and cancel routine are set while no thread is
/// in IoCancelIrp for them, the lowest first: who sets a cancel routine looks at Irp->Cancel
/// afterwards, else nobody calls it.
///
/// # Errors
///
/// When memory runs out.
pub fn missed_packets(alloc: Global, machine: &Checked) -> Result<Vec<u64>, AllocError>
    ensures { IfOk result (λ missed. missed.items ≡ missed_packets machine.now.world) }
{
    let mut missed = Vec::new(alloc);
    for packet in 0..machine.shared().issued() {
        add_missed(&mut missed, machine, packet)?;
    }
    Ok(missed)
}
