//! Packets that no place names.

ghost use Rattle.std.specs.Prelude.{◌≡◌, ◌++◌, IfOk, OnOk};
ghost use Rattle.std.specs.List.{list_any};
ghost use Rattle.tell_audit.specs.Naming.{frame_names, has_word, is_named, lost_at, lost_packets};
ghost use Rattle.tell_audit.specs.Naming.{queues_name, slot_names, start_names, thread_names};
ghost use Rattle.tell_audit.specs.Naming.{value_names};
ghost use Rattle.model.specs.World.{packet_of};

use checked::{Checked, Thread};
use checked_parts::Frame;
use devqueue::{DeviceQueue, Guarded};
use model::limits::{MAX_QUEUES, REGISTERS};
use model::world::Value;
use std::alloc::{AllocError, Global};

/// Whether a register's value names a packet.
pub(crate) fn value_names(n: u64, value: Value) -> bool
    ensures { result ≡ value_names n value }
{
    match value {
        Value::Ref(m) => m == n,
        _ => false,
    }
}

/// Whether a register of a routine names a packet.
fn registers_name(n: u64, registers: &[Value; REGISTERS]) -> bool
    ensures { result ≡ list_any (value_names n) registers.now }
{
    registers.iter().any(|value| value_names(n, *value))
}

/// Whether a frame names a packet: in a register, or since the I/O manager completes it there.
fn frame_names(n: u64, frame: &Frame) -> bool
    ensures { result ≡ frame_names n frame.now }
{
    match frame.activation() {
        Some(a) => registers_name(n, &a.registers),
        None => frame.completed_packet() == Some(n),
    }
}

/// Whether a frame of a thread names a packet.
fn thread_names(n: u64, thread: &Thread) -> bool
    ensures { result ≡ thread_names n thread.now }
{
    thread.frames().iter().any(|frame| frame_names(n, frame))
}

/// Whether a packet stands in a queue of a device.
fn queues_name(n: u64, queues: &[Guarded; MAX_QUEUES]) -> bool
    ensures { result ≡ queues_name n queues.now }
{
    queues.iter().any(|queue| queue.has(n))
}

/// Whether a packet stands in what a device has for StartIo.
fn start_names(n: u64, start: &DeviceQueue) -> bool
    ensures { result ≡ start_names n start.now }
{
    start.start_list().has(n) || start.waiting().has(n) || start.current() == Some(n)
}

/// Whether a packet is live and its cancel word isn't empty.
fn has_word(machine: &Checked, n: u64) -> bool
    ensures { result ≡ has_word (packet_of machine.now.world.shared n) }
{
    match machine.shared().live_packet(n) {
        Some(packet) => packet.armer().is_some(),
        None => false,
    }
}

/// Whether a frame of one of the threads names a packet.
fn any_thread(n: u64, threads: &[Thread]) -> bool
    ensures { result ≡ list_any (thread_names n) threads.now }
{
    threads.iter().any(|thread| thread_names(n, thread))
}

/// Whether a packet stands in a queue of one of the devices.
fn any_queue(n: u64, queues: &[[Guarded; MAX_QUEUES]]) -> bool
    ensures { result ≡ list_any (queues_name n) queues.now }
{
    queues.iter().any(|queues| queues_name(n, queues))
}

/// Whether a packet stands in what one of the devices has for StartIo.
fn any_start(n: u64, starts: &[DeviceQueue]) -> bool
    ensures { result ≡ list_any (start_names n) starts.now }
{
    starts.iter().any(|start| start_names(n, start))
}

/// Whether some place of the machine's world names a packet: a register, a frame of the I/O manager
/// that completes it, a queue, what a device has for StartIo, or its cancel word.
pub fn is_named(machine: &Checked, n: u64) -> bool
    ensures { result ≡ is_named machine.now.world n }
{
    any_thread(n, machine.threads())
        || any_queue(n, machine.shared().queues())
        || any_start(n, machine.shared().starts())
        || has_word(machine, n)
}

/// Adds the number of a packet, if it is live and no place names it.
fn add_lost(lost: &mut Vec<u64>, machine: &Checked, packet: u64) -> Result<(), AllocError>
    ensures { OnOk result (lost.new.items ≡ lost.old.items
        ++ lost_at machine.now.world packet (packet_of machine.now.world.shared packet)) }
{
    if machine.shared().live_packet(packet).is_some() && !is_named(machine, packet) {
        lost.push(packet)?;
    }
    Ok(())
}

/// The numbers of the live packets that no place names, the lowest first.
///
/// # Errors
///
/// When memory runs out.
pub fn lost_packets(alloc: Global, machine: &Checked) -> Result<Vec<u64>, AllocError>
    ensures { IfOk result (λ lost. lost.items ≡ lost_packets machine.now.world) }
{
    let mut lost = Vec::new(alloc);
    for packet in 0..machine.shared().issued() {
        add_lost(&mut lost, machine, packet)?;
    }
    Ok(lost)
}
