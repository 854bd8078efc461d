//! What of a world isn't at rest.

ghost use Rattle.std.specs.Prelude.{◌≡◌, ◌++◌, IfOk, OnOk};
ghost use Rattle.tell_audit.specs.Rest.{IsStanding, busy_device, busy_devices, busy_thread};
ghost use Rattle.tell_audit.specs.Rest.{busy_threads, is_rest, live_packet, live_packets};
ghost use Rattle.model.specs.World.{packet_of, start_of};

use checked::Checked;
use model::limits::MAX_THREADS;
use std::alloc::{AllocError, Global};

/// What of a world isn't at rest.
#[derive(Drop)]
pub struct Standing {
    /// The threads that aren't idle.
    pub threads: Vec<u64>,
    /// The packets that are live.
    pub packets: Vec<u64>,
    /// The devices that are busy for StartIo.
    pub devices: Vec<u64>,
}

impl Standing {
    /// What isn't at rest in the world of a machine.
    ///
    /// # Errors
    ///
    /// When memory runs out.
    pub fn of(alloc: Global, machine: &Checked) -> Result<Standing, AllocError>
        ensures { IfOk result (IsStanding machine.now.world) }
    {
        Ok(Standing {
            threads: busy_threads(alloc, machine)?,
            packets: live_packets(alloc, machine)?,
            devices: busy_devices(alloc, machine)?,
        })
    }

    /// Whether it is at rest: all threads are idle, and no packet is live.
    pub fn is_rest(&self) -> bool
        ensures { result ≡ is_rest self.now }
    {
        self.threads.is_empty() && self.packets.is_empty()
    }
}

/// Adds a thread, if it isn't idle.
fn add_thread(threads: &mut Vec<u64>, machine: &Checked, thread: u8) -> Result<(), AllocError>
    ensures { OnOk result
        (threads.new.items ≡ threads.old.items ++ busy_thread machine.now.world thread) }
{
    if let Some(view) = machine.thread(thread) {
        if view.frames > 0 {
            threads.push(u64::from(thread))?;
        }
    }
    Ok(())
}

/// The threads that aren't idle.
fn busy_threads(alloc: Global, machine: &Checked) -> Result<Vec<u64>, AllocError>
    ensures { IfOk result (λ threads. threads.items ≡ busy_threads machine.now.world) }
{
    let mut threads = Vec::new(alloc);
    for thread in 0..MAX_THREADS as u8 {
        add_thread(&mut threads, machine, thread)?;
    }
    Ok(threads)
}

/// Adds a packet, if it is live.
fn add_packet(packets: &mut Vec<u64>, machine: &Checked, packet: u64) -> Result<(), AllocError>
    ensures { OnOk result (packets.new.items ≡ packets.old.items
        ++ live_packet packet (packet_of machine.now.world.shared packet)) }
{
    if machine.shared().live_packet(packet).is_some() {
        packets.push(packet)?;
    }
    Ok(())
}

/// The packets that are live.
fn live_packets(alloc: Global, machine: &Checked) -> Result<Vec<u64>, AllocError>
    ensures { IfOk result (λ packets. packets.items ≡ live_packets machine.now.world) }
{
    let mut packets = Vec::new(alloc);
    for packet in 0..machine.shared().issued() {
        add_packet(&mut packets, machine, packet)?;
    }
    Ok(packets)
}

/// Adds a device, if it is busy.
fn add_device(devices: &mut Vec<u64>, machine: &Checked, device: usize) -> Result<(), AllocError>
    ensures { OnOk result (devices.new.items ≡ devices.old.items
        ++ busy_device device (start_of machine.now.world.shared device)) }
{
    if let Some(start) = machine.shared().starts().get(device) {
        if start.is_busy() {
            devices.push(device as u64)?;
        }
    }
    Ok(())
}

/// The devices that are busy for StartIo.
fn busy_devices(alloc: Global, machine: &Checked) -> Result<Vec<u64>, AllocError>
    ensures { IfOk result (λ devices. devices.items ≡ busy_devices machine.now.world) }
{
    let mut devices = Vec::new(alloc);
    for device in 0..machine.shared().starts().len() {
        add_device(&mut devices, machine, device)?;
    }
    Ok(devices)
}
