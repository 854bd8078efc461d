//! All the places that name a packet.

ghost use Rattle.std.specs.Prelude.{◌≡◌, ◌++◌, IfOk, ◌<◌, OnOk, Some, length, slice_get};
ghost use Rattle.model.specs.Run.{frames_on};
ghost use Rattle.model.specs.World.{packet_of, queue_of, start_of};
ghost use Rattle.tell_audit.specs.Sites.{devices_below, frame_sites, frames_below, queue_sites};
ghost use Rattle.tell_audit.specs.Sites.{queues_below, registers_below, site_if, sites_of};
ghost use Rattle.tell_audit.specs.Sites.{start_sites, threads_below, word_sites};

use crate::naming::value_names;
use checked::Checked;
use checked_parts::Frame;
use devqueue::DeviceQueue;
use model::limits::{MAX_QUEUES, REGISTERS};
use model::world::{Activation, Armer};
use std::alloc::{AllocError, Global};
use tell_uses::standing::frames_on;

/// A place that names a packet.
#[derive(Clone, Copy)]
pub enum Site {
    /// A register of a routine's frame, by its thread and its place there, the lowest first.
    Register {
        thread: usize,
        frame: usize,
        register: u8,
    },
    /// The I/O manager's frame that completes the packet.
    Completing {
        thread: usize,
        frame: usize,
    },
    /// A queue of a device.
    Queue {
        device: u8,
        queue: u8,
    },
    /// The start list of a device.
    StartList {
        device: u8,
    },
    /// The device queue of a device.
    DeviceQueue {
        device: u8,
    },
    /// The current slot of a device.
    Slot {
        device: u8,
    },
    /// The packet's own cancel word: whose cancel routine is set.
    CancelWord(Armer),
}

/// Adds a place, where it is one.
fn add_if(sites: &mut Vec<Site>, names: bool, site: Site) -> Result<(), AllocError>
    ensures { OnOk result (sites.new.items ≡ sites.old.items ++ site_if names site) }
{
    if names {
        sites.push(site)?;
    }
    Ok(())
}

/// Adds the registers of a routine that name a packet.
fn add_registers(
    sites: &mut Vec<Site>,
    n: u64,
    thread: usize,
    frame: usize,
    a: &Activation,
) -> Result<(), AllocError>
    ensures { OnOk result (sites.new.items
        ≡ sites.old.items ++ registers_below n thread frame a.now REGISTERS) }
{
    for register in 0..REGISTERS as u8 {
        let names = value_names(n, a.registers[register as usize]);
        let site = Site::Register {
            thread,
            frame,
            register,
        };
        add_if(sites, names, site)?;
    }
    Ok(())
}

/// Adds the places in a frame that name a packet.
fn add_frame(
    sites: &mut Vec<Site>,
    n: u64,
    thread: usize,
    frame: usize,
    its: &Frame,
) -> Result<(), AllocError>
    ensures { OnOk result (sites.new.items
        ≡ sites.old.items ++ frame_sites n thread frame (Some its.now)) }
{
    match its.activation() {
        Some(a) => add_registers(sites, n, thread, frame, a),
        None => {
            let names = its.completed_packet() == Some(n);
            add_if(sites, names, Site::Completing { thread, frame })
        }
    }
}

/// Adds the places in the frame at a place of a thread, if there is one.
fn add_place(
    sites: &mut Vec<Site>,
    n: u64,
    thread: usize,
    place: usize,
    frames: &[Frame],
) -> Result<(), AllocError>
    requires { place < length frames.now }
    ensures { OnOk result (sites.new.items
        ≡ sites.old.items ++ frame_sites n thread place (slice_get frames.now place)) }
{
    add_frame(sites, n, thread, place, &frames[place])
}

/// Adds the places in the frames of a thread that name a packet.
fn add_frames(
    sites: &mut Vec<Site>,
    machine: &Checked,
    n: u64,
    thread: usize,
) -> Result<(), AllocError>
    ensures { OnOk result (sites.new.items ≡ sites.old.items ++ frames_below machine.now.world n
        thread (length (frames_on machine.now.world thread))) }
{
    let frames = frames_on(machine, thread);
    for place in 0..frames.len() {
        add_place(sites, n, thread, place, frames)?;
    }
    Ok(())
}

/// Adds the queue of a device, if a packet stands in it.
fn add_queue(
    sites: &mut Vec<Site>,
    machine: &Checked,
    n: u64,
    device: u8,
    queue: u8,
) -> Result<(), AllocError>
    ensures { OnOk result (sites.new.items ≡ sites.old.items
        ++ queue_sites n device queue (queue_of machine.now.world.shared device queue)) }
{
    match machine.shared().queue(device, queue) {
        Some(entries) => add_if(sites, entries.has(n), Site::Queue { device, queue }),
        None => Ok(()),
    }
}

/// Adds the queues of a device in which a packet stands.
fn add_queues(
    sites: &mut Vec<Site>,
    machine: &Checked,
    n: u64,
    device: u8,
) -> Result<(), AllocError>
    ensures { OnOk result (sites.new.items
        ≡ sites.old.items ++ queues_below machine.now.world n device MAX_QUEUES) }
{
    for queue in 0..MAX_QUEUES as u8 {
        add_queue(sites, machine, n, device, queue)?;
    }
    Ok(())
}

/// Adds the places in what a device has for StartIo that name a packet.
fn add_start(
    sites: &mut Vec<Site>,
    n: u64,
    device: u8,
    start: &DeviceQueue,
) -> Result<(), AllocError>
    ensures { OnOk result (sites.new.items
        ≡ sites.old.items ++ start_sites n device (Some start.now)) }
{
    add_if(sites, start.start_list().has(n), Site::StartList { device })?;
    add_if(sites, start.waiting().has(n), Site::DeviceQueue { device })?;
    add_if(sites, start.current() == Some(n), Site::Slot { device })
}

/// Adds the places in what a device has for StartIo, if there is such a device.
fn add_start_of(
    sites: &mut Vec<Site>,
    machine: &Checked,
    n: u64,
    device: u8,
) -> Result<(), AllocError>
    ensures { OnOk result (sites.new.items ≡ sites.old.items
        ++ start_sites n device (start_of machine.now.world.shared device)) }
{
    match machine.shared().start_of(device) {
        Some(start) => add_start(sites, n, device, start),
        None => Ok(()),
    }
}

/// Adds the places of a device that name a packet.
fn add_device(
    sites: &mut Vec<Site>,
    machine: &Checked,
    n: u64,
    device: u8,
) -> Result<(), AllocError>
    ensures { OnOk result (sites.new.items ≡ sites.old.items
        ++ (queues_below machine.now.world n device MAX_QUEUES
        ++ start_sites n device (start_of machine.now.world.shared device))) }
{
    add_queues(sites, machine, n, device)?;
    add_start_of(sites, machine, n, device)
}

/// Adds the places of devices that name a packet.
fn add_devices(
    sites: &mut Vec<Site>,
    machine: &Checked,
    n: u64,
    devices: u8,
) -> Result<(), AllocError>
    ensures { OnOk result (sites.new.items
        ≡ sites.old.items ++ devices_below machine.now.world n devices) }
{
    for device in 0..devices {
        add_device(sites, machine, n, device)?;
    }
    Ok(())
}

/// Adds the cancel word of a packet, where it is live and that isn't empty.
fn add_word(sites: &mut Vec<Site>, machine: &Checked, n: u64) -> Result<(), AllocError>
    ensures { OnOk result (sites.new.items
        ≡ sites.old.items ++ word_sites (packet_of machine.now.world.shared n)) }
{
    if let Some(packet) = machine.shared().live_packet(n) {
        if let Some(armer) = packet.armer() {
            sites.push(Site::CancelWord(armer))?;
        }
    }
    Ok(())
}

/// The places that name a packet: those in threads first, then those in devices, by their numbers,
/// and its cancel word last.
///
/// # Errors
///
/// When memory runs out.
pub fn sites_of(alloc: Global, machine: &Checked, n: u64) -> Result<Vec<Site>, AllocError>
    ensures { IfOk result (λ sites. sites.items
        ≡ sites_of machine.now.world (length machine.now.set.devices) n) }
{
    let mut sites = Vec::new(alloc);
    for thread in 0..machine.threads().len() {
        add_frames(&mut sites, machine, n, thread)?;
    }
    add_devices(&mut sites, machine, n, machine.set().devices().len() as u8)?;
    add_word(&mut sites, machine, n)?;
    Ok(sites)
}
