//! The lists of keys of devices: their queues, and what they have for StartIo.

ghost use Rattle.std.specs.Prelude.{◌≡◌, ◌≢◌, ◌≤◌, ◌<◌, false, IfOk, IsTrue, None, Some, is_some};
ghost use Rattle.std.specs.Prelude.{length, slice_get};
ghost use Rattle.devqueue.specs.Lists.{entries_of, with_entries};
ghost use Rattle.model.specs.declared.limits.TheConstants.{MAX_DEVICES, MAX_LIVE_PACKETS};
ghost use Rattle.model.specs.declared.limits.TheConstants.{MAX_QUEUES};
ghost use Rattle.model.specs.Queues.{dequeued, head_of, inserted, is_linked, next_started, started};
ghost use Rattle.model.specs.Queues.{unlinked, with_slot, without_first_to_start, without_head};
ghost use Rattle.laws_slots.specs.Fits.{in_queues, to_start};
ghost use Rattle.machine_parts.specs.Lists.{list_at, lists_of, no_entries, queue_entries};
ghost use Rattle.machine_parts.specs.Lists.{start_entries, with_queue_entries, with_start_entries};

use devqueue::Links;
use model::limits::{MAX_LIVE_PACKETS, MAX_QUEUES};
use std::alloc::{AllocError, Global};
use std::marker::Model;

/// The lists of a device: its queues, its start list and its device queue.
const LISTS: usize = MAX_QUEUES + 2;

/// Whether a device is busy, and its current slot.
#[derive(Clone, Copy)]
struct Serving {
    busy: bool,
    slot: Option<u64>,
}

/// The lists of all devices, linked through the slots of the keys: a key is in one list at most, so
/// that no call searches. No call but `new` needs memory.
#[derive(Drop)]
pub struct DeviceLists {
    links: Links,
    serving: Vec<Serving>,
}

impl Model for DeviceLists {
    ghost use Rattle.std.specs.Prelude.{◌≡◌, length};
    ghost use Rattle.model.specs.declared.limits.TheConstants.{MAX_LIVE_PACKETS};
    ghost use Rattle.machine_parts.specs.Lists.{DeviceLists as Lists, lists_of, queues_shown};
    ghost use Rattle.machine_parts.specs.Lists.{starts_shown};

    ghost Value = { Lists };

    ghost view = { λ d. record {
      queues = queues_shown d.serving.items d.links.lists;
      starts = starts_shown d.serving.items d.links.lists;
    } };

    ghost invariant = { λ d. (d.links.slots ≡ MAX_LIVE_PACKETS)
        × (length d.links.lists ≡ lists_of (length d.serving.items)) };
}

/// The number of a queue's list.
fn queue_of(device: u8, queue: u8) -> usize
    ensures { result ≡ list_at device queue }
{
    device as usize * LISTS + queue as usize
}

/// The number of a device's start list.
fn start_list_of(device: u8) -> usize
    ensures { result ≡ list_at device 4 }
{
    device as usize * LISTS + MAX_QUEUES
}

/// The number of a device's device queue.
fn device_queue_of(device: u8) -> usize
    ensures { result ≡ list_at device 5 }
{
    device as usize * LISTS + MAX_QUEUES + 1
}

impl DeviceLists {
    /// The lists of so many devices, all empty. An error where memory is refused.
    pub fn new(alloc: Global, devices: usize) -> Result<DeviceLists, AllocError>
        requires { devices ≤ MAX_DEVICES }
        ensures { IfOk result (λ lists. lists ≡ no_entries devices) }
    {
        let resting = Serving {
            busy: false,
            slot: None,
        };
        Ok(DeviceLists {
            links: Links::new(alloc, MAX_LIVE_PACKETS, devices * LISTS)?,
            serving: vec![in alloc; resting; devices]?,
        })
    }

    /// A key that is in no list goes to the back of a queue.
    pub fn insert(&mut self, device: u8, queue: u8, key: u64)
        requires device { device < length self.old.queues }
        requires queue { queue < MAX_QUEUES }
        requires key { key < MAX_LIVE_PACKETS }
        requires unqueued { in_queues self.old.queues key ≡ false }
        requires unstarted { to_start self.old.starts key ≡ false }
        ensures { let entries = queue_entries self.old device queue in
            self.new ≡ with_queue_entries self.old device queue (inserted entries key) }
    {
        self.links.push_back(queue_of(device, queue), key as usize);
    }

    /// The first key of a queue, which is taken off: none where it is empty, and then nothing has
    /// changed.
    pub fn remove(&mut self, device: u8, queue: u8) -> Option<u64>
        requires device { device < length self.old.queues }
        requires queue { queue < MAX_QUEUES }
        ensures head { result ≡ head_of (queue_entries self.old device queue) }
        ensures rest { let entries = queue_entries self.old device queue in
            self.new ≡ with_queue_entries self.old device queue (without_head entries) }
    {
        let key = self.links.pop_front(queue_of(device, queue))?;
        Some(key as u64)
    }

    /// A key is taken off a queue, wherever it stands there. It answers whether it stood there.
    pub fn unlink(&mut self, device: u8, queue: u8, key: u64) -> bool
        requires device { device < length self.old.queues }
        requires queue { queue < MAX_QUEUES }
        ensures found { result ≡ is_linked (queue_entries self.old device queue) key }
        ensures rest { let entries = queue_entries self.old device queue in
            self.new ≡ with_queue_entries self.old device queue (unlinked entries key) }
    {
        self.links.unlink(queue_of(device, queue), key as usize)
    }

    /// Whether there is such a device.
    pub fn has_device(&self, device: u8) -> bool
        ensures { result ≡ is_some (slice_get self.now.starts device) }
    {
        (device as usize) < self.serving.len()
    }

    /// The first key of a start list, which stays: none where it is empty.
    pub fn first_to_start(&self, device: u8) -> Option<u64>
        requires { device < length self.now.starts }
        ensures { result ≡ head_of (start_entries self.now device).start_list }
    {
        let key = self.links.front(start_list_of(device))?;
        Some(key as u64)
    }

    /// The first key of a device queue, which stays: none where it is empty.
    pub fn first_waiting(&self, device: u8) -> Option<u64>
        requires { device < length self.now.starts }
        ensures { result ≡ head_of (start_entries self.now device).device_queue }
    {
        let key = self.links.front(device_queue_of(device))?;
        Some(key as u64)
    }

    /// Whether a device is busy: a key that is started now goes to the device queue.
    pub fn is_busy(&self, device: u8) -> bool
        requires { device < length self.now.starts }
        ensures { result ≡ (start_entries self.now device).busy }
    {
        self.serving[device as usize].busy
    }

    /// IoStartPacket: a key that is in no list goes to the back of the start list, and the device
    /// becomes busy; on a busy one it goes to the back of the device queue.
    pub fn start(&mut self, device: u8, key: u64)
        requires device { device < length self.old.starts }
        requires key { key < MAX_LIVE_PACKETS }
        requires unqueued { in_queues self.old.queues key ≡ false }
        requires unstarted { to_start self.old.starts key ≡ false }
        ensures { let start = started (start_entries self.old device) key in
            self.new ≡ with_start_entries self.old device start }
    {
        if self.serving[device as usize].busy {
            self.links.push_back(device_queue_of(device), key as usize);
        } else {
            self.links.push_back(start_list_of(device), key as usize);
            self.serving[device as usize].busy = true;
        }
    }

    /// IoStartNextPacket: the first key of the device queue goes to the back of the start list, and
    /// with an empty device queue the device becomes idle.
    pub fn start_next(&mut self, device: u8)
        requires { device < length self.old.starts }
        ensures { let start = next_started (start_entries self.old device) in
            self.new ≡ with_start_entries self.old device start }
    {
        match self.links.pop_front(device_queue_of(device)) {
            Some(key) => self.links.push_back(start_list_of(device), key),
            None => self.serving[device as usize].busy = false,
        }
    }

    /// A key is taken off a device queue, wherever it stands there. It answers whether it stood
    /// there.
    pub fn dequeue(&mut self, device: u8, key: u64) -> bool
        requires { device < length self.old.starts }
        ensures found { result ≡ is_linked (start_entries self.old device).device_queue key }
        ensures rest { let start = dequeued (start_entries self.old device) key in
            self.new ≡ with_start_entries self.old device start }
    {
        self.links.unlink(device_queue_of(device), key as usize)
    }

    /// The first key of a start list, which is taken off: none where it is empty, and then nothing
    /// has changed.
    pub fn start_io(&mut self, device: u8) -> Option<u64>
        requires { device < length self.old.starts }
        ensures first { result ≡ head_of (start_entries self.old device).start_list }
        ensures rest { let start = without_first_to_start (start_entries self.old device) in
            self.new ≡ with_start_entries self.old device start }
    {
        let key = self.links.pop_front(start_list_of(device))?;
        Some(key as u64)
    }

    /// Puts a key into a current slot, whatever the slot had.
    pub fn begin(&mut self, device: u8, key: u64)
        requires { device < length self.old.starts }
        ensures { let start = with_slot (start_entries self.old device) (Some key) in
            self.new ≡ with_start_entries self.old device start }
    {
        self.serving[device as usize].slot = Some(key);
    }

    /// Takes what a current slot has: it is empty then.
    pub fn take(&mut self, device: u8) -> Option<u64>
        requires { device < length self.old.starts }
        ensures current { result ≡ (start_entries self.old device).slot }
        ensures empty { let start = with_slot (start_entries self.old device) None in
            self.new ≡ with_start_entries self.old device start }
    {
        self.serving[device as usize].slot.take()
    }
}
