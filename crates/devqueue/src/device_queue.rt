//! What a device has for StartIo: the packets to be started, those that wait, and its current slot.

ghost use Rattle.std.specs.Prelude.{◌≡◌, IfOk, IsTrue, None, Some};
ghost use Rattle.model.specs.Queues.{head_of, is_linked};

use crate::guarded::Guarded;
use std::alloc::{AllocError, Global};
use std::marker::Model;

/// What a device has for its StartIo routine: the start list, with the packets for which StartIo
/// has to begin; the device queue, with those that wait while the device is busy; whether it is
/// busy; and its current slot. Each list has room for `MAX_ENTRIES` packets from the start.
#[derive(Drop)]
pub struct DeviceQueue {
    start_list: Guarded,
    device_queue: Guarded,
    busy: bool,
    slot: Option<u64>,
}

impl Model for DeviceQueue {
    ghost use Rattle.model.specs.Queues.{StartState};

    ghost Value = { StartState };

    ghost view = { λ q. record {
      start_list = q.start_list;
      device_queue = q.device_queue;
      busy = q.busy;
      slot = q.slot;
    } };
}

impl DeviceQueue {
    ghost use Rattle.model.specs.Queues.{idle, started, has_room_to_start};
    ghost use Rattle.model.specs.Queues.{next_started, has_room_for_next};
    ghost use Rattle.model.specs.Queues.{dequeued, without_first_to_start, with_slot};

    /// An idle device: both lists and the current slot are empty. An error where memory for all
    /// entries is refused; no other call needs any.
    pub fn new(alloc: Global) -> Result<DeviceQueue, AllocError>
        ensures { IfOk result (λ queue. queue ≡ idle) }
    {
        Ok(DeviceQueue {
            start_list: Guarded::new(alloc)?,
            device_queue: Guarded::new(alloc)?,
            busy: false,
            slot: None,
        })
    }

    /// Whether the device is busy: a packet that is started now waits in the device queue.
    pub fn is_busy(&self) -> bool
        ensures { result ≡ self.now.busy }
    {
        self.busy
    }

    /// Whether there is room in the list that `start` puts a packet into.
    pub fn has_room_to_start(&self) -> bool
        ensures { result ≡ has_room_to_start self.now }
    {
        if self.busy {
            !self.device_queue.is_full()
        } else {
            !self.start_list.is_full()
        }
    }

    /// IoStartPacket: an idle device becomes busy, and the packet goes to the back of its start
    /// list; on a busy one it goes to the back of the device queue.
    pub fn start(&mut self, n: u64)
        requires room { IsTrue (has_room_to_start self.old) }
        ensures started { self.new ≡ started self.old n }
    {
        if self.busy {
            self.device_queue.insert(n);
        } else {
            self.busy = true;
            self.start_list.insert(n);
        }
    }

    /// Whether there is room in the start list for the packet that `next` puts there, if it does.
    pub fn has_room_for_next(&self) -> bool
        ensures { result ≡ has_room_for_next self.now }
    {
        self.device_queue.head().is_none() || !self.start_list.is_full()
    }

    /// IoStartNextPacket: the first packet of the device queue goes to the back of the start list,
    /// and with an empty device queue the device becomes idle.
    pub fn next(&mut self)
        requires room { IsTrue (has_room_for_next self.old) }
        ensures next { self.new ≡ next_started self.old }
    {
        match self.device_queue.remove_head() {
            Some(n) => self.start_list.insert(n),
            None => self.busy = false,
        }
    }

    /// The packets for which StartIo has to begin, in that order.
    pub fn start_list(&self) -> &Guarded
        ensures { result.now ≡ self.now.start_list }
    {
        &self.start_list
    }

    /// The packets that wait while the device is busy, in that order.
    pub fn waiting(&self) -> &Guarded
        ensures { result.now ≡ self.now.device_queue }
    {
        &self.device_queue
    }

    /// The first packet of the device queue, which stays: none where that queue is empty.
    pub fn first_waiting(&self) -> Option<u64>
        ensures { result ≡ head_of self.now.device_queue }
    {
        self.device_queue.head()
    }

    /// Takes the first entry of a packet off the device queue; the others keep their order. It
    /// answers false, and nothing has changed, exactly where the packet has no entry there.
    pub fn dequeue(&mut self, n: u64) -> bool
        ensures found { result ≡ is_linked self.old.device_queue n }
        ensures rest { self.new ≡ dequeued self.old n }
    {
        self.device_queue.unlink(n)
    }

    /// The first packet of the start list, which stays: none where that list is empty.
    pub fn first_to_start(&self) -> Option<u64>
        ensures { result ≡ head_of self.now.start_list }
    {
        self.start_list.head()
    }

    /// A StartIo routine begins: takes the first packet of the start list. None where that list is
    /// empty, and then nothing has changed.
    pub fn start_io(&mut self) -> Option<u64>
        ensures packet { result ≡ head_of self.old.start_list }
        ensures rest { self.new ≡ without_first_to_start self.old }
    {
        self.start_list.remove_head()
    }

    /// The packet in the current slot: none where the slot is empty.
    pub fn current(&self) -> Option<u64>
        ensures { result ≡ self.now.slot }
    {
        self.slot
    }

    /// Puts a packet into the current slot, whatever the slot had.
    pub fn begin(&mut self, n: u64)
        ensures { self.new ≡ with_slot self.old (Some n) }
    {
        self.slot = Some(n);
    }

    /// Takes what the current slot has: none where the slot is empty. It is empty then.
    pub fn take(&mut self) -> Option<u64>
        ensures packet { result ≡ self.old.slot }
        ensures empty { self.new ≡ with_slot self.old None }
    {
        self.slot.take()
    }
}
