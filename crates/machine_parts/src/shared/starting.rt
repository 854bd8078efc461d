//! What devices have for StartIo: entries and current packets are keys.

ghost use Rattle.std.specs.Prelude.{◌≡◌, ◌<◌, IsSome, IsTrue, None, Some, is_some, length};

use super::Shared;

impl Shared {
    ghost use Rattle.model.specs.Queues.{dequeued, head_of, is_linked, next_started, started};
    ghost use Rattle.model.specs.Queues.{with_slot, without_first_to_start};
    ghost use Rattle.laws_slots.specs.Fits.{CanBeListed};
    ghost use Rattle.laws_slots.specs.Slots.{packet_at, slot_start, with_slot_start};
    ghost use Rattle.machine_parts.specs.Devices.{start_in};

    /// Whether there is such a device: then it has something for StartIo.
    pub fn has_device(&self, device: u8) -> bool
        ensures there { result ≡ is_some (slot_start self.now device) }
        ensures within { IsTrue result → device < length self.now.starts }
        ensures known { IsTrue result
            → slot_start self.now device ≡ Some (start_in self.now device) }
    {
        self.lists.has_device(device)
    }

    /// The first key of the start list of a device, which stays: none where that list is empty.
    pub fn first_to_start(&self, device: u8) -> Option<u64>
        requires { device < length self.now.starts }
        ensures { result ≡ head_of (start_in self.now device).start_list }
    {
        self.lists.first_to_start(device)
    }

    /// The first key of the device queue of a device, which stays: none where that queue is empty.
    pub fn first_waiting(&self, device: u8) -> Option<u64>
        requires { device < length self.now.starts }
        ensures { result ≡ head_of (start_in self.now device).device_queue }
    {
        self.lists.first_waiting(device)
    }

    /// Whether a device is busy: a packet that is started now waits in the device queue.
    pub fn is_busy(&self, device: u8) -> bool
        requires { device < length self.now.starts }
        ensures { result ≡ (start_in self.now device).busy }
    {
        self.lists.is_busy(device)
    }

    /// IoStartPacket: the key of a packet that is in no list.
    pub fn start(&mut self, device: u8, key: u64)
        requires device { device < length self.old.starts }
        requires used { IsSome (packet_at self.old key) }
        requires unlisted { CanBeListed self.old key }
        ensures { self.new
            ≡ with_slot_start self.old device (started (start_in self.old device) key) }
    {
        let _used = self.packet_table.used(key as usize);
        self.lists.start(device, key);
    }

    /// What the current slot of a device had: it is empty then.
    pub fn take(&mut self, device: u8) -> Option<u64>
        requires { device < length self.old.starts }
        ensures current { result ≡ (start_in self.old device).slot }
        ensures empty { self.new
            ≡ with_slot_start self.old device (with_slot (start_in self.old device) None) }
    {
        self.lists.take(device)
    }

    /// A key is put into the current slot of a device.
    pub fn begin(&mut self, device: u8, key: u64)
        requires { device < length self.old.starts }
        ensures { self.new
            ≡ with_slot_start self.old device (with_slot (start_in self.old device) (Some key)) }
    {
        self.lists.begin(device, key);
    }

    /// IoStartNextPacket.
    pub fn start_next(&mut self, device: u8)
        requires { device < length self.old.starts }
        ensures { let next = next_started (start_in self.old device) in
            self.new ≡ with_slot_start self.old device next }
    {
        self.lists.start_next(device);
    }

    /// A key is taken off the device queue of a device, wherever it stands there. It answers
    /// whether it stood there.
    pub fn dequeue(&mut self, device: u8, key: u64) -> bool
        requires { device < length self.old.starts }
        ensures found { result ≡ is_linked (start_in self.old device).device_queue key }
        ensures rest { let start = dequeued (start_in self.old device) key in
            self.new ≡ with_slot_start self.old device start }
    {
        self.lists.dequeue(device, key)
    }

    /// The StartIo routine of a device begins: the first key of its start list is taken off. None
    /// where that list is empty, and then nothing has changed.
    pub fn start_io(&mut self, device: u8) -> Option<u64>
        requires { device < length self.old.starts }
        ensures first { result ≡ head_of (start_in self.old device).start_list }
        ensures rest { let start = start_in self.old device in
            self.new ≡ with_slot_start self.old device (without_first_to_start start) }
    {
        self.lists.start_io(device)
    }
}
