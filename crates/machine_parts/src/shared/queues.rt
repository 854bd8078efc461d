//! The queues of devices: their entries are keys.

ghost use Rattle.std.specs.Prelude.{◌≡◌, ◌<◌, IsSome, length};
ghost use Rattle.model.specs.declared.limits.TheConstants.{MAX_QUEUES};

use super::Shared;

impl Shared {
    ghost use Rattle.model.specs.Queues.{head_of, inserted, is_linked, unlinked, without_head};
    ghost use Rattle.laws_slots.specs.Fits.{CanBeListed};
    ghost use Rattle.laws_slots.specs.Slots.{packet_at, with_slot_queue};
    ghost use Rattle.machine_parts.specs.Devices.{entries_in};

    /// The key of a packet that is in no list goes to the back of a queue.
    pub fn insert(&mut self, device: u8, queue: u8, key: u64)
        requires device { device < length self.old.queues }
        requires queue { queue < MAX_QUEUES }
        requires used { IsSome (packet_at self.old key) }
        requires unlisted { CanBeListed self.old key }
        ensures { let entries = entries_in self.old device queue in
            self.new ≡ with_slot_queue self.old device queue (inserted entries key) }
    {
        let _used = self.packet_table.used(key as usize);
        self.lists.insert(device, queue, key);
    }

    /// The first key of a queue, which is taken off: none where it is empty, and then nothing has
    /// changed.
    pub fn remove(&mut self, device: u8, queue: u8) -> Option<u64>
        requires device { device < length self.old.queues }
        requires queue { queue < MAX_QUEUES }
        ensures head { result ≡ head_of (entries_in self.old device queue) }
        ensures rest { let entries = entries_in self.old device queue in
            self.new ≡ with_slot_queue self.old device queue (without_head entries) }
    {
        self.lists.remove(device, queue)
    }

    /// A key is taken off a queue, wherever it stands there. It answers whether it stood there.
    pub fn unlink(&mut self, device: u8, queue: u8, key: u64) -> bool
        requires device { device < length self.old.queues }
        requires queue { queue < MAX_QUEUES }
        ensures found { result ≡ is_linked (entries_in self.old device queue) key }
        ensures rest { let entries = entries_in self.old device queue in
            self.new ≡ with_slot_queue self.old device queue (unlinked entries key) }
    {
        self.lists.unlink(device, queue, key)
    }
}
