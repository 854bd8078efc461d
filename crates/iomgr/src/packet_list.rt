//! A list of packets that don't move.

ghost use Rattle.std.specs.Prelude.{◌≡◌, ◌≤◌, ◌<◌, [], IfOk, Some, length, option_map, slice_get};
ghost use Rattle.model.specs.declared.limits.TheConstants.{MAX_LIVE_PACKETS};

use devqueue::Links;
use irp::Packet;
use model::limits::MAX_LIVE_PACKETS;
use slab::Slab;
use std::alloc::{AllocError, Global};
use std::marker::Model;

/// Packets in order, with room for all that may live at once. Each stays in one slot while it is in
/// the list, and the keys of the slots are linked in that order: so nothing moves where one is
/// taken from the middle.
#[derive(Drop)]
pub struct PacketList {
    slots: Slab<Packet>,
    /// One list, of the keys.
    keys: Links,
}

impl Model for PacketList {
    ghost use Rattle.devqueue.specs.Lists.{entries_of};
    ghost use Rattle.iomgr.specs.PacketList.{IsSound};
    ghost use Rattle.iomgr.specs.Slots.{Slots, packets_in};

    ghost Value = { Slots };

    ghost view = { λ l. record {
      lying = l.slots.slots;
      order = entries_of l.keys 0;
      packets = packets_in l.slots.slots (entries_of l.keys 0);
    } };

    ghost invariant = { λ l. IsSound l.slots l.keys };
}

/// Free slots, as many as packets that may live at once and no more: a key is below that number, so
/// that others can keep something for each key.
fn free_slots(alloc: Global) -> Result<Slab<Packet>, AllocError>
    ensures { IfOk result (λ slots.
        (slots.slots ≡ []) × (slots.capacity ≡ MAX_LIVE_PACKETS)) }
{
    let slots = Slab::with_capacity(alloc, MAX_LIVE_PACKETS)?;
    if slots.capacity() > MAX_LIVE_PACKETS {
        return Err(AllocError);
    }
    Ok(slots)
}

impl PacketList {
    ghost use Rattle.std.specs.Borrow.{sem};
    ghost use Rattle.iomgr.specs.Lending.{LendsSlot};
    ghost use Rattle.iomgr.specs.Slots.{Holds, IsFilled, IsOrdered, lies_at, no_slots, packet_at};
    ghost use Rattle.iomgr.specs.Slots.{place_at, without_slot};

    /// An empty list. An error where memory for just as many packets as may live at once is
    /// refused; no other call needs any.
    pub fn new(alloc: Global) -> Result<PacketList, AllocError>
        ensures { IfOk result (λ list. list ≡ no_slots) }
    {
        Ok(PacketList {
            slots: free_slots(alloc)?,
            keys: Links::new(alloc, MAX_LIVE_PACKETS, 1)?,
        })
    }

    /// The keys, the slots and the packets agree: a law of all lists, which runs nothing.
    pub fn slots_are_in_order(&self)
        ensures ordered { IsOrdered self.now }
        ensures few { length self.now.lying ≤ MAX_LIVE_PACKETS }
    {
        let _ = self.slots.capacity();
    }

    /// How many packets there are.
    pub fn len(&self) -> usize
        ensures { result ≡ length self.now.packets }
    {
        self.slots.len()
    }

    /// Puts a packet at the end, and answers its key.
    pub fn push(&mut self, packet: Packet) -> usize
        requires { length self.old.packets < MAX_LIVE_PACKETS }
        ensures filled { IsFilled self.old result packet self.new }
        ensures low { result < MAX_LIVE_PACKETS }
    {
        let key = self.slots.insert_reserved(packet);
        self.keys.push_back(0, key);
        key
    }

    /// The packet in a slot, if it has one.
    pub fn in_slot(&self, slot: usize) -> Option<&Packet>
        ensures { option_map (λ p. p.now) result ≡ lies_at self.now slot }
    {
        self.slots.get(slot)
    }

    /// The packet of a key.
    pub fn packet(&self, key: usize) -> &Packet
        requires { Holds self.now key }
        ensures packet { result.now ≡ packet_at self.now key }
        ensures lies { lies_at self.now key ≡ Some result.now }
        ensures listed { slice_get self.now.packets (place_at self.now key) ≡ Some result.now }
    {
        &self.slots[key]
    }

    /// The same, to be changed.
    pub fn packet_mut(&mut self, key: usize) -> &mut Packet
        requires { Holds self.old key }
        ensures* writes_back { sem 𝓛 (LendsSlot self.entry key result) }
        ensures packet { result.now ≡ packet_at self.old key }
        ensures lies { lies_at self.old key ≡ Some result.now }
        ensures listed { slice_get self.old.packets (place_at self.old key) ≡ Some result.now }
    {
        &mut self.slots[key]
    }

    /// Takes the packet of a key out; the others keep their order.
    pub fn remove(&mut self, key: usize)
        requires { Holds self.old key }
        ensures { self.new ≡ without_slot self.old key }
    {
        let _listed = self.keys.unlink(0, key);
        let _packet = self.slots.remove(key);
    }
}
