//! The table of live packets.

ghost use Rattle.std.specs.Prelude.{◌≡◌, ◌≤◌, ◌<◌, IfOk, IfSome, IsSome, IsTrue, Some, option_map};
ghost use Rattle.std.specs.Prelude.{slice_get};
ghost use Rattle.model.specs.declared.limits.TheConstants.{MAX_LIVE_PACKETS, MAX_STACK};

use crate::buckets::{bucket_of, empty_buckets, slot_of};
use crate::packet_list::PacketList;
use devqueue::Links;
use irp::Packet;
use model::limits::{MAX_ISSUED, MAX_LIVE_PACKETS};
use model::status::Major;
use model::world::Value;
use std::alloc::{AllocError, Global};
use std::marker::Model;

/// The key of a live packet: it is the packet's while that lives, and may be another's afterwards.
/// Contracts see a number.
#[derive(Clone, Copy)]
pub struct Key {
    slot: usize,
}

impl Model for Key {
    ghost use Rattle.std.specs.Prelude.{ℕ};

    ghost Value = { ℕ };

    ghost view = { λ k. k.slot };

    ghost inverse = { λ n. record { slot = n } };
}

impl Key {
    /// The key of a slot.
    pub fn of(slot: usize) -> Key
        ensures { result ≡ slot }
    {
        Key { slot }
    }

    /// The slot whose key it is.
    pub fn slot(self) -> usize
        ensures { result ≡ self }
    {
        self.slot
    }
}

/// The live packets in the order of their issue, with room for all that may live at once, and how
/// many were ever issued. A packet is found by its number, and read and changed by its key, so that
/// its number stays.
///
/// Their slots are in buckets by their numbers too, so that one is found without a search through
/// all, and taken out without moving others.
#[derive(Drop)]
pub struct PacketTable {
    pub(crate) live: PacketList,
    buckets: Links,
    issued_count: u64,
}

impl Model for PacketTable {
    ghost use Rattle.iomgr.specs.Buckets.{IsNumbered};
    ghost use Rattle.iomgr.specs.Slots.{SlotTable};

    ghost Value = { SlotTable };

    ghost view = { λ t. record { live = t.live; issued = t.issued_count } };

    ghost invariant = { λ t. IsNumbered t.live t.buckets t.issued_count };
}

impl PacketTable {
    ghost use Rattle.model.specs.Events.{can_issue};
    ghost use Rattle.model.specs.World.{new_packet, packet_in, place_of};
    ghost use Rattle.iomgr.specs.Slots.{Holds, IsFilled, IsInOrder, key_of, lies_at, none_issued};
    ghost use Rattle.iomgr.specs.Slots.{packet_at, place_at, table_in, without_packet_at};
    ghost use Rattle.iomgr.specs.Table.{shared_of, live_packet, with_issued};

    /// No packets. An error where memory for all that may live at once is refused; no other call
    /// needs any.
    pub fn new(alloc: Global) -> Result<PacketTable, AllocError>
        ensures { IfOk result (λ table. table ≡ none_issued) }
    {
        Ok(PacketTable {
            live: PacketList::new(alloc)?,
            buckets: empty_buckets(alloc, MAX_LIVE_PACKETS)?,
            issued_count: 0,
        })
    }

    /// The keys, the slots and the packets agree, and numbers rise: a law of all tables, for who
    /// holds keys. It runs nothing.
    pub fn keys_are_in_order(&self)
        ensures { IsInOrder self.now }
    {
        self.live.slots_are_in_order();
    }

    /// How many packets were ever issued.
    pub fn issued(&self) -> u64
        ensures { result ≡ self.now.issued }
    {
        self.issued_count
    }

    /// Whether one more packet may be issued.
    pub fn can_issue(&self) -> bool
        ensures { result ≡ can_issue (shared_of (table_in self.now)) }
    {
        self.live.len() < MAX_LIVE_PACKETS && self.issued_count < MAX_ISSUED
    }

    /// Issues a packet to a device of this stack size, 1 to 16, and answers its key. Its number is
    /// how many were issued before.
    pub fn issue(&mut self, device: u8, major: Major, argument: u64, stack: u8) -> Key
        requires room { IsTrue (can_issue (shared_of (table_in self.old))) }
        requires stack { stack ≤ MAX_STACK }
        ensures filled { let packet = new_packet self.old.issued device major argument stack in
            IsFilled self.old.live result packet self.new.live }
        ensures added { let packet = new_packet self.old.issued device major argument stack in
            table_in self.new ≡ with_issued (table_in self.old) packet }
    {
        let number = self.issued_count;
        let slot = self
            .live
            .push(Packet::new(number, device, major, argument, stack));
        self.buckets.push_back(bucket_of(number), slot);
        self.issued_count += 1;
        Key::of(slot)
    }

    /// The packet that a value refers to: one that was issued, live or not.
    pub fn packet_in(&self, value: Value) -> Option<u64>
        ensures { result ≡ packet_in (shared_of (table_in self.now)) value }
    {
        match value {
            Value::Ref(n) if n < self.issued_count => Some(n),
            _ => None,
        }
    }

    /// The key of the live packet of a number.
    pub fn find(&self, n: u64) -> Option<Key>
        ensures key { result ≡ key_of self.now n }
        ensures packet { option_map (packet_at self.now.live) result
            ≡ live_packet (table_in self.now) n }
        ensures holds { IfSome result (Holds self.now.live) }
        ensures place { IfSome result (λ key.
            place_at self.now.live key ≡ place_of self.now.live.packets n) }
    {
        self.live.slots_are_in_order();
        let slot = slot_of(&self.buckets, &self.live, n)?;
        Some(Key::of(slot))
    }

    /// The key of a slot that has a packet.
    pub fn used(&self, slot: usize) -> Key
        requires { IsSome (lies_at self.now.live slot) }
        ensures key { result ≡ slot }
        ensures low { result < MAX_LIVE_PACKETS }
        ensures holds { Holds self.now.live result }
    {
        self.live.slots_are_in_order();
        Key::of(slot)
    }

    /// The packet in a slot, if it has one.
    pub fn in_slot(&self, slot: usize) -> Option<&Packet>
        ensures { option_map (λ p. p.now) result ≡ lies_at self.now.live slot }
    {
        self.live.in_slot(slot)
    }

    /// The live packet of a number.
    pub fn live_packet(&self, n: u64) -> Option<&Packet>
        ensures { option_map (λ p. p.now) result ≡ live_packet (table_in self.now) n }
    {
        let key = self.find(n)?;
        Some(self.live.packet(key.slot()))
    }

    /// The packet of a key.
    pub fn packet(&self, key: Key) -> &Packet
        requires { Holds self.now.live key }
        ensures packet { result.now ≡ packet_at self.now.live key }
        ensures listed { let place = place_at self.now.live key in
            slice_get self.now.live.packets place ≡ Some result.now }
    {
        self.live.packet(key.slot())
    }

    /// Takes the packet of a key out.
    pub(crate) fn remove(&mut self, key: Key)
        requires { Holds self.old.live key }
        ensures { self.new ≡ without_packet_at self.old key }
    {
        let slot = key.slot();
        let bucket = bucket_of(self.live.packet(slot).number());
        let _listed = self.buckets.unlink(bucket, slot);
        self.live.remove(slot);
    }
}
