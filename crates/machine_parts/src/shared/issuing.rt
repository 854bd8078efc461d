//! Packets that are issued, and looked for by their numbers.

ghost use Rattle.std.specs.Prelude.{◌≡◌, ◌≤◌, ℕ, IsTrue, length, nat_lt, option_map, slice_get};
ghost use Rattle.model.specs.declared.limits.TheConstants.{MAX_STACK};
ghost use Rattle.model.specs.World.{place_of};
ghost use Rattle.laws_slots.specs.Rep.{packets_in};
ghost use Rattle.laws_slots.specs.SlotEvents.{key_of};

use super::Shared;
use iomgr::PacketTable;
use model::instr::Field;
use model::status::Major;
use model::view::{LiveView, PacketView};

/// The packets of a table are those in its slots, in the order of issue: a law of all tables. It
/// runs nothing.
fn packets_are_in_slots(table: &PacketTable)
    ensures packets { let live = table.now.live in
        live.packets ≡ packets_in live.lying live.order }
    ensures count { length table.now.live.packets ≡ length table.now.live.order }
    ensures keys { let live = table.now.live in
        (n : ℕ) → slice_get live.order (place_of live.packets n) ≡ key_of live.lying live.order n }
{
    table.keys_are_in_order();
}

impl Shared {
    ghost use Rattle.model.specs.View.{packet_view};
    ghost use Rattle.model.specs.World.{field_of, new_packet, packet_of};
    ghost use Rattle.laws_slots.specs.Done.{TakesSlot};
    ghost use Rattle.laws_slots.specs.ShownSlots.{meant_shared};
    ghost use Rattle.laws_slots.specs.SlotEvents.{can_issue_slot};

    /// Whether one more packet may be issued.
    pub fn can_issue(&self) -> bool
        ensures { result ≡ can_issue_slot self.now }
    {
        packets_are_in_slots(&self.packet_table);
        self.packet_table.can_issue()
    }

    /// How many packets were ever issued.
    pub fn issued(&self) -> u64
        ensures { result ≡ self.now.issued }
    {
        self.packet_table.issued()
    }

    /// Whether a packet of this number was issued.
    pub fn is_issued(&self, number: u64) -> bool
        ensures { result ≡ nat_lt number self.now.issued }
    {
        number < self.issued()
    }

    /// Issues a packet to a device of this stack size, 1 to 16, and answers the key of its slot,
    /// which had none. Its number is how many were issued before.
    pub fn issue(&mut self, device: u8, major: Major, argument: u64, stack: u8) -> u64
        requires room { IsTrue (can_issue_slot self.old) }
        requires stack { stack ≤ MAX_STACK }
        ensures { let packet = new_packet self.old.issued device major argument stack in
            TakesSlot self.old result packet self.new }
    {
        packets_are_in_slots(&self.packet_table);
        let key = self.packet_table.issue(device, major, argument, stack);
        key.slot() as u64
    }

    /// The key of the live packet of a number.
    pub fn find(&self, number: u64) -> Option<u64>
        ensures { result ≡ key_of self.now.slots self.now.order number }
    {
        packets_are_in_slots(&self.packet_table);
        let key = self.packet_table.find(number)?;
        Some(key.slot() as u64)
    }

    /// A field of the live packet of a number, if there is one.
    pub fn field(&self, number: u64, field: Field) -> Option<u64>
        ensures { let packet = packet_of (meant_shared self.now) number in
            result ≡ option_map (λ p. field_of p field) packet }
    {
        packets_are_in_slots(&self.packet_table);
        let packet = self.packet_table.live_packet(number)?;
        Some(packet.field(field))
    }

    /// What there is to tell of the packet of a number.
    pub fn packet(&self, number: u64) -> PacketView
        ensures { result ≡ packet_view (meant_shared self.now) number }
    {
        packets_are_in_slots(&self.packet_table);
        match self.packet_table.live_packet(number) {
            Some(packet) => PacketView::Live(LiveView {
                depth: packet.depth(),
                cancel: packet.is_cancelled(),
                marks: packet.marks(),
                armer: packet.armer(),
            }),
            None if self.is_issued(number) => PacketView::Topped,
            None => PacketView::Never,
        }
    }
}
