//! What drivers do to the packet of a key, and what they see of it. Its slot has a packet.

ghost use Rattle.std.specs.Prelude.{◌≡◌, ◌<◌, IsSome, is_some, length};
ghost use Rattle.laws_slots.specs.Slots.{with_packet_at};

use super::Shared;
use model::instr::Field;
use model::status::{Major, Status};
use model::world::{Armer, Completion};

impl Shared {
    ghost use Rattle.model.specs.World.{asked_of, cancelled, current_location, field_of};
    ghost use Rattle.model.specs.World.{mark_current, sent_down, shared_with, with_armer};
    ghost use Rattle.model.specs.World.{with_info};
    ghost use Rattle.laws_slots.specs.Rep.{named};
    ghost use Rattle.laws_slots.specs.SlotStep.{if_numbered};
    ghost use Rattle.laws_slots.specs.Slots.{packet_at};
    ghost use Rattle.machine_parts.specs.Packets.{packet_in_slot};

    /// A field of a packet.
    pub fn get(&self, key: u64, field: Field) -> u64
        requires { IsSome (packet_at self.now key) }
        ensures { result ≡ field_of (packet_in_slot self.now key) field }
    {
        let key = self.packet_table.used(key as usize);
        self.packet_table.packet(key).field(field)
    }

    /// What the driver of the current location is asked to do, if it is asked anything.
    pub fn asked(&self, key: u64) -> Option<Major>
        requires { IsSome (packet_at self.now key) }
        ensures { result ≡ asked_of (current_location (packet_in_slot self.now key)) }
    {
        let key = self.packet_table.used(key as usize);
        self.packet_table.packet(key).asked_major()
    }

    /// Whether Irp->PendingReturned is set.
    pub fn is_pending(&self, key: u64) -> bool
        requires { IsSome (packet_at self.now key) }
        ensures { result ≡ (packet_in_slot self.now key).pending_returned }
    {
        let key = self.packet_table.used(key as usize);
        self.packet_table.packet(key).pending_returned()
    }

    /// Whether Irp->Cancel is set.
    pub fn is_cancelled(&self, key: u64) -> bool
        requires { IsSome (packet_at self.now key) }
        ensures { result ≡ (packet_in_slot self.now key).cancel }
    {
        let key = self.packet_table.used(key as usize);
        self.packet_table.packet(key).is_cancelled()
    }

    /// Sets IoStatus.Information.
    pub fn put(&mut self, key: u64, info: u64)
        requires { IsSome (packet_at self.old key) }
        ensures { let packet = with_info (packet_in_slot self.old key) info in
            self.new ≡ with_packet_at self.old key packet }
    {
        let key = self.packet_table.used(key as usize);
        self.packet_table.set_info(key, info);
    }

    /// IoCompleteRequest: the packet has its final status.
    pub fn complete(&mut self, key: u64, status: Status)
        requires { IsSome (packet_at self.old key) }
        ensures { let packet = record (packet_in_slot self.old key) { status = status } in
            self.new ≡ with_packet_at self.old key packet }
    {
        let key = self.packet_table.used(key as usize);
        self.packet_table.set_status(key, status);
    }

    /// IoMarkIrpPending.
    pub fn mark(&mut self, key: u64)
        requires { IsSome (packet_at self.old key) }
        ensures { let packet = mark_current (packet_in_slot self.old key) in
            self.new ≡ with_packet_at self.old key packet }
    {
        let key = self.packet_table.used(key as usize);
        self.packet_table.mark(key);
    }

    /// IoSetCancelRoutine: the cancel word becomes this one, and what it was is answered.
    pub fn exchange(&mut self, key: u64, armer: Option<Armer>) -> Option<Armer>
        requires { IsSome (packet_at self.old key) }
        ensures word { result ≡ (packet_in_slot self.old key).armer }
        ensures packet { let packet = with_armer (packet_in_slot self.old key) armer in
            self.new ≡ with_packet_at self.old key packet }
    {
        let key = self.packet_table.used(key as usize);
        self.packet_table.exchange(key, armer)
    }

    /// The lower device is asked in the current location.
    pub fn share(&mut self, key: u64, device: u8)
        requires { IsSome (packet_at self.old key) }
        ensures { let packet = shared_with (packet_in_slot self.old key) device in
            self.new ≡ with_packet_at self.old key packet }
    {
        let key = self.packet_table.used(key as usize);
        self.packet_table.share(key, device);
    }

    /// The lower device is asked the same in the next location, which is there.
    pub fn send_down(&mut self, key: u64, device: u8, completion: Option<Completion>)
        requires used { IsSome (packet_at self.old key) }
        requires room { let packet = packet_in_slot self.old key in
            packet.depth < length packet.locations.items }
        ensures { let packet = sent_down (packet_in_slot self.old key) device completion in
            self.new ≡ with_packet_at self.old key packet }
    {
        let key = self.packet_table.used(key as usize);
        self.packet_table.send_down(key, device, completion);
    }

    /// IoCancelIrp: the packet is to be cancelled.
    pub fn set_cancel(&mut self, key: u64)
        requires { IsSome (packet_at self.old key) }
        ensures { let packet = cancelled (packet_in_slot self.old key) in
            self.new ≡ with_packet_at self.old key packet }
    {
        let key = self.packet_table.used(key as usize);
        self.packet_table.cancel(key);
    }

    /// The number that a key names: that of the packet in its slot, or the next number where the
    /// slot is free.
    pub fn named(&self, key: u64) -> u64
        ensures { result ≡ named self.now key }
    {
        match self.packet_table.in_slot(key as usize) {
            Some(packet) => packet.number(),
            None => self.packet_table.issued(),
        }
    }

    /// Whether the packet of a number is in the slot of a key: a step of IoCancelIrp looks for it
    /// there.
    pub fn is_there(&self, key: u64, number: u64) -> bool
        ensures { result ≡ is_some (if_numbered (packet_at self.now key) number) }
    {
        match self.packet_table.in_slot(key as usize) {
            Some(packet) => packet.number() == number,
            None => false,
        }
    }
}
