//! Packets that are started on devices, and the current one.

ghost use Rattle.std.specs.Prelude.{◌≡◌, ◌<◌};
ghost use Rattle.model.specs.declared.limits.TheConstants.{MAX_INSTRUCTIONS};
ghost use Rattle.model.specs.Effect.{next_disarmed as disarmed_of};

use super::Shared;
use crate::{Ran, packet_bug, wrong_at};
use devqueue::DeviceQueue;
use driver_set::{DriverSet, QueueName, Register};
use model::event::{BugCheck, Reply};
use model::world::{Activation, Armer, Value};

/// The packet whose cancel word `next` empties: the first one that waits, where the driver has a
/// cancel routine for the device queue.
fn next_disarmed(set: &DriverSet, start: &DeviceQueue, a: &Activation) -> Option<u64>
    ensures { result ≡ disarmed_of set.now a.now start.now }
{
    if set.has_cancel(a.driver, QueueName::DeviceQueue) {
        start.first_waiting()
    } else {
        None
    }
}

impl Shared {
    ghost use Rattle.checked_parts.specs.Ran.{Leaves};
    ghost use Rattle.model.specs.Effect.{start_effect, take_effect, begin_effect};
    ghost use Rattle.model.specs.Effect.{next_effect, dequeue_effect};
    ghost use Rattle.model.specs.World.{packet_in, start_of, register};

    /// `start r`: IoStartPacket on the packet in the register. Where the driver has a cancel
    /// routine for the device queue, a packet that has to wait there has it from now on.
    pub fn start(&mut self, set: &DriverSet, r: Register, a: &mut Activation) -> Ran
        requires { a.old.position < MAX_INSTRUCTIONS }
        ensures { let named = packet_in self.old (register a.old r) in
            let start = start_of self.old a.old.device in
            let started = start_effect set.now self.old a.old named start in
            Leaves self.old a.old started self.new a.new result }
    {
        let Some(n) = self.packet_in(a.registers[r.index()]) else {
            return Ran::Stays(wrong_at(a));
        };
        let Some(start) = self.start_of(a.device) else {
            return Ran::Stays(wrong_at(a));
        };
        let Some(key) = self.packet_table.find(n) else {
            return Ran::Stays(packet_bug(BugCheck::IrqlNotLessOrEqual, n));
        };
        if !start.has_room_to_start() {
            return Ran::Stays(Reply::Refused);
        }
        let waits = set.has_cancel(a.driver, QueueName::DeviceQueue) && start.is_busy();
        self.start_list[a.device as usize].start(n);
        a.position += 1;
        if waits {
            let word = Armer {
                device: a.device,
                queue: QueueName::DeviceQueue,
            };
            let _before = self.packet_table.exchange(key, Some(word));
        }
        Ran::Stays(Reply::Stepped)
    }

    /// `take r L`: the register becomes the packet in the current slot, which is empty then; jumps
    /// where it was empty.
    pub fn take(&mut self, r: Register, label: u16, a: &mut Activation) -> Ran
        requires { a.old.position < MAX_INSTRUCTIONS }
        ensures { let taken = take_effect self.old a.old r label (start_of self.old a.old.device) in
            Leaves self.old a.old taken self.new a.new result }
    {
        let Some(start) = self.start_of(a.device) else {
            return Ran::Stays(wrong_at(a));
        };
        let Some(n) = start.current() else {
            a.position = label;
            return Ran::Stays(Reply::Stepped);
        };
        let _current = self.start_list[a.device as usize].take();
        a.registers[r.index()] = Value::Ref(n);
        a.position += 1;
        Ran::Stays(Reply::Stepped)
    }

    /// `begin r`: the packet in the register is put into the current slot.
    pub fn begin(&mut self, r: Register, a: &mut Activation) -> Ran
        requires { a.old.position < MAX_INSTRUCTIONS }
        ensures { let named = packet_in self.old (register a.old r) in
            let begun = begin_effect self.old a.old named (start_of self.old a.old.device) in
            Leaves self.old a.old begun self.new a.new result }
    {
        let Some(n) = self.packet_in(a.registers[r.index()]) else {
            return Ran::Stays(wrong_at(a));
        };
        if a.device as usize >= self.start_list.len() {
            return Ran::Stays(wrong_at(a));
        }
        if self.is_gone(n) {
            return Ran::Stays(packet_bug(BugCheck::IrqlNotLessOrEqual, n));
        }
        self.start_list[a.device as usize].begin(n);
        a.position += 1;
        Ran::Stays(Reply::Stepped)
    }

    /// `next`: IoStartNextPacket. Where the driver has a cancel routine for the device queue, the
    /// packet that is started has none from now on.
    pub fn start_next(&mut self, set: &DriverSet, a: &mut Activation) -> Ran
        requires { a.old.position < MAX_INSTRUCTIONS }
        ensures { let next = next_effect set.now self.old a.old (start_of self.old a.old.device) in
            Leaves self.old a.old next self.new a.new result }
    {
        let Some(start) = self.start_of(a.device) else {
            return Ran::Stays(wrong_at(a));
        };
        let disarmed = next_disarmed(set, start, a);
        match disarmed {
            Some(n) if self.is_gone(n) => {
                return Ran::Stays(packet_bug(BugCheck::IrqlNotLessOrEqual, n));
            }
            _ => {}
        }
        if !start.has_room_for_next() {
            return Ran::Stays(Reply::Refused);
        }
        self.start_list[a.device as usize].next();
        a.position += 1;
        let Some(n) = disarmed else {
            return Ran::Stays(Reply::Stepped);
        };
        if let Some(key) = self.packet_table.find(n) {
            let _before = self.packet_table.exchange(key, None);
        }
        Ran::Stays(Reply::Stepped)
    }

    /// `dequeue r`: the packet in the register is taken off the device queue, wherever it stands
    /// there.
    pub fn dequeue(&mut self, r: Register, a: &mut Activation) -> Ran
        requires { a.old.position < MAX_INSTRUCTIONS }
        ensures { let named = packet_in self.old (register a.old r) in
            let dequeued = dequeue_effect self.old a.old named (start_of self.old a.old.device) in
            Leaves self.old a.old dequeued self.new a.new result }
    {
        let Some(n) = self.packet_in(a.registers[r.index()]) else {
            return Ran::Stays(wrong_at(a));
        };
        if a.device as usize >= self.start_list.len() {
            return Ran::Stays(wrong_at(a));
        }
        if self.is_gone(n) {
            return Ran::Stays(packet_bug(BugCheck::IrqlNotLessOrEqual, n));
        }
        let _found = self.start_list[a.device as usize].dequeue(n);
        a.position += 1;
        Ran::Stays(Reply::Stepped)
    }
}
