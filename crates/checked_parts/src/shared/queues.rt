//! The queues of devices, as instructions insert packets and take them off.

ghost use Rattle.std.specs.Prelude.{◌≡◌, ◌<◌, option_map};
ghost use Rattle.model.specs.declared.limits.TheConstants.{MAX_INSTRUCTIONS};

use super::Shared;
use crate::{Ran, packet_bug, wrong_at};
use devqueue::Guarded;
use driver_set::Register;
use model::event::{BugCheck, Reply};
use model::world::{Activation, Value};

impl Shared {
    ghost use Rattle.checked_parts.specs.Ran.{Leaves};
    ghost use Rattle.model.specs.Effect.{insert_effect, remove_effect, unlink_effect};
    ghost use Rattle.model.specs.World.{packet_in, queue_of, register};

    /// A queue of a device, if there is such a queue.
    pub fn queue(&self, device: u8, queue: u8) -> Option<&Guarded>
        ensures { option_map (λ queue. queue.now) result ≡ queue_of self.now device queue }
    {
        let queues = self.queue_list.get(device as usize)?;
        queues.get(queue as usize)
    }

    /// `insert r q`: the packet in the register goes to the back of a queue of the device.
    pub fn insert(&mut self, r: Register, q: u8, a: &mut Activation) -> Ran
        requires { a.old.position < MAX_INSTRUCTIONS }
        ensures { let named = packet_in self.old (register a.old r) in
            let entries = queue_of self.old a.old.device q in
            let inserted = insert_effect self.old a.old q named entries in
            Leaves self.old a.old inserted self.new a.new result }
    {
        let Some(n) = self.packet_in(a.registers[r.index()]) else {
            return Ran::Stays(wrong_at(a));
        };
        let Some(queue) = self.queue(a.device, q) else {
            return Ran::Stays(wrong_at(a));
        };
        if self.is_gone(n) {
            return Ran::Stays(packet_bug(BugCheck::IrqlNotLessOrEqual, n));
        }
        if queue.is_full() {
            return Ran::Stays(Reply::Refused);
        }
        self.queue_list[a.device as usize][q as usize].insert(n);
        a.position += 1;
        Ran::Stays(Reply::Stepped)
    }

    /// `unlink r q`: the packet in the register is taken off a queue of the device, wherever it
    /// stands there.
    pub fn unlink(&mut self, r: Register, q: u8, a: &mut Activation) -> Ran
        requires { a.old.position < MAX_INSTRUCTIONS }
        ensures { let named = packet_in self.old (register a.old r) in
            let entries = queue_of self.old a.old.device q in
            let unlinked = unlink_effect self.old a.old q named entries in
            Leaves self.old a.old unlinked self.new a.new result }
    {
        let named = self.packet_in(a.registers[r.index()]);
        let (Some(n), Some(_)) = (named, self.queue(a.device, q)) else {
            return Ran::Stays(wrong_at(a));
        };
        if self.is_gone(n) {
            return Ran::Stays(packet_bug(BugCheck::IrqlNotLessOrEqual, n));
        }
        let _found = self.queue_list[a.device as usize][q as usize].unlink(n);
        a.position += 1;
        Ran::Stays(Reply::Stepped)
    }

    /// `remove r q L`: the register becomes the first packet of a queue of the device, which is
    /// taken off; jumps where there is none.
    pub fn remove(&mut self, r: Register, q: u8, label: u16, a: &mut Activation) -> Ran
        requires { a.old.position < MAX_INSTRUCTIONS }
        ensures { let entries = queue_of self.old a.old.device q in
            let removed = remove_effect self.old a.old r q label entries in
            Leaves self.old a.old removed self.new a.new result }
    {
        let Some(queue) = self.queue(a.device, q) else {
            return Ran::Stays(wrong_at(a));
        };
        let Some(n) = queue.head() else {
            a.position = label;
            return Ran::Stays(Reply::Stepped);
        };
        if self.is_gone(n) {
            return Ran::Stays(packet_bug(BugCheck::IrqlNotLessOrEqual, n));
        }
        let _head = self.queue_list[a.device as usize][q as usize].remove_head();
        a.registers[r.index()] = Value::Ref(n);
        a.position += 1;
        Ran::Stays(Reply::Stepped)
    }
}
