//! Instructions that look at a packet or write to it.

ghost use Rattle.std.specs.Prelude.{◌<◌};
ghost use Rattle.model.specs.declared.limits.TheConstants.{MAX_INSTRUCTIONS};

use super::Shared;
use crate::{Ran, number_in, packet_bug, wrong_at};
use driver_set::{Field, Register};
use model::event::{BugCheck, Reply};
use model::world::{Activation, Value};

impl Shared {
    ghost use Rattle.checked_parts.specs.Ran.{Leaves};
    ghost use Rattle.model.specs.Effect.{get_effect, put_effect, mark_effect, look_effect};
    ghost use Rattle.model.specs.Effect.{ask_effect};
    ghost use Rattle.model.specs.World.{packet_in, register, number_in as number_in_of};

    /// `get r s F`: r becomes a field of the packet in s.
    pub fn get(&self, r: Register, s: Register, field: Field, a: &mut Activation) -> Ran
        requires { a.old.position < MAX_INSTRUCTIONS }
        ensures { let named = packet_in self.now (register a.old s) in
            Leaves self.now a.old (get_effect self.now a.old r field named) self.now a.new result }
    {
        let Some(n) = self.packet_in(a.registers[s.index()]) else {
            return Ran::Stays(wrong_at(a));
        };
        let number = match self.packet_table.live_packet(n) {
            Some(packet) => packet.field(field),
            None => return Ran::Stays(packet_bug(BugCheck::IrqlNotLessOrEqual, n)),
        };
        a.registers[r.index()] = Value::Num(number);
        a.position += 1;
        Ran::Stays(Reply::Stepped)
    }

    /// `put s r`: IoStatus.Information of the packet in s becomes the number in r.
    pub fn put(&mut self, s: Register, r: Register, a: &mut Activation) -> Ran
        requires { a.old.position < MAX_INSTRUCTIONS }
        ensures { let number = number_in_of (register a.old r) in
            let named = packet_in self.old (register a.old s) in
            Leaves self.old a.old (put_effect self.old a.old number named) self.new a.new result }
    {
        let Some(number) = number_in(a.registers[r.index()]) else {
            return Ran::Stays(wrong_at(a));
        };
        let Some(n) = self.packet_in(a.registers[s.index()]) else {
            return Ran::Stays(wrong_at(a));
        };
        let Some(key) = self.packet_table.find(n) else {
            return Ran::Stays(packet_bug(BugCheck::IrqlNotLessOrEqual, n));
        };
        self.packet_table.set_info(key, number);
        a.position += 1;
        Ran::Stays(Reply::Stepped)
    }

    /// `mark r`: IoMarkIrpPending on the packet in the register.
    pub fn mark(&mut self, r: Register, a: &mut Activation) -> Ran
        requires { a.old.position < MAX_INSTRUCTIONS }
        ensures { let named = packet_in self.old (register a.old r) in
            Leaves self.old a.old (mark_effect self.old a.old named) self.new a.new result }
    {
        let Some(n) = self.packet_in(a.registers[r.index()]) else {
            return Ran::Stays(wrong_at(a));
        };
        let Some(key) = self.packet_table.find(n) else {
            return Ran::Stays(packet_bug(BugCheck::IrqlNotLessOrEqual, n));
        };
        self.packet_table.mark(key);
        a.position += 1;
        Ran::Stays(Reply::Stepped)
    }

    /// `ifpending r L`: jumps if Irp->PendingReturned is set.
    pub fn jump_if_pending(&self, r: Register, label: u16, a: &mut Activation) -> Ran
        requires { a.old.position < MAX_INSTRUCTIONS }
        ensures { let named = packet_in self.now (register a.old r) in
            Leaves self.now a.old (look_effect self.now a.old label named) self.now a.new result }
    {
        let Some(n) = self.packet_in(a.registers[r.index()]) else {
            return Ran::Stays(wrong_at(a));
        };
        let pending = match self.packet_table.live_packet(n) {
            Some(packet) => packet.pending_returned(),
            None => return Ran::Stays(packet_bug(BugCheck::IrqlNotLessOrEqual, n)),
        };
        if pending {
            a.position = label;
            return Ran::Stays(Reply::Stepped);
        }
        a.position += 1;
        Ran::Stays(Reply::Stepped)
    }

    /// `ifcancel r L`: jumps if Irp->Cancel is set.
    pub fn jump_if_cancelled(&self, r: Register, label: u16, a: &mut Activation) -> Ran
        requires { a.old.position < MAX_INSTRUCTIONS }
        ensures { let named = packet_in self.now (register a.old r) in
            Leaves self.now a.old (ask_effect self.now a.old label named) self.now a.new result }
    {
        let Some(n) = self.packet_in(a.registers[r.index()]) else {
            return Ran::Stays(wrong_at(a));
        };
        let cancelled = match self.packet_table.live_packet(n) {
            Some(packet) => packet.is_cancelled(),
            None => return Ran::Stays(packet_bug(BugCheck::IrqlNotLessOrEqual, n)),
        };
        if cancelled {
            a.position = label;
            return Ran::Stays(Reply::Stepped);
        }
        a.position += 1;
        Ran::Stays(Reply::Stepped)
    }
}
