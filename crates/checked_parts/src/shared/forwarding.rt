//! Instructions that send a packet to the lower driver.

ghost use Rattle.std.specs.Prelude.{◌≡◌, ◌<◌};
ghost use Rattle.model.specs.declared.limits.TheConstants.{MAX_INSTRUCTIONS};
ghost use Rattle.model.specs.Effect.{set_by};

use super::Shared;
use crate::activation::dispatched;
use crate::{Frame, Ran, is_last, packet_bug, wrong_at};
use driver_set::{DriverSet, Register};
use model::event::{BugCheck, Reply};
use model::world::{Activation, Completion};

/// The completion routine that an activation's driver sets, if it names one.
fn completion(a: &Activation, routine: Option<u8>) -> Option<Completion>
    ensures { result ≡ set_by a.now routine }
{
    let routine = routine?;
    Some(Completion {
        routine,
        device: a.device,
    })
}

impl Shared {
    ghost use Rattle.checked_parts.specs.Ran.{LeavesOver};
    ghost use Rattle.model.specs.Effect.{pass_effect, call_effect};
    ghost use Rattle.model.specs.Set.{lower_of};
    ghost use Rattle.model.specs.World.{packet_in, register};

    /// `pass r`: the lower driver is asked in the caller's location. Its routine then stands over
    /// the caller's frame, which stands over the frames `below`.
    pub fn pass(&mut self, set: &DriverSet, below: &[Frame], r: Register, a: &mut Activation) -> Ran
        requires { a.old.position < MAX_INSTRUCTIONS }
        ensures { let named = packet_in self.old (register a.old r) in
            let passed = pass_effect set.now self.old a.old named (lower_of set.now a.old.device) in
            LeavesOver below.now self.old a.old passed self.new a.new result }
    {
        let Some(n) = self.packet_in(a.registers[r.index()]) else {
            return Ran::Stays(wrong_at(a));
        };
        let Some(lower) = set.lower(a.device) else {
            return Ran::Stays(wrong_at(a));
        };
        let Some(key) = self.packet_table.find(n) else {
            return Ran::Stays(packet_bug(BugCheck::IrqlNotLessOrEqual, n));
        };
        if is_last(below.len()) {
            return Ran::Stays(Reply::Refused);
        }
        let asked = self.packet_table.packet(key).asked_major();
        self.packet_table.share(key, lower);
        a.position += 1;
        Ran::Under(dispatched(set, lower, asked, n))
    }

    /// `call r` and `call r f`: the lower driver is asked in a location of its own, with a
    /// completion routine or none.
    pub fn call(
        &mut self,
        set: &DriverSet,
        below: &[Frame],
        r: Register,
        routine: Option<u8>,
        a: &mut Activation,
    ) -> Ran
        requires { a.old.position < MAX_INSTRUCTIONS }
        ensures { let named = packet_in self.old (register a.old r) in
            let lower = lower_of set.now a.old.device in
            let called = call_effect set.now self.old a.old routine named lower in
            LeavesOver below.now self.old a.old called self.new a.new result }
    {
        let Some(n) = self.packet_in(a.registers[r.index()]) else {
            return Ran::Stays(wrong_at(a));
        };
        let Some(lower) = set.lower(a.device) else {
            return Ran::Stays(wrong_at(a));
        };
        let Some(key) = self.packet_table.find(n) else {
            return Ran::Stays(packet_bug(BugCheck::IrqlNotLessOrEqual, n));
        };
        let packet = self.packet_table.packet(key);
        if !packet.has_room_below() {
            return Ran::Stays(packet_bug(BugCheck::NoMoreIrpStackLocations, n));
        }
        if is_last(below.len()) {
            return Ran::Stays(Reply::Refused);
        }
        let asked = packet.asked_major();
        self.packet_table
            .send_down(key, lower, completion(a, routine));
        a.position += 1;
        Ran::Under(dispatched(set, lower, asked, n))
    }
}
