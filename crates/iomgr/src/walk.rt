//! One step of the walk by which the I/O manager completes a packet.

ghost use Rattle.std.specs.Prelude.{◌≡◌};

use crate::packet_table::{Key, PacketTable};
use model::status::Status;
use model::world::Completion;

/// What a step of the walk did. Unless the packet wasn't live, completion has left its current
/// location.
#[derive(Clone, Copy)]
pub enum WalkStep {
    /// Nothing: the packet isn't live.
    Missing,
    /// The location above is current, and the completion routine has to run for the device that set
    /// it. One that may hold the packet has to be lent it first.
    Runs(Completion),
    /// The location above is current, and is marked where the one that was left was.
    Ascends { marked: bool },
    /// The packet has topped out, with its final status and information, and is live no more.
    TopsOut { status: Status, info: u64 },
}

impl PacketTable {
    ghost use Rattle.model.specs.Effect.{walk_packet};
    ghost use Rattle.model.specs.Set.{Set};
    ghost use Rattle.model.specs.World.{Shared, carried_up, left_location, moved_up, packet_of};
    ghost use Rattle.iomgr.specs.Slots.{Holds, packet_at, table_in, with_packet_at};
    ghost use Rattle.iomgr.specs.Table.{with_table};
    ghost use Rattle.iomgr.specs.Walk.{steps_out, walked, walked_at, walked_by, walk_outcome};

    /// One step of the walk that completes the packet of a key, which has no packet after
    /// `TopsOut`.
    pub fn walk_on(&mut self, key: Key) -> WalkStep
        requires { Holds self.old.live key }
        ensures { record { slots = self.new; step = result }
            ≡ walked_at self.old key (packet_at self.old.live key) }
    {
        let packet = self.live.packet(key.slot());
        match packet.completion() {
            Some(completion) => {
                self.rise(key);
                WalkStep::Runs(completion)
            }
            None if packet.depth() > 1 => WalkStep::Ascends {
                marked: self.ascend(key),
            },
            None => self.top_out(key),
        }
    }

    /// The same of the packet of a number.
    pub fn walk(&mut self, n: u64) -> WalkStep
        ensures slots { record { slots = self.new; step = result } ≡ walked_by self.old n }
        ensures walked { record { table = table_in self.new; step = result }
            ≡ walked (table_in self.old) n }
        ensures outcome { (set : Set) (s : Shared)
            → let before = with_table s (table_in self.old) in
            walk_outcome set (with_table s (table_in self.new)) n result
            ≡ walk_packet set before n (packet_of before n) }
    {
        match self.find(n) {
            Some(key) => self.walk_on(key),
            None => WalkStep::Missing,
        }
    }

    /// Completion leaves the current location, and the one above becomes current.
    fn rise(&mut self, key: Key)
        requires { Holds self.old.live key }
        ensures { let left = left_location (packet_at self.old.live key) in
            self.new ≡ with_packet_at self.old key (moved_up left) }
    {
        let packet = self.live.packet_mut(key.slot());
        packet.leave();
        packet.up();
    }

    /// The same where no routine is set: the mark is carried up. It answers whether there was one.
    fn ascend(&mut self, key: Key) -> bool
        requires { Holds self.old.live key }
        ensures packet { let left = left_location (packet_at self.old.live key) in
            self.new ≡ with_packet_at self.old key (carried_up left) }
        ensures marked { result ≡ (left_location (packet_at self.old.live key)).pending_returned }
    {
        let packet = self.live.packet_mut(key.slot());
        packet.leave();
        let marked = packet.pending_returned();
        packet.carry_up();
        marked
    }

    /// The packet tops out.
    fn top_out(&mut self, key: Key) -> WalkStep
        requires { Holds self.old.live key }
        ensures { record { slots = self.new; step = result }
            ≡ steps_out self.old key (packet_at self.old.live key) }
    {
        let packet = self.live.packet(key.slot());
        let step = WalkStep::TopsOut {
            status: packet.status(),
            info: packet.info(),
        };
        self.remove(key);
        step
    }
}
