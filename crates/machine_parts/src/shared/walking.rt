//! The completion of a packet.

ghost use Rattle.std.specs.Prelude.{◌≡◌, IsSome};

use super::Shared;
use iomgr::WalkStep;
use model::status::Status;
use model::world::Completion;

/// What a step of a packet's completion did: it has left the packet's current location.
#[derive(Clone, Copy)]
pub enum Walked {
    /// The location above is current, and the completion routine has to run for the device that set
    /// it.
    Runs(Completion),
    /// The location above is current.
    Ascends,
    /// The packet has topped out, with its final status and information, and its slot is free.
    TopsOut {
        number: u64,
        status: Status,
        info: u64,
    },
}

impl Shared {
    ghost use Rattle.laws_slots.specs.Slots.{packet_at};
    ghost use Rattle.machine_parts.specs.Packets.{packet_in_slot};
    ghost use Rattle.machine_parts.specs.Walks.{walks};

    /// One step of the completion of the packet of a key.
    pub fn walk(&mut self, key: u64) -> Walked
        requires { IsSome (packet_at self.old key) }
        ensures { record { shared = self.new; done = result }
            ≡ walks self.old key (packet_in_slot self.old key) }
    {
        self.packet_table.keys_are_in_order();
        let key = self.packet_table.used(key as usize);
        let number = self.packet_table.packet(key).number();
        match self.packet_table.walk_on(key) {
            WalkStep::Runs(completion) => Walked::Runs(completion),
            WalkStep::Ascends { marked: _ } => Walked::Ascends,
            WalkStep::TopsOut { status, info } => Walked::TopsOut {
                number,
                status,
                info,
            },
            WalkStep::Missing => unreachable!(),
        }
    }
}
