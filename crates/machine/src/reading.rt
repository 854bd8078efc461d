//! What an instruction looks for among what threads share, where it is known to be there.

ghost use Rattle.std.specs.Prelude.{◌≡◌, ◌<◌, IsSome, Some, length, slice_get};
ghost use Rattle.model.specs.declared.limits.TheConstants.{MAX_QUEUES};
ghost use Rattle.laws_slots.specs.Fits.{HasCells, HasQueue, HasStart};
ghost use Rattle.laws_slots.specs.WordsFit.{IsKey};
ghost use Rattle.laws_slots.specs.Words.{word};
ghost use Rattle.laws_slots.specs.Slots.{packet_at, slot_queue, slot_start};
ghost use Rattle.machine_parts.specs.Devices.{cells_in, entries_in, start_in};
ghost use Rattle.machine_parts.specs.Packets.{packet_in_slot};

use driver_set::Register;
use laws_slots::WordActivation;
use machine_parts::{Shared, reading};

/// The key in a register, of a slot that has a packet.
pub fn key(shared: &Shared, a: &WordActivation, r: Register) -> u64
    requires { IsKey shared.now (word a.now r) }
    ensures key { result ≡ word a.now r }
    ensures used { IsSome (packet_at shared.now result) }
    ensures packet { packet_at shared.now result ≡ Some (packet_in_slot shared.now result) }
{
    let _ = shared;
    reading::word(a, r)
}

/// The cells of a device are there. It runs nothing.
pub fn cells_are_there(shared: &Shared, device: u8)
    requires { HasCells shared.now device }
    ensures { slice_get shared.now.cells device ≡ Some (cells_in shared.now device) }
{}

/// A queue of a device is there. It runs nothing.
pub fn queue_is_there(shared: &Shared, device: u8, queue: u8)
    requires { HasQueue shared.now device queue }
    ensures device { device < length shared.now.queues }
    ensures queue { queue < MAX_QUEUES }
    ensures entries { let entries = entries_in shared.now device queue in
        slot_queue shared.now device queue ≡ Some entries }
{}

/// What a device has for StartIo is there. It runs nothing.
pub fn start_is_there(shared: &Shared, device: u8)
    requires { HasStart shared.now device }
    ensures device { device < length shared.now.starts }
    ensures start { slot_start shared.now device ≡ Some (start_in shared.now device) }
{}
