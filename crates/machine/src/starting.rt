//! Instructions on what a routine's device has for StartIo.

ghost use Rattle.std.specs.Prelude.{◌≡◌, ◌<◌, IfSome, IsSome};
ghost use Rattle.model.specs.declared.limits.TheConstants.{MAX_INSTRUCTIONS};
ghost use Rattle.laws_slots.specs.Fits.{CanBeListed, CanDisarmNext, HasStart};
ghost use Rattle.laws_slots.specs.WordsFit.{IsKey};
ghost use Rattle.laws_slots.specs.WordStep.{begin_step, dequeue_step, goes_on, next_step};
ghost use Rattle.laws_slots.specs.WordStep.{start_step, take_step};
ghost use Rattle.laws_slots.specs.Words.{next_disarmed as disarmed_of, word};
ghost use Rattle.laws_slots.specs.Slots.{packet_at, slot_start};
ghost use Rattle.machine_parts.specs.Devices.{start_in};

use crate::reading::{key, start_is_there};
use driver_set::{DriverSet, QueueName, Register};
use laws_slots::WordActivation;
use machine_parts::{Shared, local};
use model::world::Armer;

/// `start r`: IoStartPacket. Where the driver has a cancel routine for the device queue, a packet
/// that has to wait there has it from now on.
pub fn start(shared: &mut Shared, set: &DriverSet, r: Register, a: &mut WordActivation)
    requires near { a.old.position < MAX_INSTRUCTIONS }
    requires key { IsKey shared.old (word a.old r) }
    requires start { HasStart shared.old a.old.device }
    requires unlisted { CanBeListed shared.old (word a.old r) }
    ensures { let start = slot_start shared.old a.old.device in
        goes_on shared.new a.new ≡ start_step set.now shared.old a.old (word a.old r) start }
{
    start_is_there(shared, a.device);
    let key = key(shared, a, r);
    let waits = set.has_cancel(a.driver, QueueName::DeviceQueue) && shared.is_busy(a.device);
    shared.start(a.device, key);
    a.position += 1;
    if waits {
        let word = Armer {
            device: a.device,
            queue: QueueName::DeviceQueue,
        };
        let _before = shared.exchange(key, Some(word));
    }
}

/// `take r L`: the packet in the current slot is taken out of it; jumps where there is none.
pub fn take(shared: &mut Shared, r: Register, label: u16, a: &mut WordActivation)
    requires near { a.old.position < MAX_INSTRUCTIONS }
    requires start { HasStart shared.old a.old.device }
    ensures { let start = slot_start shared.old a.old.device in
        goes_on shared.new a.new ≡ take_step shared.old a.old r label start }
{
    start_is_there(shared, a.device);
    match shared.take(a.device) {
        Some(key) => local::set(r, key, a),
        None => a.position = label,
    }
}

/// `begin r`: the packet is put into the current slot.
pub fn begin(shared: &mut Shared, r: Register, a: &mut WordActivation)
    requires near { a.old.position < MAX_INSTRUCTIONS }
    requires key { IsKey shared.old (word a.old r) }
    requires start { HasStart shared.old a.old.device }
    ensures { let start = slot_start shared.old a.old.device in
        goes_on shared.new a.new ≡ begin_step shared.old a.old (word a.old r) start }
{
    start_is_there(shared, a.device);
    let key = key(shared, a, r);
    shared.begin(a.device, key);
    a.position += 1;
}

/// The key of the packet whose cancel word `next` empties: the first one that waits, where the
/// driver has a cancel routine for the device queue.
fn next_disarmed(shared: &Shared, set: &DriverSet, a: &WordActivation) -> Option<u64>
    requires start { HasStart shared.now a.now.device }
    requires there { CanDisarmNext set.now shared.now a.now.driver a.now.device }
    ensures first { result ≡ disarmed_of set.now a.now (start_in shared.now a.now.device) }
    ensures used { IfSome result (λ key. IsSome (packet_at shared.now key)) }
{
    start_is_there(shared, a.device);
    if set.has_cancel(a.driver, QueueName::DeviceQueue) {
        shared.first_waiting(a.device)
    } else {
        None
    }
}

/// `next`: IoStartNextPacket. Where the driver has a cancel routine for the device queue, the
/// packet that is started has none from now on.
pub fn start_next(shared: &mut Shared, set: &DriverSet, a: &mut WordActivation)
    requires near { a.old.position < MAX_INSTRUCTIONS }
    requires start { HasStart shared.old a.old.device }
    requires there { CanDisarmNext set.now shared.old a.old.driver a.old.device }
    ensures { let start = slot_start shared.old a.old.device in
        goes_on shared.new a.new ≡ next_step set.now shared.old a.old start }
{
    start_is_there(shared, a.device);
    let disarmed = next_disarmed(shared, set, a);
    shared.start_next(a.device);
    a.position += 1;
    if let Some(key) = disarmed {
        let _before = shared.exchange(key, None);
    }
}

/// `dequeue r`: the packet is taken off the device queue, wherever it stands there.
pub fn dequeue(shared: &mut Shared, r: Register, a: &mut WordActivation)
    requires near { a.old.position < MAX_INSTRUCTIONS }
    requires key { IsKey shared.old (word a.old r) }
    requires start { HasStart shared.old a.old.device }
    ensures { let start = slot_start shared.old a.old.device in
        goes_on shared.new a.new ≡ dequeue_step shared.old a.old (word a.old r) start }
{
    start_is_there(shared, a.device);
    let key = key(shared, a, r);
    let _stood = shared.dequeue(a.device, key);
    a.position += 1;
}
