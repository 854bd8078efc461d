//! Instructions on the queues of a routine's device.

ghost use Rattle.std.specs.Prelude.{◌≡◌, ◌<◌};
ghost use Rattle.model.specs.declared.limits.TheConstants.{MAX_INSTRUCTIONS};
ghost use Rattle.laws_slots.specs.Fits.{CanBeListed, HasQueue};
ghost use Rattle.laws_slots.specs.WordsFit.{IsKey};
ghost use Rattle.laws_slots.specs.WordStep.{goes_on, insert_step, remove_step, unlink_step};
ghost use Rattle.laws_slots.specs.Words.{word};
ghost use Rattle.laws_slots.specs.Slots.{slot_queue};

use crate::reading::{key, queue_is_there};
use driver_set::Register;
use laws_slots::WordActivation;
use machine_parts::{Shared, local};

/// `insert r q`: the packet goes to the back of a queue.
pub fn insert(shared: &mut Shared, r: Register, q: u8, a: &mut WordActivation)
    requires near { a.old.position < MAX_INSTRUCTIONS }
    requires key { IsKey shared.old (word a.old r) }
    requires queue { HasQueue shared.old a.old.device q }
    requires unlisted { CanBeListed shared.old (word a.old r) }
    ensures { let entries = slot_queue shared.old a.old.device q in
        goes_on shared.new a.new ≡ insert_step shared.old a.old q (word a.old r) entries }
{
    queue_is_there(shared, a.device, q);
    let key = key(shared, a, r);
    shared.insert(a.device, q, key);
    a.position += 1;
}

/// `remove r q L`: the first packet of a queue is taken off; jumps where it is empty.
pub fn remove(shared: &mut Shared, r: Register, q: u8, label: u16, a: &mut WordActivation)
    requires near { a.old.position < MAX_INSTRUCTIONS }
    requires queue { HasQueue shared.old a.old.device q }
    ensures { let entries = slot_queue shared.old a.old.device q in
        goes_on shared.new a.new ≡ remove_step shared.old a.old r q label entries }
{
    queue_is_there(shared, a.device, q);
    match shared.remove(a.device, q) {
        Some(key) => local::set(r, key, a),
        None => a.position = label,
    }
}

/// `unlink r q`: the packet is taken off a queue, wherever it stands there.
pub fn unlink(shared: &mut Shared, r: Register, q: u8, a: &mut WordActivation)
    requires near { a.old.position < MAX_INSTRUCTIONS }
    requires key { IsKey shared.old (word a.old r) }
    requires queue { HasQueue shared.old a.old.device q }
    ensures { let entries = slot_queue shared.old a.old.device q in
        goes_on shared.new a.new ≡ unlink_step shared.old a.old q (word a.old r) entries }
{
    queue_is_there(shared, a.device, q);
    let key = key(shared, a, r);
    let _stood = shared.unlink(a.device, q, key);
    a.position += 1;
}
