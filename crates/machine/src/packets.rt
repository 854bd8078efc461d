//! Instructions on a packet.

ghost use Rattle.std.specs.Prelude.{◌≡◌, ◌<◌};
ghost use Rattle.model.specs.declared.limits.TheConstants.{MAX_INSTRUCTIONS};
ghost use Rattle.laws_slots.specs.WordsFit.{IsKey};
ghost use Rattle.laws_slots.specs.WordStep.{arm_step, ask_step, disarm_step, get_step, goes_on};
ghost use Rattle.laws_slots.specs.WordStep.{look_step, mark_step, put_step};
ghost use Rattle.laws_slots.specs.Words.{word};
ghost use Rattle.laws_slots.specs.Slots.{packet_at};

use crate::reading::key;
use driver_set::{Field, QueueName, Register};
use laws_slots::WordActivation;
use machine_parts::{Shared, local, reading};
use model::world::Armer;

/// `get r s F`: the register becomes a field of the packet.
pub fn get(shared: &Shared, r: Register, s: Register, field: Field, a: &mut WordActivation)
    requires near { a.old.position < MAX_INSTRUCTIONS }
    requires key { IsKey shared.now (word a.old s) }
    ensures { let packet = packet_at shared.now (word a.old s) in
        goes_on shared.now a.new ≡ get_step shared.now a.old r field packet }
{
    let number = shared.get(key(shared, a, s), field);
    local::set(r, number, a);
}

/// `put s r`: IoStatus.Information of the packet becomes a number.
pub fn put(shared: &mut Shared, s: Register, r: Register, a: &mut WordActivation)
    requires near { a.old.position < MAX_INSTRUCTIONS }
    requires key { IsKey shared.old (word a.old s) }
    ensures { let packet = packet_at shared.old (word a.old s) in
        goes_on shared.new a.new
        ≡ put_step shared.old a.old (word a.old s) (word a.old r) packet }
{
    let key = key(shared, a, s);
    shared.put(key, reading::word(a, r));
    a.position += 1;
}

/// `mark r`: IoMarkIrpPending.
pub fn mark(shared: &mut Shared, r: Register, a: &mut WordActivation)
    requires near { a.old.position < MAX_INSTRUCTIONS }
    requires key { IsKey shared.old (word a.old r) }
    ensures { let packet = packet_at shared.old (word a.old r) in
        goes_on shared.new a.new ≡ mark_step shared.old a.old (word a.old r) packet }
{
    let key = key(shared, a, r);
    shared.mark(key);
    a.position += 1;
}

/// `arm r q`: IoSetCancelRoutine with the cancel routine of a queue.
pub fn arm(shared: &mut Shared, r: Register, q: u8, a: &mut WordActivation)
    requires near { a.old.position < MAX_INSTRUCTIONS }
    requires key { IsKey shared.old (word a.old r) }
    ensures { let packet = packet_at shared.old (word a.old r) in
        goes_on shared.new a.new ≡ arm_step shared.old a.old q (word a.old r) packet }
{
    let key = key(shared, a, r);
    let word = Armer {
        device: a.device,
        queue: QueueName::Declared(q),
    };
    let _before = shared.exchange(key, Some(word));
    a.position += 1;
}

/// `disarm r L`: IoSetCancelRoutine with none; jumps where none was set.
pub fn disarm(shared: &mut Shared, r: Register, label: u16, a: &mut WordActivation)
    requires near { a.old.position < MAX_INSTRUCTIONS }
    requires key { IsKey shared.old (word a.old r) }
    ensures { let packet = packet_at shared.old (word a.old r) in
        goes_on shared.new a.new ≡ disarm_step shared.old a.old label (word a.old r) packet }
{
    let key = key(shared, a, r);
    let was = shared.exchange(key, None);
    local::jump_if(label, was.is_none(), a);
}

/// `ifcancel r L`: jumps if Irp->Cancel is set.
pub fn jump_if_cancelled(shared: &Shared, r: Register, label: u16, a: &mut WordActivation)
    requires near { a.old.position < MAX_INSTRUCTIONS }
    requires key { IsKey shared.now (word a.old r) }
    ensures { let packet = packet_at shared.now (word a.old r) in
        goes_on shared.now a.new ≡ ask_step shared.now a.old label packet }
{
    let cancelled = shared.is_cancelled(key(shared, a, r));
    local::jump_if(label, cancelled, a);
}

/// `ifpending r L`: jumps if Irp->PendingReturned is set.
pub fn jump_if_pending(shared: &Shared, r: Register, label: u16, a: &mut WordActivation)
    requires near { a.old.position < MAX_INSTRUCTIONS }
    requires key { IsKey shared.now (word a.old r) }
    ensures { let packet = packet_at shared.now (word a.old r) in
        goes_on shared.now a.new ≡ look_step shared.now a.old label packet }
{
    let pending = shared.is_pending(key(shared, a, r));
    local::jump_if(label, pending, a);
}
