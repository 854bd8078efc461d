//! Instructions that send a packet to the lower driver, or complete it.

ghost use Rattle.std.specs.Prelude.{◌≡◌, ◌<◌, IsSome, Some};
ghost use Rattle.model.specs.declared.limits.TheConstants.{MAX_INSTRUCTIONS};
ghost use Rattle.laws_slots.specs.Words.{set_by, word, WordRoutine};
ghost use Rattle.model.specs.Set.{lower_of};
ghost use Rattle.machine_parts.specs.Left.{left_of};
ghost use Rattle.laws_slots.specs.WordsFit.{CanGoDown, IsKey};
ghost use Rattle.laws_slots.specs.WordStep.{call_step, complete_step, pass_step};
ghost use Rattle.laws_slots.specs.Slots.{packet_at};

use crate::reading::key;
use driver_set::{DriverSet, Register};
use laws_slots::WordActivation;
use machine_parts::activation::dispatched;
use machine_parts::{Managing, Over, Ran, Shared};
use model::status::Status;
use model::world::Completion;

/// The completion routine that a routine's driver sets, if it names one.
fn completion(a: &WordActivation, routine: Option<u8>) -> Option<Completion>
    ensures { result ≡ set_by a.now routine }
{
    let routine = routine?;
    Some(Completion {
        routine,
        device: a.device,
    })
}

/// The device below one that has a lower device.
fn lower(set: &DriverSet, device: u8) -> u8
    requires { IsSome (lower_of set.now device) }
    ensures { lower_of set.now device ≡ Some result }
{
    match set.lower(device) {
        Some(lower) => lower,
        None => unreachable!(),
    }
}

/// `pass r`: the lower driver is asked in the caller's location. Its routine then stands over the
/// caller's frame.
pub fn pass(shared: &mut Shared, set: &DriverSet, r: Register, a: &mut WordActivation) -> Ran
    requires near { a.old.position < MAX_INSTRUCTIONS }
    requires key { IsKey shared.old (word a.old r) }
    requires lower { IsSome (lower_of set.now a.old.device) }
    ensures { let lower = lower_of set.now a.old.device in
        let packet = packet_at shared.old (word a.old r) in
        left_of shared.new (WordRoutine a.new) result
        ≡ pass_step set.now shared.old a.old (word a.old r) lower packet }
{
    let key = key(shared, a, r);
    let lower = lower(set, a.device);
    let asked = shared.asked(key);
    shared.share(key, lower);
    a.position += 1;
    Ran::Under(dispatched(set, lower, asked, key))
}

/// `call r` and `call r f`: the lower driver is asked in a location of its own, with a completion
/// routine or none.
pub fn call(
    shared: &mut Shared,
    set: &DriverSet,
    r: Register,
    routine: Option<u8>,
    a: &mut WordActivation,
) -> Ran
    requires near { a.old.position < MAX_INSTRUCTIONS }
    requires key { IsKey shared.old (word a.old r) }
    requires lower { IsSome (lower_of set.now a.old.device) }
    requires room { CanGoDown shared.old (word a.old r) }
    ensures { let lower = lower_of set.now a.old.device in
        let packet = packet_at shared.old (word a.old r) in
        left_of shared.new (WordRoutine a.new) result
        ≡ call_step set.now shared.old a.old routine (word a.old r) lower packet }
{
    let key = key(shared, a, r);
    let lower = lower(set, a.device);
    let asked = shared.asked(key);
    shared.send_down(key, lower, completion(a, routine));
    a.position += 1;
    Ran::Under(dispatched(set, lower, asked, key))
}
/// `complete r STATUS`: IoCompleteRequest. The I/O manager's frame then stands over the routine's.
pub fn complete(shared: &mut Shared, r: Register, status: Status, a: &mut WordActivation) -> Ran
    requires near { a.old.position < MAX_INSTRUCTIONS }
    requires key { IsKey shared.old (word a.old r) }
    ensures { let packet = packet_at shared.old (word a.old r) in
        left_of shared.new (WordRoutine a.new) result
        ≡ complete_step shared.old a.old status (word a.old r) packet }
{
    let key = key(shared, a, r);
    shared.complete(key, status);
    a.position += 1;
    Ran::Under(Over::Manager(Managing::Completes(key)))
}
