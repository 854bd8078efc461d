//! Steps of the I/O manager.

ghost use Rattle.std.specs.Prelude.{◌≡◌, IsSome, None};
ghost use Rattle.model.specs.declared.event.Lock.TheVariants.{SystemCancel};
ghost use Rattle.model.specs.declared.world.CancelStep.TheVariants.{Acquire as AcquireStep};
ghost use Rattle.machine_parts.specs.Left.{left_of};
ghost use Rattle.laws_slots.specs.Fits.{CanAcquire, CancelFits};
ghost use Rattle.laws_slots.specs.WordStep.{cancel_acquires_step, cancel_ends_step};
ghost use Rattle.laws_slots.specs.WordStep.{cancel_exchanges_step, cancel_flags_step, cancel_step};
ghost use Rattle.laws_slots.specs.WordStep.{walk_step};
ghost use Rattle.laws_slots.specs.SlotStep.{if_numbered};
ghost use Rattle.laws_slots.specs.Words.{WordCancel, WordFrame, WordWalk};
ghost use Rattle.laws_slots.specs.Slots.{packet_at};

use driver_set::DriverSet;
use machine_parts::activation::{cancelled_by, completing};
use machine_parts::{Managing, Over, Ran, Shared, Walked};
use model::event::Lock;
use model::world::CancelStep;

/// It completes the packet of a key: completion leaves the current location.
pub fn walk(set: &DriverSet, shared: &mut Shared, key: u64) -> Ran
    requires { IsSome (packet_at shared.old key) }
    ensures { let packet = packet_at shared.old key in
        left_of shared.new (WordWalk key) result
        ≡ walk_step set.now shared.old key packet }
{
    match shared.walk(key) {
        Walked::Runs(completion) => Ran::Under(completing(set, completion, key)),
        Walked::Ascends => Ran::Steps,
        Walked::TopsOut {
            number,
            status,
            info,
        } => Ran::TopsOut {
            number,
            status,
            info,
        },
    }
}

/// A step of IoCancelIrp, on a thread.
pub fn cancel(
    set: &DriverSet,
    shared: &mut Shared,
    thread: u8,
    key: u64,
    number: u64,
    next: CancelStep,
) -> Ran
    requires { CancelFits shared.old thread next }
    ensures { left_of shared.new (WordCancel key number next) result
        ≡ cancel_step set.now shared.old thread key number next }
{
    match next {
        CancelStep::Acquire => acquire(shared, thread, key, number),
        CancelStep::SetFlag => set_flag(shared, key, number),
        CancelStep::Exchange => exchange(set, shared, key, number),
    }
}

/// It goes on with the cancelling of a packet.
fn cancelling(key: u64, number: u64, next: CancelStep) -> Ran
    ensures { result ≡ Ran.Becomes (Over.Manager (Managing.Cancels key number next)) }
{
    Ran::Becomes(Over::Manager(Managing::Cancels { key, number, next }))
}

/// The first step: it acquires the system cancel spin lock, or waits for its owner.
fn acquire(shared: &mut Shared, thread: u8, key: u64, number: u64) -> Ran
    requires { CanAcquire shared.old thread SystemCancel }
    ensures { let owner = shared.old.locks.system_cancel in
        left_of shared.new (WordCancel key number AcquireStep) result
        ≡ cancel_acquires_step shared.old thread key number owner }
{
    if !shared.acquire(Lock::SystemCancel, thread) {
        return Ran::Waits;
    }
    cancelling(key, number, CancelStep::SetFlag)
}

/// The second step: it sets the packet's cancel flag, if the packet is in its slot.
fn set_flag(shared: &mut Shared, key: u64, number: u64) -> Ran
    ensures { (f : WordFrame)
        → let packet = if_numbered (packet_at shared.old key) number in
        left_of shared.new f result ≡ cancel_flags_step shared.old key number packet }
{
    if !shared.is_there(key, number) {
        return release(shared);
    }
    shared.set_cancel(key);
    cancelling(key, number, CancelStep::Exchange)
}

/// The third step: it exchanges the packet's cancel routine with none, if the packet is in its
/// slot. The one that was set begins in the place of IoCancelIrp, with the lock held.
fn exchange(set: &DriverSet, shared: &mut Shared, key: u64, number: u64) -> Ran
    ensures { (f : WordFrame)
        → let packet = if_numbered (packet_at shared.old key) number in
        left_of shared.new f result ≡ cancel_exchanges_step set.now shared.old key packet }
{
    if !shared.is_there(key, number) {
        return release(shared);
    }
    let Some(armer) = shared.exchange(key, None) else {
        return release(shared);
    };
    match cancelled_by(set, armer, key) {
        Some(over) => Ran::Becomes(over),
        None => release(shared),
    }
}

/// The system cancel spin lock is released, and IoCancelIrp has ended.
fn release(shared: &mut Shared) -> Ran
    ensures { (f : WordFrame) → left_of shared.new f result ≡ cancel_ends_step shared.old }
{
    shared.release(Lock::SystemCancel);
    Ran::Ends
}
