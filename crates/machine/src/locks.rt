//! Instructions on locks.

ghost use Rattle.std.specs.Prelude.{◌≡◌, ◌<◌};
ghost use Rattle.model.specs.declared.limits.TheConstants.{MAX_INSTRUCTIONS};
ghost use Rattle.laws_slots.specs.Words.{spin_lock as spin_lock_of, WordRoutine};
ghost use Rattle.model.specs.World.{owner_of};
ghost use Rattle.machine_parts.specs.Left.{left_of};
ghost use Rattle.laws_slots.specs.Fits.{CanAcquire, HasLock};
ghost use Rattle.laws_slots.specs.WordStep.{acquire_step, goes_on, release_step};

use driver_set::SpinLock;
use laws_slots::WordActivation;
use machine_parts::{Ran, Shared};
use model::event::{Lock, OfDevice};

/// A spin lock of the routine's device.
pub fn spin_lock(a: &WordActivation, lock: SpinLock) -> Lock
    ensures { result ≡ spin_lock_of a.now lock }
{
    Lock::Spin(OfDevice {
        device: a.device,
        number: lock.index() as u8,
    })
}

/// `acquire l` and `acqc`: the thread acquires a lock, or waits for its owner.
pub fn acquire(shared: &mut Shared, thread: u8, lock: Lock, a: &mut WordActivation) -> Ran
    requires near { a.old.position < MAX_INSTRUCTIONS }
    requires lock { CanAcquire shared.old thread lock }
    ensures { let owner = owner_of shared.old.locks lock in
        left_of shared.new (WordRoutine a.new) result
        ≡ acquire_step shared.old thread a.old lock owner }
{
    if !shared.acquire(lock, thread) {
        return Ran::Waits;
    }
    a.position += 1;
    Ran::Steps
}

/// `release l` and `relc`: the lock has no owner any more.
pub fn release(shared: &mut Shared, lock: Lock, a: &mut WordActivation)
    requires near { a.old.position < MAX_INSTRUCTIONS }
    requires lock { HasLock shared.old lock }
    ensures { goes_on shared.new a.new ≡ release_step shared.old a.old lock }
{
    shared.release(lock);
    a.position += 1;
}
