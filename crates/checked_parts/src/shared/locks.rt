//! Locks, as instructions acquire and release them.

ghost use Rattle.std.specs.Prelude.{◌≡◌, ◌<◌};
ghost use Rattle.model.specs.declared.limits.TheConstants.{MAX_INSTRUCTIONS};
ghost use Rattle.model.specs.Effect.{spin_lock as spin_lock_of};

use super::Shared;
use crate::{Ran, Runner, wrong_at};
use driver_set::SpinLock;
use model::event::{Bug, BugCheck, Lock, OfDevice, Reply, Subject};
use model::world::Activation;

/// A spin lock of the activation's device.
pub fn spin_lock(a: &Activation, lock: SpinLock) -> Lock
    ensures { result ≡ spin_lock_of a.now lock }
{
    Lock::Spin(OfDevice {
        device: a.device,
        number: lock.index() as u8,
    })
}

/// A bug check about a lock.
pub fn lock_bug(check: BugCheck, lock: Lock) -> Reply
    ensures { result ≡ Reply.Bug (record { check = check; subject = Subject.Lock lock }) }
{
    Reply::Bug(Bug {
        check,
        subject: Subject::Lock(lock),
    })
}

impl Shared {
    ghost use Rattle.checked_parts.specs.Ran.{LeavesOn};
    ghost use Rattle.model.specs.Effect.{acquire_effect, release_effect};
    ghost use Rattle.model.specs.World.{owner_of};

    /// `acquire l` and `acqc`: the thread acquires a lock, or waits for its owner.
    pub fn acquire(&mut self, runner: Runner, lock: Lock, a: &mut Activation) -> Ran
        requires { a.old.position < MAX_INSTRUCTIONS }
        ensures { let owner = owner_of self.old.locks lock in
            let acquired = acquire_effect self.old runner.thread a.old lock owner in
            LeavesOn runner self.old a.old acquired self.new a.new result }
    {
        let Some(owner) = self.lock_table.owner(lock) else {
            return Ran::Stays(wrong_at(a));
        };
        if owner == Some(runner.thread) {
            return Ran::Stays(lock_bug(BugCheck::SpinLockAlreadyOwned, lock));
        }
        if !self.lock_table.acquire(lock, runner.thread) {
            return Ran::Stays(Reply::Waited);
        }
        a.position += 1;
        Ran::Stays(Reply::Stepped)
    }

    /// `release l` and `relc`: the thread releases a lock that it owns.
    pub fn release(&mut self, runner: Runner, lock: Lock, a: &mut Activation) -> Ran
        requires { a.old.position < MAX_INSTRUCTIONS }
        ensures { let released = release_effect self.old a.old lock (owner_of self.old.locks lock)
            in
            LeavesOn runner self.old a.old released self.new a.new result }
    {
        let Some(owner) = self.lock_table.owner(lock) else {
            return Ran::Stays(wrong_at(a));
        };
        if owner != Some(runner.thread) {
            return Ran::Stays(lock_bug(BugCheck::SpinLockNotOwned, lock));
        }
        self.lock_table.release(lock);
        a.position += 1;
        Ran::Stays(Reply::Stepped)
    }
}
