//! Locks, as threads acquire and release them.

ghost use Rattle.std.specs.Prelude.{◌≡◌, ◌≢◌, ◌↔◌, IsSome, IsTrue, None, Some, if◌then◌else◌};

use super::Shared;
use model::event::Lock;

impl Shared {
    ghost use Rattle.model.specs.World.{owner_of, with_owner};
    ghost use Rattle.laws_slots.specs.Slots.{with_slot_locks};

    /// The owner of a lock, if there is such a lock: none while it is free.
    pub fn owner(&self, lock: Lock) -> Option<Option<u8>>
        ensures { result ≡ owner_of self.now.locks lock }
    {
        self.lock_table.owner(lock)
    }

    /// A thread acquires a lock that is there and isn't its own. It answers false, and nothing has
    /// changed, exactly where another thread owns it.
    pub fn acquire(&mut self, lock: Lock, thread: u8) -> bool
        requires there { IsSome (owner_of self.old.locks lock) }
        requires once { owner_of self.old.locks lock ≢ Some (Some thread) }
        ensures free { IsTrue result ↔ (owner_of self.old.locks lock ≡ Some None) }
        ensures locks { let owners = with_owner self.old.locks lock (Some thread) in
            self.new ≡ (if result then with_slot_locks self.old owners else self.old) }
    {
        self.lock_table.acquire(lock, thread)
    }

    /// A lock that is there has no owner any more.
    pub fn release(&mut self, lock: Lock)
        requires { IsSome (owner_of self.old.locks lock) }
        ensures { self.new ≡ with_slot_locks self.old (with_owner self.old.locks lock None) }
    {
        self.lock_table.release(lock);
    }
}
