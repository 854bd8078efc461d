//! Which thread owns each lock.

ghost use Rattle.std.specs.Prelude.{◌≡◌, ◌≢◌, ◌↔◌, Some, None, IfOk, IsSome, IsTrue, slice_set};
ghost use Rattle.std.specs.Prelude.{cond, if◌then◌else◌};
ghost use Rattle.std.specs.List.{list_any};
ghost use Rattle.irql_locks.specs.Owns.{is_owner, owns_one};

use model::event::Lock;
use model::limits::SPIN_LOCKS;
use model::world::Irql;
use std::alloc::{AllocError, Global};
use std::marker::Model;

/// The owner of each lock, by the thread's number: of the system cancel spin lock, and by device of
/// its eight spin locks. A lock without an owner is free.
#[derive(Drop)]
pub struct LockTable {
    system_cancel: Option<u8>,
    spin: Vec<[Option<u8>; SPIN_LOCKS]>,
}

impl Model for LockTable {
    ghost use Rattle.model.specs.World.{Locks};

    ghost Value = { Locks };

    ghost view = { λ t. record { system_cancel = t.system_cancel; spin = t.spin.items } };
}

/// Whether the thread is the owner of a lock.
fn is_owner(thread: u8, owner: Option<u8>) -> bool
    ensures { result ≡ is_owner thread owner }
{
    owner == Some(thread)
}

/// Whether the thread owns one of a device's locks.
fn owns_one(thread: u8, owners: &[Option<u8>; SPIN_LOCKS]) -> bool
    ensures { result ≡ owns_one thread owners.now }
{
    owners.iter().any(|owner| is_owner(thread, *owner))
}

/// Whether the thread owns a spin lock of a device.
fn owns_spin(thread: u8, spin: &[[Option<u8>; SPIN_LOCKS]]) -> bool
    ensures { result ≡ list_any (owns_one thread) spin.now }
{
    spin.iter().any(|owners| owns_one(thread, owners))
}

/// The same owners, but for one.
fn replaced(
    mut owners: [Option<u8>; SPIN_LOCKS],
    number: usize,
    owner: Option<u8>,
) -> [Option<u8>; SPIN_LOCKS]
    ensures { result ≡ slice_set owners number owner }
{
    if number < SPIN_LOCKS {
        owners[number] = owner;
    }
    owners
}

impl LockTable {
    ghost use Rattle.irql_locks.specs.Owns.{OwnsSome, owns_any};
    ghost use Rattle.model.specs.World.{free_locks, owner_of, with_owner};

    /// The locks of so many devices, all free. It never needs memory after that.
    pub fn new(alloc: Global, devices: usize) -> Result<LockTable, AllocError>
        ensures { IfOk result (λ table. table ≡ free_locks devices) }
    {
        Ok(LockTable {
            system_cancel: None,
            spin: vec![in alloc; [None; SPIN_LOCKS]; devices]?,
        })
    }

    /// The owner of a lock, if there is such a lock: none while it is free.
    pub fn owner(&self, lock: Lock) -> Option<Option<u8>>
        ensures { result ≡ owner_of self.now lock }
    {
        match lock {
            Lock::SystemCancel => Some(self.system_cancel),
            Lock::Spin(of) => self
                .spin
                .get(of.device as usize)?
                .get(of.number as usize)
                .copied(),
        }
    }

    /// Makes it the owner of a lock, or leaves the lock free.
    fn set_owner(&mut self, lock: Lock, owner: Option<u8>)
        requires { IsSome (owner_of self.old lock) }
        ensures { self.new ≡ with_owner self.old lock owner }
    {
        match lock {
            Lock::SystemCancel => self.system_cancel = owner,
            Lock::Spin(of) => {
                let owners = match self.spin.get(of.device as usize) {
                    Some(owners) => replaced(*owners, of.number as usize, owner),
                    None => return,
                };
                self.spin[of.device as usize] = owners;
            }
        }
    }

    /// Makes the thread the owner of a lock that is free. It answers false, and nothing has
    /// changed, exactly where another thread owns the lock.
    pub fn acquire(&mut self, lock: Lock, thread: u8) -> bool
        requires there { IsSome (owner_of self.old lock) }
        requires once { owner_of self.old lock ≢ Some (Some thread) }
        ensures free { IsTrue result ↔ (owner_of self.old lock ≡ Some None) }
        ensures owners { self.new
            ≡ (if result then with_owner self.old lock (Some thread) else self.old) }
    {
        if self.owner(lock) != Some(None) {
            return false;
        }
        self.set_owner(lock, Some(thread));
        true
    }

    /// Leaves a lock free.
    pub fn release(&mut self, lock: Lock)
        requires { IsSome (owner_of self.old lock) }
        ensures { self.new ≡ with_owner self.old lock None }
    {
        self.set_owner(lock, None);
    }

    /// Whether the thread owns any lock.
    pub fn owns_any(&self, thread: u8) -> bool
        ensures lock { IsTrue result ↔ OwnsSome self.now thread }
        ensures test { result ≡ owns_any self.now thread }
    {
        owns_spin(thread, self.spin.as_slice()) || is_owner(thread, self.system_cancel)
    }

    /// The level of a thread whose lowest frame has a level: DISPATCH_LEVEL while it owns a lock.
    pub fn level(&self, thread: u8, root: Irql) -> Irql
        ensures { result ≡ (if owns_any self.now thread then Irql.Dispatch else root) }
    {
        if self.owns_any(thread) {
            Irql::Dispatch
        } else {
            root
        }
    }
}
