//! The owners of locks, and which DPCs are queued.

ghost use Rattle.std.specs.Prelude.{◌≡◌, IsTrue};
ghost use Rattle.hunt_worlds.specs.Alike.{LocksBelow, SameDpcs, SameLocks};
ghost use Rattle.model.specs.declared.limits.TheConstants.{SPIN_LOCKS};

use checked_parts::Shared;
use model::event::{Lock, OfDevice};
use model::limits::SPIN_LOCKS;

/// Whether the locks of a device have the same owners.
fn same_locks_of(ours: &Shared, its: &Shared, device: u8) -> bool
    ensures { IsTrue result → LocksBelow ours.now.locks its.now.locks device SPIN_LOCKS }
{
    for number in 0..SPIN_LOCKS as u8 {
        let lock = Lock::Spin(OfDevice { device, number });
        if ours.owner(lock) != its.owner(lock) {
            return false;
        }
    }
    true
}

/// Whether the locks of so many devices have the same owners.
pub(crate) fn same_locks(ours: &Shared, its: &Shared, devices: u8) -> bool
    ensures { IsTrue result → SameLocks ours.now.locks its.now.locks devices }
{
    for device in 0..devices {
        if !same_locks_of(ours, its, device) {
            return false;
        }
    }
    true
}

/// Whether the system cancel spin lock has the same owner.
pub(crate) fn same_cancel_lock(ours: &Shared, its: &Shared) -> bool
    ensures { IsTrue result
        → ours.now.locks.system_cancel ≡ its.now.locks.system_cancel }
{
    ours.owner(Lock::SystemCancel) == its.owner(Lock::SystemCancel)
}

/// Whether the DPCs of the same devices are queued, among so many.
pub(crate) fn same_dpcs(ours: &Shared, its: &Shared, devices: u8) -> bool
    ensures { IsTrue result → SameDpcs ours.now its.now devices }
{
    for device in 0..devices {
        if ours.is_queued(device) != its.is_queued(device) {
            return false;
        }
    }
    true
}
