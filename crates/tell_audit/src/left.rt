//! Locks that idle threads own.

ghost use Rattle.std.specs.Prelude.{◌≡◌, ◌++◌, ◌≤◌, IfOk, OnOk, length};
ghost use Rattle.tell_audit.specs.Left.{left_at, left_below, left_before, left_locks};
ghost use Rattle.model.specs.View.{busy_at};

use checked::Checked;
use model::event::{Lock, OfDevice};
use model::limits::SPIN_LOCKS;
use std::alloc::{AllocError, Global};

/// A lock that is left behind, and the idle thread that owns it.
#[derive(Clone, Copy)]
pub struct LeftLock {
    pub lock: Lock,
    pub thread: u8,
}

/// Whether a thread has frames.
fn is_busy(machine: &Checked, thread: u8) -> bool
    ensures { result ≡ busy_at machine.now.world thread }
{
    match machine.thread(thread) {
        Some(view) => view.frames > 0,
        None => false,
    }
}

/// Adds a lock, if it is left behind.
fn add_left(machine: &Checked, lock: Lock, left: &mut Vec<LeftLock>) -> Result<(), AllocError>
    ensures { OnOk result (left.new.items ≡ left.old.items ++ left_at machine.now.world lock) }
{
    if let Some(Some(thread)) = machine.shared().owner(lock) {
        if !is_busy(machine, thread) {
            left.push(LeftLock { lock, thread })?;
        }
    }
    Ok(())
}

/// Adds the spin locks of a device that are left behind.
fn add_device(machine: &Checked, device: u8, left: &mut Vec<LeftLock>) -> Result<(), AllocError>
    ensures { OnOk result
        (left.new.items ≡ left.old.items ++ left_below machine.now.world device SPIN_LOCKS) }
{
    for number in 0..SPIN_LOCKS as u8 {
        add_left(machine, Lock::Spin(OfDevice { device, number }), left)?;
    }
    Ok(())
}

/// The locks that idle threads own: the system cancel spin lock first, and those of devices in
/// order.
///
/// # Errors
///
/// When memory runs out.
pub fn left_locks(alloc: Global, machine: &Checked) -> Result<Vec<LeftLock>, AllocError>
    ensures { IfOk result (λ left. left.items
        ≡ left_locks machine.now.world (length machine.now.set.devices)) }
{
    let mut left = Vec::new(alloc);
    add_left(machine, Lock::SystemCancel, &mut left)?;
    let devices = machine.set().devices().len() as u8;
    for device in 0..devices {
        add_device(machine, device, &mut left)?;
    }
    Ok(left)
}
