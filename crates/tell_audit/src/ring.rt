//! Threads that wait for each other in a ring.

ghost use Rattle.std.specs.Prelude.{◌≡◌, Some};
ghost use Rattle.laws_runs.specs.Waiting.{acquired_by, other_owner, sought_by, waits_for};
ghost use Rattle.tell_audit.specs.Ring.{is_in_ring, is_met};

use checked::Checked;
use checked_parts::shared::locks::spin_lock;
use checked_parts::{Frame, Managing};
use driver_set::Instr;
use model::event::Lock;
use model::limits::MAX_THREADS;
use model::world::{Activation, CancelStep};
use tell_uses::standing::{instruction_at, top_frame};

/// The lock that an instruction acquires, for the device of an activation.
fn acquired_by(a: &Activation, instr: &Instr) -> Option<Lock>
    ensures { result ≡ acquired_by a.now (Some instr.now) }
{
    match *instr {
        Instr::Acquire(lock) => Some(spin_lock(a, lock)),
        Instr::AcquireCancel => Some(Lock::SystemCancel),
        _ => None,
    }
}

/// The lock that the next step of a frame acquires.
pub fn sought_by(machine: &Checked, frame: &Frame) -> Option<Lock>
    ensures { result ≡ sought_by machine.now.set frame.now }
{
    if let Some(a) = frame.activation() {
        return match instruction_at(machine.set(), a) {
            Some(instr) => acquired_by(a, &instr),
            None => None,
        };
    }
    match frame.manager()? {
        Managing::Completes(_) => None,
        Managing::Cancels(canceller) => match canceller.next {
            CancelStep::Acquire => Some(Lock::SystemCancel),
            _ => None,
        },
    }
}

/// Who owns a lock, unless it is this thread.
fn other_owner(thread: u8, owner: Option<Option<u8>>) -> Option<u8>
    ensures { result ≡ other_owner thread owner }
{
    match owner {
        Some(Some(owner)) if owner != thread => Some(owner),
        _ => None,
    }
}

/// The thread that a thread waits for: the owner of the lock that its top frame acquires next.
pub fn waits_for(machine: &Checked, thread: u8) -> Option<u8>
    ensures { result ≡ waits_for machine.now.set machine.now.world thread }
{
    let top = top_frame(machine, thread)?;
    let lock = sought_by(machine, top)?;
    other_owner(thread, machine.shared().owner(lock))
}

/// Whether a thread is met again within so many steps from one to the thread that it waits for.
fn is_met(machine: &Checked, thread: u8, steps: usize, next: Option<u8>) -> bool
    ensures { result ≡ is_met machine.now.set machine.now.world thread steps next }
{
    let Some(next) = next else {
        return false;
    };
    if steps == 0 {
        return false;
    }
    next == thread || is_met(machine, thread, steps - 1, waits_for(machine, next))
}

/// Whether a thread waits in a ring: from one to the thread that it waits for it is met again.
pub fn is_in_ring(machine: &Checked, thread: u8) -> bool
    ensures { result ≡ is_in_ring machine.now.set machine.now.world thread }
{
    is_met(machine, thread, MAX_THREADS, waits_for(machine, thread))
}
