//! The locks that instructions name.

use model::event::{Lock, OfDevice};
use model::instr::{Instr, SpinLock};

/// The lock that an instruction of a routine acquires or releases, if it does, by the device for
/// which the routine runs.
pub fn lock_named(instr: &Instr, device: u8) -> Option<Lock> {
    match *instr {
        Instr::Acquire(lock) | Instr::Release(lock) => Some(spin(device, lock)),
        Instr::AcquireCancel | Instr::ReleaseCancel => Some(Lock::SystemCancel),
        Instr::Const(_, _)
        | Instr::Move(_, _)
        | Instr::Clear(_)
        | Instr::Add(_, _)
        | Instr::Subtract(_, _)
        | Instr::JumpIfZero(_, _)
        | Instr::JumpIfLess(_, _, _)
        | Instr::Jump(_)
        | Instr::Loop(_)
        | Instr::End
        | Instr::Load(_, _)
        | Instr::Store(_, _)
        | Instr::LoadPaged(_, _)
        | Instr::StorePaged(_, _)
        | Instr::Get(_, _, _)
        | Instr::Put(_, _)
        | Instr::Mark(_)
        | Instr::Insert(_, _)
        | Instr::Remove(_, _, _)
        | Instr::Unlink(_, _)
        | Instr::Arm(_, _)
        | Instr::Disarm(_, _)
        | Instr::IfCancel(_, _)
        | Instr::Start(_)
        | Instr::Take(_, _)
        | Instr::Begin(_)
        | Instr::Next
        | Instr::Dequeue(_)
        | Instr::Pass(_)
        | Instr::Call(_, _)
        | Instr::Complete(_, _)
        | Instr::IfPending(_, _)
        | Instr::Ret(_) => None,
    }
}

/// A spin lock of a device.
fn spin(device: u8, lock: SpinLock) -> Lock {
    Lock::Spin(OfDevice {
        device,
        number: lock.index().min(255) as u8,
    })
}
