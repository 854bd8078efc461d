//! Which steps are a thread's own: others can neither see them nor take part in them, so that it
//! doesn't matter when they are made.

use checked::Checked;
use driver_set::Instr;
use model::register::Register;
use model::world::{Activation, Value};
use std::alloc::{AllocError, Global};
use tell_audit::sites::{Site, sites_of};
use tell_uses::standing::{instruction_at, top_frame};

/// Whether the next step of a thread is its own: that of a routine which touches no more than
/// packets that no other names.
pub(crate) fn is_local(alloc: Global, machine: &Checked, thread: u8) -> Result<bool, AllocError> {
    let Some(top) = top_frame(machine, thread) else {
        return Ok(false);
    };
    let Some(a) = top.activation() else {
        return Ok(false);
    };
    let Some(instr) = instruction_at(machine.set(), a) else {
        return Ok(true);
    };
    if let Instr::Ret(_) = instr {
        return are_own(alloc, machine, thread, &a.registers);
    }
    is_own_step(alloc, machine, thread, a, &instr)
}

/// Whether the step of an instruction is.
fn is_own_step(
    alloc: Global,
    machine: &Checked,
    thread: u8,
    a: &Activation,
    instr: &Instr,
) -> Result<bool, AllocError> {
    match packets_of(instr) {
        Packets::None => Ok(true),
        Packets::In(first, second) => {
            let values = [a.registers[first.index()], a.registers[second.index()]];
            are_own(alloc, machine, thread, &values)
        }
        Packets::Others => Ok(false),
    }
}

/// What an instruction touches.
#[derive(Clone, Copy)]
enum Packets {
    /// Numbers in registers.
    None,
    /// Packets in these registers, or registers that named them before.
    In(Register, Register),
    /// More than that.
    Others,
}

/// What an instruction touches.
fn packets_of(instr: &Instr) -> Packets {
    match *instr {
        Instr::Get(r, s, _) => Packets::In(r, s),
        Instr::Const(r, _) | Instr::Move(r, _) | Instr::Clear(r) => Packets::In(r, r),
        Instr::Put(r, _) | Instr::Mark(r) | Instr::Pass(r) => Packets::In(r, r),
        Instr::Call(r, _) | Instr::Complete(r, _) | Instr::IfPending(r, _) => Packets::In(r, r),
        Instr::Add(_, _) | Instr::Subtract(_, _) => Packets::None,
        Instr::JumpIfZero(_, _) | Instr::JumpIfLess(_, _, _) => Packets::None,
        Instr::Jump(_) | Instr::Loop(_) | Instr::End => Packets::None,
        Instr::Load(_, _) | Instr::LoadPaged(_, _) => Packets::Others,
        Instr::Store(_, _) | Instr::StorePaged(_, _) => Packets::Others,
        Instr::IfCancel(_, _) | Instr::Arm(_, _) | Instr::Disarm(_, _) => Packets::Others,
        Instr::Acquire(_) | Instr::Release(_) => Packets::Others,
        Instr::AcquireCancel | Instr::ReleaseCancel => Packets::Others,
        Instr::Insert(_, _) | Instr::Remove(_, _, _) | Instr::Unlink(_, _) => Packets::Others,
        Instr::Start(_) | Instr::Take(_, _) | Instr::Begin(_) => Packets::Others,
        Instr::Next | Instr::Dequeue(_) | Instr::Ret(_) => Packets::Others,
    }
}

/// Whether no other names a packet that one of these refers to.
fn are_own(
    alloc: Global,
    machine: &Checked,
    thread: u8,
    values: &[Value],
) -> Result<bool, AllocError> {
    for value in values {
        if !is_own(alloc, machine, thread, *value)? {
            return Ok(false);
        }
    }
    Ok(true)
}

/// Whether no other names the packet that a value refers to, if it lives.
fn is_own(alloc: Global, machine: &Checked, thread: u8, value: Value) -> Result<bool, AllocError> {
    let Value::Ref(n) = value else {
        return Ok(true);
    };
    if machine.shared().live_packet(n).is_none() {
        return Ok(true);
    }
    let sites = sites_of(alloc, machine, n)?;
    Ok(sites.as_slice().iter().all(|site| is_on(thread, site)))
}

/// Whether a place that names a packet is a frame of a thread.
fn is_on(thread: u8, site: &Site) -> bool {
    match *site {
        Site::Register { thread: other, .. } | Site::Completing { thread: other, .. } => {
            other == thread as usize
        }
        Site::Queue { .. } | Site::StartList { .. } | Site::DeviceQueue { .. } => false,
        Site::Slot { .. } | Site::CancelWord(_) => false,
    }
}
