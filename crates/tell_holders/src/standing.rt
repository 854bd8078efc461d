//! Whether a place that names a packet holds it by right.

ghost use Rattle.std.specs.Prelude.{◌≡◌, IfOk, Some, option_map, slice_get, suc};
ghost use Rattle.model.specs.Kinds.{is_right};
ghost use Rattle.model.specs.Run.{frames_on};
ghost use Rattle.model.specs.Typable.{IsTypable};
ghost use Rattle.tell_holders.specs.Right.{Decides, DecidesRegister, has_right, is_plain, lends_to};
ghost use Rattle.tell_holders.specs.Right.{waits_plain};

use crate::arriving::state_at;
use absstate::{Abs, Kind, Stage};
use checked::Checked;
use checked_parts::Frame;
use driver_set::{DriverSet, QueueName, Sort, driver_of};
use model::world::Activation;
use std::alloc::{AllocError, Global};
use tell_audit::sites::Site;

/// Whether a place that names a packet holds it by right, in a machine that runs an accepted set.
///
/// # Errors
///
/// When memory runs out.
pub(crate) fn holds(
    alloc: Global,
    set: &DriverSet,
    machine: &Checked,
    site: Site,
) -> Result<bool, AllocError>
    requires { IsTypable set.now }
    ensures { IfOk result (Decides set.now machine.now.world site) }
{
    match site {
        Site::Register {
            thread,
            frame,
            register,
        } => register_holds(alloc, set, frame_at(machine, thread, frame), register),
        Site::Completing { thread, frame } => Ok(!is_lent(set, machine, thread, frame)),
        Site::Queue { device, queue } => Ok(is_plain(set, device, queue)),
        Site::DeviceQueue { device } => Ok(waits_plain(set, device)),
        Site::StartList { .. } | Site::Slot { .. } | Site::CancelWord(_) => Ok(true),
    }
}

/// The frame at a place of a thread, if there is one.
fn frame_at(machine: &Checked, thread: usize, frame: usize) -> Option<&Frame>
    ensures { option_map (λ f. f.now) result
        ≡ slice_get (frames_on machine.now.world thread) frame }
{
    machine.threads().get(thread)?.frames().get(frame)
}

/// Whether a register of a frame has the right to a packet there.
fn register_holds(
    alloc: Global,
    set: &DriverSet,
    frame: Option<&Frame>,
    register: u8,
) -> Result<bool, AllocError>
    requires { IsTypable set.now }
    ensures { IfOk result (DecidesRegister set.now (option_map (λ f. f.now) frame.entry) register) }
{
    let Some(frame) = frame else {
        return Ok(false);
    };
    match frame.activation() {
        Some(a) => {
            let state = state_at(alloc, set, a.driver, a.routine, a.position)?;
            Ok(has_right(state, register))
        }
        None => Ok(false),
    }
}

/// Whether a register has a right to what it names, in the state that arrives, if one does.
fn has_right(state: Option<Abs>, register: u8) -> bool
    ensures { result ≡ has_right state register }
{
    match state {
        Some(state) => match state.kinds.get(register as usize) {
            Some(kind) => is_right(*kind),
            None => false,
        },
        None => false,
    }
}

/// Whether a packet in a register of a kind is the routine's by right.
fn is_right(kind: Kind) -> bool
    ensures { result ≡ is_right kind }
{
    matches!(
        kind,
        Kind::New | Kind::Own | Kind::Queued(_, Stage::Listed | Stage::Cancelling)
    )
}

/// Whether the packet that the I/O manager completes at a place of a thread is lent to the routine
/// over it.
fn is_lent(set: &DriverSet, machine: &Checked, thread: usize, frame: usize) -> bool
    ensures { result
        ≡ lends_to set.now (slice_get (frames_on machine.now.world thread) (suc frame)) }
{
    let Some(its) = machine.threads().get(thread) else {
        return false;
    };
    let frames = its.frames();
    if frame >= frames.len() {
        return false;
    }
    match frames.get(frame + 1) {
        Some(over) => lends_to(set, over),
        None => false,
    }
}

/// Whether a frame is of a routine to which the packet that is completed under it is lent.
fn lends_to(set: &DriverSet, over: &Frame) -> bool
    ensures { result ≡ lends_to set.now (Some over.now) }
{
    match over.activation() {
        Some(a) => set.sort(a.driver, a.routine) == Sort::Hold,
        None => false,
    }
}

/// Whether a queue of a device has no cancel routine.
fn is_plain(set: &DriverSet, device: u8, queue: u8) -> bool
    ensures { result ≡ is_plain set.now device queue }
{
    set.cancel_routine(driver_of(set, device), queue).is_none()
}

/// Whether the packets in the device queue of a device have no cancel routine.
fn waits_plain(set: &DriverSet, device: u8) -> bool
    ensures { result ≡ waits_plain set.now device }
{
    !set.has_cancel(driver_of(set, device), QueueName::DeviceQueue)
}
