//! How packets, threads and devices stand in a world, as may be expected of them.

ghost use Rattle.std.specs.Prelude.{◌≡◌, IfOk};
ghost use Rattle.model.specs.View.{thread_at};
ghost use Rattle.scenario_world.specs.States.{device_holds, has_information, has_status, is_at};
ghost use Rattle.scenario_world.specs.States.{is_busy, is_cancelled, is_idle, is_live, stands_at};
ghost use Rattle.scenario_world.specs.States.{thread_holds, topped_as};

use crate::cells::has_number;
use checked::Checked;
use model::history::TopOut;
use model::status::Status;
use model::view::{FrameView, PacketView, ThreadView};
use scenario_expected::expectation::{DeviceState, ThreadState};
use scenario_names::names::Spot;
use std::alloc::AllocError;
use tell_audit::ring::waits_for;

/// Whether a packet is live.
pub fn is_live(view: &PacketView) -> bool
    ensures { result ≡ is_live view.now }
{
    match view {
        PacketView::Live(_) => true,
        PacketView::Never | PacketView::Topped => false,
    }
}

/// Whether it is, and its Irp->Cancel is set.
pub fn is_cancelled(view: &PacketView) -> bool
    ensures { result ≡ is_cancelled view.now }
{
    match view {
        PacketView::Live(live) => live.cancel,
        PacketView::Never | PacketView::Topped => false,
    }
}

/// Whether a packet has topped out, with what is given.
pub fn topped_as(status: Option<Status>, information: Option<u64>, top: Option<TopOut>) -> bool
    ensures { result ≡ topped_as status information top }
{
    match top {
        Some(top) => has_status(status, top.status) && has_information(information, top.info),
        None => false,
    }
}

fn has_status(given: Option<Status>, status: Status) -> bool
    ensures { result ≡ has_status given status }
{
    match given {
        Some(given) => given.code() == status.code(),
        None => true,
    }
}

fn has_information(given: Option<u64>, info: u64) -> bool
    ensures { result ≡ has_information given info }
{
    match given {
        Some(given) => given == info,
        None => true,
    }
}

/// Whether this holds of a thread.
pub fn thread_holds(machine: &Checked, thread: u8, state: ThreadState) -> bool
    ensures { result ≡ thread_holds machine.now.set machine.now.world thread state }
{
    match state {
        ThreadState::Idle => is_idle(&machine.thread(thread)),
        ThreadState::Busy => is_busy(&machine.thread(thread)),
        ThreadState::Waiting => waits_for(machine, thread).is_some(),
        ThreadState::WaitingFor(other) => waits_for(machine, thread) == Some(other),
        ThreadState::At(spot) => stands_at(machine, thread, spot),
    }
}

fn is_idle(view: &Option<ThreadView>) -> bool
    ensures { result ≡ is_idle view.now }
{
    match view {
        Some(view) => view.frames == 0,
        None => false,
    }
}

fn is_busy(view: &Option<ThreadView>) -> bool
    ensures { result ≡ is_busy view.now }
{
    match view {
        Some(view) => view.frames != 0,
        None => false,
    }
}

/// Whether this holds of a device.
///
/// # Errors
///
/// When memory runs out.
pub fn device_holds(machine: &Checked, device: u8, state: DeviceState) -> Result<bool, AllocError>
    ensures { IfOk result (λ yes. yes ≡ device_holds machine.now.world device state) }
{
    let shared = machine.shared();
    match state {
        DeviceState::Idle => match shared.start_of(device) {
            Some(start) => Ok(!start.is_busy()),
            None => Ok(false),
        },
        DeviceState::Busy => match shared.start_of(device) {
            Some(start) => Ok(start.is_busy()),
            None => Ok(false),
        },
        DeviceState::DpcQueued => Ok(shared.is_queued(device)),
        DeviceState::Has { cell, number } => has_number(machine, device, cell, number),
    }
}

/// Whether a thread's next step is that of an instruction.
pub fn stands_at(machine: &Checked, thread: u8, spot: Spot) -> bool
    ensures { result ≡ stands_at spot (thread_at machine.now.world thread) }
{
    match machine.thread(thread) {
        Some(view) => is_at(spot, view.top),
        None => false,
    }
}

/// Whether a frame stands before an instruction.
fn is_at(spot: Spot, top: Option<FrameView>) -> bool
    ensures { result ≡ is_at spot top }
{
    match top {
        Some(
            FrameView::Routine {
                driver,
                routine,
                position,
                device: _,
            },
        ) => {
            u64::from(driver) == spot.driver
                && u64::from(routine) == spot.routine
                && u64::from(position) == spot.position
        }
        _ => false,
    }
}
