//! Threads whose next step releases a spin lock of their device.

ghost use Rattle.std.specs.Prelude.{◌≡◌, Some};
ghost use Rattle.scenario_world.specs.Releases.{is_release, releases, stands_before_release};

use checked::Checked;
use checked_parts::Frame;
use driver_set::{DriverSet, Instr};
use tell_uses::standing::{instruction_at, top_frame};

/// Whether a thread's next step releases a spin lock of its device.
pub fn stands_before_release(machine: &Checked, thread: u8, lock: u8) -> bool
    ensures { result ≡ stands_before_release machine.now.set machine.now.world thread lock }
{
    match top_frame(machine, thread) {
        Some(frame) => releases(machine.set(), lock, frame),
        None => false,
    }
}

/// Whether the next step of a frame does.
fn releases(set: &DriverSet, lock: u8, frame: &Frame) -> bool
    ensures { result ≡ releases set.now lock (Some frame.now) }
{
    match frame.activation() {
        Some(a) => match instruction_at(set, a) {
            Some(instr) => is_release(lock, &instr),
            None => false,
        },
        None => false,
    }
}

/// Whether an instruction releases a spin lock of its device.
fn is_release(lock: u8, instr: &Instr) -> bool
    ensures { result ≡ is_release lock (Some instr.now) }
{
    match *instr {
        Instr::Release(released) => released.index() == lock as usize,
        _ => false,
    }
}
