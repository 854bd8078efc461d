//! Steps of a frame.

ghost use Rattle.std.specs.Prelude.{◌≡◌};
ghost use Rattle.machine_parts.specs.Left.{left_of};
ghost use Rattle.laws_slots.specs.WordsFit.{WordFrameFits};
ghost use Rattle.laws_slots.specs.WordStep.{frame_step, top_frame};

use crate::{manager, routine};
use driver_set::DriverSet;
use machine_parts::{Frame, Managing, Ran, Shared};

/// A step of a frame of a thread, over the frames `below`.
pub fn step(
    frame: &mut Frame,
    set: &DriverSet,
    shared: &mut Shared,
    thread: u8,
    below: &[Frame],
) -> Ran
    requires { WordFrameFits set.now shared.old thread frame.old }
    ensures { left_of shared.new frame.new result
        ≡ frame_step set.now shared.old thread (top_frame below.now) frame.old }
{
    match frame.manager() {
        Some(Managing::Completes(key)) => manager::walk(set, shared, key),
        Some(Managing::Cancels { key, number, next }) => {
            manager::cancel(set, shared, thread, key, number, next)
        }
        None => routine::step(set, shared, thread, below, frame.activation_mut()),
    }
}
