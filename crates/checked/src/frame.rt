//! Steps of a frame, and what it is told.

ghost use Rattle.std.specs.Prelude.{◌≡◌, ◌<◌, ◌≤◌, Some};
ghost use Rattle.checked.specs.GoingOn.{FrameGoes, FrameGoesNoFurther};
ghost use Rattle.checked.specs.Step.{told_frame};
ghost use Rattle.checked_parts.specs.Left.{frame_now};
ghost use Rattle.checked_parts.specs.Ran.{left_of};
ghost use Rattle.model.specs.Effect.{operand_of, answered_in, answered};

use crate::{routine, running};
use checked_parts::{Frame, Managing, Ran, Runner, Shared};
use driver_set::{DriverSet, Instr};
use model::event::Place;
use model::status::Status;
use model::world::{Activation, Value};

/// A step of a frame, over the frames `below`.
pub fn step(
    frame: &mut Frame,
    set: &DriverSet,
    shared: &mut Shared,
    runner: Runner,
    below: &[Frame],
) -> Ran
    ensures { left_of shared.new frame.new result
        ≡ frame_now set.now shared.old runner below.now frame.old }
{
    match frame.manager() {
        Some(Managing::Completes(n)) => shared.walk(set, below, n),
        Some(Managing::Cancels(canceller)) => shared.cancel(set, runner, canceller),
        None => routine::step(set, shared, runner, below, frame.activation_mut()),
    }
}

/// Lets a frame go on by itself, where it is a routine's, for at most so many steps, up to a place,
/// if one is given, and answers how many. Fewer only where it is there or can't go on.
pub fn go_on(frame: &mut Frame, set: &DriverSet, count: usize, until: &Option<Place>) -> usize
    ensures few { result ≤ count }
    ensures goes { FrameGoes until.now set.now frame.old result frame.new }
    ensures far { result < count → FrameGoesNoFurther until.now set.now frame.new }
{
    if frame.manager().is_some() {
        return 0;
    }
    running::run(set, frame.activation_mut(), count, until)
}

/// A frame is told the status that a lower driver returned, if it is a routine's.
pub fn tell(frame: &mut Frame, set: &DriverSet, status: Status)
    ensures { frame.new ≡ told_frame set.now status frame.old }
{
    if frame.manager().is_none() {
        answer(set, frame.activation_mut(), status);
    }
}

/// The register of a `pass` or a `call` becomes the status that the lower driver returned.
fn answer_to(instruction: Instr, a: &mut Activation, status: Status)
    ensures { a.new ≡ answered_in a.old status (operand_of (Some instruction)) }
{
    match instruction {
        Instr::Pass(r) => a.registers[r.index()] = Value::Status(status),
        Instr::Call(r, _) => a.registers[r.index()] = Value::Status(status),
        _ => {}
    }
}

/// A routine that waits for a lower driver is told what that returned.
fn answer(set: &DriverSet, a: &mut Activation, status: Status)
    ensures { a.new ≡ answered set.now a.old status }
{
    let before = a.position.saturating_sub(1);
    if let Some(instruction) = set.instruction(a.driver, a.routine, before) {
        answer_to(instruction, a, status);
    }
}
