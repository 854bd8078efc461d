//! What a routine is told that waits for a lower driver.

ghost use Rattle.std.specs.Prelude.{◌≡◌, Some};
ghost use Rattle.laws_slots.specs.Words.{answered, answered_in};
ghost use Rattle.model.specs.Effect.{operand_of};
ghost use Rattle.machine_parts.specs.Frames.{told};

use crate::frame::Frame;
use driver_set::{DriverSet, Instr};
use laws_slots::WordActivation;
use model::status::Status;

/// A frame is told the status that a lower driver returned, if it is a routine's.
pub fn tell(frame: &mut Frame, set: &DriverSet, status: Status)
    ensures { frame.new ≡ told set.now status frame.old }
{
    if frame.manager().is_none() {
        answer(set, frame.activation_mut(), status);
    }
}

/// The register of a `pass` or a `call` becomes the value of the status that the lower driver
/// returned.
fn answer_to(instruction: Instr, a: &mut WordActivation, status: Status)
    ensures { a.new ≡ answered_in a.old status (operand_of (Some instruction)) }
{
    match instruction {
        Instr::Pass(r) => a.registers[r.index()] = u64::from(status.code()),
        Instr::Call(r, _) => a.registers[r.index()] = u64::from(status.code()),
        _ => {}
    }
}

/// A routine that waits for a lower driver is told what that returned.
fn answer(set: &DriverSet, a: &mut WordActivation, status: Status)
    ensures { a.new ≡ answered set.now a.old status }
{
    let before = a.position.saturating_sub(1);
    if let Some(instruction) = set.instruction(a.driver, a.routine, before) {
        answer_to(instruction, a, status);
    }
}
