//! The lines of a routine.

ghost use Rattle.std.specs.Prelude.{◌≡◌, ◌++◌, All, IfOk, OnOk, length, string_bytes};
ghost use Rattle.model.specs.Sound.{LabelFits, RoutineFits};
ghost use Rattle.asm_line.specs.Listing.{listed, routine_lines, step_lines, text_of, AreMarks};

use crate::entry::Entry;
use model::instr::Instr;
use model::set::Routine;
use std::alloc::{AllocError, Global};

/// Adds the lines of a routine.
pub(crate) fn write_routine(
    alloc: Global,
    text: &mut String,
    number: usize,
    routine: &Routine,
) -> Result<(), AllocError>
    requires { RoutineFits routine.now }
    ensures { OnOk result (string_bytes text.new
        ≡ string_bytes text.old ++ text_of (routine_lines number routine.now)) }
{
    let code = routine.code.as_slice();
    let marks = marks_of(alloc, code)?;
    Entry::Routine(number, routine.sort).write(text)?;
    write_steps(text, code, marks.as_slice())?;
    Entry::EndRoutine.write(text)?;
    Ok(())
}

/// Marks the positions that instructions jump to.
#[tactic(auto, using(crate::proofs::Marks::marks_left, crate::proofs::Marks::marks_on))]
fn marks_of(alloc: Global, code: &[Instr]) -> Result<Vec<bool>, AllocError>
    requires { All (LabelFits (length code.now)) code.now }
    ensures { IfOk result (λ marks. AreMarks (length code.now) code.now marks.items) }
{
    let mut marks = vec![in alloc; false; code.len()]?;
    for instr in code {
        if let Some(label) = instr.label() {
            marks[label as usize] = true;
        }
    }
    Ok(marks)
}

/// Adds the lines of instructions, with a label at each position that is marked.
#[tactic(auto, using(crate::proofs::Written::lines_on, crate::proofs::Written::lines_end))]
fn write_steps(text: &mut String, code: &[Instr], marks: &[bool]) -> Result<(), AllocError>
    requires { AreMarks (length code.now) code.now marks.now }
    ensures { OnOk result (string_bytes text.new
        ≡ string_bytes text.old ++ text_of (listed (step_lines code.now) 0 code.now)) }
{
    for (position, instr) in code.iter().enumerate() {
        let label = if marks[position] {
            Some(position)
        } else {
            None
        };
        Entry::Step(label, *instr).write(text)?;
    }
    Ok(())
}
