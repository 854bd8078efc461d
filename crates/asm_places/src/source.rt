//! The lines of a routine's instructions.

ghost use Rattle.std.specs.Prelude.{◌≡◌, All, IfOk, false, true};
ghost use Rattle.asm_places.specs.Outline.{outline_lines, outlines};
ghost use Rattle.asm_places.specs.Source.{body_on, instruction_lines, past, seeks_end};
ghost use Rattle.asm_places.specs.Standing.{AreLinesOf, Rises};
ghost use Rattle.text.specs.Places.{IsIn, numbers};

use crate::outlining::{body_on, may_outline, outlines};
use asm::laws::set_is_of_its_lines;
use asm_line::Body;
use std::alloc::{AllocError, Global};
use text::{PlacedLines, Spots};

/// What is sought in the lines that are left.
#[derive(Clone, Copy)]
pub enum Sought {
    /// The driver before which so many others begin.
    Driver(u8),
    /// In the driver, the routine before which so many others begin.
    Routine(u8),
    /// The end of the routine.
    End,
    /// Nothing: the routine has ended, or isn't there.
    Nothing,
}

impl Sought {
    /// What is sought after a line that says this, where the routine of this number is sought in
    /// the driver.
    fn past(self, routine: u8, body: &Body<'_>) -> Sought
        ensures { result ≡ past routine self body.now }
    {
        match (self, body) {
            (Sought::Driver(0), Body::OpenDriver(_)) => Sought::Routine(routine),
            (Sought::Driver(before), Body::OpenDriver(_)) => Sought::Driver(before - 1),
            (Sought::Routine(0), Body::OpenRoutine(_, _)) => Sought::End,
            (Sought::Routine(before), Body::OpenRoutine(_, _)) => Sought::Routine(before - 1),
            (Sought::Routine(_), Body::CloseDriver) => Sought::Nothing,
            (Sought::End, Body::CloseRoutine) => Sought::Nothing,
            _ => self,
        }
    }
}

/// Whether a line is passed without being read, where this is sought: it isn't in the routine, and
/// begins and ends none.
fn is_passed(sought: Sought, raw: &[u8]) -> bool
    ensures sought { result ≡ true → seeks_end sought ≡ false }
    ensures outline { result ≡ true → outlines (body_on raw.now) ≡ false }
{
    !seeks_end(sought) && !may_outline(raw)
}

/// Whether the end of the routine is sought.
fn seeks_end(sought: Sought) -> bool
    ensures { result ≡ seeks_end sought }
{
    matches!(sought, Sought::End)
}

/// A routine in its text.
#[derive(Drop)]
pub struct RoutineSource {
    /// Where the lines of its instructions stand, in order.
    pub lines: Spots,
    /// Where the lines of the whole text stand that begin or end a driver or a routine, or add a
    /// queue or a device, in order.
    pub outline: Spots,
}

/// Where the instructions of a routine stand in a text: of the routine of a number in the driver of
/// a number, both counted from 0 in the order of the text. In the set that the text names, each
/// instruction of that routine stands on a line of its own, the one of its position in the routine,
/// and is what that says. The outline of the text is found on the way.
///
/// # Errors
///
/// When memory runs out.
pub fn routine_source(
    alloc: Global,
    text: &[u8],
    driver: u8,
    routine: u8,
) -> Result<RoutineSource, AllocError>
    ensures lines { IfOk result
        (λ source. numbers source.lines ≡ instruction_lines driver routine text.now) }
    ensures stand { IfOk result
        (λ source. AreLinesOf text.now driver routine (numbers source.lines)) }
    ensures rise { IfOk result (λ source. Rises (numbers source.lines)) }
    ensures outline { IfOk result (λ source. numbers source.outline ≡ outline_lines text.now) }
    ensures there { IfOk result (λ source. All (IsIn 0 text.now) source.lines
        × All (IsIn 0 text.now) source.outline) }
{
    set_is_of_its_lines();
    let mut left = PlacedLines::of(text);
    let mut sought = Sought::Driver(driver);
    let mut lines = Spots::new(alloc);
    let mut outline = Spots::new(alloc);
    while let Some(raw) = left.next() {
        if !is_passed(sought, raw) {
            let body = body_on(raw);
            if let (Sought::End, Body::Step(_, _)) = (sought, &body) {
                lines.push(left.spot())?;
            }
            if outlines(&body) {
                outline.push(left.spot())?;
            }
            sought = sought.past(routine, &body);
        }
    }
    Ok(RoutineSource { lines, outline })
}

/// The numbers of the lines, from 1, on which the instructions of a routine stand, in order: those
/// of the routine of a number in the driver of a number, both counted from 0 in the order of the
/// text. In the set that the text names, each instruction of that routine stands on a line of its
/// own, the one of its position in the routine, and is what that says.
///
/// # Errors
///
/// When memory runs out.
pub fn instruction_lines(
    alloc: Global,
    text: &[u8],
    driver: u8,
    routine: u8,
) -> Result<Vec<u64>, AllocError>
    ensures lines { IfOk result
        (λ lines. lines.items ≡ instruction_lines driver routine text.now) }
    ensures stand { IfOk result (λ lines. AreLinesOf text.now driver routine lines.items) }
    ensures rise { IfOk result (λ lines. Rises lines.items) }
{
    let source = routine_source(alloc, text, driver, routine)?;
    source.lines.numbers(alloc)
}
