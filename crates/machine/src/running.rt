//! A routine that goes on by itself for some steps.

ghost use Rattle.std.specs.Prelude.{◌≡◌, ◌≤◌, ℕ, IfSome, slice_get};
ghost use Rattle.laws_slots.specs.declared.activation.WordActivation.{WordActivation};
ghost use Rattle.model.specs.Set.{instruction_at};
ghost use Rattle.laws_slots.specs.WordsFit.{WordRoutineFits};
ghost use Rattle.laws_slots.specs.WordStep.{top_frame};
ghost use Rattle.machine.specs.GoingOn.{FrameGoes, Goes};
ghost use Rattle.laws_slots.specs.Words.{WordRoutine};

use driver_set::{DriverSet, Instr};
use laws_slots::WordActivation;
use machine_parts::{Frame, Shared, local};
use model::limits::DEFAULT_ROUTINE;

/// The code of a routine of a driver. None of the default routine.
fn code_of(set: &DriverSet, driver: u8, routine: u8) -> Option<&[Instr]>
    ensures { IfSome result (λ code. (p : ℕ)
        → instruction_at set.now driver routine p ≡ slice_get code.now p) }
{
    if routine == DEFAULT_ROUTINE {
        return None;
    }
    let driver = set.drivers().get(driver as usize)?;
    let routine = driver.routines.as_slice().get(routine as usize)?;
    Some(routine.code.as_slice())
}

/// Executes instructions of a thread's routine that change nothing but itself, one after another,
/// at most so many and up to the first other one. It answers how many. The routine stands over the
/// frames `below`.
fn run(
    set: &DriverSet,
    shared: &Shared,
    thread: u8,
    below: &[Frame],
    a: &mut WordActivation,
    count: usize,
) -> usize
    requires { let under = top_frame below.now in
        (k : ℕ) (b : WordActivation) → Goes set.now shared.now thread under a.old k b
        → WordRoutineFits set.now shared.now thread b }
    ensures few { result ≤ count }
    ensures goes { let under = top_frame below.now in
        Goes set.now shared.now thread under a.old result a.new }
{
    let Some(code) = code_of(set, a.driver, a.routine) else {
        return 0;
    };
    for made in 0..count {
        let Some(instruction) = code.get(a.position as usize) else {
            unreachable!()
        };
        if !local::execute(*instruction, a) {
            return made;
        }
    }
    count
}

/// Lets a frame go on by itself, where it is a routine's, for at most so many steps, and answers
/// how many. It stands over the frames `below`.
pub fn go_on(
    frame: &mut Frame,
    set: &DriverSet,
    shared: &Shared,
    thread: u8,
    below: &[Frame],
    count: usize,
) -> usize
    requires { let under = top_frame below.now in
        (a b : WordActivation) (k : ℕ) → frame.old ≡ WordRoutine a
        → Goes set.now shared.now thread under a k b → WordRoutineFits set.now shared.now thread b }
    ensures few { result ≤ count }
    ensures goes { let under = top_frame below.now in
        FrameGoes set.now shared.now thread under frame.old result frame.new }
{
    if frame.manager().is_some() {
        return 0;
    }
    run(set, shared, thread, below, frame.activation_mut(), count)
}
