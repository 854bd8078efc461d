//! A routine that goes on by itself for some steps.

ghost use Rattle.std.specs.Prelude.{◌≡◌, ◌<◌, ◌≤◌, ◌⊎◌, None, ℕ, IfSome, length, slice_get};
ghost use Rattle.model.specs.declared.limits.TheConstants.{MAX_INSTRUCTIONS};
ghost use Rattle.model.specs.Set.{default_number, instruction_at, routine_of};
ghost use Rattle.checked.specs.GoingOn.{RoutineGoes, RoutineGoesNoFurther, is_there};

use crate::local;
use driver_set::{DriverSet, Instr};
use model::event::Place;
use model::limits::DEFAULT_ROUTINE;
use model::world::Activation;

/// The code of a routine of a driver, if there is such a routine. None of the default routine.
fn code_of(set: &DriverSet, driver: u8, routine: u8) -> Option<&[Instr]>
    ensures code { IfSome result (λ code. (p : ℕ)
        → instruction_at set.now driver routine p ≡ slice_get code.now p) }
    ensures short { IfSome result (λ code. length code.now ≤ MAX_INSTRUCTIONS) }
    ensures none { result ≡ None → (routine ≡ default_number)
        ⊎ (routine_of set.now driver routine ≡ None) }
{
    if routine == DEFAULT_ROUTINE {
        return None;
    }
    let driver = set.drivers().get(driver as usize)?;
    let routine = driver.routines.as_slice().get(routine as usize)?;
    Some(routine.code.as_slice())
}

/// Whether the instruction at this place is the next one, if a place is given.
#[inline]
fn is_there(until: &Option<Place>, a: &Activation) -> bool
    ensures { result ≡ is_there until.now a.now }
{
    match until {
        Some(place) => {
            a.position == place.position && a.routine == place.routine && a.driver == place.driver
        }
        None => false,
    }
}

/// Executes instructions of a routine that change nothing but its activation, one after another, at
/// most so many: up to the first other one, one whose operands are wrong, or the one at a place, if
/// one is given. It answers how many.
pub fn run(set: &DriverSet, a: &mut Activation, count: usize, until: &Option<Place>) -> usize
    ensures few { result ≤ count }
    ensures goes { RoutineGoes until.now set.now a.old result a.new }
    ensures far { result < count → RoutineGoesNoFurther until.now set.now a.new }
{
    let Some(code) = code_of(set, a.driver, a.routine) else {
        return 0;
    };
    for made in 0..count {
        if is_there(until, a) {
            return made;
        }
        let Some(instruction) = code.get(a.position as usize) else {
            return made;
        };
        if !local::execute(*instruction, a) {
            return made;
        }
    }
    count
}
