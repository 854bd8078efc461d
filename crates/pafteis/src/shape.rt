//! What an accepted set has.

ghost use Rattle.pafteis.specs.Asked.{TellsDevice, TellsFound, TellsRoutine, TellsShape};

use crate::texts::WRONG_ARGUMENT;
use crate::worlds::DONE;
use pafteis_values::shape::{DeviceValue, RoutineValue, SetValue};
use pafteis_values::verdict::{NOTHING, Verdict, VerdictValue};
use pafteis_world::shape;
use std::alloc::Global;

/// How many drivers and devices the set has that a text or an image names: 0 it is told, 1 the set
/// is refused, 2 faulty, 3 no memory.
#[unsafe(no_mangle)]
pub extern "C" fn pafteis_shape(
    alloc: Global,
    set: &[u8],
    shape: &mut SetValue,
    verdict: &mut VerdictValue,
) -> u32
    ensures { TellsShape set.now shape.old shape.new verdict.new result }
{
    tell_found(shape::shape(alloc, set), shape, verdict)
}

/// A device of it; 4 where it has none of this number.
#[unsafe(no_mangle)]
pub extern "C" fn pafteis_device(
    alloc: Global,
    set: &[u8],
    number: u8,
    device: &mut DeviceValue,
    verdict: &mut VerdictValue,
) -> u32
    ensures { TellsDevice set.now number device.old device.new verdict.new result }
{
    tell_found(shape::device(alloc, set, number), device, verdict)
}

/// A routine of a driver of it; 4 where it has none of these numbers.
#[unsafe(no_mangle)]
pub extern "C" fn pafteis_routine(
    alloc: Global,
    set: &[u8],
    driver: u8,
    number: u8,
    routine: &mut RoutineValue,
    verdict: &mut VerdictValue,
) -> u32
    ensures { TellsRoutine set.now driver number routine.old routine.new verdict.new result }
{
    tell_found(shape::routine(alloc, set, driver, number), routine, verdict)
}

/// Tells what was found of an accepted set, or why it isn't accepted.
fn tell_found<V: Copy>(
    found: Result<Option<V>, Verdict>,
    into: &mut V,
    verdict: &mut VerdictValue,
) -> u32
    ensures { TellsFound found into.old into.new verdict.new result }
{
    *verdict = NOTHING;
    match found {
        Ok(Some(found)) => {
            *into = found;
            DONE
        }
        Ok(None) => WRONG_ARGUMENT,
        Err(why) => {
            *verdict = why.value();
            why.status()
        }
    }
}
