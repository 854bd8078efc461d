//! What the accepted set that bytes name has.

ghost use Rattle.std.specs.Prelude.{◌≡◌, IfErr, IfOk};
ghost use Rattle.pafteis_values.specs.Shape.{routine_shown};
ghost use Rattle.pafteis_world.specs.Judged.{IsTurnedAway};
ghost use Rattle.pafteis_world.specs.Shape.{IsDeviceOf, IsRoutineOf, IsShapeOf};

use crate::admitting::admit;
use pafteis_values::shape::{
    DeviceValue, RoutineValue, SetValue, device_of, set_value, sort_number,
};
use pafteis_values::verdict::Verdict;
use std::alloc::Global;
use verifier::Accepted;

/// How large the set is. Else why it isn't accepted.
pub fn shape(alloc: Global, bytes: &[u8]) -> Result<Option<SetValue>, Verdict>
    ensures is { IfOk result (IsShapeOf bytes.now) }
    ensures turned_away { IfErr result (IsTurnedAway bytes.now) }
{
    match admit(alloc, bytes) {
        Ok(accepted) => Ok(Some(set_value(accepted.set()))),
        Err(verdict) => Err(verdict),
    }
}

/// A device of it, if it has one of this number.
pub fn device(alloc: Global, bytes: &[u8], number: u8) -> Result<Option<DeviceValue>, Verdict>
    ensures is { IfOk result (IsDeviceOf bytes.now number) }
    ensures turned_away { IfErr result (IsTurnedAway bytes.now) }
{
    match admit(alloc, bytes) {
        Ok(accepted) => Ok(device_of(accepted.set(), number)),
        Err(verdict) => Err(verdict),
    }
}

/// A routine of a driver of it, if it has one of these numbers.
pub fn routine(
    alloc: Global,
    bytes: &[u8],
    driver: u8,
    number: u8,
) -> Result<Option<RoutineValue>, Verdict>
    ensures is { IfOk result (IsRoutineOf bytes.now driver number) }
    ensures turned_away { IfErr result (IsTurnedAway bytes.now) }
{
    match admit(alloc, bytes) {
        Ok(accepted) => Ok(routine_in(&accepted, driver, number)),
        Err(verdict) => Err(verdict),
    }
}

/// A routine of a driver, with its certificate.
fn routine_in(accepted: &Accepted, driver: u8, number: u8) -> Option<RoutineValue>
    ensures { result ≡ routine_shown accepted.now driver number }
{
    let found = accepted.set().drivers().get(driver as usize)?;
    let routine = found.routines.as_slice().get(number as usize)?;
    Some(RoutineValue {
        instructions: routine.code.as_slice().len() as u32,
        certificate: accepted.cert(driver, number),
        sort: sort_number(routine.sort),
    })
}
