//! Routines that begin.

ghost use Rattle.std.specs.Prelude.{◌≡◌, Some, option_map, slice_get};
ghost use Rattle.checked_parts.specs.Ran.{frame_over};
ghost use Rattle.model.specs.declared.world.Frame.TheVariants.{Routine as RoutineFrame};
ghost use Rattle.model.specs.declared.world.Value.TheVariants.{Ref};
ghost use Rattle.model.specs.Set.{cancel_routine_named};
ghost use Rattle.model.specs.World.{entered as entered_of};
ghost use Rattle.model.specs.Effect.{dispatched as dispatched_of, completes_with};
ghost use Rattle.model.specs.Effect.{routine_of_device};

use crate::ran::Over;
use arrayvec::ArrayVec;
use driver_set::{DriverSet, driver_of, serving_for};
use model::limits::{DEFAULT_ROUTINE, REGISTERS};
use model::status::Major;
use model::world::{Activation, Armer, Completion, Value};

/// A routine that begins, with what it is handed in its first register.
pub fn entered(driver: u8, routine: u8, device: u8, first: Value) -> Activation
    ensures { result ≡ entered_of driver routine device first }
{
    let mut registers = [Value::Blank; REGISTERS];
    registers[0] = first;
    Activation {
        driver,
        routine,
        device,
        position: 0,
        loops: ArrayVec::new(),
        registers,
    }
}

/// The same in the place of another one.
pub(crate) fn enter(a: &mut Activation, driver: u8, routine: u8, device: u8, first: Value)
    ensures { a.new ≡ entered_of driver routine device first }
{
    a.driver = driver;
    a.routine = routine;
    a.device = device;
    a.position = 0;
    a.loops.clear();
    a.registers = [Value::Blank; REGISTERS];
    a.registers[0] = first;
}

/// The dispatch routine begins that serves what a packet asks of a device.
pub fn dispatched(set: &DriverSet, device: u8, major: Option<Major>, packet: u64) -> Over
    ensures { let target = slice_get set.now.devices device in
        frame_over result ≡ RoutineFrame (dispatched_of set.now device target major packet) }
{
    let driver = match set.devices().get(device as usize) {
        Some(target) => target.driver,
        None => {
            return Over::Routine {
                driver: 0,
                routine: DEFAULT_ROUTINE,
                device,
                packet,
            };
        }
    };
    let routine = serving_for(set, driver, major);
    Over::Routine {
        driver,
        routine,
        device,
        packet,
    }
}

/// A completion routine begins, for the device whose driver set it.
pub fn completing(set: &DriverSet, completion: Completion, packet: u64) -> Over
    ensures { frame_over result ≡ RoutineFrame (completes_with set.now completion packet) }
{
    Over::Routine {
        driver: driver_of(set, completion.device),
        routine: completion.routine,
        device: completion.device,
        packet,
    }
}

/// The cancel routine begins of the list that a packet's cancel word names, if that has one.
pub fn cancelled_by(set: &DriverSet, armer: Armer, packet: u64) -> Option<Over>
    ensures { let driver = routine_of_device (slice_get set.now.devices armer.device) in
        option_map (λ over. frame_over over) result
        ≡ option_map (λ routine. RoutineFrame (entered_of driver routine armer.device (Ref packet)))
        (cancel_routine_named set.now driver armer.queue) }
{
    let driver = driver_of(set, armer.device);
    let routine = set.cancel_routine_named(driver, armer.queue)?;
    Some(Over::Routine {
        driver,
        routine,
        device: armer.device,
        packet,
    })
}
