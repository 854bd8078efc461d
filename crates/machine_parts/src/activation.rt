//! Routines that begin.

ghost use Rattle.std.specs.Prelude.{◌≡◌, option_map, slice_get};
ghost use Rattle.machine_parts.specs.Left.{frame_over};
ghost use Rattle.laws_slots.specs.Words.{WordRoutine, completes_with, dispatched as dispatched_of};
ghost use Rattle.laws_slots.specs.Words.{entered as entered_of};
ghost use Rattle.model.specs.Effect.{routine_of_device};
ghost use Rattle.model.specs.Set.{cancel_routine_named};

use crate::ran::Over;
use arrayvec::ArrayVec;
use driver_set::{DriverSet, driver_of, serving_for};
use laws_slots::WordActivation;
use model::limits::{DEFAULT_ROUTINE, REGISTERS};
use model::status::Major;
use model::world::{Armer, Completion};

/// A routine that begins, with the word that it is handed in its first register.
pub fn entered(driver: u8, routine: u8, device: u8, first: u64) -> WordActivation
    ensures { result ≡ entered_of driver routine device first }
{
    let mut registers = [0; REGISTERS];
    registers[0] = first;
    WordActivation {
        driver,
        routine,
        device,
        position: 0,
        loops: ArrayVec::new(),
        registers,
    }
}

/// The dispatch routine begins that serves what a packet asks of a device.
pub fn dispatched(set: &DriverSet, device: u8, major: Option<Major>, key: u64) -> Over
    ensures { let target = slice_get set.now.devices device in
        frame_over result ≡ WordRoutine (dispatched_of set.now device target major key) }
{
    let driver = match set.devices().get(device as usize) {
        Some(target) => target.driver,
        None => {
            return Over::Routine {
                driver: 0,
                routine: DEFAULT_ROUTINE,
                device,
                key,
            };
        }
    };
    let routine = serving_for(set, driver, major);
    Over::Routine {
        driver,
        routine,
        device,
        key,
    }
}

/// A completion routine begins, for the device whose driver set it.
pub fn completing(set: &DriverSet, completion: Completion, key: u64) -> Over
    ensures { frame_over result ≡ WordRoutine (completes_with set.now completion key) }
{
    Over::Routine {
        driver: driver_of(set, completion.device),
        routine: completion.routine,
        device: completion.device,
        key,
    }
}

/// The cancel routine begins of the list that a packet's cancel word names, if that has one.
pub fn cancelled_by(set: &DriverSet, armer: Armer, key: u64) -> Option<Over>
    ensures { let driver = routine_of_device (slice_get set.now.devices armer.device) in
        option_map (λ over. frame_over over) result
        ≡ option_map (λ routine. WordRoutine (entered_of driver routine armer.device key))
        (cancel_routine_named set.now driver armer.queue) }
{
    let driver = driver_of(set, armer.device);
    let routine = set.cancel_routine_named(driver, armer.queue)?;
    Some(Over::Routine {
        driver,
        routine,
        device: armer.device,
        key,
    })
}
