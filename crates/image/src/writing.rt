//! Driver sets written as images of the second edition.

ghost use Rattle.std.specs.Prelude.{◌≡◌, ◌≤◌, ◌++◌, length, All, OnOk, IfOk};
ghost use Rattle.std.specs.List.{flat_map};
ghost use Rattle.image.specs.Spelling.{driver_bytes, device_bytes, instruction_bytes};
ghost use Rattle.image.specs.Spelling.{queue_bytes, routine_bytes, spelling, SpellsIn};
ghost use Rattle.image.specs.declared.edition.Edition.TheVariants.{Current};
ghost use Rattle.model.specs.declared.limits.TheConstants.{MAX_INSTRUCTIONS};
ghost use Rattle.model.specs.Sound.{DriverFits};

use crate::word::{lock, or_none, sort_number, word_of};
use driver_set::DriverSet;
use model::instr::Instr;
use model::memory::OutOfMemory;
use model::set::{Device, Driver, Queue, Routine};
use std::alloc::{AllocError, Global};

/// The image of a driver set: the one sequence of bytes that spells it in the second edition.
///
/// # Errors
///
/// `OutOfMemory` where a growth was refused.
pub fn encode(alloc: Global, set: &DriverSet) -> Result<Vec<u8>, OutOfMemory>
    ensures { IfOk result (λ bytes. SpellsIn Current bytes.items set.now) }
{
    match spelled(alloc, set) {
        Ok(bytes) => Ok(bytes),
        Err(AllocError) => Err(OutOfMemory),
    }
}

/// The bytes that spell a driver set.
fn spelled(alloc: Global, set: &DriverSet) -> Result<Vec<u8>, AllocError>
    ensures { IfOk result (λ bytes. bytes.items ≡ spelling Current set.now) }
{
    let drivers = set.drivers();
    let devices = set.devices();
    let mut out = Vec::new(alloc);
    out.extend_from_slice(&[0x44, 0x56, 0x42, 0x32])?;
    out.extend_from_slice(&[drivers.len() as u8, devices.len() as u8, 0, 0])?;
    put_drivers(&mut out, drivers)?;
    put_devices(&mut out, devices)?;
    Ok(out)
}

fn put_drivers(out: &mut Vec<u8>, drivers: &[Driver]) -> Result<(), AllocError>
    requires { All DriverFits drivers.now }
    ensures { OnOk result
        (out.new.items ≡ out.old.items ++ flat_map (driver_bytes Current) drivers.now) }
{
    for driver in drivers {
        put_driver(out, driver)?;
    }
    Ok(())
}

fn put_driver(out: &mut Vec<u8>, driver: &Driver) -> Result<(), AllocError>
    requires { DriverFits driver.now }
    ensures { OnOk result (out.new.items ≡ out.old.items ++ driver_bytes Current driver.now) }
{
    let routines = driver.routines.as_slice();
    let queues = driver.queues.as_slice();
    out.extend_from_slice(&[
        routines.len() as u8,
        queues.len() as u8,
        or_none(driver.read),
        or_none(driver.write),
        or_none(driver.control),
        or_none(driver.startio),
        or_none(driver.dpc),
        or_none(driver.startio_cancel),
    ])?;
    put_queues(out, queues)?;
    put_routines(out, routines)?;
    Ok(())
}

fn put_queues(out: &mut Vec<u8>, queues: &[Queue]) -> Result<(), AllocError>
    ensures { OnOk result (out.new.items ≡ out.old.items ++ flat_map queue_bytes queues.now) }
{
    for queue in queues {
        out.extend_from_slice(&[lock(queue.guard), or_none(queue.cancel)])?;
    }
    Ok(())
}

fn put_routines(out: &mut Vec<u8>, routines: &[Routine]) -> Result<(), AllocError>
    requires { All (λ r. length r.code ≤ MAX_INSTRUCTIONS) routines.now }
    ensures { OnOk result (out.new.items ≡ out.old.items ++ flat_map routine_bytes routines.now) }
{
    for routine in routines {
        put_routine(out, routine)?;
    }
    Ok(())
}

fn put_routine(out: &mut Vec<u8>, routine: &Routine) -> Result<(), AllocError>
    requires { length routine.now.code ≤ MAX_INSTRUCTIONS }
    ensures { OnOk result (out.new.items ≡ out.old.items ++ routine_bytes routine.now) }
{
    let code = routine.code.as_slice();
    out.extend_from_slice(&[sort_number(routine.sort), 0])?;
    out.extend_from_slice(&(code.len() as u16).to_le_bytes())?;
    put_code(out, code)?;
    Ok(())
}

fn put_code(out: &mut Vec<u8>, code: &[Instr]) -> Result<(), AllocError>
    ensures { OnOk result (out.new.items ≡ out.old.items ++ flat_map instruction_bytes code.now) }
{
    for instr in code {
        out.extend_from_slice(&word_of(instr).bytes())?;
    }
    Ok(())
}

fn put_devices(out: &mut Vec<u8>, devices: &[Device]) -> Result<(), AllocError>
    ensures { OnOk result (out.new.items ≡ out.old.items ++ flat_map device_bytes devices.now) }
{
    for device in devices {
        out.extend_from_slice(&[device.driver, device.stack, or_none(device.lower), 0])?;
    }
    Ok(())
}
