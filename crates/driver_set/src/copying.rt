//! Driver sets copied.

ghost use Rattle.std.specs.Prelude.{◌≡◌, IfOk};

use crate::set::DriverSet;
use model::items::Items;
use model::memory::OutOfMemory;
use model::set::{Device, Driver, Routine};
use std::alloc::{AllocError, Global};

impl DriverSet {
    /// The same set, in memory of its own.
    ///
    /// # Errors
    ///
    /// `OutOfMemory` where a growth was refused.
    pub fn copy(&self, alloc: Global) -> Result<DriverSet, OutOfMemory>
        ensures { IfOk result (λ set. set ≡ self.now) }
    {
        match copied(alloc, self) {
            Ok(set) => Ok(set),
            Err(AllocError) => Err(OutOfMemory),
        }
    }
}

fn copied(alloc: Global, set: &DriverSet) -> Result<DriverSet, AllocError>
    ensures { IfOk result (λ copy. copy ≡ set.now) }
{
    let drivers = copied_drivers(alloc, set.drivers())?;
    let devices: Vec<Device> = Vec::from_slice(alloc, set.devices())?;
    match DriverSet::of(drivers, devices) {
        Ok(copy) => Ok(copy),
        Err(_) => unreachable!(),
    }
}

/// The same drivers, in memory of their own.
///
/// # Errors
///
/// When memory runs out.
pub fn copied_drivers(alloc: Global, drivers: &[Driver]) -> Result<Vec<Driver>, AllocError>
    ensures { IfOk result (λ copies. copies.items ≡ drivers.now) }
{
    let mut copies = Vec::new(alloc);
    for driver in drivers {
        copies.push(copied_driver(alloc, driver)?)?;
    }
    Ok(copies)
}

/// The same driver, likewise.
///
/// # Errors
///
/// When memory runs out.
pub fn copied_driver(alloc: Global, driver: &Driver) -> Result<Driver, AllocError>
    ensures { IfOk result (λ copy. copy ≡ driver.now) }
{
    let routines = copied_routines(alloc, driver.routines.as_slice())?;
    let queues = Vec::from_slice(alloc, driver.queues.as_slice())?;
    Ok(Driver {
        routines: Items::of(routines),
        queues: Items::of(queues),
        read: driver.read,
        write: driver.write,
        control: driver.control,
        startio: driver.startio,
        startio_cancel: driver.startio_cancel,
        dpc: driver.dpc,
    })
}

/// The same routines, likewise.
///
/// # Errors
///
/// When memory runs out.
pub fn copied_routines(alloc: Global, routines: &[Routine]) -> Result<Vec<Routine>, AllocError>
    ensures { IfOk result (λ copies. copies.items ≡ routines.now) }
{
    let mut copies = Vec::new(alloc);
    for routine in routines {
        copies.push(copied_routine(alloc, routine)?)?;
    }
    Ok(copies)
}

fn copied_routine(alloc: Global, routine: &Routine) -> Result<Routine, AllocError>
    ensures { IfOk result (λ copy. copy ≡ routine.now) }
{
    let code = Vec::from_slice(alloc, routine.code.as_slice())?;
    Ok(Routine {
        sort: routine.sort,
        code: Items::of(code),
    })
}
