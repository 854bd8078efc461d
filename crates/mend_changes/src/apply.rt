//! What edits make of a driver set.

ghost use Rattle.std.specs.Prelude.{◌≡◌, Some, IfNone, IfOk, IfSome, option_map};
ghost use Rattle.mend_changes.specs.Edited.{EachMakes, IsNoSet, IsStopped, code_edited_in};
ghost use Rattle.mend_changes.specs.Edited.{driver_edited, edited, edited_by, edited_in_driver};
ghost use Rattle.mend_changes.specs.Edited.{with_cancel, with_device, with_queue};

use crate::code::edit_code;
use crate::edit::{Change, Edit};
use driver_set::copying::{copied_driver, copied_drivers, copied_routines};
use driver_set::{Device, Driver, DriverSet, Items, Queue, QueueName, Routine};
use std::alloc::{AllocError, Global};

/// What edits make of a set, one after another, if each has a place there and makes a set.
///
/// # Errors
///
/// When memory runs out.
#[tactic(auto, using(crate::proofs::Turns::edit_on, crate::proofs::Turns::edit_end, crate::proofs::Turns::stopped_on, crate::proofs::Turns::stopped_here, crate::proofs::Turns::goes_on, crate::proofs::Turns::goes_end))]
pub fn edited_by(
    alloc: Global,
    set: &DriverSet,
    edits: &[Edit],
) -> Result<Option<DriverSet>, AllocError>
    ensures made { IfOk result
        (λ made. IfSome made (λ next. edited_by set.now edits.now ≡ Some next)) }
    ensures each { IfOk result (λ made. IfSome made (λ _. EachMakes set.now edits.now)) }
    ensures none { IfOk result (λ made. IfNone made (IsStopped set.now edits.now)) }
{
    let Ok(mut made) = set.copy(alloc) else {
        return Err(AllocError);
    };
    for edit in edits {
        let Some(next) = edited(alloc, &made, edit)? else {
            return Ok(None);
        };
        let _sound = next.drivers();
        made = next;
    }
    Ok(Some(made))
}

/// What an edit makes of a set, if it has a place there and makes a set.
///
/// # Errors
///
/// When memory runs out.
pub fn edited(alloc: Global, set: &DriverSet, edit: &Edit) -> Result<Option<DriverSet>, AllocError>
    ensures made { IfOk result (λ made. IfSome made (λ next. edited set.now edit.now ≡ Some next)) }
    ensures none { IfOk result (λ made. IfNone made (IsNoSet (edited set.now edit.now))) }
{
    match edit.change {
        Change::Stack(number, stack) => {
            let Some(device) = set.devices().get(number as usize) else {
                return Ok(None);
            };
            with_device(alloc, set, number, Device { stack, ..*device })
        }
        Change::Lower(number, lower) => {
            let Some(device) = set.devices().get(number as usize) else {
                return Ok(None);
            };
            let lower = Some(lower);
            with_device(alloc, set, number, Device { lower, ..*device })
        }
        _ => edited_in_driver(alloc, set, edit),
    }
}

/// A set whose device of a number is another one, if it is a set.
fn with_device(
    alloc: Global,
    set: &DriverSet,
    number: u8,
    device: Device,
) -> Result<Option<DriverSet>, AllocError>
    ensures made { IfOk result
        (λ made. IfSome made (λ next. with_device set.now number device ≡ next)) }
    ensures none { IfOk result
        (λ made. IfNone made (IsNoSet (Some (with_device set.now number device)))) }
{
    let drivers = copied_drivers(alloc, set.drivers())?;
    let mut devices: Vec<Device> = Vec::from_slice(alloc, set.devices())?;
    if let Some(place) = devices.get_mut(number as usize) {
        *place = device;
    }
    Ok(DriverSet::of(drivers, devices).ok())
}

/// What an edit makes of a set by changing its driver.
fn edited_in_driver(
    alloc: Global,
    set: &DriverSet,
    edit: &Edit,
) -> Result<Option<DriverSet>, AllocError>
    ensures made { IfOk result
        (λ made. IfSome made (λ next. edited_in_driver set.now edit.now ≡ Some next)) }
    ensures none { IfOk result
        (λ made. IfNone made (IsNoSet (edited_in_driver set.now edit.now))) }
{
    let Some(driver) = set.drivers().get(edit.driver as usize) else {
        return Ok(None);
    };
    let Some(changed) = driver_edited(alloc, driver, edit)? else {
        return Ok(None);
    };
    let mut drivers = copied_drivers(alloc, set.drivers())?;
    drivers[edit.driver as usize] = changed;
    let devices: Vec<Device> = Vec::from_slice(alloc, set.devices())?;
    Ok(DriverSet::of(drivers, devices).ok())
}

/// What an edit makes of its driver.
fn driver_edited(alloc: Global, driver: &Driver, edit: &Edit) -> Result<Option<Driver>, AllocError>
    ensures { IfOk result
        (λ made. made ≡ driver_edited driver.now edit.now.routine edit.now.at edit.now.change) }
{
    match edit.change {
        Change::Stack(..) | Change::Lower(..) => Ok(None),
        Change::Guard(queue, guard) => {
            let Some(old) = driver.queues.as_slice().get(queue as usize) else {
                return Ok(None);
            };
            Ok(Some(with_queue(alloc, driver, queue, Queue { guard, ..*old })?))
        }
        Change::Cancel(name, number) => with_cancel(alloc, driver, name, number),
        Change::StartIo(number) => {
            let mut made = copied_driver(alloc, driver)?;
            made.startio = Some(number);
            Ok(Some(made))
        }
        _ => code_edited_in(alloc, driver, edit),
    }
}

/// A driver whose list has this cancel routine.
fn with_cancel(
    alloc: Global,
    driver: &Driver,
    name: QueueName,
    number: u8,
) -> Result<Option<Driver>, AllocError>
    ensures { IfOk result (λ made. made ≡ with_cancel driver.now name number) }
{
    let cancel = Some(number);
    match name {
        QueueName::Declared(queue) => {
            let Some(old) = driver.queues.as_slice().get(queue as usize) else {
                return Ok(None);
            };
            Ok(Some(with_queue(alloc, driver, queue, Queue { cancel, ..*old })?))
        }
        QueueName::DeviceQueue => {
            let mut made = copied_driver(alloc, driver)?;
            made.startio_cancel = cancel;
            Ok(Some(made))
        }
    }
}

/// A driver whose queue of a number, if it has one, is another one.
fn with_queue(
    alloc: Global,
    driver: &Driver,
    number: u8,
    queue: Queue,
) -> Result<Driver, AllocError>
    ensures { IfOk result (λ made. made ≡ with_queue driver.now number queue) }
{
    let mut queues: Vec<Queue> = Vec::from_slice(alloc, driver.queues.as_slice())?;
    if let Some(place) = queues.get_mut(number as usize) {
        *place = queue;
    }
    let mut made = copied_driver(alloc, driver)?;
    made.queues = Items::of(queues);
    Ok(made)
}

/// What an edit of code makes of its driver.
fn code_edited_in(alloc: Global, driver: &Driver, edit: &Edit) -> Result<Option<Driver>, AllocError>
    ensures { IfOk result
        (λ made. made ≡ code_edited_in driver.now edit.now.routine edit.now.at edit.now.change) }
{
    let number = edit.routine as usize;
    let Some(routine) = driver.routines.as_slice().get(number) else {
        return Ok(None);
    };
    let mut code = Vec::new(alloc);
    if !edit_code(routine.code.as_slice(), edit.at, &edit.change, &mut code)? {
        return Ok(None);
    }
    let mut routines = copied_routines(alloc, driver.routines.as_slice())?;
    routines[number] = Routine {
        sort: routine.sort,
        code: Items::of(code),
    };
    let mut made = copied_driver(alloc, driver)?;
    made.routines = Items::of(routines);
    Ok(Some(made))
}
