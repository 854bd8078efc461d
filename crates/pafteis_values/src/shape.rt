//! What an accepted set has, as the header has it.

ghost use Rattle.std.specs.Prelude.{◌≡◌};
ghost use Rattle.pafteis_values.specs.Shape.{device_shown, or_none, set_value, sort_number};

use driver_set::DriverSet;
use model::set::Sort;
use model::status::Major;

/// The number that stands for no device, and for no routine.
const NONE: u8 = 255;

/// How many drivers and devices a set has.
#[repr(C)]
#[derive(Clone, Copy)]
pub struct SetValue {
    pub drivers: u32,
    pub devices: u32,
}

/// A device. The numbers of routines are those of its driver.
#[repr(C)]
#[derive(Clone, Copy)]
pub struct DeviceValue {
    pub driver: u8,
    /// Stack locations that a packet needs which is sent to it, 1 to 16.
    pub stack: u8,
    /// The device under it; 255 where there is none.
    pub lower: u8,
    /// The dispatch routine of each major function; 255 the default one.
    pub read: u8,
    pub write: u8,
    pub control: u8,
    /// The StartIo and the DPC routine; 255 where there is none.
    pub startio: u8,
    pub dpc: u8,
}

/// A routine.
#[repr(C)]
#[derive(Clone, Copy)]
pub struct RoutineValue {
    /// How many instructions it has.
    pub instructions: u32,
    /// How many an activation of it executes at most.
    pub certificate: u32,
    /// 1 dispatch, 2 StartIo, 3 DPC, 4 a completion routine that propagates, 5 one that may hold,
    /// 6 cancel.
    pub sort: u32,
}

/// How large a set is.
pub fn set_value(set: &DriverSet) -> SetValue
    ensures { result ≡ set_value set.now }
{
    SetValue {
        drivers: set.drivers().len() as u32,
        devices: set.devices().len() as u32,
    }
}

/// A device of a set, if it has one of this number.
pub fn device_of(set: &DriverSet, number: u8) -> Option<DeviceValue>
    ensures { result ≡ device_shown set.now number }
{
    let device = *set.devices().get(number as usize)?;
    Some(DeviceValue {
        driver: device.driver,
        stack: device.stack,
        lower: or_none(device.lower),
        read: set.handler(device.driver, Major::Read),
        write: set.handler(device.driver, Major::Write),
        control: set.handler(device.driver, Major::Control),
        startio: or_none(set.startio(number)),
        dpc: or_none(set.dpc(number)),
    })
}

/// A number that there may not be.
fn or_none(number: Option<u8>) -> u8
    ensures { result ≡ or_none number }
{
    number.unwrap_or(NONE)
}

/// The number of a sort.
pub fn sort_number(sort: Sort) -> u32
    ensures { result ≡ sort_number sort }
{
    match sort {
        Sort::Dispatch => 1,
        Sort::StartIo => 2,
        Sort::Dpc => 3,
        Sort::Propagate => 4,
        Sort::Hold => 5,
        Sort::Cancel => 6,
    }
}
