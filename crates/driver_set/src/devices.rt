//! Devices and their drivers, by number.

ghost use Rattle.std.specs.Prelude.{◌≡◌, ◌≤◌, IfSome, slice_get};
ghost use Rattle.model.specs.declared.limits.TheConstants.{MAX_STACK};
ghost use Rattle.model.specs.Effect.{routine_of_device, serving_for as serving_for_of};

use crate::{Device, DriverSet};
use model::limits::DEFAULT_ROUTINE;
use model::status::Major;

/// The device of a number, if there is one.
pub fn device_of(set: &DriverSet, number: u8) -> Option<Device>
    ensures device { result ≡ slice_get set.now.devices number }
    ensures stack { IfSome (slice_get set.now.devices number) (λ d. d.stack ≤ MAX_STACK) }
{
    set.devices().get(number as usize).copied()
}

/// The number of the driver of a device: the first one where there is no such device.
pub fn driver_of(set: &DriverSet, device: u8) -> u8
    ensures { result ≡ routine_of_device (slice_get set.now.devices device) }
{
    match set.devices().get(device as usize) {
        Some(device) => device.driver,
        None => 0,
    }
}

/// The number of the routine of a driver that serves what a packet asks for: the default one where
/// that isn't known.
pub fn serving_for(set: &DriverSet, driver: u8, major: Option<Major>) -> u8
    ensures { result ≡ serving_for_of set.now driver major }
{
    match major {
        Some(major) => set.handler(driver, major),
        None => DEFAULT_ROUTINE,
    }
}
