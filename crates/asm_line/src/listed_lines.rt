//! The listing of a set.

ghost use Rattle.std.specs.Prelude.{◌≡◌, ◌++◌, All, IfOk, OnOk, string_bytes};
ghost use Rattle.model.specs.Sound.{DriverFits};
ghost use Rattle.asm_line.specs.Listing.{device_lines, driver_lines, listed, listing, text_of};

use crate::entry::Entry;
use crate::listed_driver::write_driver;
use driver_set::DriverSet;
use model::set::{Device, Driver};
use std::alloc::{AllocError, Global};

/// The text of a set: its drivers and then its devices, each named by its number.
///
/// # Errors
///
/// When memory runs out.
pub fn listing(alloc: Global, set: &DriverSet) -> Result<String, AllocError>
    ensures { IfOk result (λ text. string_bytes text ≡ listing set.now) }
{
    let mut text = String::new(alloc);
    write_drivers(alloc, &mut text, set.drivers())?;
    write_devices(&mut text, set.devices())?;
    Ok(text)
}

/// Adds the lines of drivers.
#[tactic(auto, using(crate::proofs::Written::lines_end))]
fn write_drivers(alloc: Global, text: &mut String, drivers: &[Driver]) -> Result<(), AllocError>
    requires { All DriverFits drivers.now }
    ensures { OnOk result (string_bytes text.new
        ≡ string_bytes text.old ++ text_of (listed driver_lines 0 drivers.now)) }
{
    for (number, driver) in drivers.iter().enumerate() {
        write_driver(alloc, text, number, driver)?;
    }
    Ok(())
}

/// Adds the lines of devices.
#[tactic(auto, using(crate::proofs::Written::lines_on, crate::proofs::Written::lines_end))]
fn write_devices(text: &mut String, devices: &[Device]) -> Result<(), AllocError>
    ensures { OnOk result (string_bytes text.new
        ≡ string_bytes text.old ++ text_of (listed device_lines 0 devices.now)) }
{
    for (number, device) in devices.iter().enumerate() {
        Entry::Device(number, *device).write(text)?;
    }
    Ok(())
}
