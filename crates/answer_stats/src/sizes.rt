//! The sizes of a driver set.

ghost use Rattle.std.specs.Prelude.{◌≡◌, ◌≤◌, All, length};
ghost use Rattle.model.specs.declared.limits.TheConstants.{MAX_ROUTINES};
ghost use Rattle.model.specs.Sound.{DriverFits, RoutineFits};
ghost use Rattle.drvhost_devices.specs.Answer.{is_image};
ghost use Rattle.answer_stats.specs.Sizes.{input_name, input_of, instructions_in, sizes_of};

use crate::locks::locks_in;
use drvhost_devices::reading::begins_image;
use image::DriverSet;
use model::set::{Driver, Routine};

/// What a set was read from.
#[derive(Clone, Copy)]
pub(crate) enum Input {
    Text,
    Image,
}

/// How many drivers, devices, routines and instructions a set has, how many locks its drivers take,
/// and how many bytes it was read from.
#[derive(Clone, Copy)]
pub(crate) struct Sizes {
    pub drivers: u64,
    pub devices: u64,
    pub routines: u64,
    pub instructions: u64,
    /// Of each driver those of its nine that its routines take.
    pub locks: u64,
    pub input: Input,
    pub bytes: u64,
}

/// The sizes of the set that bytes are.
pub(crate) fn sizes_of(bytes: &[u8], set: &DriverSet) -> Sizes
    ensures { result ≡ sizes_of bytes.now set.now }
{
    let drivers = set.drivers();
    let mut routines = 0;
    let mut instructions = 0;
    let mut locks = 0;
    for driver in drivers {
        routines += routines_in(driver);
        instructions += instructions_of(driver);
        locks += locks_in(driver);
    }
    Sizes {
        drivers: drivers.len() as u64,
        devices: set.devices().len() as u64,
        routines,
        instructions,
        locks,
        input: input_of(bytes),
        bytes: bytes.len() as u64,
    }
}

/// How many routines a driver has.
fn routines_in(driver: &Driver) -> u64
    requires { DriverFits driver.now }
    ensures count { result ≡ length driver.now.routines }
    ensures few { result ≤ 32 }
{
    driver.routines.as_slice().len() as u64
}

/// How many instructions the routines of a driver have.
fn instructions_of(driver: &Driver) -> u64
    requires { DriverFits driver.now }
    ensures count { result ≡ instructions_in driver.now.routines }
    ensures few { result ≤ 32_768 }
{
    instructions_in(driver.routines.as_slice())
}

/// How many instructions routines have.
fn instructions_in(routines: &[Routine]) -> u64
    requires few { length routines.now ≤ MAX_ROUTINES }
    requires fit { All RoutineFits routines.now }
    ensures count { result ≡ instructions_in routines.now }
    ensures few { result ≤ 32_768 }
{
    let mut count = 0;
    for routine in routines {
        count += length_of(routine);
    }
    count
}

/// How many instructions a routine has.
fn length_of(routine: &Routine) -> u64
    requires { RoutineFits routine.now }
    ensures count { result ≡ length routine.now.code }
    ensures few { result ≤ 1_024 }
{
    routine.code.as_slice().len() as u64
}

/// What the set of these bytes was read from.
fn input_of(bytes: &[u8]) -> Input
    ensures { result ≡ input_of (is_image bytes.now) }
{
    if begins_image(bytes) {
        Input::Image
    } else {
        Input::Text
    }
}

/// The name of what a set was read from.
pub(crate) fn input_name(input: Input) -> &'static str
    ensures { result.now ≡ input_name input }
{
    match input {
        Input::Text => "text",
        Input::Image => "image",
    }
}
