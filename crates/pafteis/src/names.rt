//! Names by number.

ghost use Rattle.std.specs.Prelude.{◌≡◌, option_map};
ghost use Rattle.pafteis.specs.Called.{PutsBytes};
ghost use Rattle.pafteis.specs.Names.{TellsName, TellsNameIn, constant_named, sought_named};

use crate::texts::{put_bytes, wrong};
use pafteis_values::constants::{bug_check_name, rule_name, status_name};
use pafteis_values::named::{Part, Sought, name_in};

/// The name that a driver text gives to something: 1 to a driver, 2 a device, 3 a routine of a
/// driver, 4 a queue of a driver, each by its number in the order of the text.
#[unsafe(no_mangle)]
pub extern "C" fn pafteis_name_in(
    text: &[u8],
    kind: u32,
    driver: u8,
    number: u8,
    buffer: &mut [u8],
    needed: &mut usize,
) -> u32
    ensures { TellsNameIn text.now kind driver number buffer.old buffer.new needed.new result }
{
    let Some(sought) = sought_of(kind, driver, number) else {
        return wrong(needed);
    };
    match name_in(text, sought) {
        Some(name) => put_bytes(name.bytes(), buffer, needed),
        None => wrong(needed),
    }
}

/// The name of a constant: 5 of a rule by its number, 6 of a status value, 7 of a bug check.
#[unsafe(no_mangle)]
pub extern "C" fn pafteis_name_of(
    kind: u32,
    number: u32,
    buffer: &mut [u8],
    needed: &mut usize,
) -> u32
    ensures { TellsName kind number buffer.old buffer.new needed.new result }
{
    match constant_of(kind, number) {
        Some(name) => put_bytes(name.as_bytes(), buffer, needed),
        None => wrong(needed),
    }
}

/// What a name is sought of, by its kind and its numbers.
fn sought_of(kind: u32, driver: u8, number: u8) -> Option<Sought>
    ensures { result ≡ sought_named kind driver number }
{
    match kind {
        1 => Some(Sought::Driver(number)),
        2 => Some(Sought::Device(number)),
        3 => Some(Sought::Of(driver, Part::Routine, number)),
        4 => Some(Sought::Of(driver, Part::Queue, number)),
        _ => None,
    }
}

/// The name of a constant, by its kind and its number.
fn constant_of(kind: u32, number: u32) -> Option<&'static str>
    ensures { option_map (λ name. name.now) result ≡ constant_named kind number }
{
    match kind {
        5 => rule_name(number),
        6 => status_name(number),
        7 => bug_check_name(number),
        _ => None,
    }
}
