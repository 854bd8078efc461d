//! The lines of a driver.

ghost use Rattle.std.specs.Prelude.{◌≡◌, ◌++◌, All, OnOk, string_bytes};
ghost use Rattle.model.specs.Sound.{DriverFits, RoutineFits};
ghost use Rattle.asm_line.specs.Listing.{driver_lines, listed, naming, queue_lines};
ghost use Rattle.asm_line.specs.Listing.{routine_lines, starting, table_lines, text_of};
ghost use Rattle.asm_line.specs.declared.entry.Entry.TheVariants as Line;

use crate::entry::Entry;
use crate::listed_routine::write_routine;
use model::set::{Driver, Queue, Routine};
use model::status::Major;
use std::alloc::{AllocError, Global};

/// Adds the lines of a driver.
pub(crate) fn write_driver(
    alloc: Global,
    text: &mut String,
    number: usize,
    driver: &Driver,
) -> Result<(), AllocError>
    requires { DriverFits driver.now }
    ensures { OnOk result (string_bytes text.new
        ≡ string_bytes text.old ++ text_of (driver_lines number driver.now)) }
{
    Entry::Driver(number).write(text)?;
    write_queues(text, driver.queues.as_slice())?;
    write_table(text, driver)?;
    write_routines(alloc, text, driver.routines.as_slice())?;
    Entry::EndDriver.write(text)?;
    Ok(())
}

/// Adds the lines of queues.
#[tactic(auto, using(crate::proofs::Written::lines_on, crate::proofs::Written::lines_end))]
fn write_queues(text: &mut String, queues: &[Queue]) -> Result<(), AllocError>
    ensures { OnOk result (string_bytes text.new
        ≡ string_bytes text.old ++ text_of (listed queue_lines 0 queues.now)) }
{
    for (number, queue) in queues.iter().enumerate() {
        Entry::Queue(number, *queue).write(text)?;
    }
    Ok(())
}

/// Adds the lines that name a driver's routines for what they serve.
fn write_table(text: &mut String, driver: &Driver) -> Result<(), AllocError>
    ensures { OnOk result (string_bytes text.new
        ≡ string_bytes text.old ++ text_of (table_lines driver.now)) }
{
    write_handler(text, Major::Read, driver.read)?;
    write_handler(text, Major::Write, driver.write)?;
    write_handler(text, Major::Control, driver.control)?;
    write_startio(text, driver.startio, driver.startio_cancel)?;
    write_dpc(text, driver.dpc)?;
    Ok(())
}

/// Adds the line that names the routine for a major function, if there is one.
fn write_handler(text: &mut String, major: Major, handler: Option<u8>) -> Result<(), AllocError>
    ensures { OnOk result (string_bytes text.new
        ≡ string_bytes text.old ++ text_of (naming (Line.Handler major) handler)) }
{
    match handler {
        Some(routine) => Entry::Handler(major, routine).write(text),
        None => Ok(()),
    }
}

/// Adds the line that names the StartIo routine, if there is one, and the cancel routine of the
/// packets that wait for it.
fn write_startio(
    text: &mut String,
    startio: Option<u8>,
    cancel: Option<u8>,
) -> Result<(), AllocError>
    ensures { OnOk result (string_bytes text.new
        ≡ string_bytes text.old ++ text_of (naming (starting cancel) startio)) }
{
    match startio {
        Some(routine) => Entry::StartIo(routine, cancel).write(text),
        None => Ok(()),
    }
}

/// Adds the line that names the DPC routine, if there is one.
fn write_dpc(text: &mut String, dpc: Option<u8>) -> Result<(), AllocError>
    ensures { OnOk result (string_bytes text.new
        ≡ string_bytes text.old ++ text_of (naming Line.Dpc dpc)) }
{
    match dpc {
        Some(routine) => Entry::Dpc(routine).write(text),
        None => Ok(()),
    }
}

/// Adds the lines of routines.
#[tactic(auto, using(crate::proofs::Written::lines_end))]
fn write_routines(alloc: Global, text: &mut String, routines: &[Routine]) -> Result<(), AllocError>
    requires { All RoutineFits routines.now }
    ensures { OnOk result (string_bytes text.new
        ≡ string_bytes text.old ++ text_of (listed routine_lines 0 routines.now)) }
{
    for (number, routine) in routines.iter().enumerate() {
        write_routine(alloc, text, number, routine)?;
    }
    Ok(())
}
