//! The numbers in the cells of devices, read as a routine at PASSIVE_LEVEL reads them.

ghost use Rattle.std.specs.Prelude.{◌≡◌, IfOk};
ghost use Rattle.hunt_worlds.specs.Alike.{paged_at, plain_at};
ghost use Rattle.scenario_world.specs.Expected.{is_number, number_in};

use checked::Checked;
use checked_parts::activation::entered;
use checked_parts::{Ran, Runner, Shared, number_in as number_of_value};
use model::cell::Cell;
use model::event::Reply;
use model::register::Register;
use model::world::{Irql, Value};
use scenario_names::operands::CellName;
use std::alloc::AllocError;

/// Who reads: a thread that owns no lock, since no run has one of this number.
const READER: Runner = Runner {
    thread: 255,
    root: Irql::Passive,
};

/// Whether a cell of a device has a number.
///
/// # Errors
///
/// When it can't be read, which doesn't happen.
pub fn has_number(
    machine: &Checked,
    device: u8,
    cell: CellName,
    number: u64,
) -> Result<bool, AllocError>
    ensures { IfOk result (λ yes.
        yes ≡ is_number number (number_in machine.now.world.shared device cell)) }
{
    match number_of(machine, device, cell)? {
        Some(found) => Ok(found == number),
        None => Ok(false),
    }
}

/// The number in a cell of a device, if there is such a device.
///
/// # Errors
///
/// When it can't be read, which doesn't happen.
pub fn number_of(machine: &Checked, device: u8, cell: CellName) -> Result<Option<u64>, AllocError>
    ensures { IfOk result (λ found. found ≡ number_in machine.now.world.shared device cell) }
{
    let shared = machine.shared();
    match cell {
        CellName::Plain(number) => match Cell::of(number) {
            Some(cell) => plain_number(shared, device, cell),
            None => Err(AllocError),
        },
        CellName::Paged(number) => match Cell::of(number) {
            Some(cell) => paged_number(shared, device, cell),
            None => Err(AllocError),
        },
    }
}

/// The number in a plain cell of a device.
fn plain_number(shared: &Shared, device: u8, cell: Cell) -> Result<Option<u64>, AllocError>
    ensures { IfOk result (λ found. found ≡ plain_at shared.now device cell) }
{
    let mut reading = entered(0, 0, device, Value::Blank);
    match shared.load(Register::FIRST, cell, &mut reading) {
        Ran::Stays(Reply::Stepped) => Ok(number_of_value(reading.registers[0])),
        Ran::Stays(Reply::Wrong(_)) => Ok(None),
        _ => Err(AllocError),
    }
}

/// The number in a paged cell of a device.
fn paged_number(shared: &Shared, device: u8, cell: Cell) -> Result<Option<u64>, AllocError>
    ensures { IfOk result (λ found. found ≡ paged_at shared.now device cell) }
{
    let mut reading = entered(0, 0, device, Value::Blank);
    match shared.load_paged(READER, Register::FIRST, cell, &mut reading) {
        Ran::Stays(Reply::Stepped) => Ok(number_of_value(reading.registers[0])),
        Ran::Stays(Reply::Wrong(_)) => Ok(None),
        _ => Err(AllocError),
    }
}
