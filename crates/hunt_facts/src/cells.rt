//! The numbers in the cells of devices, read as a routine at PASSIVE_LEVEL reads them.

use checked_parts::activation::entered;
use checked_parts::{Runner, Shared, number_in};
use model::cell::Cell;
use model::register::Register;
use model::world::{Irql, Value};

/// Who reads: a thread that owns no lock, since no run has one of this number.
const READER: Runner = Runner {
    thread: 255,
    root: Irql::Passive,
};

/// The number in a plain cell of a device: 0 where there is no such device.
pub(crate) fn plain_cell(shared: &Shared, device: u8, cell: Cell) -> u64 {
    let mut reading = entered(0, 0, device, Value::Blank);
    let _read = shared.load(Register::FIRST, cell, &mut reading);
    number_in(reading.registers[0]).unwrap_or(0)
}

/// The number in a paged cell of a device: 0 where there is no such device.
pub(crate) fn paged_cell(shared: &Shared, device: u8, cell: Cell) -> u64 {
    let mut reading = entered(0, 0, device, Value::Blank);
    let _read = shared.load_paged(READER, Register::FIRST, cell, &mut reading);
    number_in(reading.registers[0]).unwrap_or(0)
}
