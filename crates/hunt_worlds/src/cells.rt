//! The numbers in the cells of devices, read as a routine at PASSIVE_LEVEL reads them.

ghost use Rattle.std.specs.Prelude.{◌≡◌, ◌<◌, IfSome, IsTrue, Some, slice_get};
ghost use Rattle.checked_parts.specs.Ran.{LeavesOn};
ghost use Rattle.hunt_worlds.specs.Alike.{CellsBelow, SameCells, SamePaged, SamePlain, paged_at};
ghost use Rattle.hunt_worlds.specs.Alike.{plain_at};
ghost use Rattle.model.specs.declared.limits.TheConstants.{CELLS, MAX_INSTRUCTIONS};
ghost use Rattle.model.specs.Effect.{load_effect};

use checked_parts::activation::entered;
use checked_parts::{Ran, Runner, Shared, number_in};
use model::cell::Cell;
use model::limits::CELLS;
use model::register::Register;
use model::world::{Activation, Irql, Value};

/// Who reads: a thread that owns no lock, since no run has one of this number.
const READER: Runner = Runner {
    thread: 255,
    root: Irql::Passive,
};

/// Reads a plain cell into a register, as the reader.
fn read_plain(shared: &Shared, r: Register, cell: Cell, a: &mut Activation) -> Ran
    requires { a.old.position < MAX_INSTRUCTIONS }
    ensures { let cells = slice_get shared.now.cells a.old.device in
        let loaded = load_effect shared.now a.old r cell cells in
        LeavesOn (record { thread = 255; root = Irql.Passive }) shared.now a.old loaded shared.now
        a.new result }
{
    shared.load(r, cell, a)
}

/// The number in a plain cell of a device, where it could be read.
fn plain_cell(shared: &Shared, device: u8, cell: Cell) -> Option<u64>
    ensures { IfSome result (λ n. plain_at shared.now device cell ≡ Some n) }
{
    let mut reading = entered(0, 0, device, Value::Blank);
    match read_plain(shared, Register::FIRST, cell, &mut reading) {
        Ran::Stays(_) => number_in(reading.registers[0]),
        _ => None,
    }
}

/// The number in a paged cell of a device, where it could be read.
fn paged_cell(shared: &Shared, device: u8, cell: Cell) -> Option<u64>
    ensures { IfSome result (λ n. paged_at shared.now device cell ≡ Some n) }
{
    let mut reading = entered(0, 0, device, Value::Blank);
    match shared.load_paged(READER, Register::FIRST, cell, &mut reading) {
        Ran::Stays(_) => number_in(reading.registers[0]),
        _ => None,
    }
}

/// Whether a plain cell has the same number.
fn same_plain(ours: &Shared, its: &Shared, device: u8, cell: Cell) -> bool
    ensures { IsTrue result → SamePlain ours.now its.now device cell }
{
    match (
        plain_cell(ours, device, cell),
        plain_cell(its, device, cell),
    ) {
        (Some(ours), Some(its)) => ours == its,
        _ => false,
    }
}

/// Whether a paged cell has the same number.
fn same_paged(ours: &Shared, its: &Shared, device: u8, cell: Cell) -> bool
    ensures { IsTrue result → SamePaged ours.now its.now device cell }
{
    match (
        paged_cell(ours, device, cell),
        paged_cell(its, device, cell),
    ) {
        (Some(ours), Some(its)) => ours == its,
        _ => false,
    }
}

/// Whether the cells of a device have the same numbers.
fn same_cells_of(ours: &Shared, its: &Shared, device: u8) -> bool
    ensures { IsTrue result → CellsBelow ours.now its.now device CELLS }
{
    for number in 0..CELLS as u8 {
        let Some(cell) = Cell::of(number) else {
            return false;
        };
        if !same_plain(ours, its, device, cell) || !same_paged(ours, its, device, cell) {
            return false;
        }
    }
    true
}

/// Whether the cells of so many devices have the same numbers.
pub(crate) fn same_cells(ours: &Shared, its: &Shared, devices: u8) -> bool
    ensures { IsTrue result → SameCells ours.now its.now devices }
{
    for device in 0..devices {
        if !same_cells_of(ours, its, device) {
            return false;
        }
    }
    true
}
