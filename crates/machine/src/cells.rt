//! Instructions on the number cells of a routine's device.

ghost use Rattle.std.specs.Prelude.{◌≡◌, ◌<◌, slice_get};
ghost use Rattle.model.specs.declared.limits.TheConstants.{MAX_INSTRUCTIONS};
ghost use Rattle.laws_slots.specs.Fits.{HasCells};
ghost use Rattle.laws_slots.specs.WordStep.{goes_on, load_paged_step, load_step, store_paged_step};
ghost use Rattle.laws_slots.specs.WordStep.{store_step};
ghost use Rattle.laws_slots.specs.Words.{word};

use crate::reading::cells_are_there;
use driver_set::{Cell, Register};
use laws_slots::WordActivation;
use machine_parts::{Shared, local, reading};

/// `load r c`: the register becomes the number in a cell.
pub fn load(shared: &Shared, r: Register, cell: Cell, a: &mut WordActivation)
    requires near { a.old.position < MAX_INSTRUCTIONS }
    requires cells { HasCells shared.now a.old.device }
    ensures { let cells = slice_get shared.now.cells a.old.device in
        goes_on shared.now a.new ≡ load_step shared.now a.old r cell cells }
{
    cells_are_there(shared, a.device);
    let number = shared.load(a.device, cell);
    local::set(r, number, a);
}

/// `loadp r p`: the same of a paged cell.
pub fn load_paged(shared: &Shared, r: Register, cell: Cell, a: &mut WordActivation)
    requires near { a.old.position < MAX_INSTRUCTIONS }
    requires cells { HasCells shared.now a.old.device }
    ensures { let cells = slice_get shared.now.cells a.old.device in
        goes_on shared.now a.new ≡ load_paged_step shared.now a.old r cell cells }
{
    cells_are_there(shared, a.device);
    let number = shared.load_paged(a.device, cell);
    local::set(r, number, a);
}

/// `store c r`: a cell becomes the number in the register.
pub fn store(shared: &mut Shared, cell: Cell, r: Register, a: &mut WordActivation)
    requires near { a.old.position < MAX_INSTRUCTIONS }
    requires cells { HasCells shared.old a.old.device }
    ensures { let cells = slice_get shared.old.cells a.old.device in
        goes_on shared.new a.new ≡ store_step shared.old a.old cell (word a.old r) cells }
{
    cells_are_there(shared, a.device);
    shared.store(a.device, cell, reading::word(a, r));
    a.position += 1;
}

/// `storep p r`: the same of a paged cell.
pub fn store_paged(shared: &mut Shared, cell: Cell, r: Register, a: &mut WordActivation)
    requires near { a.old.position < MAX_INSTRUCTIONS }
    requires cells { HasCells shared.old a.old.device }
    ensures { let cells = slice_get shared.old.cells a.old.device in
        goes_on shared.new a.new
        ≡ store_paged_step shared.old a.old cell (word a.old r) cells }
{
    cells_are_there(shared, a.device);
    shared.store_paged(a.device, cell, reading::word(a, r));
    a.position += 1;
}
