//! The number cells of devices.

ghost use Rattle.std.specs.Prelude.{◌≡◌, ◌<◌, length, slice_get, slice_index_or};

use super::Shared;
use driver_set::Cell;
use model::world::Cells;

impl Shared {
    ghost use Rattle.model.specs.Effect.{stored, stored_paged};
    ghost use Rattle.laws_slots.specs.Slots.{with_slot_cells};
    ghost use Rattle.machine_parts.specs.Devices.{cells_in};

    /// All cells of a device, if there is one of this number.
    pub fn cells(&self, device: u8) -> Option<Cells>
        ensures { result ≡ slice_get self.now.cells device }
    {
        self.cell_list.get(device as usize).copied()
    }

    /// The number in a cell of a device.
    pub fn load(&self, device: u8, cell: Cell) -> u64
        requires { device < length self.now.cells }
        ensures { result ≡ slice_index_or (cells_in self.now device).plain cell 0 }
    {
        self.cell_list[device as usize].plain[cell.index()]
    }

    /// The number in a paged cell of a device.
    pub fn load_paged(&self, device: u8, cell: Cell) -> u64
        requires { device < length self.now.cells }
        ensures { result ≡ slice_index_or (cells_in self.now device).paged cell 0 }
    {
        self.cell_list[device as usize].paged[cell.index()]
    }

    /// A cell of a device becomes a number.
    pub fn store(&mut self, device: u8, cell: Cell, number: u64)
        requires { device < length self.old.cells }
        ensures { let cells = cells_in self.old device in
            self.new ≡ with_slot_cells self.old device (stored cells cell number) }
    {
        let cells = &mut self.cell_list[device as usize];
        cells.plain[cell.index()] = number;
    }

    /// A paged cell of a device becomes a number.
    pub fn store_paged(&mut self, device: u8, cell: Cell, number: u64)
        requires { device < length self.old.cells }
        ensures { let cells = cells_in self.old device in
            self.new ≡ with_slot_cells self.old device (stored_paged cells cell number) }
    {
        let cells = &mut self.cell_list[device as usize];
        cells.paged[cell.index()] = number;
    }
}
