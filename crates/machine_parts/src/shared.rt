//! What the threads of a run share, with packets named by the keys of their slots.

ghost use Rattle.std.specs.Prelude.{◌≡◌, ◌≤◌, IfOk};
ghost use Rattle.model.specs.declared.limits.TheConstants.{MAX_DEVICES};

use crate::device_lists::DeviceLists;
use iomgr::PacketTable;
use irql_locks::LockTable;
use model::limits::CELLS;
use model::world::Cells;
use std::alloc::{AllocError, Global};
use std::marker::Model;

mod cells;
mod due;
mod issuing;
mod locks;
mod packets;
mod queues;
mod starting;
pub mod walking;

/// The packets in their slots, the locks, and by device its cells, its queues, what it has for
/// StartIo, and whether its DPC is queued. Entries of lists are keys of slots.
#[derive(Drop)]
pub struct Shared {
    packet_table: PacketTable,
    lock_table: LockTable,
    cell_list: Vec<Cells>,
    lists: DeviceLists,
    dpc_list: Vec<bool>,
}

impl Model for Shared {
    ghost use Rattle.laws_slots.specs.Slots.{SlotShared};

    ghost Value = { SlotShared };

    ghost view = { λ s. record {
      slots = s.packet_table.live.lying;
      order = s.packet_table.live.order;
      issued = s.packet_table.issued;
      locks = s.lock_table;
      cells = s.cell_list.items;
      queues = s.lists.queues;
      starts = s.lists.starts;
      dpcs = s.dpc_list.items;
    } };
}

impl Shared {
    ghost use Rattle.laws_slots.specs.SlotEvents.{opening_slots};

    /// What is there before the first event, for so many devices. An error where memory is refused;
    /// all that is ever needed is taken here.
    pub fn new(alloc: Global, devices: usize) -> Result<Shared, AllocError>
        requires { devices ≤ MAX_DEVICES }
        ensures { IfOk result (λ s. s ≡ (opening_slots devices 0 0).shared) }
    {
        let blank = Cells {
            plain: [0; CELLS],
            paged: [0; CELLS],
        };
        Ok(Shared {
            packet_table: PacketTable::new(alloc)?,
            lock_table: LockTable::new(alloc, devices)?,
            cell_list: vec![in alloc; blank; devices]?,
            lists: DeviceLists::new(alloc, devices)?,
            dpc_list: vec![in alloc; false; devices]?,
        })
    }
}
