//! What a world tells of what its threads share, as the header has it: the cells of a device, who
//! owns a lock, and what is asked with a packet.

ghost use Rattle.std.specs.Prelude.{◌≡◌};
ghost use Rattle.pafteis_values.specs.Shared.{cells_value, lock_named, owner_value};

use model::event::{Lock, OfDevice};
use model::limits::CELLS;
use model::world::Cells;

/// The number cells of a device.
#[repr(C)]
#[derive(Clone, Copy)]
pub struct CellsValue {
    pub plain: [u64; CELLS],
    /// Those that may be touched below DISPATCH_LEVEL alone.
    pub paged: [u64; CELLS],
}

/// Who owns a lock. Of a free one both tell nothing.
#[repr(C)]
#[derive(Clone, Copy)]
pub struct OwnerValue {
    pub owned: bool,
    pub thread: u8,
}

/// What is asked with a live packet.
#[repr(C)]
#[derive(Clone, Copy)]
pub struct RequestValue {
    /// The argument at its current location.
    pub argument: u64,
    /// IoStatus.Information.
    pub info: u64,
    /// The IRP_MJ number at its current location.
    pub major: u64,
}

/// The cells of a device as a value.
pub fn cells_value(cells: &Cells) -> CellsValue
    ensures { result ≡ cells_value cells.now }
{
    CellsValue {
        plain: cells.plain,
        paged: cells.paged,
    }
}

/// The owner of a lock as a value.
pub fn owner_value(owner: Option<u8>) -> OwnerValue
    ensures { result ≡ owner_value owner }
{
    match owner {
        Some(thread) => OwnerValue {
            owned: true,
            thread,
        },
        None => OwnerValue {
            owned: false,
            thread: 0,
        },
    }
}

/// The number of the system cancel spin lock.
const CANCEL_LOCK: u8 = 8;

/// The lock of a number: 8 is the system cancel spin lock, and lower ones the spin locks of a
/// device.
pub fn lock_of(device: u8, number: u8) -> Lock
    ensures { result ≡ lock_named device number }
{
    if number == CANCEL_LOCK {
        Lock::SystemCancel
    } else {
        Lock::Spin(OfDevice { device, number })
    }
}
