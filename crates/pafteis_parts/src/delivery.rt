//! An answer, put into a buffer of the caller's.

ghost use Rattle.std.specs.Prelude.{◌≡◌, ◌+◌, ◌++◌, length};
ghost use Rattle.pafteis_parts.specs.Delivery.{IsDelivered, placed};

use drvhost_devices::told::Told;
use model::memory::OutOfMemory;

/// How an answer was delivered.
#[derive(Clone, Copy)]
pub struct Delivered {
    /// 0 to 2 as the program's exit status, 3 where memory ran out.
    pub status: u32,
    /// How many bytes the answer has.
    pub needed: usize,
}

/// Puts an answer into a buffer, the bytes of its output and behind them those of its error output,
/// where they have room there. Else the buffer stays as it is.
pub fn deliver(told: Result<Told, OutOfMemory>, buffer: &mut [u8]) -> Delivered
    ensures { IsDelivered told buffer.old buffer.new result }
{
    match told {
        Ok(told) => Delivered {
            status: u32::from(told.status()),
            needed: place(told.output(), told.told(), buffer),
        },
        Err(OutOfMemory) => Delivered {
            status: 3,
            needed: 0,
        },
    }
}

/// Puts bytes, and more of them behind, into the front of a buffer, if they have room there, and
/// answers how many they are.
pub fn place(bytes: &[u8], more: &[u8], buffer: &mut [u8]) -> usize
    ensures { (result ≡ length bytes.now + length more.now)
        × (buffer.new ≡ placed (bytes.now ++ more.now) buffer.old) }
{
    let needed = bytes.len() + more.len();
    if needed <= buffer.len() {
        let (front, rest) = buffer.split_at_mut(bytes.len());
        front.copy_from_slice(bytes);
        rest[..more.len()].copy_from_slice(more);
    }
    needed
}
