//! The bytes of an answer, kept behind a handle until they are freed, and read in pieces.

ghost use Rattle.std.specs.Prelude.{◌≡◌, ◌++◌, ◌-◌, ◌≤◌, drop, false, length, min, take};
ghost use Rattle.pafteis_world.specs.Keeping.{IsPiece, Keeps, Reads};

use crate::kept::{Bytes, Kept};
use std::alloc::Global;
use std::mem::replace;

/// Keeps bytes in a handle; those that it had before are freed. Where memory is refused the handle
/// stays as it is.
pub fn keep(alloc: Global, bytes: Vec<u8>, kept: &mut Kept) -> bool
    ensures { Keeps bytes.items kept.old kept.new result }
{
    match Box::new(alloc, Bytes { held: bytes }) {
        Ok(boxed) => {
            let _former = replace(kept, Kept::of(boxed)).into_bytes(alloc);
            true
        }
        Err(_refused) => false,
    }
}

/// Puts a piece of what a handle keeps into a buffer, from a byte on, as much as has room there,
/// and answers how many bytes that is.
pub fn read(alloc: Global, kept: &mut Kept, from: usize, buffer: &mut [u8]) -> Option<usize>
    ensures { Reads from kept.old kept.new buffer.old buffer.new result }
{
    let bytes = replace(kept, Kept::empty()).into_bytes(alloc)?;
    let count = put_piece(bytes.held.as_slice(), from, buffer);
    *kept = Kept::of(bytes);
    Some(count)
}

/// Puts a piece of bytes into the front of a buffer.
fn put_piece(bytes: &[u8], from: usize, buffer: &mut [u8]) -> usize
    ensures { IsPiece bytes.now from buffer.old buffer.new result }
{
    let rest = &bytes[from.min(bytes.len())..];
    let count = rest.len().min(buffer.len());
    buffer[..count].copy_from_slice(&rest[..count]);
    count
}

/// Frees what a handle keeps, which is empty then, and answers whether there was something.
pub fn free(alloc: Global, kept: &mut Kept) -> bool
    ensures empty { kept.new.live ≡ false }
    ensures was { result ≡ kept.old.live }
{
    replace(kept, Kept::empty()).into_bytes(alloc).is_some()
}
