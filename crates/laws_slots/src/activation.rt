//! A routine that runs, with plain words in its registers.

use arrayvec::ArrayVec;
use model::limits::{MAX_LOOPS, REGISTERS};
use model::world::OpenLoop;

/// A routine that runs: which one, for which device, how far it is, and what its registers hold. A
/// word doesn't say what it is: a number stands for itself, a status as its 32-bit value, and a
/// packet as the key of its slot; a register that has nothing may hold anything.
#[derive(Drop)]
pub struct WordActivation {
    pub driver: u8,
    pub routine: u8,
    pub device: u8,
    pub position: u16,
    /// The loops that are open, the innermost last.
    pub loops: ArrayVec<OpenLoop, MAX_LOOPS>,
    pub registers: [u64; REGISTERS],
}
