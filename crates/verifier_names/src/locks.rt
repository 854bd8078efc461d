//! What locks are called.

use model::set::Guard;
use words::Words;

/// The number of a spin lock, where a lock is one of the device.
pub fn spin_number(lock: &Guard) -> Option<usize> {
    match lock {
        Guard::DeviceLock(spin) => Some(spin.index()),
        Guard::CancelLock => None,
    }
}

/// Adds the name of the spin lock of a number, or of the system cancel spin lock.
pub fn add_lock(words: &mut Words, spin: Option<usize>) {
    match spin {
        Some(number) => {
            words.add("l");
            words.add_number(number as u64)
        }
        None => words.add("the system cancel spin lock"),
    }
}
