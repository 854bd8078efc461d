//! Spin locks of a device, by number.

ghost use Rattle.std.specs.Prelude.{◌≡◌, ℕ, ◌<◌, ◌↔◌, SomeIff};

use crate::limits::SPIN_LOCKS;
use std::marker::Model;

/// The number of a device's spin lock, 0 to 7. Contracts see the number.
#[derive(Clone, Copy)]
pub struct SpinLock {
    number: u8,
}

impl Model for SpinLock {
    ghost Value = { ℕ };

    ghost view = { λ r. r.number };

    ghost invariant = { λ r. r.number < 8 };

    ghost inverse = { λ n. record { number = n } };
}

impl SpinLock {
    /// The spin lock of this number, if there is one.
    pub fn of(number: u8) -> Option<SpinLock>
        ensures { SomeIff result (number < 8) number }
    {
        if (number as usize) < SPIN_LOCKS {
            Some(SpinLock { number })
        } else {
            None
        }
    }

    /// Its place among the spin locks of a device.
    pub fn index(self) -> usize
        ensures same { result ≡ self }
        ensures within { result < 8 }
    {
        self.number as usize
    }
}
