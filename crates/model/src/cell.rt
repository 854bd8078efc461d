//! Number cells of a device, by number.

ghost use Rattle.std.specs.Prelude.{◌≡◌, ℕ, ◌<◌, ◌↔◌, SomeIff};

use crate::limits::CELLS;
use std::marker::Model;

/// The number of a device's number cell, plain or paged, 0 to 15. Contracts see the number.
#[derive(Clone, Copy)]
pub struct Cell {
    number: u8,
}

impl Model for Cell {
    ghost Value = { ℕ };

    ghost view = { λ r. r.number };

    ghost invariant = { λ r. r.number < 16 };

    ghost inverse = { λ n. record { number = n } };
}

impl Cell {
    /// The cell of this number, if there is one.
    pub fn of(number: u8) -> Option<Cell>
        ensures { SomeIff result (number < 16) number }
    {
        if (number as usize) < CELLS {
            Some(Cell { number })
        } else {
            None
        }
    }

    /// Its place among the cells of a device.
    pub fn index(self) -> usize
        ensures same { result ≡ self }
        ensures within { result < 16 }
    {
        self.number as usize
    }
}
