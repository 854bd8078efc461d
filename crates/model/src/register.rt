//! Registers of an activation, by number.

ghost use Rattle.std.specs.Prelude.{◌≡◌, ℕ, ◌<◌, ◌↔◌, SomeIff};

use crate::limits::REGISTERS;
use std::marker::Model;

/// The number of a register, 0 to 15. Contracts see the number.
#[derive(Clone, Copy)]
pub struct Register {
    number: u8,
}

impl Model for Register {
    ghost Value = { ℕ };

    ghost view = { λ r. r.number };

    ghost invariant = { λ r. r.number < 16 };

    ghost inverse = { λ n. record { number = n } };
}

impl Register {
    /// The register in which a routine finds its packet.
    pub const FIRST: Register = Register { number: 0 };

    /// The register of this number, if there is one.
    pub fn of(number: u8) -> Option<Register>
        ensures { SomeIff result (number < 16) number }
    {
        if (number as usize) < REGISTERS {
            Some(Register { number })
        } else {
            None
        }
    }

    /// Its place among the registers of an activation.
    pub fn index(self) -> usize
        ensures same { result ≡ self }
        ensures within { result < 16 }
    {
        self.number as usize
    }
}
