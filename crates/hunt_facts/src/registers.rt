//! Sets of registers.

use model::register::Register;

/// A set of registers, a bit each.
#[derive(Clone, Copy)]
pub struct Registers {
    bits: u16,
}

impl Registers {
    /// None of them.
    pub(crate) const NONE: Registers = Registers { bits: 0 };

    /// All of them.
    pub(crate) const ALL: Registers = Registers { bits: u16::MAX };

    /// Whether a register is in it.
    pub fn has(self, register: Register) -> bool {
        self.bits & (1 << register.index()) != 0
    }

    /// With a register.
    pub(crate) fn with(self, register: Register) -> Registers {
        Registers {
            bits: self.bits | (1 << register.index()),
        }
    }

    /// Without a register.
    pub(crate) fn without(self, register: Register) -> Registers {
        Registers {
            bits: self.bits & !(1 << register.index()),
        }
    }

    /// With a register, if it is so.
    pub(crate) fn with_if(self, so: bool, register: Register) -> Registers {
        if so { self.with(register) } else { self }
    }

    /// With those of another set.
    pub(crate) fn and(self, other: Registers) -> Registers {
        Registers {
            bits: self.bits | other.bits,
        }
    }

    /// Whether all of it are in another set.
    pub(crate) fn is_within(self, other: Registers) -> bool {
        self.bits & !other.bits == 0
    }
}
