//! The control byte of a stack location.

ghost use Rattle.std.specs.Prelude.{⊤, [], ◌∷◌, codes};

use bitflags::{Flag, Flags, bitflag_items};

/// The bits of IO_STACK_LOCATION's Control.
#[derive(Clone, Copy, PartialEq, Eq, Debug, Default)]
pub struct Control(u8);

bitflag_items! {
    impl Control: u8 {
        const PENDING_RETURNED = 0x01;
    }
}

impl Flags for Control {
    type Bits = u8;

    ghost exact = { ⊤ };

    ghost table = { (codes "PENDING_RETURNED", 1) ∷ [] };

    ghost set_of = { λ c. c.0 };

    fn flags<'a>() -> &'a [Flag<Control>] {
        Control::FLAGS
    }

    fn bits(&self) -> u8 {
        self.0
    }

    fn from_bits_retain(bits: u8) -> Control {
        Control(bits)
    }
}
