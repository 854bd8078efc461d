//! Turns of a loop.

ghost use Rattle.std.specs.Prelude.{◌≡◌, ℕ, ◌≤◌, ◌↔◌, SomeIff};

use crate::limits::MAX_TURNS;
use std::marker::Model;

/// How often a loop's body runs, 1 to 1,000. Contracts see the number.
#[derive(Clone, Copy)]
pub struct Turns {
    number: u16,
}

impl Model for Turns {
    ghost Value = { ℕ };

    ghost view = { λ t. t.number };

    ghost invariant = { λ t. (1 ≤ t.number) × (t.number ≤ 1000) };

    ghost inverse = { λ n. record { number = n } };
}

impl Turns {
    /// So many turns, if a loop may have them.
    pub fn of(number: u16) -> Option<Turns>
        ensures { SomeIff result ((1 ≤ number) × (number ≤ 1000)) number }
    {
        if 1 <= number && number <= MAX_TURNS {
            Some(Turns { number })
        } else {
            None
        }
    }

    /// Their number.
    pub fn count(self) -> u16
        ensures same { result ≡ self }
        ensures some { 1 ≤ result }
        ensures few { result ≤ 1000 }
    {
        self.number
    }
}
