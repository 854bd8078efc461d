//! How far a hunt goes.

ghost use Rattle.std.specs.Prelude.{◌≡◌, ◌≤◌};
ghost use Rattle.model.specs.declared.limits.TheConstants.{MAX_THREADS};

use crate::bounds::Bounds;
use std::marker::Model;

/// Packets that may live at once in a hunt, at most.
pub const MAX_PACKETS: u64 = 4_096;

/// Worlds that a hunt keeps, at most.
pub const MAX_WORLDS: u64 = 1_000_000_000;

/// The threads of a hunt where nothing is said of them.
pub const USUAL_THREADS: u64 = 2;

/// Its packets then.
pub const USUAL_PACKETS: u64 = 2;

/// Its worlds then.
pub const USUAL_WORLDS: u64 = 1_000_000;

/// The bounds of a hunt, on 1 to `MAX_THREADS` threads.
#[derive(Clone, Copy)]
pub struct Reach {
    within: Bounds,
}

impl Model for Reach {
    ghost use Rattle.std.specs.Prelude.{◌≤◌};
    ghost use Rattle.hunt_facts.specs.declared.bounds.Bounds.{Bounds};
    ghost use Rattle.model.specs.declared.limits.TheConstants.{MAX_THREADS};

    ghost Value = { Bounds };

    ghost view = { λ reach. reach.within };

    ghost invariant = { λ reach.
        (1 ≤ reach.within.threads) × (reach.within.threads ≤ MAX_THREADS) };

    ghost inverse = { λ within. record { within = within } };
}

impl Reach {
    /// As far as these bounds.
    pub fn of(bounds: Bounds) -> Reach
        requires some { 1 ≤ bounds.threads }
        requires few { bounds.threads ≤ MAX_THREADS }
        ensures { result ≡ bounds }
    {
        Reach { within: bounds }
    }

    /// The bounds.
    pub fn bounds(self) -> Bounds
        ensures bounds { result ≡ self }
        ensures some { 1 ≤ result.threads }
        ensures few { result.threads ≤ MAX_THREADS }
    {
        self.within
    }
}
