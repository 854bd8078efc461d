//! The plan of a search: its bounds, and what is known of its set.

ghost use Rattle.std.specs.Prelude.{◌≡◌, ◌≤◌, IfOk};
ghost use Rattle.model.specs.declared.limits.TheConstants.{MAX_THREADS};

use crate::verdict::is_refused;
use driver_set::DriverSet;
use hunt_facts::bounds::Bounds;
use hunt_facts::facts::Facts;
use std::alloc::{AllocError, Global};
use std::marker::Model;

/// The plan of a search on 1 to `MAX_THREADS` threads.
#[derive(Drop)]
pub(crate) struct Plan {
    within: Bounds,
    known: Facts,
    /// The set is refused.
    refused: bool,
}

impl Model for Plan {
    ghost use Rattle.std.specs.Prelude.{◌≤◌};
    ghost use Rattle.hunt_facts.specs.declared.bounds.Bounds.{Bounds};
    ghost use Rattle.model.specs.declared.limits.TheConstants.{MAX_THREADS};

    ghost Value = { Bounds };

    ghost view = { λ plan. plan.within };

    ghost invariant = { λ plan.
        (1 ≤ plan.within.threads) × (plan.within.threads ≤ MAX_THREADS) };
}

impl Plan {
    /// That of a search through the worlds of a set.
    pub(crate) fn of(alloc: Global, set: &DriverSet, bounds: Bounds) -> Result<Plan, AllocError>
        requires some { 1 ≤ bounds.threads }
        requires few { bounds.threads ≤ MAX_THREADS }
        ensures { IfOk result (λ plan. plan ≡ bounds) }
    {
        Ok(Plan {
            within: bounds,
            known: Facts::of(alloc, set, bounds.argument)?,
            refused: is_refused(alloc, set)?,
        })
    }

    /// Its bounds.
    pub(crate) fn bounds(&self) -> Bounds
        ensures bounds { result ≡ self.now }
        ensures some { 1 ≤ result.threads }
        ensures few { result.threads ≤ MAX_THREADS }
    {
        self.within
    }

    /// What is known of the set.
    pub(crate) fn facts(&self) -> &Facts {
        &self.known
    }

    /// Whether a status may be returned that disagrees with its mark: in no run of an accepted set.
    pub(crate) fn may_disagree(&self) -> bool {
        self.refused
    }
}
