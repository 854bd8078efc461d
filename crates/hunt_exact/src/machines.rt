//! The machines that a search runs.

ghost use Rattle.std.specs.Prelude.{◌≡◌, ◌≤◌, [], IfOk, IsTrue};
ghost use Rattle.hunt_exact.specs.Searched.{LeadsThere};
ghost use Rattle.model.specs.declared.limits.TheConstants.{MAX_THREADS};
ghost use Rattle.model.specs.Machine.{ShowsWhole};

use crate::scope::Scope;
use checked::Checked;
use driver_set::DriverSet;
use hunt_worlds::world::same_world;
use model::event::Event;
use std::alloc::{AllocError, Global};

/// The machine of a set on so many threads, 1 to `MAX_THREADS`, before the first event.
pub(crate) fn first_machine(
    alloc: Global,
    set: &DriverSet,
    threads: u8,
) -> Result<Checked, AllocError>
    requires some { 1 ≤ threads }
    requires few { threads ≤ MAX_THREADS }
    ensures set { IfOk result (λ machine. machine.set ≡ set.now) }
    ensures shows { IfOk result (λ machine. ShowsWhole machine threads []) }
{
    let Ok(copy) = set.copy(alloc) else {
        return Err(AllocError);
    };
    match Checked::new(alloc, copy, threads) {
        Ok(machine) => Ok(machine),
        Err(_refused) => Err(AllocError),
    }
}

/// The machine behind these events.
pub(crate) fn machine_at(
    alloc: Global,
    scope: &Scope,
    path: &[Event],
) -> Result<Checked, AllocError>
    ensures set { IfOk result (λ machine. machine.set ≡ scope.now.set) }
    ensures shows { IfOk result (λ machine. ShowsWhole machine scope.now.threads path.now) }
{
    let Ok(set) = scope.set().copy(alloc) else {
        return Err(AllocError);
    };
    match Checked::run(alloc, set, scope.threads(), path) {
        Ok(machine) => Ok(machine),
        Err(_refused) => Err(AllocError),
    }
}

/// Whether these events lead to the world of a machine, and the run doesn't stop with them.
pub(crate) fn leads_to(
    alloc: Global,
    scope: &Scope,
    path: &[Event],
    machine: &Checked,
) -> Result<bool, AllocError>
    ensures { IfOk result (λ same. IsTrue same
        → LeadsThere scope.now path.now machine.now) }
{
    let there = machine_at(alloc, scope, path)?;
    let halted = there.stopped();
    if halted {
        return Ok(false);
    }
    let same = same_world(&there, machine);
    Ok(same)
}
