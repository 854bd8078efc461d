//! The events behind a run, and the worlds to which they lead.

ghost use Rattle.std.specs.Prelude.{◌≡◌, ◌++◌, ◌∷◌, [], IfOk, IsTrue, OnOk, true};
ghost use Rattle.hunt_exact.specs.Searched.{HasCome, HasExpanded, HasFollowed, HasFollowedEach};
ghost use Rattle.hunt_exact.specs.Searched.{IsKeptFrom, IsThere};
ghost use Rattle.hunt_exact.specs.Within.{is_open};

use crate::amiss::is_amiss;
use crate::machines::{leads_to, machine_at};
use crate::scope::Scope;
use crate::seen::Seen;
use checked::{Checked, says_unchanged};
use model::event::Event;
use std::alloc::{AllocError, Global};

/// What comes of an event that is tried where a machine stands.
#[derive(Clone, Copy)]
pub(crate) enum Outcome {
    /// Nothing has changed.
    Stays,
    /// A world in which nothing is amiss.
    Goes,
    /// Something is amiss.
    Ends,
}

/// Whether an event sends no packet too many where a machine stands.
pub(crate) fn is_open(packets: u64, machine: &Checked, event: &Event) -> bool
    ensures { result ≡ is_open packets machine.now.world event.now }
{
    match event {
        Event::Issue { .. } => machine.shared().issued() < packets,
        Event::Cancel { .. } | Event::Interrupt { .. } => true,
        Event::Dpc { .. } | Event::StartIo { .. } | Event::Step { .. } => true,
    }
}

/// Tries an event where a machine stands.
fn attempt(alloc: Global, machine: &mut Checked, event: &Event) -> Result<Outcome, AllocError>
    ensures { IfOk result (HasCome event.now machine.old machine.new) }
{
    let reply = machine.apply(event);
    let halted = machine.stopped();
    if halted {
        return Ok(Outcome::Ends);
    }
    let amiss = is_amiss(alloc, machine, &reply)?;
    if amiss {
        return Ok(Outcome::Ends);
    }
    let idle = says_unchanged(&reply);
    if idle {
        return Ok(Outcome::Stays);
    }
    Ok(Outcome::Goes)
}

/// Whether the run of a number leads to the world of a machine.
fn is_there(
    alloc: Global,
    scope: &Scope,
    seen: &Seen,
    number: usize,
    machine: &Checked,
) -> Result<bool, AllocError>
    ensures { IfOk result (λ there. IsTrue there
        → IsThere scope.now seen.now machine.now) }
{
    let Some(path) = seen.path(number) else {
        return Ok(false);
    };
    let leads = leads_to(alloc, scope, path, machine)?;
    Ok(leads)
}

/// Whether one of the runs whose worlds have one key, the last of them first, leads to the world of
/// a machine.
fn is_met(
    alloc: Global,
    scope: &Scope,
    seen: &Seen,
    last: Option<usize>,
    machine: &Checked,
) -> Result<bool, AllocError>
    ensures { IfOk result (λ met. IsTrue met → IsThere scope.now seen.now machine.now) }
{
    let mut next = last;
    for _run in 0..seen.len() {
        let Some(number) = next else {
            return Ok(false);
        };
        let there = is_there(alloc, scope, seen, number, machine)?;
        if there {
            return Ok(true);
        }
        next = seen.before(number);
    }
    Ok(false)
}

/// A run with one event more.
fn longer(alloc: Global, path: &[Event], event: &Event) -> Result<Vec<Event>, AllocError>
    ensures { IfOk result (λ longer. longer.items ≡ path.now ++ event.now ∷ []) }
{
    let mut longer = Vec::from_slice(alloc, path)?;
    longer.push(*event)?;
    Ok(longer)
}

/// Keeps a run with one event more, at whose world a machine stands, unless that was met.
fn keep(
    alloc: Global,
    scope: &Scope,
    seen: &mut Seen,
    path: &[Event],
    event: &Event,
    machine: &Checked,
) -> Result<(), AllocError>
    ensures { OnOk result
        (IsKeptFrom scope.now path.now event.now machine.now seen.old seen.new) }
{
    let last = seen.last_like(machine, scope.facts())?;
    let met = is_met(alloc, scope, seen, last, machine)?;
    if met {
        return Ok(());
    }
    let grown = longer(alloc, path, event)?;
    seen.add(grown, machine, scope.facts())?;
    Ok(())
}

/// Follows an event that may happen behind a run, where a machine stands, and answers whether
/// something is amiss there. If not, the machine stands behind the run again.
fn follow_open(
    alloc: Global,
    scope: &Scope,
    seen: &mut Seen,
    path: &[Event],
    machine: &mut Checked,
    event: &Event,
) -> Result<bool, AllocError>
    requires { is_open scope.now.packets machine.old.world event.now ≡ true }
    ensures { IfOk result
        (HasFollowed scope.now path.now event.now machine.old machine.new seen.old seen.new) }
{
    let outcome = attempt(alloc, machine, event)?;
    match outcome {
        Outcome::Stays => Ok(false),
        Outcome::Goes => {
            keep(alloc, scope, seen, path, event, machine)?;
            let fresh = machine_at(alloc, scope, path)?;
            *machine = fresh;
            Ok(false)
        }
        Outcome::Ends => Ok(true),
    }
}

/// Follows an event behind a run, where a machine stands, unless it sends a packet too many, and
/// answers whether something is amiss there. If not, the machine stands behind the run again.
fn follow(
    alloc: Global,
    scope: &Scope,
    seen: &mut Seen,
    path: &[Event],
    machine: &mut Checked,
    event: &Event,
) -> Result<bool, AllocError>
    ensures { IfOk result
        (HasFollowed scope.now path.now event.now machine.old machine.new seen.old seen.new) }
{
    let open = is_open(scope.packets(), machine, event);
    if open {
        return follow_open(alloc, scope, seen, path, machine, event);
    }
    Ok(false)
}

/// Follows each event behind a run, where a machine stands, up to the first behind which something
/// is amiss: that one is answered.
fn follow_each(
    alloc: Global,
    scope: &Scope,
    seen: &mut Seen,
    path: &[Event],
    machine: &mut Checked,
    moves: &[Event],
) -> Result<Option<Event>, AllocError>
    requires { moves.now ≡ scope.now.moves }
    ensures { IfOk result
        (HasFollowedEach scope.now path.now machine.old seen.old seen.new) }
{
    for event in moves {
        let ends = follow(alloc, scope, seen, path, machine, event)?;
        if ends {
            return Ok(Some(*event));
        }
    }
    Ok(None)
}

/// Follows each event behind the run at the front of those that are kept, up to the first behind
/// which something is amiss: that one is answered.
pub(crate) fn expand(
    alloc: Global,
    scope: &Scope,
    seen: &mut Seen,
    path: &[Event],
) -> Result<Option<Event>, AllocError>
    ensures { IfOk result (HasExpanded scope.now path.now seen.old seen.new) }
{
    let mut machine = machine_at(alloc, scope, path)?;
    let found = follow_each(alloc, scope, seen, path, &mut machine, scope.moves())?;
    Ok(found)
}
