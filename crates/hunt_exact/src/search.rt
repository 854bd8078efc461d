//! An exact hunt: a search of the runs within bounds, breadth first, that takes no world for
//! another one.

ghost use Rattle.std.specs.Prelude.{◌≡◌, ◌<◌, ◌≤◌, ◌++◌, ◌∷◌, ◌⊎◌, [], IfOk, IfSome, IsTrue, Some};
ghost use Rattle.std.specs.Prelude.{length, true};
ghost use Rattle.hunt_exact.specs.Amiss.{is_sought};
ghost use Rattle.hunt_exact.specs.Exact.{IsAmissBehind, IsEnded, IsExact, IsFar, IsShortest};
ghost use Rattle.hunt_exact.specs.Exact.{IsVisited, ended_by, scope_of};
ghost use Rattle.hunt_exact.specs.Searched.{IsCounted};
ghost use Rattle.hunt_exact.specs.Within.{AreWithin, FineUpTo, Scope};
ghost use Rattle.model.specs.declared.limits.TheConstants.{MAX_THREADS};
ghost use Rattle.tell_audit.specs.declared.ending.Ending.TheVariants.{Fails};

use crate::amiss::is_sought;
use crate::machines::first_machine;
use crate::moves::{Trying, tried_events};
use crate::scope::Scope;
use crate::seen::Seen;
use crate::visiting::expand;
use driver_set::DriverSet;
use hunt_facts::facts::Facts;
use model::event::Event;
use report_progress::progress::{Progress, tell_at};
use std::alloc::{AllocError, Global};
use tell_audit::amiss::Amiss;
use tell_audit::ending::{Ending, ending_of};

/// How far a search goes.
#[derive(Clone, Copy)]
pub struct Limits {
    /// Runs that are kept.
    pub worlds: usize,
    /// Events of a run, where these are bounded.
    pub events: Option<u64>,
}

/// A shortest run that ends amiss.
#[derive(Drop)]
pub struct Shortest {
    /// Its events before the last one.
    pub before: Vec<Event>,
    pub last: Event,
    /// What is amiss at its end.
    pub amiss: Amiss,
}

/// What comes of an exact hunt.
#[derive(Drop)]
pub enum Exactly {
    /// A shortest run that ends amiss.
    Found(Shortest),
    /// No run within the bounds ends amiss, of any length: they lead to so many worlds at most.
    Never { worlds: usize },
    /// None of up to so many events does: a limit was reached where so many worlds were met.
    More { worlds: usize, events: usize },
}

/// How a search has ended.
#[derive(Clone, Copy)]
pub(crate) enum Searched {
    /// Behind the run of this number something is amiss after this event.
    Amiss { number: usize, event: Event },
    /// All worlds were met, which are so many at most.
    All { worlds: usize },
    /// Nothing is amiss in runs of up to so many events, and a limit was reached.
    More { worlds: usize, events: usize },
}

/// Whether a run of so many events is as long as one may be.
fn is_far(bound: Option<u64>, events: usize) -> bool
    ensures { IsTrue result → IsFar bound events }
{
    match bound {
        Some(most) => events as u64 >= most,
        None => false,
    }
}

/// Whether a limit is reached behind runs of so many events, where so many worlds were met.
fn is_reached(limits: Limits, worlds: usize, events: usize) -> bool
    ensures { IsTrue result → IsFar limits.events events ⊎ (limits.worlds < worlds) }
{
    if worlds > limits.worlds {
        return true;
    }
    is_far(limits.events, events)
}

/// How a search stands where the run at the front is the first that may not be kept.
fn standing_at(seen: &Seen, limits: Limits) -> Searched
    ensures { (scope : Scope) → IsCounted scope seen.now limits.worlds
        → IsEnded scope limits seen.now result }
{
    let worlds = seen.len();
    let Some(path) = seen.path(limits.worlds) else {
        return Searched::All { worlds };
    };
    let events = path.len();
    Searched::More { worlds, events }
}

/// Where something is amiss after an event behind the run of a number, the search has ended.
fn ended_by(number: usize, found: Option<Event>) -> Option<Searched>
    ensures { result ≡ ended_by number found }
{
    match found {
        Some(event) => Some(Searched::Amiss { number, event }),
        None => None,
    }
}

/// Follows the events behind the run of a number, at the front: where something is amiss, or enough
/// was seen, the search has ended.
fn visit(
    alloc: Global,
    scope: &Scope,
    seen: &mut Seen,
    limits: Limits,
    number: usize,
) -> Result<Option<Searched>, AllocError>
    ensures { IfOk result (λ ended. IsCounted scope.now seen.old number
        → IsVisited scope.now limits seen.new number ended) }
{
    let worlds = seen.len();
    let Some(path) = seen.path(number) else {
        return Ok(Some(Searched::All { worlds }));
    };
    let events = path.len();
    let reached = is_reached(limits, worlds, events);
    if reached {
        return Ok(Some(Searched::More { worlds, events }));
    }
    let front = copied(alloc, path)?;
    let found = expand(alloc, scope, seen, front.as_slice())?;
    let ended = ended_by(number, found);
    Ok(ended)
}

/// The same events.
fn copied(alloc: Global, events: &[Event]) -> Result<Vec<Event>, AllocError>
    ensures { IfOk result (λ copy. copy.items ≡ events.now) }
{
    let copy = Vec::from_slice(alloc, events)?;
    Ok(copy)
}

/// Tells how far a search has come that has gone on from the run of a number, if that is told of
/// it.
fn tell<P: Progress>(progress: &P, seen: &Seen, number: usize) {
    if let Some(path) = seen.path(number) {
        tell_at(progress, number, seen.len(), path.len());
    }
}

/// Goes on from each run that is kept, in that order, until none is left or enough are.
fn search<P: Progress>(
    alloc: Global,
    scope: &Scope,
    seen: &mut Seen,
    limits: Limits,
    progress: &P,
) -> Result<Searched, AllocError>
    ensures { IfOk result (λ ended. IsCounted scope.now seen.old 0
        → IsEnded scope.now limits seen.new ended) }
{
    for number in 0..limits.worlds {
        let visited = visit(alloc, scope, seen, limits, number)?;
        if let Some(ended) = visited {
            return Ok(ended);
        }
        tell(progress, seen, number);
    }
    let ended = standing_at(seen, limits);
    Ok(ended)
}

/// What is amiss at an end, if that is sought.
fn sought_in(ending: &Ending) -> Option<Amiss>
    ensures { IfSome result (λ amiss. (ending.now ≡ Fails amiss) × (is_sought amiss ≡ true)) }
{
    match ending {
        Ending::Fails(amiss) => {
            let sought = is_sought(amiss);
            if sought { Some(*amiss) } else { None }
        }
        Ending::Stuck(_) => None,
    }
}

/// What is amiss where a run has ended so, if that is sought.
fn sought_at(ending: &Option<Ending>) -> Option<Amiss>
    ensures { IfSome result
        (λ amiss. (ending.now ≡ Some (Fails amiss)) × (is_sought amiss ≡ true)) }
{
    match ending {
        Some(ending) => sought_in(ending),
        None => None,
    }
}

/// The run of these events and a last one, behind which something is amiss: so it ends with that.
fn find_at(
    alloc: Global,
    scope: &Scope,
    before: Vec<Event>,
    last: Event,
) -> Result<Shortest, AllocError>
    ensures { IfOk result (λ find. AreWithin scope.now (before.items ++ last ∷ [])
        → FineUpTo scope.now (length before.items) → IsShortest scope.now find) }
{
    let ending = ending_of(
        alloc,
        scope.set(),
        scope.threads(),
        before.as_slice(),
        &last,
    )?;
    let Some(amiss) = sought_at(&ending) else {
        return Err(AllocError);
    };
    Ok(Shortest {
        before,
        last,
        amiss,
    })
}

/// The run of a number, which is kept, with one event more, where something is amiss behind it.
fn found(
    alloc: Global,
    scope: &Scope,
    seen: &Seen,
    number: usize,
    event: Event,
) -> Result<Shortest, AllocError>
    ensures { IfOk result (λ find. IsAmissBehind scope.now seen.now number event
        → IsShortest scope.now find) }
{
    let Some(path) = seen.path(number) else {
        return Err(AllocError);
    };
    let before = copied(alloc, path)?;
    let find = find_at(alloc, scope, before, event)?;
    Ok(find)
}

/// What is answered where a search has ended so.
fn answered(
    alloc: Global,
    scope: &Scope,
    seen: &Seen,
    limits: Limits,
    ended: Searched,
) -> Result<Exactly, AllocError>
    ensures { IfOk result (λ answer. IsEnded scope.now limits seen.now ended
        → IsExact scope.now limits answer) }
{
    match ended {
        Searched::Amiss { number, event } => {
            let find = found(alloc, scope, seen, number, event)?;
            Ok(Exactly::Found(find))
        }
        Searched::All { worlds } => Ok(Exactly::Never { worlds }),
        Searched::More { worlds, events } => Ok(Exactly::More { worlds, events }),
    }
}

/// Nothing but the run of no events.
fn first_seen(alloc: Global, scope: &Scope) -> Result<Seen, AllocError>
    ensures { IfOk result (λ seen. seen ≡ [] ∷ []) }
{
    let first = first_machine(alloc, scope.set(), scope.threads())?;
    Seen::of(alloc, &first, scope.facts())
}

/// Searches the runs of a scope, from those that are kept on.
fn hunt_from<P: Progress>(
    alloc: Global,
    scope: &Scope,
    seen: &mut Seen,
    limits: Limits,
    progress: &P,
) -> Result<Exactly, AllocError>
    ensures { IfOk result (λ answer. IsCounted scope.now seen.old 0
        → IsExact scope.now limits answer) }
{
    let ended = search(alloc, scope, seen, limits, progress)?;
    progress.clear();
    let answer = answered(alloc, scope, seen, limits, ended)?;
    Ok(answer)
}

/// Searches the runs of a scope.
fn hunt_in<P: Progress>(
    alloc: Global,
    scope: &Scope,
    limits: Limits,
    progress: &P,
) -> Result<Exactly, AllocError>
    ensures { IfOk result (IsExact scope.now limits) }
{
    let mut seen = first_seen(alloc, scope)?;
    let answer = hunt_from(alloc, scope, &mut seen, limits, progress)?;
    Ok(answer)
}

/// The runs of a set on so many threads, with what is tried.
fn scope_of(
    alloc: Global,
    set: &DriverSet,
    threads: u8,
    trying: &Trying,
) -> Result<Scope, AllocError>
    requires some { 1 ≤ threads }
    requires few { threads ≤ MAX_THREADS }
    ensures { IfOk result (λ scope. scope ≡ scope_of set.now threads trying.now.packets
        trying.now.requests.items trying.now.raised) }
{
    let facts = Facts::of(alloc, set, None)?;
    let Ok(copy) = set.copy(alloc) else {
        return Err(AllocError);
    };
    let devices = set.devices().len() as u8;
    let moves = tried_events(alloc, trying, devices, threads)?;
    Ok(Scope::of(copy, threads, trying.packets, moves, facts))
}

/// Searches the runs of a set on so many threads, 1 to 64, in which nothing else is tried: a
/// shortest one that ends amiss; or that none does, of any length; or that none of up to so many
/// events does. How far the search has come is told meanwhile.
///
/// # Errors
///
/// When memory runs out.
pub fn hunt_exactly<P: Progress>(
    alloc: Global,
    set: &DriverSet,
    threads: u8,
    trying: &Trying,
    limits: Limits,
    progress: &P,
) -> Result<Exactly, AllocError>
    requires some { 1 ≤ threads }
    requires few { threads ≤ MAX_THREADS }
    ensures { IfOk result (IsExact (scope_of set.now threads trying.now.packets
        trying.now.requests.items trying.now.raised) limits) }
{
    let scope = scope_of(alloc, set, threads, trying)?;
    let answer = hunt_in(alloc, &scope, limits, progress)?;
    Ok(answer)
}
