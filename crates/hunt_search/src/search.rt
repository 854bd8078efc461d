//! A shortest run that ends amiss, or else one that is stuck.

ghost use Rattle.std.specs.Prelude.{◌≤◌, IfOk, IfSome, IsTrue};
ghost use Rattle.hunt_facts.specs.declared.bounds.Bounds.{Bounds};
ghost use Rattle.hunt_search.specs.Hunts.{IsFind, IsHunted, IsWanted};
ghost use Rattle.model.specs.declared.limits.TheConstants.{MAX_THREADS};
ghost use Rattle.model.specs.Set.{Set};

use crate::expanding::{expand, run_at};
use crate::plan::Plan;
use crate::random::short_run;
use crate::worlds::Worlds;
use driver_set::DriverSet;
use hunt_facts::bounds::{Bounds, Goal};
use model::event::Event;
use report_progress::progress::{Progress, tell_at};
use std::alloc::{AllocError, Global};
use tell_audit::ending::{Ending, ending_of};

/// A run that was looked for.
#[derive(Drop)]
pub struct Find {
    /// Its events before the last one.
    pub before: Vec<Event>,
    pub last: Event,
    /// How it ends.
    pub ending: Ending,
}

/// What comes of a search.
#[derive(Drop)]
pub enum Hunted {
    /// A run that was looked for.
    Found(Find),
    /// There is none among all worlds within the bounds, which are so many.
    All { worlds: usize },
    /// None in runs of up to so many events ends amiss: so many worlds were seen, and there are
    /// more.
    More { worlds: usize, events: usize },
}

/// So many worlds are gone through before runs are tried at random. Where these find one, no more
/// are.
const FEW_WORLDS: usize = 10_000;

/// How a search for a run that ends amiss has ended.
#[derive(Drop)]
enum Searched {
    /// In the world of this number something is amiss behind this event.
    Amiss { number: usize, event: Event },
    /// All worlds were seen.
    All,
    /// Nothing is amiss in runs of up to so many events. The world of the next number comes next.
    More { next: usize, events: usize },
    /// Something is amiss behind these events, which were found at random.
    Short { events: Vec<Event> },
}

/// The numbers of worlds that are gone through: from the next one up to the most that there are to
/// be.
#[derive(Clone, Copy)]
struct Numbers {
    next: usize,
    most: usize,
}

/// Whether such an end is looked for.
pub fn is_wanted(goal: Goal, ending: &Ending) -> bool
    ensures { IsTrue result → IsWanted goal ending.now }
{
    match (goal, ending) {
        (Goal::Amiss, Ending::Stuck(_)) => false,
        (Goal::Amiss, Ending::Fails(_)) => true,
        (Goal::AmissOrStuck, Ending::Fails(_) | Ending::Stuck(_)) => true,
    }
}

/// Searches the worlds of a set within bounds, breadth first and in a fixed order, for a run that
/// ends amiss, which is then a shortest one. After `FEW_WORLDS` of them runs are tried at random,
/// and one that is found is answered as short as it was made; only where none is the search through
/// the worlds goes on. Where there is none, and all worlds were seen, a run that is stuck may be
/// looked for. How far the search has come is told meanwhile.
///
/// # Errors
///
/// When memory runs out.
pub fn hunt<P: Progress>(
    alloc: Global,
    set: &DriverSet,
    bounds: Bounds,
    progress: &P,
) -> Result<Hunted, AllocError>
    requires some { 1 ≤ bounds.threads }
    requires few { bounds.threads ≤ MAX_THREADS }
    ensures { IfOk result (IsHunted set.now bounds) }
{
    let plan = Plan::of(alloc, set, bounds)?;
    let mut worlds = Worlds::new(alloc, bounds.goal);
    hunt_by(alloc, set, &plan, &mut worlds, progress)
}

/// Searches by a plan, where no world was seen yet.
fn hunt_by<P: Progress>(
    alloc: Global,
    set: &DriverSet,
    plan: &Plan,
    worlds: &mut Worlds,
    progress: &P,
) -> Result<Hunted, AllocError>
    ensures { IfOk result (IsHunted set.now plan.now) }
{
    let searched = search(alloc, set, plan, worlds, progress)?;
    progress.clear();
    match found(alloc, set, plan, worlds, &searched)? {
        Some(find) => Ok(Hunted::Found(find)),
        None => Ok(none_found(worlds, &searched)),
    }
}

/// Goes on from each world that was seen, until none is left or enough are; and where these are
/// many, tries runs at random between.
fn search<P: Progress>(
    alloc: Global,
    set: &DriverSet,
    plan: &Plan,
    worlds: &mut Worlds,
    progress: &P,
) -> Result<Searched, AllocError> {
    begin(alloc, set, plan, worlds)?;
    let most = plan.bounds().worlds;
    let few = go_through(
        alloc,
        set,
        plan,
        worlds,
        Numbers {
            next: 0,
            most: most.min(FEW_WORLDS),
        },
        progress,
    )?;
    match few {
        Searched::More { next, events } if most > FEW_WORLDS && !is_far(plan.bounds(), events) => {
            search_further(alloc, set, plan, worlds, next, progress)
        }
        _ => Ok(few),
    }
}

/// Tries runs at random, and where none is found that ends amiss, goes on from the world of a
/// number.
fn search_further<P: Progress>(
    alloc: Global,
    set: &DriverSet,
    plan: &Plan,
    worlds: &mut Worlds,
    next: usize,
    progress: &P,
) -> Result<Searched, AllocError> {
    let events = short_run(alloc, set, plan)?;
    if !events.is_empty() {
        return Ok(Searched::Short { events });
    }
    go_through(
        alloc,
        set,
        plan,
        worlds,
        Numbers {
            next,
            most: plan.bounds().worlds,
        },
        progress,
    )
}

/// Goes on from each world of these numbers that was seen, in that order, while there are no more
/// worlds than the last number.
fn go_through<P: Progress>(
    alloc: Global,
    set: &DriverSet,
    plan: &Plan,
    worlds: &mut Worlds,
    numbers: Numbers,
    progress: &P,
) -> Result<Searched, AllocError> {
    let bounds = plan.bounds();
    for number in numbers.next..numbers.most {
        if number >= worlds.len() {
            return Ok(Searched::All);
        }
        let events = worlds.depth(number);
        if worlds.len() > numbers.most || is_far(bounds, events) {
            let next = number;
            return Ok(Searched::More { next, events });
        }
        tell_at(progress, number, worlds.len(), events);
        if let Some(event) = expand(alloc, set, plan, worlds, number)? {
            return Ok(Searched::Amiss { number, event });
        }
    }
    let next = numbers.most;
    let events = worlds.depth(next);
    Ok(Searched::More { next, events })
}

/// Adds the world of a run before its first event.
fn begin(
    alloc: Global,
    set: &DriverSet,
    plan: &Plan,
    worlds: &mut Worlds,
) -> Result<(), AllocError> {
    let first = run_at(alloc, set, plan, [].as_slice())?;
    worlds.begin(&first, plan)
}

/// Whether a run of so many events is as long as one may be.
fn is_far(bounds: Bounds, events: usize) -> bool {
    match bounds.events {
        Some(most) => events as u64 >= most,
        None => false,
    }
}

/// The run that a search has found: one that ends amiss, or else one that is stuck.
fn found(
    alloc: Global,
    set: &DriverSet,
    plan: &Plan,
    worlds: &Worlds,
    searched: &Searched,
) -> Result<Option<Find>, AllocError>
    ensures { IfOk result (λ found. IfSome found (IsFind set.now plan.now)) }
{
    let mut events = events_found(alloc, worlds, searched)?;
    match events.pop() {
        Some(last) => find_of(alloc, set, plan, events, last),
        None => Ok(None),
    }
}

/// The events of the run that a search has found: none where it has found none.
fn events_found(
    alloc: Global,
    worlds: &Worlds,
    searched: &Searched,
) -> Result<Vec<Event>, AllocError> {
    match *searched {
        Searched::Amiss { number, event } => {
            let mut events = worlds.path(alloc, number)?;
            events.push(event)?;
            Ok(events)
        }
        Searched::All => match worlds.first_stuck(alloc)? {
            Some(number) => worlds.path(alloc, number),
            None => Ok(Vec::new(alloc)),
        },
        Searched::More { .. } => Ok(Vec::new(alloc)),
        Searched::Short { ref events } => Ok(Vec::from_slice(alloc, events.as_slice())?),
    }
}

/// The run of these events and a last one, if it is looked for.
fn find_of(
    alloc: Global,
    set: &DriverSet,
    plan: &Plan,
    before: Vec<Event>,
    last: Event,
) -> Result<Option<Find>, AllocError>
    ensures { IfOk result (λ found. IfSome found (IsFind set.now plan.now)) }
{
    let bounds = plan.bounds();
    let Some(ending) = ending_of(alloc, set, bounds.threads, before.as_slice(), &last)? else {
        return Ok(None);
    };
    if !is_wanted(bounds.goal, &ending) {
        return Ok(None);
    }
    Ok(Some(Find {
        before,
        last,
        ending,
    }))
}

/// What comes of a search that has found none.
fn none_found(worlds: &Worlds, searched: &Searched) -> Hunted
    ensures { (set : Set) (bounds : Bounds) → IsHunted set bounds result }
{
    let worlds = worlds.len();
    match *searched {
        Searched::All => Hunted::All { worlds },
        Searched::More { events, .. } => Hunted::More { worlds, events },
        Searched::Amiss { .. } | Searched::Short { .. } => Hunted::More { worlds, events: 0 },
    }
}
