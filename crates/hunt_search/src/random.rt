//! Short runs that end amiss, found at random.

use crate::editing::Size;
use crate::luck::Luck;
use crate::plan::Plan;
use crate::pool::Pool;
use crate::shortening::shorten;
use crate::walking::{Ground, amiss_run};
use driver_set::DriverSet;
use hunt_facts::bounds::Bounds;
use model::event::Event;
use std::alloc::{AllocError, Global};

/// The steps that are made until a run is found, at most.
const MAX_STEPS: usize = 400_000;

/// Those that are made afterwards, to make it short and to find others.
const MORE_STEPS: usize = 200_000;

/// Runs that are found, of which the shortest is answered, at most.
const MAX_FINDS: usize = 8;

/// The events of a short run within a plan's bounds that ends amiss: none where none is found. What
/// is found depends on the set and the bounds alone.
pub(crate) fn short_run(
    alloc: Global,
    set: &DriverSet,
    plan: &Plan,
) -> Result<Vec<Event>, AllocError> {
    let pool = Pool::of(alloc, set, plan.facts().requests.as_slice())?;
    let ground = Ground {
        alloc,
        set,
        plan,
        pool: &pool,
    };
    let mut shortest = Vec::new(alloc);
    find_shortest(&ground, &mut shortest)?;
    if is_too_long(plan.bounds(), shortest.len()) {
        shortest.clear();
    }
    Ok(shortest)
}

/// Finds runs, and keeps the shortest one.
fn find_shortest(ground: &Ground<'_>, shortest: &mut Vec<Event>) -> Result<(), AllocError> {
    let mut luck = Luck::with_steps(MAX_STEPS);
    for _find in 0..MAX_FINDS {
        let Some(mut events) = found(ground, &mut luck)? else {
            break;
        };
        if shortest.is_empty() {
            luck.renew(MORE_STEPS);
        }
        shorten(ground, &mut luck, &mut events)?;
        keep(shortest, events);
    }
    Ok(())
}

/// Keeps a run that is less than the one that is kept.
fn keep(shortest: &mut Vec<Event>, events: Vec<Event>) {
    let is_less = Size::of(events.as_slice()).is_below(Size::of(shortest.as_slice()));
    if is_less || shortest.is_empty() {
        *shortest = events;
    }
}

/// The next run at random that ends amiss, if there are steps enough to find one.
fn found(ground: &Ground<'_>, luck: &mut Luck) -> Result<Option<Vec<Event>>, AllocError> {
    for _run in 0..MAX_STEPS {
        if luck.is_out() {
            break;
        }
        if let Some(events) = amiss_run(ground, luck)? {
            return Ok(Some(events));
        }
    }
    Ok(None)
}

/// Whether a run may not have so many events.
fn is_too_long(bounds: Bounds, events: usize) -> bool {
    match bounds.events {
        Some(most) => events as u64 > most,
        None => false,
    }
}
