//! The events that are tried in a world, and the worlds to which they lead.

use crate::moves::moves_of;
use crate::plan::Plan;
use crate::worlds::Worlds;
use checked::says_unchanged;
use driver_set::DriverSet;
use model::event::Event;
use std::alloc::{AllocError, Global};
use tell_audit::rehearsal::Rehearsal;

/// A world to go on from.
#[derive(Drop)]
struct Place {
    number: usize,
    /// The events that led to it.
    path: Vec<Event>,
    /// Those that are tried in it.
    moves: Vec<Event>,
}

/// What comes of an event that is tried in a world.
#[derive(Clone, Copy)]
pub(crate) enum Outcome {
    /// Nothing has changed.
    Stays,
    /// A world in which nothing is amiss.
    Goes,
    /// Something is amiss.
    Ends,
}

/// Tries each event in the world of a number, and adds the worlds to which they lead, up to the
/// first event behind which something is amiss: that one is answered.
pub(crate) fn expand(
    alloc: Global,
    set: &DriverSet,
    plan: &Plan,
    worlds: &mut Worlds,
    number: usize,
) -> Result<Option<Event>, AllocError> {
    let path = worlds.path(alloc, number)?;
    let mut run = run_at(alloc, set, plan, path.as_slice())?;
    let moves = moves_of(alloc, run.machine(), plan.facts(), plan.bounds())?;
    let place = Place {
        number,
        path,
        moves,
    };
    try_moves(alloc, plan, worlds, &place, &mut run)
}

/// The run of these events.
pub(crate) fn run_at(
    alloc: Global,
    set: &DriverSet,
    plan: &Plan,
    path: &[Event],
) -> Result<Rehearsal, AllocError> {
    Rehearsal::replay(alloc, set, plan.bounds().threads, path)
}

/// Tries the events of a place, to which a run has come.
fn try_moves(
    alloc: Global,
    plan: &Plan,
    worlds: &mut Worlds,
    place: &Place,
    run: &mut Rehearsal,
) -> Result<Option<Event>, AllocError> {
    let moves = place.moves.as_slice();
    for tried in 0..moves.len() {
        let Some(event) = moves.get(tried) else {
            return Ok(None);
        };
        match attempt(run, event)? {
            Outcome::Stays => {}
            Outcome::Goes => {
                worlds.add(run, plan, place.number, *event)?;
                if tried.saturating_add(1) < moves.len() {
                    come_back(alloc, plan, place, run)?;
                }
            }
            Outcome::Ends => return Ok(Some(*event)),
        }
    }
    Ok(None)
}

/// Makes a run that has gone on come to a place again.
fn come_back(
    alloc: Global,
    plan: &Plan,
    place: &Place,
    run: &mut Rehearsal,
) -> Result<(), AllocError> {
    let again = run_at(alloc, run.machine().set(), plan, place.path.as_slice())?;
    *run = again;
    Ok(())
}

/// What comes of an event in a place to which a run has come.
pub(crate) fn attempt(run: &mut Rehearsal, event: &Event) -> Result<Outcome, AllocError> {
    let reply = run.apply(event)?;
    if says_unchanged(&reply) {
        return Ok(Outcome::Stays);
    }
    if run.amiss(&reply)?.is_some() {
        return Ok(Outcome::Ends);
    }
    Ok(Outcome::Goes)
}
