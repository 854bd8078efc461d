//! Other requests in place of those of a run: to other devices, by other major functions and with
//! other arguments, where the run becomes less.

use crate::expanding::run_at;
use crate::luck::Luck;
use crate::moves::is_idle;
use crate::shortening::take;
use crate::walking::{BEGIN, Ground};
use checked::Checked;
use model::event::Event;
use std::alloc::AllocError;
use tell_uses::standing::thread_of;

/// A thread that came to its end may make so many more steps, where its root is another one.
const SPARE: usize = 60;

/// Tries other requests in place of each of a run's.
pub(crate) fn try_others(
    ground: &Ground<'_>,
    luck: &mut Luck,
    short: &mut Vec<Event>,
) -> Result<(), AllocError> {
    luck.spend(BEGIN);
    let mut wide = widened(ground, short.as_slice())?;
    for place in 0..wide.len() {
        if let Some(Event::Issue { thread, .. }) = wide.get(place).copied() {
            try_requests(ground, luck, short, &mut wide, place, thread)?;
        }
    }
    Ok(())
}

/// A run in which each thread that comes to its end, and the one that goes on last, may go on
/// further.
fn widened(ground: &Ground<'_>, events: &[Event]) -> Result<Vec<Event>, AllocError> {
    let mut run = run_at(ground.alloc, ground.set, ground.plan, [].as_slice())?;
    let mut wide = Vec::new(ground.alloc);
    for place in 0..events.len() {
        if let Some(event) = events.get(place) {
            let _reply = run.apply(event)?;
            let is_last = place.saturating_add(1) == events.len();
            add_widely(&mut wide, run.machine(), event, is_last)?;
        }
    }
    Ok(wide)
}

/// Adds an event, and more steps of its thread where that has come to its end.
fn add_widely(
    wide: &mut Vec<Event>,
    machine: &Checked,
    event: &Event,
    is_last: bool,
) -> Result<(), AllocError> {
    wide.push(*event)?;
    let Some(thread) = thread_of(event) else {
        return Ok(());
    };
    if is_last || is_idle(machine, thread) {
        for _step in 0..SPARE {
            wide.push(Event::Step { thread })?;
        }
    }
    Ok(())
}

/// Tries each request at a place, where another one stands again afterwards.
fn try_requests(
    ground: &Ground<'_>,
    luck: &mut Luck,
    short: &mut Vec<Event>,
    wide: &mut Vec<Event>,
    place: usize,
    thread: u8,
) -> Result<(), AllocError> {
    let before = wide.get(place).copied();
    for request in ground.plan.facts().requests.as_slice() {
        put(wide, place, Some(request.on(thread)));
        let _is_less = take(ground, luck, short, wide.as_slice())?;
    }
    put(wide, place, before);
    Ok(())
}

/// Puts an event at a place, if there is one.
fn put(events: &mut Vec<Event>, place: usize, event: Option<Event>) {
    if let (Some(there), Some(event)) = (events.get_mut(place), event) {
        *there = event;
    }
}
