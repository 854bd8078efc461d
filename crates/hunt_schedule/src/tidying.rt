//! A run's events in an order in which threads take turns less often, and whose run ends alike.

ghost use Rattle.std.specs.Prelude.{◌≤◌};
ghost use Rattle.model.specs.declared.limits.TheConstants.{MAX_THREADS};

use crate::headline::headline;
use driver_set::DriverSet;
use hunt_facts::bounds::Bounds;
use model::event::Event;
use std::alloc::{AllocError, Global};
use tell_audit::ending::ending_of;
use tell_uses::standing::thread_of;

/// Events that stand one behind the other, and are of one thread.
#[derive(Clone, Copy)]
struct Block {
    start: usize,
    end: usize,
}

/// The events in an order with fewer turns of threads whose run ends with this line, as theirs
/// does.
///
/// # Errors
///
/// When memory runs out.
pub(crate) fn tidied(
    alloc: Global,
    set: &DriverSet,
    bounds: Bounds,
    events: &[Event],
    line: &[u8],
) -> Result<Vec<Event>, AllocError>
    requires some { 1 ≤ bounds.threads }
    requires few { bounds.threads ≤ MAX_THREADS }
{
    let mut best = Vec::from_slice(alloc, events)?;
    for _round in 0..events.len() {
        match tidier(alloc, set, bounds, best.as_slice(), line)? {
            Some(order) => best = order,
            None => break,
        }
    }
    Ok(best)
}

/// The events with one block beside the one of its thread before it, where the run ends so.
fn tidier(
    alloc: Global,
    set: &DriverSet,
    bounds: Bounds,
    events: &[Event],
    line: &[u8],
) -> Result<Option<Vec<Event>>, AllocError>
    requires some { 1 ≤ bounds.threads }
    requires few { bounds.threads ≤ MAX_THREADS }
{
    let mut place = 0;
    for _block in 0..events.len() {
        let block = block_at(events, place);
        if let Some(earlier) = block_before(events, block) {
            let forward = exchanged(alloc, events, earlier.end, block)?;
            if ends_so(alloc, set, bounds, forward.as_slice(), line)? {
                return Ok(Some(forward));
            }
            let between = Block {
                start: earlier.end,
                end: block.start,
            };
            let backward = exchanged(alloc, events, earlier.start, between)?;
            if ends_so(alloc, set, bounds, backward.as_slice(), line)? {
                return Ok(Some(backward));
            }
        }
        place = block.end;
    }
    Ok(None)
}

/// The thread of the event at a place.
fn thread_at(events: &[Event], place: usize) -> Option<u8> {
    thread_of(events.get(place)?)
}

/// The block that starts at a place.
fn block_at(events: &[Event], start: usize) -> Block {
    let thread = thread_at(events, start);
    let mut end = start;
    for place in start..events.len() {
        if thread_at(events, place) != thread {
            break;
        }
        end = place.saturating_add(1);
    }
    Block { start, end }
}

/// The last block of the same thread before a block, if it is a thread's.
fn block_before(events: &[Event], block: Block) -> Option<Block> {
    let thread = thread_at(events, block.start)?;
    let mut found = None;
    let mut place = 0;
    for _block in 0..block.start {
        if place >= block.start {
            break;
        }
        let earlier = block_at(events, place);
        if thread_at(events, earlier.start) == Some(thread) {
            found = Some(earlier);
        }
        place = earlier.end;
    }
    found
}

/// The events with a block before those that stand from a place on up to it.
fn exchanged(
    alloc: Global,
    events: &[Event],
    from: usize,
    block: Block,
) -> Result<Vec<Event>, AllocError> {
    let mut order = Vec::new(alloc);
    add_events(&mut order, events, 0, from)?;
    add_events(&mut order, events, block.start, block.end)?;
    add_events(&mut order, events, from, block.start)?;
    add_events(&mut order, events, block.end, events.len())?;
    Ok(order)
}

/// Adds the events from a place to another one.
fn add_events(
    order: &mut Vec<Event>,
    events: &[Event],
    start: usize,
    end: usize,
) -> Result<(), AllocError> {
    match events.get(start..end) {
        Some(part) => order.extend_from_slice(part),
        None => Ok(()),
    }
}

/// Whether the run of these events ends with a line.
fn ends_so(
    alloc: Global,
    set: &DriverSet,
    bounds: Bounds,
    events: &[Event],
    line: &[u8],
) -> Result<bool, AllocError>
    requires some { 1 ≤ bounds.threads }
    requires few { bounds.threads ≤ MAX_THREADS }
{
    let Some((last, before)) = events.split_last() else {
        return Ok(false);
    };
    match ending_of(alloc, set, bounds.threads, before, last)? {
        Some(ending) => Ok(headline(alloc, &ending)?.as_slice() == line),
        None => Ok(false),
    }
}
