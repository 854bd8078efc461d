//! The text of a schedule.

ghost use Rattle.std.specs.Prelude.{◌≡◌, ◌+◌, ◌<◌, ◌^◌, ◌↔◌, ◌≢◌, ℕ, [], length, IfOk, IfErr};
ghost use Rattle.std.specs.Prelude.{MatchResult};
ghost use Rattle.interleave.specs.Listing.{IsFaultOf, IsWithinLimits, Lists, events_after, listing};
ghost use Rattle.interleave.specs.Listing.{schedule_in};
ghost use Rattle.interleave.specs.Meaning.{IsListing, IsFirstFault};
ghost use Rattle.text.specs.Cut.{lines_of};

use crate::events::Events;
use crate::left::Left;
use crate::opening::opening_of;
use crate::read::event_line;
use crate::schedule::{MAX_EVENTS, Schedule, ScheduleFault, ScheduleKind};
use std::alloc::{AllocError, Global};

/// The schedule that a text lists.
///
/// A text that lists one gives its threads on the first line with a token, and on each later line
/// its events, in their order; no text lists two.
///
/// # Errors
///
/// The first faulty line, with the least kind of what is wrong with it; `Memory` when memory runs
/// out.
#[tactic(auto, using(crate::proofs::Limits::listed_within))]
pub fn parse_schedule(alloc: Global, text: &[u8]) -> Result<Schedule, ScheduleFault>
    ensures listed { MatchResult result (Lists text.now) (IsFaultOf text.now) }
    ensures limits { IfOk result IsWithinLimits }

    // What is read is what the text says, and a fault is where it first fails to say a schedule.
    ensures meaning { (s : Schedule) → Lists text.now s ↔ IsListing text.now s }
    ensures fault { IfErr result (λ f. f.kind ≢ ScheduleKind.Memory
        → IsFirstFault 1 (lines_of text.now) f) }
{
    match schedule_in(alloc, text) {
        Ok(Ok(schedule)) => Ok(schedule),
        Ok(Err(fault)) => Err(fault),
        Err(AllocError) => Err(ScheduleFault {
            line: 0,
            kind: ScheduleKind::Memory,
        }),
    }
}

/// The schedule or its first fault.
fn schedule_in(alloc: Global, text: &[u8]) -> Result<Result<Schedule, ScheduleFault>, AllocError>
    ensures { IfOk result (λ r. r ≡ schedule_in text.now) }
{
    match opening_of(text) {
        Ok(opening) => match list(alloc, Left::of(opening.rest), opening.line + 1)? {
            Ok(events) => Ok(Ok(Schedule {
                threads: opening.threads,
                events,
            })),
            Err(fault) => Ok(Err(fault)),
        },
        Err(fault) => Ok(Err(fault)),
    }
}

/// The events of lines of which the first has this number.
fn list(
    alloc: Global,
    mut left: Left<'_>,
    first: u64,
) -> Result<Result<Events, ScheduleFault>, AllocError>
    requires { first + length left < 2 ^ 64 }
    ensures { IfOk result
        (λ r. MatchResult r (λ events. listing [] first left.entry ≡ Ok events)
        (λ fault. listing [] first left.entry ≡ Err fault)) }
{
    let mut events = Events::new(alloc);
    let mut line = first + add_usual(&mut events, &mut left)?;
    while let Some(raw) = left.next() {
        if let Err(kind) = add_line(&mut events, raw)? {
            return Ok(Err(ScheduleFault { line, kind }));
        }
        line += 1 + add_usual(&mut events, &mut left)?;
    }
    Ok(Ok(events))
}

/// Adds the events of the lines in the usual form that come next, while there is room for them, and
/// answers how many lines there were.
fn add_usual(events: &mut Events, left: &mut Left<'_>) -> Result<u64, AllocError>
    requires { length left.old < 2 ^ 64 }
    ensures same { IfOk result (λ made. (first : ℕ)
        → listing events.old first left.old ≡ listing events.new (first + made) left.new) }
    ensures taken { IfOk result (λ made. made + length left.new ≡ length left.old) }
{
    let mut made: u64 = 0;
    while events.len() < MAX_EVENTS {
        if let Some(thread) = left.next_step() {
            events.push_step(thread)?;
        } else if let Some(kept) = left.next_usual(MAX_EVENTS - events.len()) {
            events.push_kept(kept)?;
        } else {
            return Ok(made);
        }
        made += 1;
    }
    Ok(made)
}

/// Adds the events of a line.
fn add_line(events: &mut Events, line: &[u8]) -> Result<Result<(), ScheduleKind>, AllocError>
    ensures { IfOk result
        (λ r. MatchResult r (λ _. events_after events.old line.now ≡ Ok events.new)
        (λ kind. events_after events.old line.now ≡ Err kind)) }
{
    match event_line(line) {
        Ok(Some(repeated)) => match events.len().checked_add(repeated.count) {
            Some(length) => {
                if length > MAX_EVENTS {
                    return Ok(Err(ScheduleKind::TooLong));
                }
                events.push(repeated)?;
                Ok(Ok(()))
            }
            None => Ok(Err(ScheduleKind::TooLong)),
        },
        Ok(None) => Ok(Ok(())),
        Err(kind) => Ok(Err(kind)),
    }
}
