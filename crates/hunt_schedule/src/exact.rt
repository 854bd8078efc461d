//! What comes of an exact hunt, as it is told.

ghost use Rattle.std.specs.Prelude.{◌≡◌, ◌≤◌, IfOk, IfSome, IsTrue, List};
ghost use Rattle.hunt_exact.specs.Exact.{scope_of};
ghost use Rattle.hunt_exact.specs.Within.{AreWithin};
ghost use Rattle.hunt_facts.specs.declared.arguments.Asking.{Asking};
ghost use Rattle.hunt_facts.specs.Raised.{is_raised};
ghost use Rattle.hunt_facts.specs.Requests.{requests_of};
ghost use Rattle.hunt_schedule.specs.Exact.{AreTold, IsToldExactly, TellsShortest, TellsWithin};
ghost use Rattle.hunt_schedule.specs.Exact.{as_short};
ghost use Rattle.interleave.specs.declared.schedule.Schedule.{Schedule};
ghost use Rattle.interleave.specs.Listing.{Lists};
ghost use Rattle.model.specs.declared.limits.TheConstants.{MAX_THREADS};

use crate::grounds::Grounds;
use crate::lines::{fine_line, never_line, unlisted_line};
use crate::reading::read_back;
use crate::telling::Told;
use crate::writing::schedule_text;
use driver_set::DriverSet;
use hunt_exact::allowed::are_within;
use hunt_exact::moves::Trying;
use hunt_exact::search::{Exactly, Limits, Shortest, hunt_exactly};
use hunt_facts::bounds::{Bounds, Goal};
use hunt_facts::facts::Facts;
use hunt_search::verdict::is_refused;
use model::event::Event;
use report_progress::progress::Progress;
use std::alloc::{AllocError, Global};
use tell_audit::ending::Ending;

/// Searches the runs of a set within bounds exactly, of which each issues so many packets at most
/// in all, and tells what comes of it, and meanwhile how far the search has come.
///
/// # Errors
///
/// When memory runs out.
pub fn tell_exactly<P: Progress>(
    alloc: Global,
    grounds: Grounds<'_>,
    progress: &P,
) -> Result<Told, AllocError>
    requires some { 1 ≤ grounds.bounds.threads }
    requires few { grounds.bounds.threads ≤ MAX_THREADS }
    ensures { IfOk result (IsToldExactly grounds.entry.set.now grounds.entry.bounds) }
{
    let Grounds { set, bounds, .. } = grounds;
    let trying = trying_of(alloc, set, bounds)?;
    let limits = Limits {
        worlds: bounds.worlds,
        events: bounds.events,
    };
    let found = hunt_exactly(alloc, set, bounds.threads, &trying, limits, progress)?;
    let told = tell(alloc, grounds, &trying, found)?;
    Ok(told)
}

/// What is tried: the requests that a hunt tries, and so many packets as there may be.
fn trying_of(alloc: Global, set: &DriverSet, bounds: Bounds) -> Result<Trying, AllocError>
    ensures requests { IfOk result (λ trying. (asking : List Asking)
        × (trying.requests.items ≡ requests_of set.now bounds.argument asking)) }
    ensures packets { IfOk result (λ trying. trying.packets ≡ bounds.packets) }
    ensures raised { IfOk result (λ trying. trying.raised ≡ is_raised set.now) }
{
    let facts = Facts::of(alloc, set, bounds.argument)?;
    Ok(Trying {
        requests: Vec::from_slice(alloc, facts.requests.as_slice())?,
        packets: bounds.packets as u64,
        raised: facts.uses.paged,
    })
}

/// Tells what came of a search.
fn tell(
    alloc: Global,
    grounds: Grounds<'_>,
    trying: &Trying,
    found: Exactly,
) -> Result<Told, AllocError>
    requires some { 1 ≤ grounds.bounds.threads }
    requires few { grounds.bounds.threads ≤ MAX_THREADS }
    ensures { IfOk result (AreTold (scope_of grounds.entry.set.now grounds.entry.bounds.threads
        trying.now.packets trying.now.requests.items trying.now.raised) grounds.entry.bounds
        found) }
{
    let refused = is_refused(alloc, grounds.set)?;
    match found {
        Exactly::Found(find) => {
            let told = tell_shortest(alloc, grounds, trying, find)?;
            Ok(told)
        }
        Exactly::Never { worlds } => {
            let line = never_line(alloc, grounds.bounds, worlds as u64, refused)?;
            Ok(Told::All { line, worlds })
        }
        Exactly::More { worlds, events } => {
            let bounds = grounds.bounds;
            let line = fine_line(alloc, bounds, worlds as u64, events as u64, refused)?;
            Ok(Told::More {
                line,
                worlds,
                events,
            })
        }
    }
}

/// Tells a shortest run that ends amiss.
fn tell_shortest(
    alloc: Global,
    grounds: Grounds<'_>,
    trying: &Trying,
    find: Shortest,
) -> Result<Told, AllocError>
    requires some { 1 ≤ grounds.bounds.threads }
    requires few { grounds.bounds.threads ≤ MAX_THREADS }
    ensures { IfOk result (TellsShortest (scope_of grounds.entry.set.now
        grounds.entry.bounds.threads trying.now.packets trying.now.requests.items
        trying.now.raised) grounds.entry.bounds find) }
{
    let ending = Ending::Fails(find.amiss);
    let mut events = find.before;
    events.push(find.last)?;
    let short = Grounds {
        bounds: as_short(grounds.bounds, events.len()),
        ..grounds
    };
    match text_within(alloc, short, trying, events.as_slice(), &ending)? {
        Some(text) => Ok(Told::Found(text)),
        None => Ok(Told::Unlisted(unlisted_line(alloc, &ending)?)),
    }
}

/// The schedule of the run of these events, as a text; none where what is read back isn't within
/// the bounds, or doesn't end so.
fn text_within(
    alloc: Global,
    grounds: Grounds<'_>,
    trying: &Trying,
    events: &[Event],
    ending: &Ending,
) -> Result<Option<Vec<u8>>, AllocError>
    requires some { 1 ≤ grounds.bounds.threads }
    requires few { grounds.bounds.threads ≤ MAX_THREADS }
    ensures { IfOk result (λ found. IfSome found
        (λ text. TellsWithin (scope_of grounds.entry.set.now grounds.entry.bounds.threads
        trying.now.packets trying.now.requests.items trying.now.raised)
        grounds.entry.bounds text.items)) }
{
    let Grounds { set, bounds, .. } = grounds;
    let Some(text) = schedule_text(alloc, grounds, events, ending)? else {
        return Ok(None);
    };
    let within = lists_within(alloc, set, bounds.threads, trying, text.as_slice())?;
    if within {
        return Ok(Some(text));
    }
    Ok(None)
}

/// Whether a text lists a schedule within the bounds.
fn lists_within(
    alloc: Global,
    set: &DriverSet,
    threads: u8,
    trying: &Trying,
    text: &[u8],
) -> Result<bool, AllocError>
    requires some { 1 ≤ threads }
    requires few { threads ≤ MAX_THREADS }
    ensures { IfOk result (λ within. IsTrue within
        → (schedule : Schedule) × Lists text.now schedule
        × AreWithin (scope_of set.now threads trying.now.packets trying.now.requests.items
        trying.now.raised) schedule.events) }
{
    match read_back(alloc, text)? {
        Some(listed) => {
            let run = listed.run.as_slice();
            let within = are_within(alloc, set, threads, trying, run)?;
            Ok(within)
        }
        None => Ok(false),
    }
}

/// The bounds of a run that ends amiss, of at most so many events.
fn as_short(bounds: Bounds, events: usize) -> Bounds
    ensures { result ≡ as_short bounds events }
{
    Bounds {
        threads: bounds.threads,
        packets: bounds.packets,
        worlds: bounds.worlds,
        events: Some(events as u64),
        argument: bounds.argument,
        goal: Goal::Amiss,
    }
}
