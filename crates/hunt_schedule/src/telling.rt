//! What comes of a hunt, as it is told.

ghost use Rattle.std.specs.Prelude.{◌≤◌, IfOk};
ghost use Rattle.hunt_schedule.specs.Telling.{IsToldOf};
ghost use Rattle.hunt_search.specs.Hunts.{IsFind};
ghost use Rattle.model.specs.declared.limits.TheConstants.{MAX_THREADS};

use crate::grounds::Grounds;
use crate::lines::{all_line, more_line, unlisted_line};
use crate::writing::schedule_text;
use hunt_search::search::{Find, Hunted, hunt};
use report_progress::progress::Progress;
use std::alloc::{AllocError, Global};

/// What is told of a hunt.
#[derive(Drop)]
pub enum Told {
    /// A schedule whose run was looked for, as a text.
    Found(Vec<u8>),
    /// A line on a run that was looked for, of which no schedule is told: what was written, read
    /// back, doesn't end so.
    Unlisted(Vec<u8>),
    /// A line that there is none among all worlds within the bounds, which are so many.
    All {
        line: Vec<u8>,
        worlds: usize,
    },
    /// A line that there is none in runs of up to so many events: so many worlds were seen, and
    /// there are more.
    More {
        line: Vec<u8>,
        worlds: usize,
        events: usize,
    },
}

/// Hunts in the worlds of a set within bounds, and tells what comes of it, and meanwhile how far
/// the search has come.
///
/// # Errors
///
/// When memory runs out.
pub fn tell_hunting<P: Progress>(
    alloc: Global,
    grounds: Grounds<'_>,
    progress: &P,
) -> Result<Told, AllocError>
    requires some { 1 ≤ grounds.bounds.threads }
    requires few { grounds.bounds.threads ≤ MAX_THREADS }
    ensures { IfOk result (IsToldOf grounds.entry.set.now grounds.entry.bounds) }
{
    match hunt(alloc, grounds.set, grounds.bounds, progress)? {
        Hunted::Found(find) => tell_find(alloc, grounds, find),
        Hunted::All { worlds } => {
            let line = all_line(alloc, grounds.bounds, worlds as u64)?;
            Ok(Told::All { line, worlds })
        }
        Hunted::More { worlds, events } => {
            let line = more_line(alloc, worlds as u64, events as u64)?;
            Ok(Told::More {
                line,
                worlds,
                events,
            })
        }
    }
}

/// Tells a find.
fn tell_find(alloc: Global, grounds: Grounds<'_>, find: Find) -> Result<Told, AllocError>
    requires some { 1 ≤ grounds.bounds.threads }
    requires few { grounds.bounds.threads ≤ MAX_THREADS }
    requires found { IsFind grounds.set.now grounds.bounds find }
    ensures { IfOk result (IsToldOf grounds.entry.set.now grounds.entry.bounds) }
{
    let ending = find.ending;
    let mut events = find.before;
    events.push(find.last)?;
    match schedule_text(alloc, grounds, events.as_slice(), &ending)? {
        Some(text) => Ok(Told::Found(text)),
        None => Ok(Told::Unlisted(unlisted_line(alloc, &ending)?)),
    }
}
