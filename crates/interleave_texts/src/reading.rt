//! The events of a schedule, one by one.

ghost use Rattle.std.specs.Prelude.{◌≡◌, ◌++◌, IfOk, OnOk, replicate};

use interleave::events::Events;
use model::event::Event;
use std::alloc::{AllocError, Global};

/// The events of a schedule, one by one.
///
/// # Errors
///
/// When memory runs out.
pub fn events_of(alloc: Global, events: &Events) -> Result<Vec<Event>, AllocError>
    ensures { IfOk result (λ all. all.items ≡ events.now) }
{
    let mut all = Vec::new(alloc);
    let mut upcoming = events.upcoming();
    while let Some(run) = upcoming.next_run() {
        add_times(&mut all, run.event, run.count)?;
    }
    Ok(all)
}

/// Adds an event so many times.
fn add_times(all: &mut Vec<Event>, event: Event, count: usize) -> Result<(), AllocError>
    ensures { OnOk result (all.new.items ≡ all.old.items ++ replicate count event) }
{
    for _ in 0..count {
        all.push(event)?;
    }
    Ok(())
}
