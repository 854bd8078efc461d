//! How runs end: with something amiss, or in a world that isn't at rest.

ghost use Rattle.std.specs.Prelude.{◌≤◌, IfOk, None};
ghost use Rattle.tell_audit.specs.Ends.{EndsAs, EndsSo};
ghost use Rattle.model.specs.declared.limits.TheConstants.{MAX_THREADS};

use crate::amiss::Amiss;
use crate::rehearsal::rehearse;
use crate::standing::Standing;
use checked::Checked;
use driver_set::DriverSet;
use model::event::Event;
use std::alloc::{AllocError, Global};

/// How a run ends.
#[derive(Drop)]
pub enum Ending {
    /// With something amiss.
    Fails(Amiss),
    /// With nothing amiss, in a world that isn't at rest.
    Stuck(Standing),
}

/// How the run of these events and a last one on so many threads, 1 to 64, ends: None where nothing
/// is amiss and the world is at rest.
///
/// # Errors
///
/// When memory runs out.
pub fn ending_of(
    alloc: Global,
    set: &DriverSet,
    threads: u8,
    before: &[Event],
    last: &Event,
) -> Result<Option<Ending>, AllocError>
    requires some { 1 ≤ threads }
    requires few { threads ≤ MAX_THREADS }
    ensures { IfOk result (EndsSo set.now threads before.now last.now) }
{
    let ended = rehearse(alloc, set, threads, before, last)?;
    ending_at(alloc, ended.amiss, ended.run.machine())
}

/// How a run has ended where a machine stands and this is amiss.
fn ending_at(
    alloc: Global,
    amiss: Option<Amiss>,
    machine: &Checked,
) -> Result<Option<Ending>, AllocError>
    ensures { IfOk result (EndsAs amiss machine.now.world) }
{
    match amiss {
        Some(amiss) => Ok(Some(Ending::Fails(amiss))),
        None => standing_at(alloc, machine),
    }
}

/// How a run has ended where a machine stands and nothing is amiss.
fn standing_at(alloc: Global, machine: &Checked) -> Result<Option<Ending>, AllocError>
    ensures { IfOk result (EndsAs None machine.now.world) }
{
    let standing = Standing::of(alloc, machine)?;
    if standing.is_rest() {
        return Ok(None);
    }
    Ok(Some(Ending::Stuck(standing)))
}
