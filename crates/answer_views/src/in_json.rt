//! A run that is told, and its audit, as lines of JSON.

ghost use Rattle.std.specs.Prelude.{IfOk};
ghost use Rattle.interleave.specs.Listing.{IsWithinLimits};
ghost use Rattle.answer_views.specs.InJson.{IsRunToldInJson};

use crate::begun::{begin, schedule_of};
use crate::events::tell_events;
use answer::as_json::{Json, told_fault};
use answer::content::Given;
use answer::set::OnRun;
use drvhost_devices::manner::Strictness;
use drvhost_devices::told::Told;
use image::DriverSet;
use interleave::schedule::Schedule;
use report_json::fault::InputFault;
use std::alloc::{AllocError, Global};
use std::mem::drop;

/// The job of telling a run as lines of JSON: an object for each event, with its number, its
/// circumstances and the reply to it, up to the first bug check or wrong operand, and one for the
/// audit of what the run has left. The exit status is that of a run told in words.
#[derive(Clone, Copy)]
pub struct InJson {
    pub strictness: Strictness,
}

impl OnRun<Json> for InJson {
    ghost use Rattle.answer_views.specs.InJson.{IsToldBy};

    ghost right = { λ job _ _ _ set name schedule. IsToldBy job.strictness name set schedule };

    fn on(
        &self,
        _form: &Json,
        alloc: Global,
        given: &Given<'_>,
        set: DriverSet,
        input: &Given<'_>,
    ) -> Result<Told, AllocError> {
        match schedule_of(alloc, input.bytes) {
            Ok(Ok(schedule)) => tell_set(alloc, given.bytes, set, &schedule, self.strictness),
            Ok(Err(fault)) => {
                drop(set);
                told_fault(alloc, input.name, InputFault::Schedule(fault))
            }
            Err(lacking) => {
                drop(set);
                Err(lacking)
            }
        }
    }
}

/// The run of a set by a schedule, told.
fn tell_set(
    alloc: Global,
    bytes: &[u8],
    set: DriverSet,
    schedule: &Schedule,
    strictness: Strictness,
) -> Result<Told, AllocError>
    requires { IsWithinLimits schedule.now }
    ensures { IfOk result
        (IsRunToldInJson strictness set schedule.now.threads schedule.now.events) }
{
    let mut begun = begin(alloc, bytes, set, schedule)?;
    let source = begun.source.as_slice();
    let told = tell_events(alloc, source, &mut begun.machine, schedule, strictness);
    drop(begun);
    told
}
