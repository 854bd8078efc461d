//! A run told for people, and its audit.

ghost use Rattle.std.specs.Prelude.{IfOk};
ghost use Rattle.interleave.specs.Listing.{IsWithinLimits};
ghost use Rattle.answer_views.specs.Told.{IsRunTold};

use crate::begun::{begin, schedule_of, told_faulty};
use crate::telling::tell_run;
use answer::as_text::Text;
use answer::content::Given;
use answer::set::OnRun;
use drvhost_devices::manner::Manner;
use drvhost_devices::told::Told;
use drvhost_devices::verification::Verification;
use image::DriverSet;
use interleave::schedule::Schedule;
use std::alloc::{AllocError, Global};
use std::mem::drop;

/// A run that is to be told: of which sets, and how.
#[derive(Clone, Copy, Debug, PartialEq, Eq)]
pub struct Telling {
    pub verification: Verification,
    pub manner: Manner,
}

/// The job of telling a run in words: for each event of which a line is asked for, the line of the
/// trace with words behind it, and then an audit of what the run has left. The exit status is that
/// of the trace, but 1 also where the audit finds a packet that no place names, a lock that an idle
/// thread owns, threads that wait in a ring, or a stack location that was returned from otherwise
/// than it was marked, and, strictly told, where an event was refused.
#[derive(Clone, Copy)]
pub struct InWords {
    pub manner: Manner,
}

impl OnRun<Text> for InWords {
    ghost use Rattle.answer_views.specs.Told.{IsRunTold, IsShownBy};

    ghost right = { λ job _ _ _ set _ schedule. IsShownBy (IsRunTold job.manner) set schedule };

    fn on(
        &self,
        _form: &Text,
        alloc: Global,
        given: &Given<'_>,
        set: DriverSet,
        input: &Given<'_>,
    ) -> Result<Told, AllocError> {
        match schedule_of(alloc, input.bytes) {
            Ok(Ok(schedule)) => tell_set(alloc, given.bytes, set, &schedule, self.manner),
            Ok(Err(fault)) => {
                drop(set);
                told_faulty(alloc, input.bytes, fault)
            }
            Err(lacking) => {
                drop(set);
                Err(lacking)
            }
        }
    }
}

/// The run of a set by a schedule, told.
fn tell_set(
    alloc: Global,
    bytes: &[u8],
    set: DriverSet,
    schedule: &Schedule,
    manner: Manner,
) -> Result<Told, AllocError>
    requires { IsWithinLimits schedule.now }
    ensures { IfOk result (IsRunTold manner set schedule.now.threads schedule.now.events) }
{
    let mut begun = begin(alloc, bytes, set, schedule)?;
    let source = begun.source.as_slice();
    let told = tell_run(alloc, source, &mut begun.machine, schedule, manner);
    drop(begun);
    told
}
