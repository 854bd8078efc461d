//! A run that is drawn.

ghost use Rattle.std.specs.Prelude.{IfOk};
ghost use Rattle.interleave.specs.Listing.{IsWithinLimits};
ghost use Rattle.answer_views.specs.Told.{IsRunDrawn};

use crate::begun::{begin, schedule_of, told_faulty};
use crate::drawing::draw_run;
use answer::as_text::Text;
use answer::content::Given;
use answer::set::OnRun;
use drvhost_devices::figure::Figure;
use drvhost_devices::told::Told;
use image::DriverSet;
use interleave::schedule::Schedule;
use std::alloc::{AllocError, Global};
use std::mem::drop;

/// The job of drawing a run: as one SVG picture, with a lane for each thread, device and list, a
/// line for each packet, and a row of words for each event of interest, at most 500; or, without a
/// limit, as trace events in JSON, with a track for each thread and a span for each frame. The exit
/// status is that of the trace.
#[derive(Clone, Copy)]
pub struct Drawn {
    pub figure: Figure,
}

impl OnRun<Text> for Drawn {
    ghost use Rattle.answer_views.specs.Told.{IsRunDrawn, IsShownBy};

    ghost right = { λ job _ _ _ set _ schedule. IsShownBy IsRunDrawn set schedule };

    fn on(
        &self,
        _form: &Text,
        alloc: Global,
        given: &Given<'_>,
        set: DriverSet,
        input: &Given<'_>,
    ) -> Result<Told, AllocError> {
        match schedule_of(alloc, input.bytes) {
            Ok(Ok(schedule)) => draw_set(alloc, given.bytes, set, &schedule, self.figure),
            Ok(Err(fault)) => {
                drop(set);
                told_faulty(alloc, input.bytes, fault)
            }
            Err(lacking) => {
                drop(set);
                Err(lacking)
            }
        }
    }
}

/// The run of a set by a schedule, drawn.
fn draw_set(
    alloc: Global,
    bytes: &[u8],
    set: DriverSet,
    schedule: &Schedule,
    figure: Figure,
) -> Result<Told, AllocError>
    requires { IsWithinLimits schedule.now }
    ensures { IfOk result (IsRunDrawn set schedule.now.threads schedule.now.events) }
{
    let mut begun = begin(alloc, bytes, set, schedule)?;
    let source = begun.source.as_slice();
    let drawn = draw_run(alloc, source, &mut begun.machine, schedule, figure);
    drop(begun);
    drawn
}
