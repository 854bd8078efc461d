//! What has happened in a scenario, as a plain schedule.

ghost use Rattle.std.specs.Prelude.{◌≡◌, IfOk};
ghost use Rattle.drvhost_devices.specs.Answer.{ended};
ghost use Rattle.answer_scenarios.specs.Scenarios.{IsScheduleTold, end_of, unlisted_line};

use crate::telling::Told;
use drvhost_devices::fault::End;
use interleave_texts::appending::add;
use interleave_texts::listing::listing;
use scenario_run::holding::events_of;
use scenario_run::playing::Playing;
use scenario_steps::scenario::Step;
use std::alloc::{AllocError, Global};

/// The schedule of what has happened, up to the first step that fails.
#[tactic(auto, using(crate::proofs::Told::told_unlisted))]
pub(crate) fn tell_schedule(
    alloc: Global,
    playing: &Playing,
    failed: Option<Step>,
) -> Result<Told, AllocError>
    ensures { IfOk result (λ told. IsScheduleTold playing.now failed
        (ended told.end told.text.items)) }
{
    let events = events_of(alloc, playing.past())?;
    match listing(alloc, playing.threads(), events.as_slice())? {
        Some(text) => {
            let end = end_of(&failed);
            Ok(Told { text, end })
        }
        None => tell_unlisted(alloc),
    }
}

/// That what was written lists something else.
fn tell_unlisted(alloc: Global) -> Result<Told, AllocError>
    ensures { IfOk result
        (λ told. ended told.end told.text.items ≡ ended End.Stopped unlisted_line) }
{
    let mut text = Vec::new(alloc);
    add(&mut text, b"; the schedule, read back, is another one\n")?;
    Ok(Told {
        text,
        end: End::Stopped,
    })
}

/// How the job ends.
fn end_of(failed: &Option<Step>) -> End
    ensures { result ≡ end_of failed.now }
{
    match failed {
        Some(_) => End::Stopped,
        None => End::Complete,
    }
}
